//! An input is read as far as it matters to what is asked of it, so that a disk or an input without end costs neither
//! minutes nor memory.
ghost use Rattle.std.specs.Prelude.{◌≡◌, ◌≤◌, ◌<◌, ◌+◌, length, take, vec_len, IfOk, IfErr, IfSome};
ghost use Rattle.std.specs.Io.KnownBytes.{Consumes, IsAtEnd};
ghost use Rattle.command.specs.Moves.{Moves};
ghost use Rattle.command.specs.Read.{IsEnough, IsUnread};

use crate::{Asked, Reason};
use std::alloc::Global;
use std::io;
use std::io::{ErrorKind, Read};

// How many bytes are read at once, at most.
pub(crate) const CHUNK: usize = 65_536;

/// Reads once, also where an interruption comes first.
// With as many turns as a number counts, since a reader may be interrupted for ever.
#[tactic(auto, using(crate::proofs::Moved::kept_first))]
pub fn read_once<R: Read>(input: &mut R, room: &mut [u8]) -> io::Result<usize>
    ensures within { IfOk result (λ n. n ≤ length room.new) }
    ensures bytes { IfOk result (λ n.
        Consumes (R.remaining input.old) (R.remaining input.new) (take n room.new)) }
    ensures end { IfOk result (λ n. n ≡ 0 → 0 < length room.new → IsAtEnd (R.remaining input.new)) }
{
    for _ in 0..u64::MAX {
        match input.read(room) {
            Ok(count) => return Ok(count),
            Err(error) => {
                if error.kind() != ErrorKind::Interrupted {
                    return Err(error);
                }
            }
        }
    }
    Err(io::Error::from(ErrorKind::TimedOut))
}

// Moves bytes from the input to the end of those that were read before, as many as one read gives.
pub(crate) fn move_bytes<R: Read>(
    input: &mut R,
    room: &mut [u8],
    bytes: &mut Vec<u8>,
) -> Result<usize, Reason>
    requires { 0 < length room.old }
    ensures ok { IfOk result
        (Moves (R.remaining input.old) (R.remaining input.new) bytes.old.items bytes.new.items) }
    ensures few { vec_len bytes.new ≤ vec_len bytes.old + length room.old }
    ensures err { IfErr result IsUnread }
{
    match read_once(input, room) {
        Ok(count) => {
            if bytes.extend_from_slice(&room[..count]).is_err() {
                return Err(Reason::OutOfMemory);
            }
            Ok(count)
        }
        Err(error) => Err(Reason::Unreadable(error)),
    }
}

/// Reads an input as far as it matters to what is asked of it, and no further: of a table its header, and what that
/// calls for; of a record one byte more than a record may have.
#[tactic(auto, using(crate::proofs::Moved::moved_bytes))]
pub fn read_input<R: Read>(alloc: Global, input: &mut R, asked: Asked) -> Result<Vec<u8>, Reason>
    ensures ok { IfOk result (λ bytes. IfSome (R.remaining input.old) (IsEnough asked bytes.items)) }
    ensures err { IfErr result IsUnread }
{
    let mut room = [0u8; CHUNK];
    let mut bytes = Vec::new(alloc);
    for _ in 0..u64::MAX {
        let missing = asked.reach(&bytes).saturating_sub(bytes.len());
        if missing == 0 {
            return Ok(bytes);
        }
        let most = missing.min(CHUNK);
        if move_bytes(input, &mut room[..most], &mut bytes)? == 0 {
            return Ok(bytes);
        }
    }
    Err(Reason::Unreadable(io::Error::from(ErrorKind::TimedOut)))
}
