//! A part of an input: what stands in front of it is passed over, and no more is read than it has.
ghost use Rattle.std.specs.Prelude.{◌≡◌, ◌≤◌, Some, IfOk, IfErr, OnOk};
ghost use Rattle.command.specs.Extraction.{front_size};
ghost use Rattle.command.specs.Part.{Takes};
ghost use Rattle.command.specs.Passed.{Passes, step_of};
ghost use Rattle.command.specs.Read.{IsUnread};

use crate::Reason;
use crate::read::{CHUNK, move_bytes, read_once};
use std::alloc::Global;
use std::io;
use std::io::{ErrorKind, Read};

/// As many bytes at an input's front as the longest record has.
const FRONT_SIZE: u128 = 4096;

// Passes over so many bytes, or over all of a shorter input.
pub(crate) fn pass_over<R: Read>(input: &mut R, count: u128) -> Result<(), Reason>
    ensures ok { OnOk result (Passes count (R.remaining input.old) (R.remaining input.new)) }
    ensures err { IfErr result IsUnread }
{
    let mut room = [0u8; CHUNK];
    let mut left = count;
    for _ in 0..u64::MAX {
        if left == 0 {
            return Ok(());
        }
        let most = left.min(CHUNK as u128) as usize;
        match read_once(input, &mut room[..most]) {
            Ok(0) => return Ok(()),
            Ok(read) => left -= read as u128,
            Err(error) => return Err(Reason::Unreadable(error)),
        }
    }
    Err(Reason::Unreadable(io::Error::from(ErrorKind::TimedOut)))
}

// How many bytes the next read may give, behind so many.
fn step(most: Option<u128>, have: usize) -> usize
    ensures { result ≡ step_of most have }
{
    match most {
        Some(most) => most.saturating_sub(have as u128).min(CHUNK as u128) as usize,
        None => CHUNK,
    }
}

// Takes so many bytes at most, and fewer of a shorter input alone; all of it where no number is told.
pub(crate) fn take_bytes<R: Read>(
    alloc: Global,
    input: &mut R,
    most: Option<u128>,
) -> Result<Vec<u8>, Reason>
    ensures ok { IfOk result (λ bytes.
        Takes most (R.remaining input.old) (R.remaining input.new) bytes.items) }
    ensures err { IfErr result IsUnread }
{
    let mut room = [0u8; CHUNK];
    let mut bytes = Vec::new(alloc);
    for _ in 0..u64::MAX {
        let step = step(most, bytes.len());
        if step == 0 {
            return Ok(bytes);
        }
        if move_bytes(input, &mut room[..step], &mut bytes)? == 0 {
            return Ok(bytes);
        }
    }
    Err(Reason::Unreadable(io::Error::from(ErrorKind::TimedOut)))
}

/// Reads an input's front, which tells the record size where nothing else does: 4,096 bytes, or all of a shorter
/// input.
pub fn read_front<R: Read>(alloc: Global, input: &mut R) -> Result<Vec<u8>, Reason>
    ensures ok { IfOk result (λ bytes.
        Takes (Some front_size) (R.remaining input.old) (R.remaining input.new) bytes.items) }
    ensures err { IfErr result IsUnread }
{
    take_bytes(alloc, input, Some(FRONT_SIZE))
}
