//! One raw record is read by its place.
ghost use Rattle.std.specs.Prelude.{◌≡◌, ◌≤◌, true, length, IfOk, IfErr};
ghost use Rattle.extract.specs.Size.{good_size};
ghost use Rattle.command.specs.Read.{IsUnread};
ghost use Rattle.mft.specs.Fetch.{Fills, ReadsAt, Fetches};
ghost use Rattle.mft.specs.Layout.{place_in};

use crate::Layout;
use crate::absence::absence_of;
use command::{Absence, Reason, read_once};
use fields::RecordNumber;
use std::io;
use std::io::{ErrorKind, Read, Seek, SeekFrom};

/// Reads from where the reader stands until the room is full or the input ends; how many bytes that is.
pub(crate) fn fill<R: Read>(input: &mut R, room: &mut [u8]) -> Result<usize, Reason>
    ensures ok { IfOk result (λ have. Fills (R.remaining input.old) (R.remaining input.new) have room.new) }
    ensures within { IfOk result (λ have. have ≤ length room.new) }
    ensures err { IfErr result IsUnread }
{
    let mut have = 0;
    for _ in 0..u64::MAX {
        if have == room.len() {
            return Ok(have);
        }
        match read_once(input, &mut room[have..]) {
            Ok(0) => return Ok(have),
            Ok(count) => have += count,
            Err(error) => return Err(Reason::Unreadable(error)),
        }
    }
    Err(Reason::Unreadable(io::Error::from(ErrorKind::TimedOut)))
}

// Reads the bytes at a place, as many as there is room for, and tells whether all of them are there.
fn read_at<R: Read + Seek>(input: &mut R, place: u64, room: &mut [u8]) -> Result<bool, Reason>
    ensures ok { IfOk result (λ whole.
        ReadsAt R.stream_position R.remaining input.old input.new place whole room.new) }
    ensures err { IfErr result IsUnread }
{
    match input.seek(SeekFrom::Start(place)) {
        Ok(_) => Ok(fill(input, room)? == room.len()),
        Err(error) => Err(Reason::Unreadable(error)),
    }
}

/// Reads the raw record with a number into a room of its size, and tells why it is not there to be listed, if it is
/// not.
pub(crate) fn fetch<R: Read + Seek>(
    input: &mut R,
    layout: Layout,
    number: RecordNumber,
    room: &mut [u8],
) -> Result<Option<Absence>, Reason>
    requires size { length room.old ≡ layout.size }
    requires good { good_size layout.size ≡ true }
    ensures ok { IfOk result (λ why.
        Fetches R.stream_position R.remaining input.old input.new (place_in layout number) room.new why) }
    ensures err { IfErr result IsUnread }
{
    let Some(place) = layout.place(number) else {
        return Ok(Some(Absence::Missing));
    };
    if !read_at(input, place, room)? {
        return Ok(Some(Absence::Missing));
    }
    Ok(absence_of(room))
}
