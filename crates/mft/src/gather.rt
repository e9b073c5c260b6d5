//! A record of a raw $MFT and those that its lists refer to, read into one buffer, one behind another.
ghost use Rattle.std.specs.Prelude.{◌≡◌, ◌≤◌, ◌*◌, true, length, vec_len, IfOk, IfErr};
ghost use Rattle.extract.specs.Size.{good_size};
ghost use Rattle.references.specs.Shown.{shown_rising};
ghost use Rattle.command.specs.Read.{IsUnread};
ghost use Rattle.mft.specs.Room.{most_records};
ghost use Rattle.mft.specs.Gather.{IsFetched};
ghost use Rattle.mft.specs.Gathered.{Gathers};

use crate::Layout;
use crate::fetch::fetch;
use crate::gathered::{Gathered, RawRecord};
use command::{Absence, Reason};
use fields::RecordNumber;
use references::Rising;
use std::alloc::Global;
use std::io::{Read, Seek};

// Takes a raw record into a room of its size, the one at hand as it is, and tells why another is not there to be
// listed, if it is not.
fn take<R: Read + Seek>(
    input: &mut R,
    layout: Layout,
    own: RawRecord<'_>,
    number: RecordNumber,
    room: &mut [u8],
) -> Result<Option<Absence>, Reason>
    requires size { length room.old ≡ layout.size }
    requires own { length own.raw.now ≡ layout.size }
    requires good { good_size layout.size ≡ true }
    ensures ok { IfOk result (λ why. IsFetched R.stream_position R.remaining layout own.entry.number own.entry.raw.now
        (record { number = number; raw = room.new; why = why })) }
    ensures err { IfErr result IsUnread }
{
    if number == own.number {
        room.copy_from_slice(own.raw);
        return Ok(None);
    }
    fetch(input, layout, number, room)
}

/// Reads the raw records that are wanted, in rising order of their numbers, one behind another into a buffer that has
/// room for each. The one whose bytes are at hand is not read again. One that is not there to be listed takes no room.
pub(crate) fn gather<R: Read + Seek>(
    alloc: Global,
    input: &mut R,
    layout: Layout,
    own: RawRecord<'_>,
    wanted: &Rising,
    raw: &mut [u8],
) -> Result<Gathered, Reason>
    requires own { length own.raw.now ≡ layout.size }
    requires good { good_size layout.size ≡ true }
    requires room { layout.size * most_records ≤ length raw.old }
    ensures ok { IfOk result (λ g. Gathers R.stream_position R.remaining layout own.entry.number own.entry.raw.now
        (shown_rising wanted.now) raw.new g.numbers.items g.lost.items) }
    ensures few { IfOk result (λ g. vec_len g.numbers ≤ most_records) }
    ensures err { IfErr result IsUnread }
{
    let mut gathered = Gathered::none(alloc);
    let size = usize::from(layout.size);
    for i in 0..wanted.count {
        let number = wanted.numbers[i];
        let from = size * gathered.numbers.len();
        let why = take(input, layout, own, number, &mut raw[from..from + size])?;
        gathered.add(number, why)?;
    }
    Ok(gathered)
}
