//! The table that a record is listed by.
ghost use Rattle.std.specs.Prelude.{◌≡◌, ◌≤◌, ◌<◌, ◌*◌, true, length, IfOk, IfErr};
ghost use Rattle.extract.specs.Size.{good_size};
ghost use Rattle.table.specs.Check.{number_end};
ghost use Rattle.command.specs.Read.{IsUnread};
ghost use Rattle.mft.specs.Room.{Roomy, most_records};
ghost use Rattle.mft.specs.Ready.{IsReady};
ghost use Rattle.mft.specs.Sole.{IsSole};
ghost use Rattle.mft.specs.Told.{IsRead, IsUntold};

use crate::fetch::fetch;
use crate::gather::gather;
use crate::gathered::RawRecord;
use crate::made::write_chosen;
use crate::sole::{Sole, set_apart};
use crate::{Layout, Lost};
use command::{Reason, Unmade};
use extract::laws::numbers_rise;
use fields::RecordNumber;
use references::laws::{references_are_those_of_the_entries, sorted_numbers_rise};
use std::alloc::Global;
use std::io::{Read, Seek};
use table::{HEADER_SIZE, NUMBER_END};

/// The table that a record is listed by: how many bytes it has, and which records it lacks.
#[derive(Drop)]
pub(crate) struct Ready {
    pub(crate) length: usize,
    pub(crate) lost: Vec<Lost>,
}

/// The table that a record is listed by is that of the record alone where its lists refer to no other; else one of it
/// and of these, which are read.
pub(crate) fn complete<R: Read + Seek>(
    alloc: Global,
    input: &mut R,
    layout: Layout,
    own: RawRecord<'_>,
    sole: &Sole,
    raw: &mut [u8],
    table: &mut [u8],
) -> Result<Ready, Reason>
    requires own { length own.raw.now ≡ layout.size }
    requires good { good_size layout.size ≡ true }
    requires room { layout.size * most_records ≤ length raw.old }
    requires number { own.number.0 < number_end }
    requires table { Roomy layout.size (length table.old) }
    requires sole { IsSole own.raw.now own.number (length table.old) table.old sole.now }
    ensures ok { IfOk result (IsReady R.stream_position R.remaining layout own.entry.number own.entry.raw.now
        table.new) }
    ensures err { IfErr result IsUnread }
{
    numbers_rise();
    references_are_those_of_the_entries();
    sorted_numbers_rise();
    if sole.wanted.count == 1 {
        return Ok(Ready {
            length: sole.length,
            lost: Vec::new(alloc),
        });
    }
    let gathered = gather(alloc, input, layout, own, &sole.wanted, raw)?;
    let records = &raw[..usize::from(layout.size) * gathered.numbers.len()];
    let length = write_chosen(records, layout.size, &gathered.numbers, own.number, table);
    Ok(Ready {
        length,
        lost: gathered.lost,
    })
}

/// Reads a record by its number into a room of its size, and makes ready the table that it is listed by.
pub(crate) fn prepare<R: Read + Seek>(
    alloc: Global,
    input: &mut R,
    layout: Layout,
    number: RecordNumber,
    own: &mut [u8],
    raw: &mut [u8],
    table: &mut [u8],
) -> Result<Ready, Reason>
    requires own { length own.old ≡ layout.size }
    requires good { good_size layout.size ≡ true }
    requires room { layout.size * most_records ≤ length raw.old }
    requires table { Roomy layout.size (length table.old) }
    ensures read { IfOk result (λ ready. IsRead R.stream_position R.remaining layout number own.new) }
    ensures ready { IfOk result (IsReady R.stream_position R.remaining layout number own.new table.new) }
    ensures err { IfErr result (IsUntold R.stream_position R.remaining layout number) }
{
    if let Some(why) = fetch(input, layout, number, own)? {
        return Err(Reason::Absent(number, why));
    }
    if NUMBER_END <= number.0 {
        return Err(Reason::Unmade(Unmade::RowNumber(HEADER_SIZE)));
    }
    let sole = set_apart(own, number, table);
    complete(
        alloc,
        input,
        layout,
        RawRecord::of(number, own),
        &sole,
        raw,
        table,
    )
}
