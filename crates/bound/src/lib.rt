// What is promised of a whole listing, over runs of the public calls (RULES 17).
#![tactic(auto)]

ghost use Rattle.std.specs.Prelude.{◌≡◌, length};
ghost use Rattle.parts.specs.OfFile.{parts_of_file};
ghost use Rattle.parts.specs.Filled.{most_parts};
ghost use Rattle.bound.specs.Listing.{EveryLookup, EveryTable, EveryFile, EveryPart, Every1024};
ghost use Rattle.bound.specs.Ends.{EveryEnd};
ghost use Rattle.bound.specs.Calls.{CountsIn, EveryRun, EveryWay, EveryBytes};
ghost use Rattle.bound.specs.Lists.{EveryStep, EveryRead, EveryEntry};
ghost use Rattle.bound.specs.Told.{room, Tells};
ghost use Rattle.bound.specs.Printed.{WalksTell, ListingsTell};

use items::{File, Rest};
use parts::{MOST_PARTS, Part, collect, fill};
use table::Table;

/// A listing reads at most a + 3e + 2ea attributes and entries, each told once and in its place, and no entry gives a
/// part to two items.
pub fn listings_are_bounded()
    ensures lookup { EveryLookup }
    ensures table { EveryTable }
    ensures file { EveryFile }
    ensures part { EveryPart }
    ensures kilobyte { Every1024 }
{}

/// It comes to the walk's end or its first refusal, and more calls change nothing.
pub fn listings_end()
    ensures { EveryEnd }
{}

/// The same of the calls that a caller makes, whichever of the two he makes for the parts of each item: what their
/// results report adds up to the listing's count. And of any bytes, from the ways in on.
pub fn calls_are_counted()
    ensures run { EveryRun }
    ensures way { EveryWay }
    ensures bytes { EveryBytes }
{}

/// The listing prints that count in its last line.
pub fn listings_tell_their_count()
    ensures walk { WalksTell }
    ensures table { ListingsTell }
{}

/// A list is told by where its attribute ends.
pub fn lists_are_told_apart()
    ensures step { EveryStep }
    ensures read { EveryRead }
    ensures entry { EveryEntry }
{}

/// How the parts of an item are asked for: with a lent list, or by value.
#[derive(Clone, Copy)]
pub enum Way {
    Lent,
    ByValue,
}

// What the call for an item's parts reports.
fn part_reads(
    file: &File,
    rest: Option<Rest>,
    way: Option<Way>,
    list: &mut [Part; MOST_PARTS],
) -> u64
    ensures { result ≡ length (parts_of_file file.now most_parts rest).reads }
{
    match way {
        Some(Way::ByValue) => collect(file, rest, MOST_PARTS).filled.reads,
        Some(Way::Lent) => fill(file, rest, list).reads,
        None => fill(file, rest, list).reads,
    }
}

/// What the calls of a whole listing report in all, with room for all parts of each item. The parts of item k are asked
/// for as `ways[k]` says, and with a lent list behind the last of these: the count is the same.
pub fn reads_by(file: &File, ways: &[Way]) -> u64
    ensures { CountsIn file.now room result }
{
    let mut list = [Part::BLANK; MOST_PARTS];
    let mut ways = ways.iter();
    let mut at = file.fresh();
    let mut reads: u64 = 0;
    // No `for` over items(): the reads of each call count, and of the one that ends the walk too.
    'items: loop {
        let walked = file.next(at);
        reads += walked.reads;
        let item = match walked.answer {
            Ok(Some(item)) => item,
            Ok(None) => break 'items,
            Err(_) => break 'items,
        };
        let way = ways.next().copied();
        reads += part_reads(file, item.rest, way, &mut list);
        at = walked.left;
    }
    reads
}

/// The same with a lent list throughout.
pub fn reads_of(file: &File) -> u64
    ensures { CountsIn file.now room result }
{
    reads_by(file, &[])
}

/// What a listing of a table tells in the end: that the table is refused or has no base row, that its base record is
/// refused, or the reads of the listing.
#[derive(Clone, Copy)]
pub enum Told {
    TableRefused,
    BaseRefused,
    Reads(u64),
}

/// The listing of a table's base record, for any bytes.
pub fn reads_of_bytes(table: &[u8]) -> Told
    ensures { Tells table.now result }
{
    let Ok(table) = Table::check(table) else {
        return Told::TableRefused;
    };
    let Some((number, bytes)) = table.base() else {
        return Told::TableRefused;
    };
    match File::open(table, bytes, number) {
        Ok(file) => Told::Reads(reads_of(&file)),
        Err(_) => Told::BaseRefused,
    }
}
