//! Where a listing begins (RULES 18.1, 18.2, 18.8).
ghost use Rattle.std.specs.Prelude.{◌≡◌, ℕ, List, Some, [], ◌∷◌, length};
ghost use Rattle.table.specs.Held.{record_of, base_of};
ghost use Rattle.items.specs.State.{fresh_of};
ghost use Rattle.lines.specs.Listing.{walk_lines, base_lines, table_lines, listing_of};
ghost use Rattle.lines.specs.Numbered.{table_listing, record_lines, record_listing};
ghost use Rattle.lines.specs.Rest.{walk_rest, rest};
ghost use Rattle.parts.specs.declared.Part.{Part};

use crate::{Line, Lines, Walk};
use fields::RecordNumber;
use items::File;
use table::Table;

/// The most bytes of a table whose listing is made from its bytes.
pub const MOST_TABLE: usize = 65_536;

fn only<'a>(line: Line) -> Lines<'a>
    ensures { (ps : List Part) → rest ps result ≡ line ∷ [] }
{
    Lines::start(None, None, Some(line))
}

#[tactic(auto, unfolding(crate::specs::Listing::walk_lines, items::specs::State::fresh_of))]
fn walk_of<'a>(file: File<'a>) -> Walk<'a>
    ensures { (ps : List Part) → walk_rest ps (Some result) ≡ walk_lines (length ps) file.entry.base.bytes.now
        file.entry.base.number (record_of file.entry.table.bytes.now) 0 (fresh_of file.entry.base.bytes.now) }
{
    let state = file.fresh();
    let left = file.base.bytes.len().saturating_sub(state.raw);
    Walk {
        file,
        state,
        runs: None,
        shown: 0,
        count: 0,
        calls: 2 * left + 1,
        reads: 0,
    }
}

#[tactic(auto, unfolding(crate::specs::Listing::base_lines, crate::specs::Listing::opened_lines))]
fn begin_base<'a>(table: Table<'a>, number: RecordNumber, bytes: &'a [u8]) -> Lines<'a>
    ensures { (ps : List Part) → rest ps result ≡ base_lines (length ps) table.entry.bytes.now table.entry.header
        (Some (record { number = number; bytes = bytes.now })) }
{
    let first = Some(Line::Record {
        number,
        size: bytes.len(),
    });
    match File::open(table, bytes, number) {
        Ok(file) => Lines::start(first, Some(walk_of(file)), None),
        Err(r) => {
            let last = Line::Stopped {
                cause: r.cause,
                reads: 0,
            };
            Lines::start(first, None, Some(last))
        }
    }
}

#[tactic(auto, unfolding(crate::specs::Listing::base_lines, crate::specs::Listing::table_lines))]
fn begin_table<'a>(table: Table<'a>) -> Lines<'a>
    ensures { (ps : List Part) → rest ps result ≡ table_lines (length ps) table.entry.bytes.now table.entry.header }
{
    match table.base() {
        Some((number, bytes)) => begin_base(table, number, bytes),
        None => only(Line::TableRefused),
    }
}

#[tactic(auto, unfolding(crate::specs::Listing::checked_lines))]
fn begin_bytes<'a>(table: &'a [u8]) -> Lines<'a>
    ensures { (ps : List Part) → rest ps result ≡ table_listing (length ps) table.now }
{
    match Table::check(table) {
        Ok(table) => begin_table(table),
        Err(_) => only(Line::TableRefused),
    }
}

#[tactic(auto, unfolding(crate::specs::Listing::listing_of))]
fn begin<'a>(table: &'a [u8]) -> Lines<'a>
    ensures { (ps : List Part) → rest ps result ≡ listing_of (length ps) table.now }
{
    if MOST_TABLE < table.len() {
        return only(Line::TableRefused);
    }
    begin_bytes(table)
}

#[tactic(auto, unfolding(crate::specs::Numbered::found_lines))]
fn begin_record<'a>(table: Table<'a>, number: RecordNumber) -> Lines<'a>
    ensures { (ps : List Part) → rest ps result ≡
        record_lines (length ps) table.entry.bytes.now table.entry.header number }
{
    match table.get(number) {
        Some(bytes) => begin_base(table, number, bytes),
        None => only(Line::NoRecord),
    }
}

#[tactic(auto, unfolding(crate::specs::Numbered::numbered_lines))]
fn begin_record_in<'a>(table: &'a [u8], number: RecordNumber) -> Lines<'a>
    ensures { (ps : List Part) → rest ps result ≡ record_listing (length ps) table.now number }
{
    match Table::check(table) {
        Ok(table) => begin_record(table, number),
        Err(_) => only(Line::TableRefused),
    }
}

impl<'a> Lines<'a> {
    ghost use Rattle.std.specs.Prelude.{◌≡◌, ◌++◌, List, length, option_to_list};
    ghost use Rattle.parts.specs.declared.Part.{Part};
    ghost use Rattle.lines.specs.Listing.{table_lines, listing_of};
    ghost use Rattle.lines.specs.Numbered.{table_listing, record_lines, record_listing};
    ghost use Rattle.lines.specs.Rest.{walk_rest, rest};

    // A listing before its first line.
    fn start(first: Option<Line>, walk: Option<Walk<'a>>, last: Option<Line>) -> Lines<'a>
        ensures { (ps : List Part) →
            rest ps result ≡ option_to_list first ++ (walk_rest ps walk.entry ++ option_to_list last) }
    {
        Lines { first, walk, last }
    }

    /// The listing of a table, with room for as many parts as the list that is lent to each call.
    pub fn of(table: &Table<'a>) -> Lines<'a>
        ensures { (ps : List Part) →
            rest ps result ≡ table_lines (length ps) table.now.bytes.now table.now.header }
    {
        begin_table(*table)
    }

    /// The listing of any bytes: 21 is its only line where they are no table with a base row, or more than 65,536.
    pub fn of_any(table: &'a [u8]) -> Lines<'a>
        ensures { (ps : List Part) → rest ps result ≡ listing_of (length ps) table.now }
    {
        begin(table)
    }

    /// The same of bytes of any number.
    pub fn of_bytes(table: &'a [u8]) -> Lines<'a>
        ensures { (ps : List Part) → rest ps result ≡ table_listing (length ps) table.now }
    {
        begin_bytes(table)
    }

    /// The listing of the record with a number in a table, with a base row or without one: 17 is its only line where
    /// no row has the number.
    pub fn of_record(table: &Table<'a>, number: RecordNumber) -> Lines<'a>
        ensures { (ps : List Part) →
            rest ps result ≡ record_lines (length ps) table.now.bytes.now table.now.header number }
    {
        begin_record(*table, number)
    }

    /// The same of bytes of any number: 21 is its only line where they are no table.
    pub fn of_record_in(table: &'a [u8], number: RecordNumber) -> Lines<'a>
        ensures { (ps : List Part) → rest ps result ≡ record_listing (length ps) table.now number }
    {
        begin_record_in(table, number)
    }
}
