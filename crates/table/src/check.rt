//! The check of a table's bytes (RULES 10): its five numbers, then its rows.
ghost use Rattle.std.specs.Prelude.{◌≡◌, ◌+◌, ◌*◌, ◌≤◌, length};
ghost use Rattle.fields.specs.Answer.{gives, refuses};
ghost use Rattle.fields.specs.Told.{told};
ghost use Rattle.table.specs.Layout.{header_size, row_size, row_in, row_at, numbers_at};
ghost use Rattle.table.specs.Check.{malformed, good_numbers, head_of, rows_of};
ghost use Rattle.table.specs.Loop.{good_from};

use fields::bytes::{u32_at, u64_at};
use fields::{Cause, RecordNumber, Refusal, good_length};

/// The five numbers of a table's header: how many rows the directory has, the record size in bytes, where the
/// directory and the records begin, counted from the table's start, and the base row. No base row is told by
/// the count.
#[derive(Clone, Copy)]
pub struct TableHeader {
    pub count: u32,
    pub size: u32,
    pub directory: u32,
    pub records: u32,
    pub base: u32,
}

/// A row of the directory: where it stands in the table, its record's number, and where that record stands.
#[derive(Clone, Copy)]
pub struct Row {
    pub place: usize,
    pub number: RecordNumber,
    pub offset: u32,
}

/// The bytes of a table's header.
pub const HEADER_SIZE: usize = 20;

/// The bytes of a row of its directory.
pub const ROW_SIZE: usize = 12;

/// The most rows that a table may have.
pub const MOST_ROWS: usize = 4096;

/// The first number that is too large for a row's record.
pub const NUMBER_END: u64 = 0x1_0000_0000_0000;

impl TableHeader {
    ghost use Rattle.table.specs.Held.{base_row};

    /// The base row, if the table has one.
    #[tactic(auto, unfolding(crate::specs::Held::base_row))]
    pub fn base_row(&self) -> Option<usize>
        ensures { result ≡ base_row self.now }
    {
        if self.base == self.count {
            return None;
        }
        Some(self.base as usize)
    }
}

// A fault of the table. It lies in no record: the record told is 0.
fn malformed<T: Drop>(place: usize) -> Result<T, Refusal>
    ensures { told result ≡ refuses (malformed place) }
{
    Cause::BadTable.refuses(RecordNumber(0), place)
}

// Whether the five numbers suit each other and a table of m bytes.
#[tactic(auto, unfolding(crate::specs::Check::good_numbers))]
fn good_numbers(m: usize, h: TableHeader) -> bool
    ensures { result ≡ good_numbers m h }
{
    let count = h.count as usize;
    let directory = h.directory as usize;
    let records = h.records as usize;
    count <= MOST_ROWS
        && good_length(h.size as usize)
        && HEADER_SIZE <= directory
        && directory + ROW_SIZE * count <= records
        && records <= m
        && h.base <= h.count
}

#[tactic(auto, unfolding(crate::specs::Layout::numbers_at))]
pub fn numbers_at(t: &[u8]) -> TableHeader
    requires { header_size ≤ length t.now }
    ensures { result ≡ numbers_at t.now }
{
    TableHeader {
        count: u32_at(t, 0),
        size: u32_at(t, 4),
        directory: u32_at(t, 8),
        records: u32_at(t, 12),
        base: u32_at(t, 16),
    }
}

#[tactic(auto, unfolding(crate::specs::Check::head_of))]
pub fn check_head(t: &[u8]) -> Result<TableHeader, Refusal>
    ensures { told result ≡ head_of t.now }
{
    if t.len() < HEADER_SIZE {
        return malformed(0);
    }
    let h = numbers_at(t);
    if good_numbers(t.len(), h) {
        return Ok(h);
    }
    malformed(0)
}

#[tactic(auto, unfolding(crate::specs::Layout::row_in))]
fn row_in(t: &[u8], at: usize) -> Row
    requires { at + row_size ≤ length t.now }
    ensures { result ≡ row_in t.now at }
{
    Row {
        place: at,
        number: RecordNumber(u64_at(t, at)),
        offset: u32_at(t, at + 8),
    }
}

// A row is told by its index, here and above, since rows are bytes of the table: there is no slice of rows to
// point into.
#[tactic(auto, unfolding(crate::specs::Layout::row_at))]
pub fn row_at(t: &[u8], h: TableHeader, i: usize) -> Row
    requires { h.directory + row_size * i + row_size ≤ length t.now }
    ensures { result ≡ row_at t.now h i }
{
    row_in(t, h.directory as usize + ROW_SIZE * i)
}

// Whether a row's number is below 2^48 and at least `least`, and its record lies in the table of m bytes, behind the
// directory. Plain numbers: 2^48 bounds the number itself, and the first row has a least too.
#[tactic(auto, unfolding(crate::specs::Loop::good_from))]
fn good_row(m: usize, h: TableHeader, least: u64, r: Row) -> bool
    ensures { result ≡ good_from m h least r }
{
    r.number.0 < NUMBER_END
        && least <= r.number.0
        && h.records <= r.offset
        && r.offset as usize + h.size as usize <= m
}

// The rows one after another; `least` is one more than the number before, so that the first row has a least
// too. By index: rows are bytes of the table, of which there is no slice.
#[tactic(auto, using(crate::proofs::Sound::row_by_row))]
pub fn check_rows(t: &[u8], h: TableHeader) -> Result<TableHeader, Refusal>
    requires { head_of t.now ≡ gives h }
    ensures { told result ≡ rows_of t.now h }
{
    let mut least: u64 = 0;
    let rows = h.count as usize;
    for i in 0..rows {
        let r = row_at(t, h, i);
        if !good_row(t.len(), h, least, r) {
            return malformed(r.place);
        }
        least = r.number.0 + 1;
    }
    Ok(h)
}
