//! Which test of the check a table's bytes fail (RULES 10), for people: 21 and a place tell them too little.
ghost use Rattle.std.specs.Prelude.{◌≡◌, ◌+◌, ◌*◌, ◌≤◌, None, length};
ghost use Rattle.fields.specs.Answer.{gives};
ghost use Rattle.table.specs.Check.{head_of};
ghost use Rattle.table.specs.Fault.{numbers_fault, head_fault, row_fault, rows_fault};

use crate::check::{
    HEADER_SIZE, MOST_ROWS, NUMBER_END, ROW_SIZE, Row, TableHeader, numbers_at, row_at,
};
use fields::good_length;
use thiserror::Error;

/// A test that a table's bytes fail: with the number that fails it, or with the place of the row that does. Numbers
/// and places are bytes from the table's start, but for those that count rows.
#[derive(Clone, Copy, Debug, PartialEq, Eq, Error)]
pub enum Fault {
    #[error("it has {0} bytes, and a header has 20")]
    HeaderCut(usize),
    #[error("it tells {0} rows, and 4096 are the most")]
    RowCount(u32),
    #[error("a record can't have {0} bytes: 64 to 4096, in steps of 8")]
    RecordSize(u32),
    #[error("the directory begins at {0}, inside the header")]
    DirectoryBegin(u32),
    #[error("the directory goes past {0}, where the records begin")]
    DirectoryEnd(u32),
    #[error("the records begin at {0}, past the end")]
    RecordsBegin(u32),
    #[error("the base row is {0}, past the last row")]
    BaseRow(u32),
    #[error("row at {0} has a record number of 2^48 or more")]
    RowNumber(usize),
    #[error("row at {0} has a record number that is not above the row before")]
    RowOrder(usize),
    #[error("row at {0} has a record before the place where the records begin")]
    RowBegin(usize),
    #[error("row at {0} goes past the end")]
    RowEnd(usize),
}

#[tactic(auto, unfolding(crate::specs::Fault::numbers_fault))]
pub fn numbers_fault(m: usize, h: TableHeader) -> Option<Fault>
    ensures { result ≡ numbers_fault m h }
{
    let count = h.count as usize;
    if MOST_ROWS < count {
        return Some(Fault::RowCount(h.count));
    }
    if !good_length(h.size as usize) {
        return Some(Fault::RecordSize(h.size));
    }
    if (h.directory as usize) < HEADER_SIZE {
        return Some(Fault::DirectoryBegin(h.directory));
    }
    if (h.records as usize) < h.directory as usize + ROW_SIZE * count {
        return Some(Fault::DirectoryEnd(h.records));
    }
    if h.count < h.base {
        return Some(Fault::BaseRow(h.base));
    }
    if m < h.records as usize {
        return Some(Fault::RecordsBegin(h.records));
    }
    None
}

#[tactic(auto, unfolding(crate::specs::Fault::head_fault))]
fn head_fault(t: &[u8]) -> Option<Fault>
    ensures { result ≡ head_fault t.now }
{
    if t.len() < HEADER_SIZE {
        return Some(Fault::HeaderCut(t.len()));
    }
    numbers_fault(t.len(), numbers_at(t))
}

#[tactic(auto, unfolding(crate::specs::Fault::row_fault))]
fn row_fault(m: usize, h: TableHeader, above: bool, r: Row) -> Option<Fault>
    ensures { result ≡ row_fault m h above r }
{
    if NUMBER_END <= r.number.0 {
        return Some(Fault::RowNumber(r.place));
    }
    if !above {
        return Some(Fault::RowOrder(r.place));
    }
    if r.offset < h.records {
        return Some(Fault::RowBegin(r.place));
    }
    if m < r.offset as usize + h.size as usize {
        return Some(Fault::RowEnd(r.place));
    }
    None
}

// As in the check, `least` is one more than the number before.
#[tactic(auto, using(crate::proofs::Agree::fault_by_fault))]
fn rows_fault(t: &[u8], h: TableHeader) -> Option<Fault>
    requires { head_of t.now ≡ gives h }
    ensures { result ≡ rows_fault t.now h h.count }
{
    let mut least: u64 = 0;
    let rows = h.count as usize;
    for i in 0..rows {
        let r = row_at(t, h, i);
        let above = least <= r.number.0;
        if let Some(fault) = row_fault(t.len(), h, above, r) {
            return Some(fault);
        }
        least = r.number.0 + 1;
    }
    None
}

impl Fault {
    ghost use Rattle.std.specs.Prelude.{◌≡◌};
    ghost use Rattle.table.specs.Fault.{fault_of};

    /// The first test of the check that these bytes fail; none exactly where they are a table.
    #[tactic(auto, using(crate::proofs::Agree::past_the_head), unfolding(crate::specs::Fault::fault_of))]
    pub fn of(bytes: &[u8]) -> Option<Fault>
        ensures { result ≡ fault_of bytes.now }
    {
        match head_fault(bytes) {
            Some(fault) => Some(fault),
            None => rows_fault(bytes, numbers_at(bytes)),
        }
    }
}
