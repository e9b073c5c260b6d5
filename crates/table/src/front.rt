//! How much of an input matters to a table (RULES 10), for a reader that may be handed a disk, or an input without end.
ghost use Rattle.std.specs.Prelude.{◌≡◌, ◌≤◌, None, length};
ghost use Rattle.table.specs.Fault.{numbers_fault};
ghost use Rattle.table.specs.Reach.{rows_reach, reach_of};

use crate::check::{HEADER_SIZE, TableHeader, numbers_at, row_at};
use crate::faults::numbers_fault;

#[tactic(auto, using(crate::proofs::Behind::row_by_row))]
fn rows_reach(t: &[u8], h: TableHeader) -> usize
    requires clear { numbers_fault h.records h ≡ None }
    requires there { h.records ≤ length t.now }
    ensures { result ≡ rows_reach t.now h h.count }
{
    let mut reach = h.records as usize;
    let rows = h.count as usize;
    for i in 0..rows {
        let end = row_at(t, h, i).offset as usize + h.size as usize;
        reach = reach.max(end);
    }
    reach
}

/// How many bytes of an input must be there before nothing behind them matters, by those that are there: the header's,
/// then as far as the records' begin, then the end of the last record. A front that is so long, or a whole input,
/// answers for all of it; else a reader goes on up to this number and asks again, three times at most.
#[tactic(auto, unfolding(crate::specs::Reach::reach_of))]
pub fn reach(front: &[u8]) -> usize
    ensures { result ≡ reach_of front.now }
{
    if front.len() < HEADER_SIZE {
        return HEADER_SIZE;
    }
    let h = numbers_at(front);
    let records = h.records as usize;
    if numbers_fault(records, h).is_some() {
        return HEADER_SIZE;
    }
    if front.len() < records {
        return records;
    }
    rows_reach(front, h)
}
