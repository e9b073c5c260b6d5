//! Two tables made one (docs/RULES.md, section 27): it has every row of both, in rising order of their numbers.
#![tactic(auto)]

pub mod laws;
mod unmerged;

ghost use Rattle.std.specs.Prelude.{◌≡◌, ◌+◌, ◌*◌, ◌<◌, ◌≤◌, length};
ghost use Rattle.std.specs.Ordering.{nat_cmp};
ghost use Rattle.written.specs.Layout.{records_from, table_length, row_bytes};
ghost use Rattle.written.specs.Over.{over};

use fields::{Cause, RecordNumber, Refusal};
use itertools::{EitherOrBoth, Itertools};
use std::cmp::Ordering;
use table::{HEADER_SIZE, MOST_ROWS, ROW_SIZE, Row, Table};
pub use unmerged::Unmerged;
use written::Shape;

/// Two tables that passed their checks (RULES 10), with records of one size.
#[derive(Clone, Copy)]
pub struct Pair<'a> {
    pub first: Table<'a>,
    pub second: Table<'a>,
    pub ghost sized: { first.header.size ≡ second.header.size },
}

/// What was written of two tables (RULES 27.4).
#[derive(Clone, Copy, Debug, PartialEq, Eq)]
pub struct Merged {
    /// How many bytes the table takes.
    pub length: usize,
    /// How many rows it has.
    pub written: usize,
}

/// The order of two rows: that of their numbers.
fn by_number(ours: &(Row, &[u8]), theirs: &(Row, &[u8])) -> Ordering
    ensures { result ≡ nat_cmp ours.now.0.number.0 theirs.now.0.number.0 }
{
    ours.0.number.cmp(&theirs.0.number)
}

/// A row and its record, in their places of a table of this shape.
fn put(shape: Shape, i: u16, number: RecordNumber, bytes: &[u8], table: &mut [u8])
    requires row { i < shape.count }
    requires size { length bytes.now ≡ shape.size }
    requires room { table_length shape.size shape.count ≤ length table.old }
    ensures { let at = records_from shape.count + shape.size * i in table.new
        ≡ over at bytes.now (over (records_from i) (row_bytes number at) table.old) }
{
    let from = shape.row_place(i);
    table[from..from + ROW_SIZE].copy_from_slice(&shape.row(i, number));
    let at = shape.record_place(i);
    table[at..at + bytes.len()].copy_from_slice(bytes);
}

impl<'a> Pair<'a> {
    ghost use Rattle.std.specs.Prelude.{◌≡◌, ◌+◌, ◌++◌, Ok, Err, length, drop, IfOk, IfErr, OnErr};
    ghost use Rattle.written.specs.Layout.{table_length};
    ghost use Rattle.merge.specs.Merge.{table_of_merge, merge_of};
    ghost use Rattle.merge.specs.Told.{told_pair, pair_checked, room_of};
    ghost use Rattle.merge.specs.Pass.{judged_of, rows_of_pair};

    /// Two tables in turn, then their record sizes: 21 of the first, 21 of the second, 32 (RULES 27.2).
    #[tactic(auto, unfolding(crate::specs::Told::pair_checked, crate::specs::Merge::sizes_checked))]
    pub fn check(first: &'a [u8], second: &'a [u8]) -> Result<Pair<'a>, Unmerged>
        ensures answer { told_pair result ≡ pair_checked first.now second.now }
        ensures bytes { IfOk result (λ p. (p.first.bytes.now ≡ first.now) × (p.second.bytes.now ≡ second.now)) }
    {
        let first = Table::check(first).map_err(Unmerged::First)?;
        let second = Table::check(second).map_err(Unmerged::Second)?;
        if first.header.size != second.header.size {
            return Err(Unmerged::Both(Refusal {
                cause: Cause::SizesDiffer,
                file: RecordNumber(0),
                place: 0,
            }));
        }
        Ok(Pair { first, second })
    }

    /// How long a buffer is that is never too short: as for all rows of both, and 4,096 at most (RULES 27.5).
    pub fn room(&self) -> usize
        ensures { result ≡ room_of self.now }
    {
        let rows = self.first.header.count as usize + self.second.header.count as usize;
        HEADER_SIZE + (ROW_SIZE + self.first.header.size as usize) * rows.min(MOST_ROWS)
    }

    // One pass over both directories: how many rows the two make; 33 where a number has other bytes in the second.
    fn judge(&self) -> Result<usize, Unmerged>
        ensures { result ≡ judged_of self.now }
    {
        let mut count = 0;
        let ours = self.first.rows();
        for step in ours.merge_join_by(self.second.rows(), by_number) {
            if let EitherOrBoth::Both((_, record), (row, other)) = step {
                if record != other {
                    return Err(Unmerged::clash(row));
                }
            }
            count += 1;
        }
        Ok(count)
    }

    // The table of this shape, into a buffer that is long enough.
    fn fill(&self, shape: Shape, table: &mut [u8])
        requires size { shape.size ≡ self.now.first.header.size }
        requires count { shape.count ≡ length (rows_of_pair self.now) }
        requires base { shape.base ≡ length (rows_of_pair self.now) }
        requires room { table_length shape.size shape.count ≤ length table.old }
        ensures { table.new ≡ table_of_merge self.now.first.bytes.now self.now.second.bytes.now
            ++ drop (table_length shape.size shape.count) table.old }
    {
        table[..HEADER_SIZE].copy_from_slice(&shape.header());
        let mut i = 0;
        let ours = self.first.rows();
        for step in ours.merge_join_by(self.second.rows(), by_number) {
            let (row, bytes) = step.reduce(|ours, _| ours);
            put(shape, i, row.number, bytes, table);
            i += 1;
        }
    }

    /// Writes the table of both, and answers how long it is. It refuses by 33, 34 and 35, in this order; then the
    /// buffer stays as it was, as do its bytes behind the table.
    #[tactic(auto, using(crate::proofs::Calls::called))]
    pub fn write(&self, table: &mut [u8]) -> Result<Merged, Unmerged>
        ensures answer { result ≡ merge_of self.now.first.bytes.now self.now.second.bytes.now (length table.old) }
        ensures written { IfOk result (λ r. table.new
            ≡ table_of_merge self.now.first.bytes.now self.now.second.bytes.now ++ drop r.length table.old) }
        ensures unchanged { OnErr result (table.new ≡ table.old) }
    {
        let count = self.judge()?;
        let shape = Shape::of(count, self.first.header.size as u16).map_err(Unmerged::Both)?;
        shape.check_room(table.len()).map_err(Unmerged::Both)?;
        self.fill(shape, table);
        Ok(Merged {
            length: shape.length(),
            written: count,
        })
    }
}

ghost use Rattle.std.specs.Prelude.{◌++◌, drop, IfOk, OnErr};
ghost use Rattle.merge.specs.Merge.{table_of_merge, merge_of};

/// Makes one table of two (RULES 27): 21 of the first, 21 of the second, 32, 33, 34 or 35, in this order; then the
/// buffer stays as it was. What stands in it behind the table stays too.
#[tactic(auto, using(crate::proofs::Calls::pair_refuses))]
pub fn merge(first: &[u8], second: &[u8], table: &mut [u8]) -> Result<Merged, Unmerged>
    ensures answer { result ≡ merge_of first.now second.now (length table.old) }
    ensures written { IfOk result (λ r. table.new ≡ table_of_merge first.now second.now ++ drop r.length table.old) }
    ensures unchanged { OnErr result (table.new ≡ table.old) }
{
    Pair::check(first, second)?.write(table)
}
