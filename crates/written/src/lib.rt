//! The layout of a table that is written (docs/RULES.md, section 22): its header, its rows, and where its records
//! stand.
#![tactic(auto)]

pub mod laws;

ghost use Rattle.std.specs.Prelude.{◌≡◌, ◌+◌, ◌*◌, ◌≤◌, length};
ghost use Rattle.written.specs.Over.{over};

use fields::{Cause, RecordNumber, Refusal};
use table::{HEADER_SIZE, MOST_ROWS, ROW_SIZE};

/// How many rows a table is to have, how many bytes each of its records, and which row is its base row: 4,096 rows at
/// most (RULES 22). Rows are counted by a `u16`, so that no place in such a table is too large for a number.
#[derive(Clone, Copy)]
pub struct Shape {
    pub count: u16,
    pub size: u16,
    /// The base row; the count where the table has none (RULES 10).
    pub base: u16,
    pub ghost few: { count ≤ 4096 },
    pub ghost based: { base ≤ count },
}

// Bytes over those that stand at a place.
fn put(bytes: &mut [u8], at: usize, more: &[u8])
    requires { at + length more.now ≤ length bytes.old }
    ensures { bytes.new ≡ over at more.now bytes.old }
{
    bytes[at..at + more.len()].copy_from_slice(more);
}

impl Shape {
    ghost use Rattle.std.specs.Prelude.{◌≡◌, ◌+◌, ◌*◌, ◌<◌, min, IfOk};
    ghost use Rattle.fields.specs.Told.{told, told_as};
    ghost use Rattle.written.specs.Layout.{records_from, table_length, header_bytes, row_bytes};
    ghost use Rattle.written.specs.Refused.{rows_checked, room_checked};

    /// The shape of a table of so many rows, without a base row; 34 where that is more than a table may have.
    #[tactic(auto, unfolding(crate::specs::Refused::rows_checked))]
    pub fn of(count: usize, size: u16) -> Result<Shape, Refusal>
        ensures answer { told_as (λ _. tt) result ≡ rows_checked count }
        ensures shape { IfOk result (λ s. (s.count ≡ count) × (s.size ≡ size) × (s.base ≡ count)) }
    {
        if MOST_ROWS < count {
            return Cause::TooManyRows.refuses(RecordNumber(0), 0);
        }
        let count = count as u16;
        Ok(Shape {
            count,
            size,
            base: count,
        })
    }

    /// The same with row i for its base row; with none where it has no such row.
    pub fn with_base(self, i: usize) -> Shape
        ensures { (result.count ≡ self.count) × (result.size ≡ self.size) × (result.base ≡ min i self.count) }
    {
        Shape {
            count: self.count,
            size: self.size,
            base: i.min(usize::from(self.count)) as u16,
        }
    }

    /// Where row i of the directory stands, as a place in bytes from the table's start. That of the row behind the last
    /// is where the records begin.
    pub fn row_place(&self, i: u16) -> usize
        ensures { result ≡ records_from i }
    {
        HEADER_SIZE + ROW_SIZE * usize::from(i)
    }

    /// Where the record of row i stands; a number of 4 bytes tells it.
    pub fn record_place(&self, i: u16) -> usize
        ensures place { result ≡ records_from self.now.count + self.now.size * i }
        ensures near { result < 0x100000000 }
    {
        self.row_place(self.count) + usize::from(self.size) * usize::from(i)
    }

    /// How many bytes the table takes.
    pub fn length(&self) -> usize
        ensures { result ≡ table_length self.now.size self.now.count }
    {
        self.record_place(self.count)
    }

    /// 35 where a buffer of so many bytes is shorter than the table.
    #[tactic(auto, unfolding(crate::specs::Refused::room_checked))]
    pub fn check_room(&self, room: usize) -> Result<(), Refusal>
        ensures { told result ≡ room_checked self.now.size self.now.count room }
    {
        if room < self.length() {
            return Cause::OutputShort.refuses(RecordNumber(0), 0);
        }
        Ok(())
    }

    /// The header.
    pub fn header(&self) -> [u8; HEADER_SIZE]
        ensures { result ≡ header_bytes self.now.size self.now.base self.now.count }
    {
        let mut header = [0; HEADER_SIZE];
        put(&mut header, 0, &u32::from(self.count).to_le_bytes());
        put(&mut header, 4, &u32::from(self.size).to_le_bytes());
        put(&mut header, 8, &(HEADER_SIZE as u32).to_le_bytes());
        put(
            &mut header,
            12,
            &(self.row_place(self.count) as u32).to_le_bytes(),
        );
        put(&mut header, 16, &u32::from(self.base).to_le_bytes());
        header
    }

    /// Row i of the directory, for a record with this number.
    pub fn row(&self, i: u16, number: RecordNumber) -> [u8; ROW_SIZE]
        ensures { result ≡ row_bytes number (records_from self.now.count + self.now.size * i) }
    {
        let mut row = [0; ROW_SIZE];
        put(&mut row, 0, &number.0.to_le_bytes());
        put(&mut row, 8, &(self.record_place(i) as u32).to_le_bytes());
        row
    }
}
