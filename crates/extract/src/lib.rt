//! From an extract of a raw $MFT to a table (docs/RULES.md, section 23): records as they lie on the disk, one behind
//! another, are fixed up and written as a table of their numbers.
#![tactic(auto)]

mod fixup;
pub mod laws;
mod numbers;
mod tally;

ghost use Rattle.std.specs.Prelude.{◌≡◌, ◌/◌, true, length, IfOk};
ghost use Rattle.fields.specs.Told.{told_as};
ghost use Rattle.extract.specs.Numbers.{suits};
ghost use Rattle.extract.specs.Size.{good_size, whole_records, sizes_checked};

use fields::{Cause, RecordNumber, Refusal};
pub use fixup::Judged;
use fixup::{SECTOR_SIZE, fix_up, judge};
pub use numbers::Numbers;
use numbers::{check_risen, listed};
use table::{HEADER_SIZE, MOST_ROWS, NUMBER_END, ROW_SIZE};
use tally::Tally;
pub use tally::{Extracted, RefusedRecord};
use written::Shape;

const MOST_SIZE: usize = 4096;

/// An extract of a raw $MFT that passed its check (RULES 23.2, 23.9): records of one size, each with a number, which
/// rise from record to record.
#[derive(Clone, Copy)]
pub struct Extract<'a> {
    pub bytes: &'a [u8],
    pub size: u16,
    pub numbers: Numbers<'a>,
    /// The record that the table is to have for its base record (RULES 23.10).
    pub base: Option<RecordNumber>,
    pub ghost checked: { whole_records size bytes.now ≡ true },
    pub ghost numbered: { suits numbers (length bytes.now / size) ≡ true },
}

// Whether an extract may have records of so many bytes.
#[tactic(auto, unfolding(crate::specs::Size::good_size))]
fn good_size(size: usize) -> bool
    ensures { result ≡ good_size size }
{
    SECTOR_SIZE <= size && size <= MOST_SIZE && size % SECTOR_SIZE == 0
}

// 1 where the record size is not 512 to 4,096 bytes in whole 512s, or the last record is broken; else that size.
#[tactic(auto, unfolding(crate::specs::Size::sizes_checked, crate::specs::Size::whole_records))]
fn check_sizes(bytes: &[u8], size: usize) -> Result<u16, Refusal>
    ensures answer { told_as (λ _. tt) result ≡ sizes_checked size bytes.now }
    ensures size { IfOk result (λ n. n ≡ size) }
    ensures whole { IfOk result (λ n. whole_records n bytes.now ≡ true) }
{
    if !good_size(size) || bytes.len() % size != 0 {
        return Cause::RecordLength.refuses(RecordNumber(0), 0);
    }
    Ok(size as u16)
}

impl<'a> Extract<'a> {
    ghost use Rattle.std.specs.Prelude.{◌≡◌, ◌+◌, ◌*◌, ◌<◌, ◌≤◌, ◌++◌, Some, None, true, length, drop};
    ghost use Rattle.std.specs.Prelude.{IfOk, OnErr, option_map, eqb};
    ghost use Rattle.fields.specs.Told.{told, told_as};
    ghost use Rattle.table.specs.Check.{number_end};
    ghost use Rattle.written.specs.Layout.{records_from, table_length, row_bytes};
    ghost use Rattle.written.specs.Over.{over};
    ghost use Rattle.extract.specs.Fixup.{good_array, fixed_up};
    ghost use Rattle.extract.specs.Size.{good_size, sizes_checked, chosen_checked};
    ghost use Rattle.extract.specs.Records.{record_count, record_at, number_at, told_number, rows_of};
    ghost use Rattle.extract.specs.Base.{base_in};
    ghost use Rattle.extract.specs.Extracted.{late_in, table_of_extract, extract_of, room_of};
    ghost use Rattle.extract.specs.declared.numbers.Numbers.TheVariants.{From, Listed};
    ghost use Rattle.table.specs.Layout.{header_size, row_size};
    ghost use Rattle.extract.specs.Judge.{told_verdict, judged_at};
    ghost use Rattle.extract.specs.Told.{IsSized, tally_below, late_by, is_base_at};

    /// Records whose numbers follow one another, from a first one on: 1 where the record size is not 512 to 4,096 bytes
    /// in whole 512s, or the last record is broken. No extract is made without this check or that of `chosen`.
    pub fn check(bytes: &'a [u8], size: usize, first: RecordNumber) -> Result<Extract<'a>, Refusal>
        ensures answer { told_as (λ _. tt) result ≡ sizes_checked size bytes.now }
        ensures bytes { IfOk result (λ x. x.bytes.now ≡ bytes.now) }
        ensures numbers { IfOk result (λ x. (x.size ≡ size) × (x.numbers ≡ From first) × (x.base ≡ None)) }
    {
        let size = check_sizes(bytes, size)?;
        Ok(Extract {
            bytes,
            size,
            numbers: Numbers::From(first),
            base: None,
        })
    }

    /// Records with a number each, lent beside them: 1 as of `check`, and where there is not one number for each
    /// record; then 21 where the numbers do not rise (RULES 23.9).
    #[tactic(auto, unfolding(crate::specs::Size::chosen_checked, crate::specs::Size::one_number_each))]
    pub fn chosen(
        bytes: &'a [u8],
        size: usize,
        numbers: &'a [RecordNumber],
    ) -> Result<Extract<'a>, Refusal>
        ensures answer { told_as (λ _. tt) result ≡ chosen_checked size bytes.now numbers.now }
        ensures bytes { IfOk result (λ x. x.bytes.now ≡ bytes.now) }
        ensures numbers { IfOk result (λ x. (x.size ≡ size) × (x.numbers ≡ Listed numbers.entry) × (x.base ≡ None)) }
    {
        let size = check_sizes(bytes, size)?;
        if bytes.len() / usize::from(size) != numbers.len() {
            return Cause::RecordLength.refuses(RecordNumber(0), 0);
        }
        check_risen(numbers)?;
        Ok(Extract {
            bytes,
            size,
            numbers: Numbers::Listed(numbers),
            base: None,
        })
    }

    /// The same extract, whose table is to have the record with this number for its base record; where that is not
    /// written, the table has no base row (RULES 23.10).
    pub fn with_base(self, number: RecordNumber) -> Extract<'a>
        ensures bytes { result.bytes.now ≡ self.entry.bytes.now }
        ensures size { result.size ≡ self.entry.size }
        ensures numbers { result.numbers ≡ self.entry.numbers }
        ensures base { result.base ≡ Some number }
    {
        Extract {
            bytes: self.bytes,
            size: self.size,
            numbers: self.numbers,
            base: Some(number),
        }
    }

    fn count(&self) -> usize
        ensures { result ≡ record_count self.now }
    {
        self.bytes.len() / usize::from(self.size)
    }

    fn record(&self, i: usize) -> &'a [u8]
        requires { i < record_count self.now }
        ensures record { result.now ≡ record_at self.now i }
        ensures long { length result.now ≡ self.now.size }
        ensures sized { IsSized result.now }
    {
        let size = usize::from(self.size);
        &self.bytes[size * i..size * i + size]
    }

    /// What becomes of the record at a position, by 29 and 30 (RULES 23.3 to 23.5); nothing past the last one.
    pub fn judged(&self, position: usize) -> Option<Judged>
        ensures { option_map (told_verdict (record_at self.now position)) result ≡ judged_at self.now position }
    {
        if self.count() <= position {
            return None;
        }
        Some(judge(self.record(position)))
    }

    // The number of the record at a position, if it has one: sums of 2^64 and more are none.
    fn number(&self, i: usize) -> Option<RecordNumber>
        requires { i < record_count self.now }
        ensures { result ≡ told_number self.now i }
    {
        match self.numbers {
            Numbers::From(first) => Some(RecordNumber(first.0.checked_add(i as u64)?)),
            Numbers::Listed(numbers) => Some(RecordNumber(listed(numbers, i))),
        }
    }

    // The same of a record whose number is small enough.
    fn small_number(&self, i: usize) -> RecordNumber
        requires inside { i < record_count self.now }
        requires number { (number_at self.now i).0 < number_end }
        ensures { result ≡ number_at self.now i }
    {
        match self.numbers {
            Numbers::From(first) => RecordNumber(first.0 + i as u64),
            Numbers::Listed(numbers) => numbers[i],
        }
    }

    // Whether the record at a position has this number.
    fn has_number(&self, i: usize, number: RecordNumber) -> bool
        requires { i < record_count self.now }
        ensures { result ≡ eqb (number_at self.now i).0 number.0 }
    {
        self.number(i) == Some(number)
    }

    // Whether the record at a position is the one that is asked for as the base record.
    fn is_base(&self, i: usize) -> bool
        requires { i < record_count self.now }
        ensures { result ≡ is_base_at self.now i }
    {
        match self.base {
            Some(base) => self.has_number(i, base),
            None => false,
        }
    }

    // Where the row of the record at a position would stand, behind so many others, if its number is too large.
    fn late_row(&self, i: usize, rows: usize) -> Option<usize>
        requires inside { i < record_count self.now }
        requires few { rows ≤ i }
        ensures { result ≡ late_by self.now i (header_size + row_size * rows) }
    {
        match self.number(i) {
            Some(number) if number.0 < NUMBER_END => None,
            _ => Some(HEADER_SIZE + ROW_SIZE * rows),
        }
    }

    /// How long a buffer is that is never too short: as for a table of as many rows as there are records, and 4,096 at
    /// most.
    pub fn room(&self) -> usize
        ensures { result ≡ room_of self.now }
    {
        let rows = self.count().min(MOST_ROWS);
        HEADER_SIZE + (ROW_SIZE + usize::from(self.size)) * rows
    }

    // One pass over the records.
    fn tally(&self) -> Tally
        ensures { result ≡ tally_below self.now (record_count self.now) }
    {
        let mut tally = Tally::none();
        for i in 0..self.count() {
            tally.add(self, i, judge(self.record(i)));
        }
        tally
    }

    // The next row and its record, in their places of a table of this shape.
    fn put(&self, shape: Shape, row: u16, i: usize, table: &mut [u8])
        requires inside { i < record_count self.now }
        requires good { good_array (record_at self.now i) ≡ true }
        requires number { (number_at self.now i).0 < number_end }
        requires size { shape.size ≡ self.now.size }
        requires row { row < shape.count }
        requires room { table_length shape.size shape.count ≤ length table.old }
        ensures { let at = records_from shape.count + shape.size * row in table.new
            ≡ over at (fixed_up (record_at self.now i))
            (over (records_from row) (row_bytes (number_at self.now i) at) table.old) }
    {
        let number = self.small_number(i);
        let from = shape.row_place(row);
        table[from..from + ROW_SIZE].copy_from_slice(&shape.row(row, number));
        let raw = self.record(i);
        let at = shape.record_place(row);
        fix_up(raw, &mut table[at..at + raw.len()]);
    }

    // The table of this shape, into a buffer that is long enough.
    fn fill(&self, shape: Shape, table: &mut [u8])
        requires size { shape.size ≡ self.now.size }
        requires count { shape.count ≡ length (rows_of self.now) }
        requires base { shape.base ≡ base_in self.now.base (rows_of self.now) }
        requires numbers { late_in header_size (rows_of self.now) ≡ None }
        requires room { table_length shape.size shape.count ≤ length table.old }
        ensures { table.new ≡ table_of_extract self.now
            ++ drop (table_length shape.size shape.count) table.old }
    {
        table[..HEADER_SIZE].copy_from_slice(&shape.header());
        let mut row = 0;
        for i in 0..self.count() {
            if let Judged::Sound = judge(self.record(i)) {
                self.put(shape, row, i, table);
                row += 1;
            }
        }
    }

    /// Writes the table of the records that are sound, each fixed up, and reports what became of all of them. It
    /// refuses by 44, 34 and 35, in this order; then the buffer stays as it was, as do its bytes behind the table.
    #[tactic(auto, using(crate::proofs::Calls::called))]
    pub fn write(&self, table: &mut [u8]) -> Result<Extracted, Refusal>
        ensures answer { told result ≡ extract_of self.now (length table.old) }
        ensures written { IfOk result (λ r. table.new ≡ table_of_extract self.now ++ drop r.length table.old) }
        ensures unchanged { OnErr result (table.new ≡ table.old) }
    {
        let tally = self.tally();
        if let Some(place) = tally.late {
            return Cause::RowNumber.refuses(RecordNumber(0), place);
        }
        let shape = Shape::of(tally.written, self.size)?.with_base(tally.base);
        shape.check_room(table.len())?;
        self.fill(shape, table);
        Ok(Extracted {
            length: shape.length(),
            written: tally.written,
            left_out: tally.left_out,
            refused: tally.refused,
            first_refused: tally.first_refused,
        })
    }
}
