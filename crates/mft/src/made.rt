//! The table that a record is listed by, written into a buffer.
ghost use Rattle.std.specs.Prelude.{◌≡◌, ◌≤◌, ◌<◌, ◌∷◌, ℕ, List, [], true, length, take, IfOk, IfErr};
ghost use Rattle.fields.specs.Told.{told_as};
ghost use Rattle.fields.specs.declared.RecordNumber as numbers;
ghost use Rattle.extract.specs.Size.{good_size};
ghost use Rattle.items.specs.Told.{shown_base};
ghost use Rattle.record.specs.Open.{open_in};
ghost use Rattle.references.specs.Rising.{sorted};
ghost use Rattle.references.specs.Shown.{shown_rising};
ghost use Rattle.mft.specs.Gather.{wanted_by};
ghost use Rattle.mft.specs.Room.{Roomy};
ghost use Rattle.mft.specs.Made.{IsBase, IsBased, IsOf, IsTable, IsMade};
ghost use Rattle.extract.specs.Extracted.{extract_of, report_of};
ghost use Rattle.extract.specs.Size.{chosen_checked};
ghost use Rattle.extract.specs.declared.Extract as extracts;
ghost use Rattle.fields.specs.Answer.{gives};
ghost use Rattle.table.specs.Check.{number_end};

use crate::gathered::MOST_RECORDS;
use extract::Extract;
use extract::laws::reports_add_up;
use fields::{Cause, RecordNumber, Refusal};
use items::File;
use references::{References, Rising};
use table::Table;

// Writes the table of an extract, with the record with a number for its base record; how many bytes it has.
fn write_table(extract: &Extract<'_>, number: RecordNumber, table: &mut [u8]) -> usize
    requires { (x : extracts.Extract) → IsBased extract.now number x
        → extract_of x (length table.old) ≡ gives (report_of x) }
    ensures table { IsTable extract.now number (length table.old) (take result table.new) }
    ensures within { result ≤ length table.new }
{
    reports_add_up();
    match extract.with_base(number).write(table) {
        Ok(extracted) => extracted.length,
        Err(_) => unreachable!(),
    }
}

/// A raw record is made a table of its own, whose base record it is.
pub(crate) fn write_alone(own: &[u8], number: RecordNumber, table: &mut [u8]) -> usize
    requires good { good_size (length own.now) ≡ true }
    requires number { number.0 < number_end }
    requires room { Roomy (length own.now) (length table.old) }
    ensures table { IsMade (length own.now) own.now (number ∷ []) number (length table.old) (take result table.new) }
    ensures within { result ≤ length table.new }
{
    match Extract::check(own, own.len(), number) {
        Ok(extract) => write_table(&extract, number, table),
        Err(_) => unreachable!(),
    }
}

/// Raw records that were chosen, one behind another and all of one size, each with its number, are made a table, with
/// the record with a number for its base record.
pub(crate) fn write_chosen(
    raw: &[u8],
    size: u16,
    numbers: &[RecordNumber],
    number: RecordNumber,
    table: &mut [u8],
) -> usize
    requires suits { chosen_checked size raw.now numbers.now ≡ gives tt }
    requires made { (x : extracts.Extract) → IsOf size raw.now numbers.now x
        → extract_of x (length table.old) ≡ gives (report_of x) }
    ensures table { IsMade size raw.now numbers.now number (length table.old) (take result table.new) }
    ensures within { result ≤ length table.new }
{
    match Extract::chosen(raw, usize::from(size), numbers) {
        Ok(extract) => write_table(&extract, number, table),
        Err(_) => unreachable!(),
    }
}

/// The file that a table's base record begins, or why that record is refused.
pub(crate) fn file_of<'a>(table: &'a [u8]) -> Result<File<'a>, Refusal>
    ensures answer { (size : ℕ) (n : numbers.RecordNumber) (b : List ℕ) → IsBase table.now size n b
        → told_as shown_base result ≡ open_in b n size }
    ensures table { IfOk result (λ f. f.table.bytes.now ≡ table.now) }
{
    let table = Table::check(table)?;
    match table.base() {
        Some((number, bytes)) => File::open(table, bytes, number),
        None => Cause::BadTable.refuses(RecordNumber(0), 0),
    }
}

/// The numbers of the records that the listing of a table's base record takes; the number alone where the record is
/// refused.
pub(crate) fn wanted_in(file: &Result<File<'_>, Refusal>, number: RecordNumber) -> Rising
    ensures { shown_rising result ≡ wanted_by (told_as shown_base file.now) number }
{
    match file {
        Ok(file) => References::of(&file.base).rising(number),
        Err(_) => alone(number),
    }
}

// A number alone.
#[tactic(auto, unfolding(references::specs::Rising::sorted, references::specs::Rising::placed))]
fn alone(number: RecordNumber) -> Rising
    ensures { shown_rising result ≡ sorted (number ∷ []) }
{
    let mut numbers = [RecordNumber(0); MOST_RECORDS];
    numbers[0] = number;
    Rising { numbers, count: 1 }
}
