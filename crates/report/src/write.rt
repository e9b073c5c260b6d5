//! Reports, to a writer.
ghost use Rattle.std.specs.Prelude.{◌≡◌, Some, IfOk, OnOk, OnErr};
ghost use Rattle.std.specs.Io.KnownBytes.{Appends};
ghost use Rattle.lines.specs.Listing.{most_parts};
ghost use Rattle.lines.specs.Went.{StopsWithin};
ghost use Rattle.report.specs.Form.{lines_text};
ghost use Rattle.report.specs.Ending.{ending_of};
ghost use Rattle.report.specs.Finished.{Finished};
ghost use Rattle.report.specs.Listing.{table_report, numbered_report};
ghost use Rattle.report.specs.Rows.{rows_report};
ghost use Rattle.report.specs.Record.{record_report};
ghost use Rattle.report.specs.Rest.{rest};

use crate::form::{MOST_LINE, put_formed};
use crate::{Form, Lines};
use fields::RecordNumber;
use lines::{Ending, write_all};
use parts::{MOST_PARTS, Part};
use std::io;
use std::io::Write;

// Writes the lines that are still to come, with this lent list, a line to a write. How they ended.
fn write_lines<W: Write>(
    from: Lines,
    parts: &mut [Part],
    form: Form,
    out: &mut W,
) -> io::Result<Ending>
    requires { Finished (rest parts.old from) }
    ensures ok { OnOk result
        (Appends (W.contents out.old) (W.contents out.new) (lines_text form (rest parts.old from.entry))) }
    ensures err { OnErr result
        (StopsWithin (W.contents out.old) (W.contents out.new) (lines_text form (rest parts.old from.entry))) }
    ensures ending { IfOk result (λ e. ending_of (rest parts.old from.entry) ≡ Some e) }
{
    let mut text = [0u8; MOST_LINE];
    let mut lines = from;
    let mut said = None;
    'lines: while let Some(line) = lines.next(parts) {
        let end = put_formed(form, &mut text, 0, &line);
        write_all(out, &text[..end])?;
        said = line.ending();
    }
    match said {
        Some(ending) => Ok(ending),
        None => unreachable!(),
    }
}

/// Writes the listing of a table of any size in a form, and answers how it ended. What is written before a failure is
/// the front of it. As text `lines::write_table` writes the same, many lines to a write.
#[tactic(auto, using(crate::proofs::Endings::table_ends))]
pub fn write_table<W: Write>(table: &[u8], form: Form, out: &mut W) -> io::Result<Ending>
    ensures ok { OnOk result (Appends (W.contents out.old) (W.contents out.new)
        (lines_text form (table_report most_parts table.now))) }
    ensures err { OnErr result (StopsWithin (W.contents out.old) (W.contents out.new)
        (lines_text form (table_report most_parts table.now))) }
    ensures ending { IfOk result (λ e. ending_of (table_report most_parts table.now) ≡ Some e) }
{
    let mut parts = [Part::BLANK; MOST_PARTS];
    write_lines(Lines::of_table(table), &mut parts, form, out)
}

/// The same of the record with a number, in a table with a base row or without one.
#[tactic(auto, using(crate::proofs::Endings::numbered_ends))]
pub fn write_numbered<W: Write>(
    table: &[u8],
    number: RecordNumber,
    form: Form,
    out: &mut W,
) -> io::Result<Ending>
    ensures ok { OnOk result (Appends (W.contents out.old) (W.contents out.new)
        (lines_text form (numbered_report most_parts table.now number))) }
    ensures err { OnErr result (StopsWithin (W.contents out.old) (W.contents out.new)
        (lines_text form (numbered_report most_parts table.now number))) }
    ensures ending { IfOk result (λ e.
        ending_of (numbered_report most_parts table.now number) ≡ Some e) }
{
    let mut parts = [Part::BLANK; MOST_PARTS];
    write_lines(Lines::of_numbered(table, number), &mut parts, form, out)
}

/// Writes what the rows of a table hold, a line a row, and answers how it ended: whole, or refused by 21. What is
/// written before a failure is the front of it.
#[tactic(auto, using(crate::proofs::Endings::rows_end))]
pub fn write_rows<W: Write>(table: &[u8], form: Form, out: &mut W) -> io::Result<Ending>
    ensures ok { OnOk result
        (Appends (W.contents out.old) (W.contents out.new) (lines_text form (rows_report table.now))) }
    ensures err { OnErr result
        (StopsWithin (W.contents out.old) (W.contents out.new) (lines_text form (rows_report table.now))) }
    ensures ending { IfOk result (λ e. ending_of (rows_report table.now) ≡ Some e) }
{
    let mut parts = [Part::BLANK; 0];
    write_lines(Lines::of_rows(table), &mut parts, form, out)
}

/// Writes a record's header and its attributes as the raw walk gives them, and answers how it ended: whole, stopped, or
/// refused by 1 or 2. What is written before a failure is the front of it.
#[tactic(auto, using(crate::proofs::Endings::record_ends))]
pub fn write_record<W: Write>(
    bytes: &[u8],
    number: RecordNumber,
    form: Form,
    out: &mut W,
) -> io::Result<Ending>
    ensures ok { OnOk result
        (Appends (W.contents out.old) (W.contents out.new) (lines_text form (record_report bytes.now number))) }
    ensures err { OnErr result
        (StopsWithin (W.contents out.old) (W.contents out.new) (lines_text form (record_report bytes.now number))) }
    ensures ending { IfOk result (λ e. ending_of (record_report bytes.now number) ≡ Some e) }
{
    let mut parts = [Part::BLANK; 0];
    write_lines(Lines::of_record(bytes, number), &mut parts, form, out)
}
