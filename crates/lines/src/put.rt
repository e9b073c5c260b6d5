//! The text of a line, put at a place of a lent buffer.
// Beside `Display`, by the same definition: through `Display` a listing takes more than three times as long. The
// buffer and where its text ends are two for the reason in text.
ghost use Rattle.std.specs.Prelude.{◌+◌, ◌≤◌, length, [], ◌∷◌, ◌++◌};
ghost use Rattle.fields.specs.Told.{number_of};
ghost use Rattle.text.specs.Decimal.{words};
ghost use Rattle.text.specs.Put.{Put};
ghost use Rattle.lines.specs.Line.{most_line, newline, spaced, name_text, contents_text, attribute_text, part_text};
ghost use Rattle.lines.specs.Line.{run_text, line_text};

use crate::line::part_numbers;
use crate::{AttributeLine, Contents, Line, Name};
use fields::Cause;
use parts::Part;
use runs::Run;
use text::{put_byte, put_words};

fn put_name(out: &mut [u8], at: usize, name: Name) -> usize
    requires { at + 55 ≤ length out.old }
    ensures { Put out.old at out.new result (spaced (name_text name)) 55 }
{
    match name {
        Name::At(span) => put_words(out, at, b" name", &[span.from as u64, span.bytes as u64]),
        Name::Refused(cause) => put_words(out, at, b" name refused", &[u64::from(cause.number())]),
    }
}

fn put_contents(out: &mut [u8], at: usize, contents: Contents) -> usize
    requires { at + 79 ≤ length out.old }
    ensures { Put out.old at out.new result (spaced (contents_text contents)) 79 }
{
    match contents {
        Contents::Resident(span) => put_words(
            out,
            at,
            b" value resident",
            &[span.from as u64, span.bytes as u64],
        ),
        Contents::Runs { runs, size } => {
            let place = [runs.from as u64, runs.bytes as u64];
            let end = put_words(out, at, b" value runs", &place);
            put_words(out, end, b" size", &[size])
        }
        Contents::Refused(cause) => put_words(
            out,
            at,
            b" value refused",
            &[u64::from(cause.number())],
        ),
        Contents::Parts { count, size } => {
            let end = put_words(out, at, b" value parts", &[count as u64]);
            put_words(out, end, b" size", &[size])
        }
        Contents::PartsRefused { count, cause } => {
            let end = put_words(out, at, b" value parts", &[count as u64]);
            put_words(out, end, b" refused", &[u64::from(cause.number())])
        }
    }
}

fn put_attribute(out: &mut [u8], at: usize, a: &AttributeLine) -> usize
    requires { at + most_line ≤ length out.old }
    ensures { Put out.old at out.new result (attribute_text a.now) most_line }
{
    let end = put_words(out, at, b"attr", &a.numbers());
    let end = put_name(out, end, a.name);
    let end = put_contents(out, end, a.contents);
    put_byte(out, end, b'\n')
}

fn put_part(out: &mut [u8], at: usize, part: &Part) -> usize
    requires { at + most_line ≤ length out.old }
    ensures { Put out.old at out.new result (part_text part.now) most_line }
{
    let end = put_words(out, at, b"part", &part_numbers(part));
    put_byte(out, end, b'\n')
}

fn put_run(out: &mut [u8], at: usize, run: Run) -> usize
    requires { at + most_line ≤ length out.old }
    ensures { Put out.old at out.new result (run_text run) most_line }
{
    let end = match run {
        Run::Clusters { start, length } => put_words(out, at, b"run", &[start.0, length]),
        Run::Hole { length } => put_words(out, at, b"hole", &[length]),
    };
    put_byte(out, end, b'\n')
}

fn put_refused(out: &mut [u8], at: usize, cause: Cause) -> usize
    requires { at + most_line ≤ length out.old }
    ensures { Put out.old at out.new result (words "table refused" (number_of cause ∷ []) ++ newline) most_line }
{
    let end = put_words(out, at, b"table refused", &[u64::from(cause.number())]);
    put_byte(out, end, b'\n')
}

/// Puts the text of a line behind a buffer's first bytes, of which there are `at`; answers where it ends.
#[inline(always)]
pub fn put_line(out: &mut [u8], at: usize, line: &Line) -> usize
    requires { at + most_line ≤ length out.old }
    ensures { Put out.old at out.new result (line_text line.now) most_line }
{
    match line {
        Line::Attribute(a) => put_attribute(out, at, a),
        Line::Part(part) => put_part(out, at, part),
        Line::Run(run) => put_run(out, at, *run),
        Line::RunsRefused(cause) => {
            let end = put_words(out, at, b"run refused", &[u64::from(cause.number())]);
            put_byte(out, end, b'\n')
        }
        Line::Record { number, size } => {
            let end = put_words(out, at, b"record", &[number.0]);
            let end = put_words(out, end, b" size", &[*size as u64]);
            put_byte(out, end, b'\n')
        }
        Line::End { reads } => {
            let end = put_words(out, at, b"end reads", &[*reads]);
            put_byte(out, end, b'\n')
        }
        Line::Stopped { cause, reads } => {
            let end = put_words(out, at, b"stopped", &[u64::from(cause.number())]);
            let end = put_words(out, end, b" reads", &[*reads]);
            put_byte(out, end, b'\n')
        }
        Line::TableRefused => put_refused(out, at, Cause::BadTable),
        Line::NoRecord => put_refused(out, at, Cause::NoRecord),
    }
}
