//! Listings, to a writer: many lines to one write.
ghost use Rattle.std.specs.Prelude.{◌≡◌, ◌≤◌, ◌+◌, length, take, Some, IfOk, OnOk, OnErr};
ghost use Rattle.std.specs.Io.KnownBytes.{Appends};
ghost use Rattle.lines.specs.Line.{most_line, lines_text};
ghost use Rattle.lines.specs.Listing.{most_parts, listing_of};
ghost use Rattle.lines.specs.Numbered.{table_listing, record_listing};
ghost use Rattle.lines.specs.Ending.{ending_of};
ghost use Rattle.lines.specs.Finished.{Finished};
ghost use Rattle.lines.specs.Rest.{rest};
ghost use Rattle.lines.specs.Went.{Went, StopsWithin};

use crate::line::MOST_LINE;
use crate::put::put_line;
use crate::{Ending, Lines};
use fields::RecordNumber;
use parts::{MOST_PARTS, Part};
use std::io;
use std::io::{ErrorKind, Write};

// How many bytes of text go to one write, at most.
const PAGE: usize = 8192;

// Writes bytes, or as many of them as the writer takes before it fails. By hand, since std's write_all says nothing of
// the writer after an error; with as many turns as a number counts, since a writer may be interrupted for ever.
pub fn write_all<W: Write>(out: &mut W, bytes: &[u8]) -> io::Result<()>
    ensures ok { OnOk result (Appends (W.contents out.old) (W.contents out.new) bytes.now) }
    ensures err { OnErr result (StopsWithin (W.contents out.old) (W.contents out.new) bytes.now) }
{
    let mut rest = bytes;
    for _ in 0..u64::MAX {
        if rest.is_empty() {
            return Ok(());
        }
        match out.write(rest) {
            Ok(0) => return Err(io::Error::from(ErrorKind::WriteZero)),
            Ok(count) => rest = &rest[count..],
            Err(error) => {
                if error.kind() != ErrorKind::Interrupted {
                    return Err(error);
                }
            }
        }
    }
    Err(io::Error::from(ErrorKind::TimedOut))
}

// Where the next line of a page goes: behind those before it, or, once these are written, to the front. A page is an
// array with where its text ends beside it: there is no heap, and text says why the two are no struct.
#[tactic(auto, using(crate::proofs::Wents::went_none, crate::proofs::Wents::went_front))]
fn make_room<W: Write>(out: &mut W, page: &[u8], at: usize) -> io::Result<usize>
    requires size { length page.now ≡ PAGE }
    requires most { at ≤ PAGE }
    ensures room { IfOk result (λ k. k + most_line ≤ PAGE) }
    ensures ok { IfOk result (λ k.
        Went (W.contents out.old) (W.contents out.new) (take k page.now) (take at page.now)) }
    ensures err { OnErr result (StopsWithin (W.contents out.old) (W.contents out.new) (take at page.now)) }
{
    if at + MOST_LINE <= page.len() {
        return Ok(at);
    }
    write_all(out, &page[..at])?;
    Ok(0)
}

// Writes the lines that are still to come of a listing, with this lent list; how it ended.
fn write_lines<W: Write>(from: Lines, parts: &mut [Part], out: &mut W) -> io::Result<Ending>
    requires { Finished (rest parts.old from) }
    ensures ok { OnOk result
        (Appends (W.contents out.old) (W.contents out.new) (lines_text (rest parts.old from.entry))) }
    ensures err { OnErr result
        (StopsWithin (W.contents out.old) (W.contents out.new) (lines_text (rest parts.old from.entry))) }
    ensures ending { IfOk result (λ e. ending_of (rest parts.old from.entry) ≡ Some e) }
{
    let mut page = [0u8; PAGE];
    let mut end: usize = 0;
    let mut lines = from;
    let mut said = None;
    'lines: while let Some(line) = lines.next(parts) {
        let from = make_room(out, &page, end)?;
        end = put_line(&mut page, from, &line);
        said = line.ending();
    }
    write_all(out, &page[..end])?;
    match said {
        Some(ending) => Ok(ending),
        None => unreachable!(),
    }
}

/// Writes the listing of a table of at most 65,536 bytes, and answers how it ended. What is written before a failure
/// is the front of it.
#[tactic(auto, using(crate::proofs::Endings::listing_ends))]
pub fn write_listing<W: Write>(table: &[u8], out: &mut W) -> io::Result<Ending>
    ensures ok { OnOk result
        (Appends (W.contents out.old) (W.contents out.new) (lines_text (listing_of most_parts table.now))) }
    ensures err { OnErr result
        (StopsWithin (W.contents out.old) (W.contents out.new) (lines_text (listing_of most_parts table.now))) }
    ensures ending { IfOk result (λ e. ending_of (listing_of most_parts table.now) ≡ Some e) }
{
    let mut parts = [Part::BLANK; MOST_PARTS];
    write_lines(Lines::of_any(table), &mut parts, out)
}

/// The same of a table of any size.
#[tactic(auto, using(crate::proofs::Endings::table_ends))]
pub fn write_table<W: Write>(table: &[u8], out: &mut W) -> io::Result<Ending>
    ensures ok { OnOk result
        (Appends (W.contents out.old) (W.contents out.new) (lines_text (table_listing most_parts table.now))) }
    ensures err { OnErr result
        (StopsWithin (W.contents out.old) (W.contents out.new) (lines_text (table_listing most_parts table.now))) }
    ensures ending { IfOk result (λ e. ending_of (table_listing most_parts table.now) ≡ Some e) }
{
    let mut parts = [Part::BLANK; MOST_PARTS];
    write_lines(Lines::of_bytes(table), &mut parts, out)
}

/// The same of the record with a number, in a table of any size, with a base row or without one.
#[tactic(auto, using(crate::proofs::Endings::record_ends))]
pub fn write_record_of<W: Write>(
    table: &[u8],
    number: RecordNumber,
    out: &mut W,
) -> io::Result<Ending>
    ensures ok { OnOk result
        (Appends (W.contents out.old) (W.contents out.new) (lines_text (record_listing most_parts table.now number))) }
    ensures err { OnErr result (StopsWithin (W.contents out.old) (W.contents out.new)
        (lines_text (record_listing most_parts table.now number))) }
    ensures ending { IfOk result (λ e. ending_of (record_listing most_parts table.now number) ≡ Some e) }
{
    let mut parts = [Part::BLANK; MOST_PARTS];
    write_lines(Lines::of_record_in(table, number), &mut parts, out)
}
