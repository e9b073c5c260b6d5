//! The lines of a report, one by one: no memory is allocated (RULES 18.9, 18.10).
ghost use Rattle.std.specs.Prelude.{◌≡◌, List, [], ◌∷◌, ◌++◌, map};
ghost use Rattle.record.specs.Rest as records;
ghost use Rattle.table.specs.Rows as tables;
ghost use Rattle.parts.specs.declared.Part.{Part};
ghost use Rattle.lines.specs.Rest as listings;
ghost use Rattle.report.specs.declared.line.Line.TheVariants as line;
ghost use Rattle.report.specs.Rows.{row_of, rows_behind};
ghost use Rattle.report.specs.Record.{walk_lines};
ghost use Rattle.report.specs.Rest.{source_rest, Gives};

use crate::{Line, State};
use fields::RecordNumber;
use lines::{next_run, raw_line};
use parts::Part;
use record::{Attributes, Record};
use runs::Runs;
use table::{EachRow, Row, Table};

/// Where the next line comes from: rows, of which there were so many in all, or the runs under the line before and the
/// attributes of a record.
// The count and the record stand beside the iterators, whose contracts tell only what they give.
#[derive(Clone, Copy)]
pub enum Source<'a> {
    Done,
    Listing(lines::Lines<'a>),
    Rows(EachRow<'a>, usize),
    Attributes(Record<'a>, Option<Runs<'a>>, Attributes<'a>),
}

/// The lines of a report that are still to come.
#[derive(Clone, Copy)]
pub struct Lines<'a> {
    pub first: Option<Line>,
    pub second: Option<Line>,
    pub source: Source<'a>,
}

#[tactic(auto, unfolding(crate::specs::Rows::row_of))]
fn row_line(row: Row, bytes: &[u8]) -> Line
    ensures { result ≡ row_of (record { row = row; bytes = bytes.now }) }
{
    Line::Row {
        number: row.number,
        place: row.offset as usize,
        state: State::of(bytes, row.number),
    }
}

// A line of a listing.
fn step_listing(listing: &mut lines::Lines, parts: &mut [Part]) -> Option<Line>
    ensures { Gives (map (λ x. line.Listed x) (listings.rest parts.old listing.old)) result
        (map (λ x. line.Listed x) (listings.rest parts.new listing.new)) }
{
    match listing.next(parts) {
        Some(line) => Some(Line::Listed(line)),
        None => None,
    }
}

impl<'a> Source<'a> {
    ghost use Rattle.report.specs.Rest.{Gives, source_rest};

    // A row's line, or how many there were.
    fn step_rows(&mut self, mut rows: EachRow<'a>, count: usize) -> Line
        ensures { (ps : List Part) →
            rows_behind (tables.rest rows.entry) count ≡ result ∷ source_rest ps self.new }
    {
        match rows.next() {
            Some((row, bytes)) => {
                *self = Source::Rows(rows, count);
                row_line(row, bytes)
            }
            None => {
                *self = Source::Done;
                Line::Rows { count }
            }
        }
    }

    // An attribute's line with its runs to come, or how the walk ended.
    #[tactic(auto, unfolding(crate::specs::Record::walk_lines))]
    fn step_attributes(&mut self, within: Record<'a>, mut attributes: Attributes<'a>) -> Line
        ensures { (ps : List Part) → walk_lines within.entry.bytes.now within.entry.number
            (records.rest attributes.entry) ≡ result ∷ source_rest ps self.new }
    {
        match attributes.next() {
            Some(Ok(attribute)) => {
                let raw = raw_line(&within, &attribute);
                *self = Source::Attributes(within, raw.runs, attributes);
                Line::Listed(raw.line)
            }
            Some(Err(r)) => {
                *self = Source::Done;
                Line::Stopped(r.cause)
            }
            None => {
                *self = Source::Done;
                Line::End
            }
        }
    }

    // A run of the line before, or what the walk gives.
    fn step_record(
        &mut self,
        within: Record<'a>,
        mut runs: Option<Runs<'a>>,
        attributes: Attributes<'a>,
    ) -> Line
        ensures { (ps : List Part) → map (λ x. line.Listed x) (listings.runs_rest runs.entry)
            ++ walk_lines within.entry.bytes.now within.entry.number (records.rest attributes.entry)
            ≡ result ∷ source_rest ps self.new }
    {
        match next_run(&mut runs) {
            Some(line) => {
                *self = Source::Attributes(within, runs, attributes);
                Line::Listed(line)
            }
            None => self.step_attributes(within, attributes),
        }
    }

    /// The next line: a listing's, a row's, an attribute's or a run's, and behind the last of these how many rows there
    /// were, or how the walk ended. The list is lent as in a listing. The source is moved on in place: a listing holds
    /// a walk's state, which has a name's 510 bytes.
    pub fn step(&mut self, parts: &mut [Part]) -> Option<Line>
        ensures { Gives (source_rest parts.old self.old) result (source_rest parts.new self.new) }
    {
        if let Source::Listing(listing) = self {
            return step_listing(listing, parts);
        }
        match *self {
            Source::Rows(rows, count) => Some(self.step_rows(rows, count)),
            Source::Attributes(within, runs, attributes) => {
                Some(self.step_record(within, runs, attributes))
            }
            _ => None,
        }
    }
}

impl<'a> Lines<'a> {
    ghost use Rattle.std.specs.Prelude.{◌≡◌, ◌∷◌, [], List, length};
    ghost use Rattle.parts.specs.declared.Part.{Part};
    ghost use Rattle.report.specs.Rows.{rows_report};
    ghost use Rattle.report.specs.Record.{record_report};
    ghost use Rattle.report.specs.Listing.{table_report, numbered_report};
    ghost use Rattle.report.specs.Rest.{rest, Gives};

    // One line and no more.
    fn only(line: Line) -> Lines<'a>
        ensures { (ps : List Part) → rest ps result ≡ line ∷ [] }
    {
        Lines {
            first: Some(line),
            second: None,
            source: Source::Done,
        }
    }

    /// The listing of a table of any size.
    pub fn of_table(table: &'a [u8]) -> Lines<'a>
        ensures { (ps : List Part) → rest ps result ≡ table_report (length ps) table.now }
    {
        Lines {
            first: None,
            second: None,
            source: Source::Listing(lines::Lines::of_bytes(table)),
        }
    }

    /// The listing of the record with a number, in a table of any size.
    pub fn of_numbered(table: &'a [u8], number: RecordNumber) -> Lines<'a>
        ensures { (ps : List Part) → rest ps result ≡ numbered_report (length ps) table.now number }
    {
        Lines {
            first: None,
            second: None,
            source: Source::Listing(lines::Lines::of_record_in(table, number)),
        }
    }

    /// What the rows of a table hold, of any bytes: 21 is the only line where they are no table.
    #[tactic(auto, unfolding(crate::specs::Rows::rows_lines))]
    pub fn of_rows(table: &'a [u8]) -> Lines<'a>
        ensures { (ps : List Part) → rest ps result ≡ rows_report table.now }
    {
        match Table::check(table) {
            Ok(table) => Lines {
                first: None,
                second: None,
                source: Source::Rows(table.rows(), table.header.count as usize),
            },
            Err(_) => Lines::only(Line::Listed(lines::Line::TableRefused)),
        }
    }

    /// One record, of any bytes, with a number: 1 or 2 is the only line where it is refused.
    #[tactic(auto, unfolding(crate::specs::Record::record_lines))]
    pub fn of_record(bytes: &'a [u8], number: RecordNumber) -> Lines<'a>
        ensures { (ps : List Part) → rest ps result ≡ record_report bytes.now number }
    {
        match Record::open(bytes, number) {
            Ok(opened) => Lines {
                first: Some(Line::Listed(lines::Line::Record {
                    number: opened.number,
                    size: opened.bytes.len(),
                })),
                second: Some(Line::Header(opened.header())),
                source: Source::Attributes(opened, None, opened.attributes()),
            },
            Err(r) => Lines::only(Line::Refused(r.cause)),
        }
    }

    /// The next line, or that all have been given.
    pub fn next(&mut self, parts: &mut [Part]) -> Option<Line>
        ensures { Gives (rest parts.old self.old) result (rest parts.new self.new) }
    {
        if let Some(line) = self.first {
            self.first = None;
            return Some(line);
        }
        if let Some(line) = self.second {
            self.second = None;
            return Some(line);
        }
        self.source.step(parts)
    }
}
