//! One line of a report (RULES 18.9, 18.10).
use fields::{Cause, RecordNumber};
use lines::Ending;
use record::{Record, RecordHeader};

/// Whether a row's record is in use, or what refuses it.
#[derive(Clone, Copy, Debug, PartialEq, Eq)]
pub enum State {
    Used,
    Free,
    Refused(Cause),
}

/// A line of a report: one that a listing has too; a row, by its record's number and where that record stands, an
/// offset in the table; how many rows there were; a record's header; or how a walk ended, or what refused its record.
#[derive(Clone, Copy)]
pub enum Line {
    Listed(lines::Line),
    Row {
        number: RecordNumber,
        place: usize,
        state: State,
    },
    Rows {
        count: usize,
    },
    Header(RecordHeader),
    End,
    Stopped(Cause),
    Refused(Cause),
}

impl State {
    ghost use Rattle.std.specs.Prelude.{◌≡◌};
    ghost use Rattle.record.specs.Open.{open_of};
    ghost use Rattle.report.specs.Rows.{state_of};

    /// What a record is, by its first bytes and its flags.
    #[tactic(auto, unfolding(crate::specs::Rows::state_of))]
    pub fn of(bytes: &[u8], number: RecordNumber) -> State
        ensures { result ≡ state_of (open_of bytes.now number) }
    {
        match Record::open(bytes, number) {
            Ok(opened) => {
                if opened.header().flags % 2 == 1 {
                    State::Used
                } else {
                    State::Free
                }
            }
            Err(r) => State::Refused(r.cause),
        }
    }
}

impl Line {
    ghost use Rattle.std.specs.Prelude.{◌≡◌};
    ghost use Rattle.report.specs.Ending.{says};

    /// What the line says of its report's end; only a last line says something.
    pub fn ending(&self) -> Option<Ending>
        ensures { result ≡ says self.now }
    {
        match *self {
            Line::Listed(line) => line.ending(),
            Line::Row { .. } | Line::Header(_) => None,
            Line::Rows { .. } | Line::End => Some(Ending::Whole),
            Line::Stopped(cause) => Some(Ending::Stopped(cause)),
            Line::Refused(cause) => Some(Ending::Refused(cause)),
        }
    }
}
