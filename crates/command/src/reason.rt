//! Why what is asked of an input is not told to its end, in words, and the status that follows.
ghost use Rattle.std.specs.Prelude.{◌≡◌};
ghost use Rattle.command.specs.Reason.{status_of, table_reason, refused_reason, ending_reason};

use crate::{Absence, Asked, FirstRefused, Misfit, Status, Unmade};
use fields::{Cause, RecordNumber};
use lines::Ending;
use record::is_file;
use std::io;
use table::Fault;
use thiserror::Error;

/// Why what is asked of an input is not told to its end. A number in brackets is that of the refusal (RULES 19).
#[derive(Clone, Copy, Debug, Error)]
pub enum Reason {
    #[error("the listing stops: {0} ({number})", number = .0.number())]
    Stopped(Cause),
    #[error("no table: it is empty (21)")]
    Empty,
    #[error("no table: it begins with FILE, as raw records do: nomutanku extract makes a table of them (21)")]
    RawRecord,
    #[error("no table: {0} (21)")]
    NoTable(Fault),
    #[error("a table without a base row: name one of its records by --base (21)")]
    NoBaseRow,
    #[error("the table has no record {number} (17)", number = .0.0)]
    NoRecord(RecordNumber),
    #[error("no record: {0} ({number})", number = .1.number())]
    Unfit(Misfit, Cause),
    #[error("no table: the record at its front tells no record size: name it by --size")]
    SizeUntold,
    #[error("no table: {0} ({number})", number = .0.cause().number())]
    Unmade(Unmade),
    #[error("{0}")]
    RecordRefused(FirstRefused),
    #[error("record {number}: {1}", number = .0.0)]
    Absent(RecordNumber, Absence),
    #[error("record {number}, to which a list of record {of} refers: {2}", number = .0.0, of = .1.0)]
    Lost(RecordNumber, RecordNumber, Absence),
    #[error("record {number}: {1} ({cause})", number = .0.0, cause = .1.number())]
    Unlisted(RecordNumber, Cause),
    #[error("record {file} may have the name too, its listing stops: {1} ({cause})", file = .0.0, cause = .1.number())]
    Unsearched(RecordNumber, Cause),
    #[error("{0}")]
    Unreadable(io::Error),
    #[error("out of memory")]
    OutOfMemory,
}

// Why these bytes are no table, or lack what is wanted of one: the record with a number, or a base row.
#[tactic(auto, unfolding(crate::specs::Reason::table_reason))]
fn table_reason(bytes: &[u8], wanted: Option<RecordNumber>) -> Reason
    ensures { result ≡ table_reason bytes.now wanted }
{
    if bytes.is_empty() {
        return Reason::Empty;
    }
    if is_file(bytes) {
        return Reason::RawRecord;
    }
    match (Fault::of(bytes), wanted) {
        (Some(fault), _) => Reason::NoTable(fault),
        (None, Some(number)) => Reason::NoRecord(number),
        (None, None) => Reason::NoBaseRow,
    }
}

impl Reason {
    /// The status that follows.
    pub fn status(self) -> Status
        ensures { result ≡ status_of self }
    {
        match self {
            Reason::Stopped(_)
            | Reason::RecordRefused(_)
            | Reason::Lost(..)
            | Reason::Unlisted(..)
            | Reason::Unsearched(..) => Status::Stopped,
            Reason::Empty
            | Reason::RawRecord
            | Reason::NoTable(_)
            | Reason::NoBaseRow
            | Reason::NoRecord(_)
            | Reason::Unfit(..)
            | Reason::SizeUntold
            | Reason::Unmade(_)
            | Reason::Absent(..) => Status::Refused,
            Reason::Unreadable(_) | Reason::OutOfMemory => Status::Unreadable,
        }
    }

    /// Why what is asked of these bytes is refused, by a cause.
    #[tactic(auto, unfolding(crate::specs::Reason::refused_reason))]
    pub fn of_refused(asked: Asked, bytes: &[u8], cause: Cause) -> Reason
        ensures { result ≡ refused_reason asked bytes.now cause }
    {
        match asked {
            Asked::Listing(wanted) => table_reason(bytes, wanted),
            Asked::Rows => table_reason(bytes, None),
            Asked::Record(_) => Reason::Unfit(Misfit::of(bytes), cause),
        }
    }

    /// Why a report of what is asked of these bytes, which ended so, did not come to its end, if it did not.
    pub fn of_ending(asked: Asked, bytes: &[u8], ending: Ending) -> Option<Reason>
        ensures { result ≡ ending_reason asked bytes.now ending }
    {
        match ending {
            Ending::Whole => None,
            Ending::Stopped(cause) => Some(Reason::Stopped(cause)),
            Ending::Refused(cause) => Some(Reason::of_refused(asked, bytes, cause)),
        }
    }
}
