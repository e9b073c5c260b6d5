//! Why bytes that are to be merged are no table, for people.
ghost use Rattle.std.specs.Prelude.{◌≡◌};
ghost use Rattle.command.specs.Flaw.{flaw_by, flaw_text};

use record::is_file;
use std::fmt;
use table::Fault;

/// Why bytes that are to be merged are no table.
#[derive(Clone, Copy, Debug, PartialEq, Eq)]
pub enum Flaw {
    Empty,
    /// They begin with FILE.
    RawRecord,
    /// The row that stands at this place is at fault.
    Row(usize),
    /// The header is at fault.
    Header(Fault),
}

// Where a fault lies: in the row at a place, or in the header.
fn by_fault(fault: Fault) -> Flaw
    ensures { result ≡ flaw_by fault }
{
    match fault {
        Fault::RowNumber(place)
        | Fault::RowOrder(place)
        | Fault::RowBegin(place)
        | Fault::RowEnd(place) => Flaw::Row(place),
        _ => Flaw::Header(fault),
    }
}

impl Flaw {
    ghost use Rattle.std.specs.Prelude.{◌≡◌};
    ghost use Rattle.command.specs.Flaw.{flaw_of};

    /// Why these bytes are no table, by the first of their faults; none exactly where they are one.
    #[tactic(auto, unfolding(crate::specs::Flaw::flaw_of))]
    pub fn of(bytes: &[u8]) -> Option<Flaw>
        ensures { result ≡ flaw_of bytes.now }
    {
        let fault = Fault::of(bytes)?;
        if bytes.is_empty() {
            return Some(Flaw::Empty);
        }
        if is_file(bytes) {
            return Some(Flaw::RawRecord);
        }
        Some(by_fault(fault))
    }
}

impl fmt::Display for Flaw {
    ghost output = { flaw_text };

    fn fmt<W: fmt::Write>(&self, f: &mut fmt::Formatter<W>) -> fmt::Result {
        match *self {
            Flaw::Empty => write!(f, "it is empty"),
            Flaw::RawRecord => write!(
                f,
                "it begins with FILE, as raw records do: nomutanku extract makes a table of them"
            ),
            Flaw::Row(place) => write!(f, "row at {place}"),
            Flaw::Header(fault) => write!(f, "{fault}"),
        }
    }
}
