//! How a listing ended (RULES 18.2, 18.8).
use crate::Line;
use fields::Cause;

/// How a listing ended, as its last line says: its walk came to its end, or was refused; or there was no record to
/// list, by 21 or by 17.
#[derive(Clone, Copy, Debug, PartialEq, Eq)]
pub enum Ending {
    Whole,
    Stopped(Cause),
    Refused(Cause),
}

impl Line {
    ghost use Rattle.std.specs.Prelude.{◌≡◌};
    ghost use Rattle.lines.specs.Ending.{says};

    /// What the line says of its listing's end; only a last line says something.
    pub fn ending(&self) -> Option<Ending>
        ensures { result ≡ says self.now }
    {
        match *self {
            Line::Record { .. }
            | Line::Attribute(_)
            | Line::Part(_)
            | Line::Run(_)
            | Line::RunsRefused(_) => None,
            Line::End { .. } => Some(Ending::Whole),
            Line::Stopped { cause, .. } => Some(Ending::Stopped(cause)),
            Line::TableRefused => Some(Ending::Refused(Cause::BadTable)),
            Line::NoRecord => Some(Ending::Refused(Cause::NoRecord)),
        }
    }
}
