//! One record more of those that are gone through.
use crate::Told;
use command::Reason;

/// What became of the next record, where every base record in use is listed.
#[derive(Drop)]
pub enum Turn {
    /// There is none.
    End,
    /// It can't be read, nor can any behind it.
    Ended(Reason),
    /// It is no base record in use, or the file has not the name that is wanted.
    Passed,
    /// It was listed, or is refused.
    Told(Told),
}
