//! Why a record of a raw $MFT is not there to be listed.
use fields::Cause;
use thiserror::Error;

/// Why a record of a raw $MFT is not there to be listed.
#[derive(Clone, Copy, Debug, PartialEq, Eq, Error)]
pub enum Absence {
    #[error("the file does not have it")]
    Missing,
    #[error("the file ends within it")]
    BrokenOff,
    #[error("it begins otherwise than with FILE")]
    NotFile,
    #[error("{0} ({number})", number = .0.number())]
    Refused(Cause),
}
