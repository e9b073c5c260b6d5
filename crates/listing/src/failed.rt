//! Why a listing is not whole, in the words that the program says.

use std::io;
use std::io::ErrorKind;
use thiserror::Error;

/// Memory ran out, the input could not be read to its end, or the listing not be written to its end. In the first two
/// cases nothing is listed.
#[derive(Debug, Drop, Error)]
pub enum Failed {
    #[error("out of memory; nothing is listed")]
    OutOfMemory,
    #[error("the input could not be read: {0}; nothing is listed")]
    Read(io::Error),
    #[error("the listing could not be written: {0}")]
    Write(io::Error),
}

impl Failed {
    ghost use Rattle.std.specs.Prelude.{◌↔◌, IsTrue};
    ghost use Rattle.std.specs.IoError.{error_kind};
    ghost use Rattle.listing.specs.Ran.{FailedRead, IsClosedPipe};

    /// A read also fails where there is no memory for what it gives.
    pub fn of_read(error: io::Error) -> Failed
        ensures { FailedRead (error_kind error) error result }
    {
        match error.kind() {
            ErrorKind::OutOfMemory => Failed::OutOfMemory,
            _ => Failed::Read(error),
        }
    }

    /// Whether the listing went to a pipe that its reader has closed. Who reads no further wants no word on it.
    pub fn is_closed_pipe(&self) -> bool
        ensures { IsTrue result ↔ IsClosedPipe self.now }
    {
        match self {
            Failed::Write(error) => error.kind() == ErrorKind::BrokenPipe,
            Failed::OutOfMemory | Failed::Read(_) => false,
        }
    }
}
