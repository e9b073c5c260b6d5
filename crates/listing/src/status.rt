//! The exit status: how the listing ended, or what there is none of (docs/REFERENCE.md, "The listing").
ghost use Rattle.std.specs.Prelude.{◌≡◌};
ghost use Rattle.listing.specs.Status.{status_of};

use crate::failed::Failed;
use crate::outcome::Outcome;
use lines::Ending;

const WHOLE: u8 = 0;

const STOPPED: u8 = 1;

const TABLE_REFUSED: u8 = 2;

const UNREAD: u8 = 3;

// EX_IOERR of sysexits.h
const UNWRITTEN: u8 = 74;

/// The exit status of a run.
pub fn status(ended: &Result<Outcome, Failed>) -> u8
    ensures { result ≡ status_of ended.now }
{
    match ended {
        Ok(Outcome::Listed(Ending::Whole)) => WHOLE,
        Ok(Outcome::Listed(Ending::Stopped(_))) => STOPPED,
        Ok(Outcome::Listed(Ending::Refused(_)) | Outcome::EmptyInput) => TABLE_REFUSED,
        Err(Failed::OutOfMemory | Failed::Read(_)) => UNREAD,
        Err(Failed::Write(_)) => UNWRITTEN,
    }
}
