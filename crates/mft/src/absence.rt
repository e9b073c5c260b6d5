//! Why a raw record is not there to be listed.
ghost use Rattle.std.specs.Prelude.{◌≡◌, ℕ, List, true, length};
ghost use Rattle.extract.specs.Size.{good_size};
ghost use Rattle.extract.specs.Fixup.{verdict_of};
ghost use Rattle.extract.specs.Judge.{told_verdict};
ghost use Rattle.mft.specs.Absence.{absence_by};

use command::Absence;
use extract::{Extract, Judged};
use fields::RecordNumber;

// Why a record of which this becomes is not there to be listed, if it is not.
fn absent_as(judged: Judged) -> Option<Absence>
    ensures { (raw : List ℕ) → result ≡ absence_by (told_verdict raw judged) }
{
    match judged {
        Judged::LeftOut => Some(Absence::NotFile),
        Judged::Refused(cause) => Some(Absence::Refused(cause)),
        Judged::Sound => None,
    }
}

/// Why a raw record that was read whole is not there to be listed, if it is not (RULES 23.3 to 23.5).
pub(crate) fn absence_of(raw: &[u8]) -> Option<Absence>
    requires { good_size (length raw.now) ≡ true }
    ensures { result ≡ absence_by (verdict_of raw.now) }
{
    match Extract::check(raw, raw.len(), RecordNumber(0)) {
        Ok(extract) => match extract.judged(0) {
            Some(judged) => absent_as(judged),
            None => None,
        },
        Err(_) => None,
    }
}
