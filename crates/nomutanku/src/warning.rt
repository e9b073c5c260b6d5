//! What shows that a record may be another file's, in words.
ghost use Rattle.std.specs.Prelude.{◌≡◌};
ghost use Rattle.nomutanku.specs.Warning.{warning_of, base_warning};

use fields::RecordNumber;
use segments::{Hazard, Reference};
use thiserror::Error;

/// A hazard of a file, as it is told behind the file's number.
#[derive(Clone, Copy, Debug, PartialEq, Eq, Error)]
pub enum Warning {
    #[error("entry at {place} names record {number} by sequence number {named}, and that has {has}", number = .file.0)]
    Sequence {
        place: usize,
        file: RecordNumber,
        named: u16,
        has: u16,
    },
    #[error("record {number} is not in use", number = .0.0)]
    NotInUse(RecordNumber),
    #[error("it is an extension of record {number}", number = .0.0)]
    Extension(RecordNumber),
    #[error("record {number} has no base record", number = .0.0)]
    NoBase(RecordNumber),
    #[error("record {number} has record {base} for its base record", number = .0.0, base = .1.0)]
    OtherBase(RecordNumber, RecordNumber),
    #[error("record {number} refers back by sequence number {1}, and the file has another", number = .0.0)]
    OtherSequence(RecordNumber, u16),
}

// What a record's reference to a base record shows, which is not as it should be.
fn of_base(of: RecordNumber, file: RecordNumber, base: Reference) -> Warning
    ensures { result ≡ base_warning of file base }
{
    if file == of {
        return Warning::Extension(base.file);
    }
    if base.file == RecordNumber(0) && base.sequence == 0 {
        return Warning::NoBase(file);
    }
    if base.file == of {
        return Warning::OtherSequence(file, base.sequence);
    }
    Warning::OtherBase(file, base.file)
}

impl Warning {
    /// A hazard of the file with a number.
    pub fn of(of: RecordNumber, hazard: Hazard) -> Warning
        ensures { result ≡ warning_of of hazard }
    {
        match hazard {
            Hazard::Sequence {
                place,
                file,
                named,
                has,
            } => Warning::Sequence {
                place,
                file,
                named,
                has,
            },
            Hazard::NotInUse(file) => Warning::NotInUse(file),
            Hazard::OtherBase { file, base } => of_base(of, file, base),
        }
    }
}
