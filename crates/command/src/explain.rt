//! What a refusal's number means.
ghost use Rattle.std.specs.Prelude.{◌≡◌};
ghost use Rattle.command.specs.Explain.{explained};

use fields::Cause;

/// All causes, in the order of their numbers.
pub const CAUSES: [Cause; 36] = [
    Cause::RecordLength,
    Cause::NotFile,
    Cause::AttributeCut,
    Cause::AttributeShort,
    Cause::AttributeLong,
    Cause::UnknownType,
    Cause::HeaderCut,
    Cause::NameOffset,
    Cause::NameEnd,
    Cause::ValueOffset,
    Cause::ValueEnd,
    Cause::RunsOffset,
    Cause::ListNotResident,
    Cause::EntryCut,
    Cause::EntryShort,
    Cause::EntryNameCut,
    Cause::NoRecord,
    Cause::NoAttribute,
    Cause::PartResident,
    Cause::NoRoom,
    Cause::BadTable,
    Cause::BadState,
    Cause::RunSize,
    Cause::RunCut,
    Cause::RunEmpty,
    Cause::RunRange,
    Cause::UsedSize,
    Cause::AttributeStale,
    Cause::FixupArray,
    Cause::FixupPair,
    Cause::EntryNameOutside,
    Cause::SizesDiffer,
    Cause::RecordsDiffer,
    Cause::TooManyRows,
    Cause::OutputShort,
    Cause::RowNumber,
];

fn found(causes: &[Cause], number: u8) -> Option<Cause>
    ensures { result ≡ explained causes.now number }
{
    causes
        .iter()
        .copied()
        .find(|cause| cause.number() == number)
}

/// The cause with a number, if there is one: its words are what the number means.
pub fn cause_of(number: u8) -> Option<Cause>
    ensures { result ≡ explained CAUSES number }
{
    found(&CAUSES, number)
}
