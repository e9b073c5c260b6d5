//! Why two tables are not merged (RULES 27.2, 27.3).
use fields::{Cause, RecordNumber, Refusal};
use table::Row;

/// Why two tables are not merged: a refusal, and whose fault it is.
#[derive(Clone, Copy, Debug, PartialEq, Eq)]
pub enum Unmerged {
    /// 21 of the first table.
    First(Refusal),
    /// 21 of the second table.
    Second(Refusal),
    /// 33, and the lowest number under which the two have different bytes.
    Clash(RecordNumber, Refusal),
    /// 32, 34 or 35: of both together.
    Both(Refusal),
}

impl Unmerged {
    ghost use Rattle.std.specs.Prelude.{◌≡◌};
    ghost use Rattle.merge.specs.Merge.{clashing};
    ghost use Rattle.merge.specs.Told.{refusal_of};

    /// The refusal: its cause, record and place.
    pub fn refusal(self) -> Refusal
        ensures { result ≡ refusal_of self }
    {
        match self {
            Unmerged::First(refusal)
            | Unmerged::Second(refusal)
            | Unmerged::Clash(_, refusal)
            | Unmerged::Both(refusal) => refusal,
        }
    }

    // 33, at this row of the second table.
    pub(crate) fn clash(row: Row) -> Unmerged
        ensures { result ≡ clashing row.number row.place }
    {
        Unmerged::Clash(
            row.number,
            Refusal {
                cause: Cause::RecordsDiffer,
                file: RecordNumber(0),
                place: row.place,
            },
        )
    }
}
