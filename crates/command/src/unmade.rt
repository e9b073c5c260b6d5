//! Why no table is made of an extract, for people: 1, 34 and 44 (RULES 22.4, 23.2) tell them too little.
ghost use Rattle.std.specs.Prelude.{◌≡◌};

use crate::extraction::good_size;
use fields::{Cause, Refusal};
use thiserror::Error;

/// Why no table is made of an extract.
#[derive(Clone, Copy, Debug, PartialEq, Eq, Error)]
pub enum Unmade {
    #[error("records of an extract can't have {0} bytes: 512 to 4096, in steps of 512")]
    RecordSize(u64),
    #[error("its last record is broken off: it has {0} bytes")]
    BrokenRecord(usize),
    #[error("row at {0} would have a record number of 2^48 or more")]
    RowNumber(usize),
    #[error("it would have more than 4096 rows: take a part of it by --from and --count")]
    TooManyRows,
}

impl Unmade {
    ghost use Rattle.std.specs.Prelude.{◌≡◌, length};
    ghost use Rattle.command.specs.Unmade.{cause_of, by_sizes, by_refusal};

    /// The cause of the refusal.
    pub fn cause(self) -> Cause
        ensures { result ≡ cause_of self }
    {
        match self {
            Unmade::RecordSize(_) | Unmade::BrokenRecord(_) => Cause::RecordLength,
            Unmade::RowNumber(_) => Cause::RowNumber,
            Unmade::TooManyRows => Cause::TooManyRows,
        }
    }

    // Why so many bytes are no extract with records of this size, of those that are none.
    #[tactic(auto, using(crate::proofs::Sizes::size_above_0), unfolding(crate::specs::Unmade::by_sizes))]
    pub(crate) fn by_sizes(size: u16, bytes: &[u8]) -> Unmade
        ensures { result ≡ by_sizes size (length bytes.now) }
    {
        let size = usize::from(size);
        if good_size(size) {
            Unmade::BrokenRecord(bytes.len() % size)
        } else {
            Unmade::RecordSize(size as u64)
        }
    }

    /// Why the call refuses an extract, by 34 or 44: its buffer is always long enough.
    #[tactic(auto, unfolding(crate::specs::Unmade::by_refusal))]
    pub fn by_refusal(refusal: Refusal) -> Unmade
        ensures { result ≡ by_refusal refusal }
    {
        if refusal.cause.number() == Cause::TooManyRows.number() {
            Unmade::TooManyRows
        } else {
            Unmade::RowNumber(refusal.place)
        }
    }
}
