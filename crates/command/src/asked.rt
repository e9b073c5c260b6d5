//! What is asked of an input, and how much of it that takes.
use fields::RecordNumber;

/// What is asked of an input.
#[derive(Clone, Copy, Debug, PartialEq, Eq)]
pub enum Asked {
    /// The listing of a table, from its base row on or of the record with a number (RULES 18.2, 18.8).
    Listing(Option<RecordNumber>),
    /// What a table holds, a line a row (RULES 18.9).
    Rows,
    /// One record, lent with a number (RULES 18.10).
    Record(RecordNumber),
}

/// As many bytes as tell that an input is longer than a record may be.
pub const RECORD_REACH: usize = 4097;

impl Asked {
    ghost use Rattle.std.specs.Prelude.{◌≡◌};
    ghost use Rattle.command.specs.Asked.{reach_for};

    /// How many bytes of an input must be there before nothing behind them matters, by those that are there.
    #[tactic(auto, unfolding(crate::specs::Asked::reach_for))]
    pub fn reach(self, front: &[u8]) -> usize
        ensures { result ≡ reach_for self front.now }
    {
        match self {
            Asked::Listing(_) | Asked::Rows => table::reach(front),
            Asked::Record(_) => RECORD_REACH,
        }
    }
}
