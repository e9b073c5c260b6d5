//! A run, and what goes from one run to the next (RULES 21).
ghost use Rattle.std.specs.Prelude.{◌≡◌};

use fields::{Lcn, Refusal};

/// Clusters of the volume one behind the other, or a hole, which has none there. A length counts clusters.
#[derive(Clone, Copy, Debug, PartialEq, Eq)]
pub enum Run {
    Clusters { start: Lcn, length: u64 },
    Hole { length: u64 },
}

/// What goes from one run to the next: the start of the last run that had one, and the sum of all lengths so far. Any
/// numbers may be handed in.
#[derive(Clone, Copy, Debug, PartialEq, Eq)]
pub struct Carried {
    pub last: u64,
    pub sum: u64,
}

/// An answer of the run step, what goes to the next run, and how many bytes the run takes. At the end and at a refusal
/// nothing is taken, and what was carried stays.
#[derive(Clone, Copy, Debug)]
pub struct Decoded {
    pub answer: Result<Option<Run>, Refusal>,
    pub carried: Carried,
    pub taken: usize,
}

impl Carried {
    /// What goes to the first run of an attribute.
    pub const FRESH: Carried = Carried { last: 0, sum: 0 };

    // At the end and at a refusal.
    pub(crate) fn stays(self, answer: Result<Option<Run>, Refusal>) -> Decoded
        ensures { result ≡ record { answer = answer; carried = self; taken = 0 } }
    {
        Decoded {
            answer,
            carried: self,
            taken: 0,
        }
    }
}
