//! What a run has listed.
ghost use Rattle.std.specs.Prelude.{◌≡◌, Some};
ghost use Rattle.lines.specs.Ending.{ending_of};
ghost use Rattle.listing.specs.Tells.{lines_of, Tells};

use lines::Ending;

/// The input, with how its listing ended; or an input without a byte, which is refused like any that is no table.
#[derive(Clone, Copy, Debug, PartialEq, Eq)]
pub enum Outcome {
    Listed(Ending),
    EmptyInput,
}

/// What the listing of an input tells that ended so.
pub fn outcome_of(input: &[u8], ending: Ending) -> Outcome
    ensures { ending_of (lines_of input.now) ≡ Some ending → Tells input.now result }
{
    if input.is_empty() {
        Outcome::EmptyInput
    } else {
        Outcome::Listed(ending)
    }
}
