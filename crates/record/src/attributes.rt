//! The raw walk as an iterator (RULES 5).
ghost use Rattle.std.specs.Prelude.{◌≡◌};

use crate::{Attribute, Record};
use fields::Refusal;

/// The attributes from a place on, one behind the other; a refusal is the last item.
#[derive(Clone, Copy)]
pub struct Attributes<'a> {
    pub within: Record<'a>,
    pub at: Option<usize>,
}

impl<'a> Iterator for Attributes<'a> {
    ghost use Rattle.std.specs.Iterator.{item_count, YieldsFirstBy};
    ghost use Rattle.fields.specs.Told.{told};
    ghost use Rattle.record.specs.Rest.{rest};

    type Item = Result<Attribute, Refusal>;

    ghost next_gives = { YieldsFirstBy told rest };

    ghost remaining = { item_count rest };

    #[tactic(auto, using(crate::proofs::Walks::walks))]
    fn next(&mut self) -> Option<Result<Attribute, Refusal>> {
        let at = self.at?;
        match self.within.step(at) {
            Ok(Some(h)) => {
                self.at = Some(at + h.length);
                Some(Ok(h))
            }
            Ok(None) => {
                self.at = None;
                None
            }
            Err(r) => {
                self.at = None;
                Some(Err(r))
            }
        }
    }
}
