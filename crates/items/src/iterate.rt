//! The items of a file, one by one (RULES 14).
ghost use Rattle.std.specs.Prelude.{◌≡◌};

use crate::{File, Item, State};
use fields::Refusal;

/// The items of a walk from a state on; a refusal is the last.
#[derive(Clone, Copy)]
pub struct Items<'a> {
    pub file: File<'a>,
    pub state: Option<State>,
}

impl<'a> Iterator for Items<'a> {
    ghost use Rattle.std.specs.Iterator.{item_count, YieldsFirstBy};
    ghost use Rattle.fields.specs.Told.{told};
    ghost use Rattle.items.specs.Rest.{rest};

    type Item = Result<Item, Refusal>;

    ghost next_gives = { YieldsFirstBy told rest };

    ghost remaining = { item_count rest };

    #[tactic(auto, using(crate::proofs::Calls::turns))]
    fn next(&mut self) -> Option<Result<Item, Refusal>> {
        let state = self.state.as_mut()?;
        match self.file.advance(state).answer {
            Ok(Some(item)) => Some(Ok(item)),
            Ok(None) => {
                self.state = None;
                None
            }
            Err(r) => {
                self.state = None;
                Some(Err(r))
            }
        }
    }
}
