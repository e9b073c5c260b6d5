//! The first item of a type (RULES 16).
ghost use Rattle.std.specs.Prelude.{◌≡◌};

use crate::{File, Item};
use fields::{Cause, Counted, known_type};

impl<'a> File<'a> {
    ghost use Rattle.std.specs.Prelude.{◌≡◌};
    ghost use Rattle.fields.specs.Told.{told_report};
    ghost use Rattle.items.specs.First.{first_of};
    ghost use Rattle.items.specs.OfFile.{of_file};

    /// The first item of a type, from fresh on: 6 at an item of unknown type, 18 at 0 in the base record where the
    /// walk ends without one, and the walk's own refusals.
    #[tactic(auto, using(crate::proofs::Firsts::firsts))]
    pub fn first_of(&self, ty: u32) -> Counted<Item>
        ensures { told_report result ≡ of_file first_of self.now ty }
    {
        // A loop and no `for` over `items`: the reads of each call count, of one that refuses or ends too.
        let mut at = self.fresh();
        let mut reads = 0;
        let answer = 'items: loop {
            let walked = self.advance(&mut at);
            reads += walked.reads;
            let item = match walked.answer {
                Ok(Some(item)) => item,
                Ok(None) => break 'items self.base.refused(Cause::NoAttribute, 0),
                Err(r) => break 'items Err(r),
            };
            if !known_type(item.attribute.ty) {
                break 'items Cause::UnknownType.refuses(item.file, item.attribute.offset);
            }
            if item.attribute.ty == ty {
                break 'items Ok(item);
            }
        };
        Counted { answer, reads }
    }
}
