//! The search for an attribute by type and instance (RULES 12).
ghost use Rattle.std.specs.Prelude.{◌≡◌};

use crate::{Attribute, Record};
use fields::{Cause, Counted, Refusal, known_type};

impl<'a> Record<'a> {
    ghost use Rattle.std.specs.Prelude.{◌≡◌, ◌*◌, ◌≤◌, length, IfOk};
    ghost use Rattle.fields.specs.Told.{told_report};
    ghost use Rattle.record.specs.Inside.{Inside};
    ghost use Rattle.record.specs.Walk.{attributes_of};
    ghost use Rattle.record.specs.Search.{find_in, count_of};

    /// The first attribute, in raw order, of a type and an instance; before it 3 to 6 and 28 refuse; `miss` where
    /// there is none.
    #[tactic(auto, using(crate::proofs::Searches::searches), unfolding(crate::specs::Search::find_in))]
    pub fn find(&self, ty: u32, instance: u16, miss: Refusal) -> Counted<Attribute>
        ensures answer { let attributes = attributes_of self.now.bytes.now self.now.number in
            told_report result ≡ count_of (find_in self.now.number ty instance miss attributes) }
        ensures inside { IfOk result.answer (Inside self.now.bytes.now) }
        ensures few { 16 * result.reads ≤ length self.now.bytes.now }
    {
        // Counted by hand, since the count is told behind the loop and by each way out of it.
        let mut reads = 0;
        'search: for answer in self.attributes() {
            let h = match answer {
                Ok(h) => h,
                Err(_) => return Counted { answer, reads },
            };
            reads += 1;
            if !known_type(h.ty) {
                return Counted {
                    answer: self.refused(Cause::UnknownType, h.offset),
                    reads,
                };
            }
            // A type and an instance come as two numbers: a pair of them would be taken apart at once, in each caller.
            if h.ty == ty && h.instance == instance {
                return Counted { answer, reads };
            }
        }
        Counted {
            answer: Err(miss),
            reads,
        }
    }
}
