//! A record reader (RULES 5): it keeps the lent record and its place. What it answers is the raw walk's own.
ghost use Rattle.std.specs.Prelude.{◌≡◌};

use crate::{Attribute, Record, first_attribute};
use fields::Refusal;

/// The lent record, and the place of the next step.
#[derive(Clone, Copy)]
pub struct Reader<'a> {
    pub within: Record<'a>,
    pub at: usize,
}

impl<'a> Reader<'a> {
    ghost use Rattle.record.specs.Reader.{Takes};

    /// The raw step at the reader's place, which moves past an attribute and stays at the end and at a refusal.
    #[tactic(auto, using(crate::proofs::Given::room), unfolding(crate::specs::Reader::place_after))]
    pub fn take(&mut self) -> Result<Option<Attribute>, Refusal>
        ensures { Takes self.old result self.new }
    {
        let answer = self.within.step(self.at);
        if let Ok(Some(h)) = answer {
            self.at += h.length;
        }
        answer
    }
}

impl<'a> Record<'a> {
    ghost use Rattle.std.specs.Prelude.{◌≡◌};
    ghost use Rattle.fields.specs.Told.{told_step};
    ghost use Rattle.record.specs.Header.{first_attribute};
    ghost use Rattle.record.specs.Reader.{answer_of};

    /// A reader at the first attribute.
    pub fn reader(&self) -> Reader<'a>
        ensures within { result.within ≡ self.now }
        ensures place { result.at ≡ first_attribute self.now.bytes.now }
    {
        Reader {
            within: *self,
            at: first_attribute(self.bytes),
        }
    }

    /// What a reader answers after so many takes.
    #[tactic(auto, using(crate::proofs::Takes::places))]
    pub fn taken(&self, takes: usize) -> Result<Option<Attribute>, Refusal>
        ensures { told_step result ≡ answer_of self.now.bytes.now self.now.number takes }
    {
        let mut reader = self.reader();
        for _ in 0..takes {
            let _ = reader.take();
        }
        reader.take()
    }
}
