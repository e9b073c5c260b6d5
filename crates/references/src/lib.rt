//! The records that a record's lists refer to (docs/RULES.md, section 24): the numbers in the entries of its attribute
//! lists. With these records beside it a record lists as it does with all of its $MFT.
#![tactic(auto)]

pub mod laws;

ghost use Rattle.std.specs.Prelude.{◌≤◌};
ghost use Rattle.references.specs.Zeros.{ZerosBehind};

use fields::{ATTRIBUTE_LIST, RecordNumber, Refusal};
use record::{Located, Record};

/// As many entries as the largest record has room for, 4,096 / 26: no record refers to more others.
pub const MOST_REFERENCES: usize = 157;

/// The numbers of the records that a record's lists refer to, in the order of their entries, each once; and the refusal
/// that stopped the walk over the lists, if one did (RULES 24.2, 24.3).
#[derive(Clone, Copy)]
pub struct References {
    /// The first `count` are told, the others are 0.
    pub numbers: [RecordNumber; MOST_REFERENCES],
    pub count: usize,
    pub answer: Result<(), Refusal>,
    pub ghost few: { count ≤ 157 },
    pub ghost rest: { ZerosBehind count numbers },
}

/// A record's own number and those of its references, in rising order (RULES 24.4).
#[derive(Clone, Copy)]
pub struct Rising {
    /// The first `count` are told, the others are 0.
    pub numbers: [RecordNumber; MOST_REFERENCES + 1],
    pub count: usize,
    pub ghost few: { count ≤ 158 },
    pub ghost rest: { ZerosBehind count numbers },
}

impl References {
    ghost use Rattle.std.specs.Prelude.{◌≡◌, ◌*◌, ◌+◌, ◌≤◌, ◌∷◌};
    ghost use Rattle.fields.specs.Answer.{gives};
    ghost use Rattle.fields.specs.Told.{told};
    ghost use Rattle.record.specs.Value.{list_in};
    ghost use Rattle.list.specs.Entry.{header_size};
    ghost use Rattle.references.specs.Entries.{list_entries};
    ghost use Rattle.references.specs.References.{among, one_more, tells, told_by, references_of};
    ghost use Rattle.references.specs.Rising.{sorted};
    ghost use Rattle.references.specs.Shown.{so_far, shown, shown_rising};

    /// The records that the lists of a record refer to: the walk over its lists, in their order, to its end or to its
    /// first refusal (RULES 24.2, 24.3).
    #[tactic(auto, unfolding(crate::specs::References::references_of))]
    pub fn of(within: &Record<'_>) -> References
        ensures { shown result ≡ references_of within.now.bytes.now within.now.number }
    {
        let mut found = References::none();
        found.answer = found.take_lists(within);
        found
    }

    // Before the first entry.
    fn none() -> References
        ensures count { result.count ≡ 0 }
        ensures answer { told result.answer ≡ gives tt }
    {
        References {
            numbers: [RecordNumber(0); MOST_REFERENCES],
            count: 0,
            answer: Ok(()),
        }
    }

    // Whether a number was told already.
    fn has(&self, number: RecordNumber) -> bool
        ensures { result ≡ among (so_far self.now) number }
    {
        self.numbers[..self.count].contains(&number)
    }

    // One number more, except the record's own and one that was told already.
    #[tactic(auto, unfolding(crate::specs::References::one_more))]
    fn add(&mut self, number: RecordNumber, own: RecordNumber)
        requires { self.old.count ≤ 156 }
        ensures numbers { so_far self.new ≡ one_more own (so_far self.old) number }
        ensures count { self.new.count ≤ self.old.count + 1 }
    {
        if number == own || self.has(number) {
            return;
        }
        self.numbers[self.count] = number;
        self.count += 1;
    }

    // The lists of a record, one behind another, where none was told yet.
    fn take_lists(&mut self, within: &Record<'_>) -> Result<(), Refusal>
        requires { self.old.count ≡ 0 }
        ensures { tells (so_far self.new) (told result) ≡ references_of within.now.bytes.now within.now.number }
    {
        let mut at = record::first_attribute(within.bytes);
        while let Some(attribute) = within.step(at)? {
            if attribute.ty == ATTRIBUTE_LIST {
                self.take_list(&Located {
                    within: *within,
                    attribute,
                })?;
            }
            at += attribute.length;
        }
        Ok(())
    }

    // The entries of the list that an attribute opens. They take their room from the attribute, so that there is a
    // place for each number.
    fn take_list(&mut self, holder: &Located<'_>) -> Result<(), Refusal>
        requires { header_size * self.old.count ≤ holder.now.attribute.offset }
        ensures told { tells (so_far self.new) (told result)
            ≡ told_by holder.now.within.number (so_far self.old) (list_entries holder.now.within.bytes.now
            holder.now.within.number
            (list_in holder.now.within.bytes.now holder.now.within.number holder.now.attribute)) }
        ensures room { header_size * self.new.count
            ≤ holder.now.attribute.offset + holder.now.attribute.length }
    {
        let within = holder.within;
        let list = holder.list()?;
        let to = list.from + list.bytes;
        let mut at = list.from;
        while let Some(entry) = list::header(&within.bytes[at..to], within.number, at)? {
            self.add(entry.file, within.number);
            at += entry.length;
        }
        Ok(())
    }

    /// The record's own number and these, in rising order (RULES 24.4).
    pub fn rising(&self, own: RecordNumber) -> Rising
        ensures { shown_rising result ≡ sorted (own ∷ (shown self.now).numbers) }
    {
        let mut rising = Rising {
            numbers: [RecordNumber(0); MOST_REFERENCES + 1],
            count: 0,
        };
        for number in self.numbers[..self.count].iter().rev() {
            rising.place(*number);
        }
        rising.place(own);
        rising
    }
}

impl Rising {
    ghost use Rattle.std.specs.Prelude.{◌≡◌, ◌+◌, ◌≤◌};
    ghost use Rattle.references.specs.Rising.{placed};
    ghost use Rattle.references.specs.Shown.{shown_rising};

    // One number more, in front of the first one that is larger.
    fn place(&mut self, number: RecordNumber)
        requires { self.old.count ≤ 157 }
        ensures placed { shown_rising self.new ≡ placed number (shown_rising self.old) }
        ensures count { self.new.count ≡ self.old.count + 1 }
    {
        let mut at = 0;
        while at < self.count && self.numbers[at].0 <= number.0 {
            at += 1;
        }
        self.numbers[self.count] = number;
        self.count += 1;
        self.numbers[at..self.count].rotate_right(1);
    }
}
