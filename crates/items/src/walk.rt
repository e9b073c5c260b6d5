//! The item walk: where it stands, and its items (RULES 13, 14).
ghost use Rattle.std.specs.Prelude.{◌≡◌};
ghost use Rattle.fields.specs.Told.{told};
ghost use Rattle.items.specs.State.{fresh_of, inside_of};

use crate::{File, Items, Key};
use fields::{ATTRIBUTE_LIST, Cause, Counted, RecordNumber, Refusal, known_type};
use list::{Entry, NamedEntry};
use record::{Attribute, Located};

/// The rest of a list, from its next entry on: where it begins and ends, offsets in the base record.
#[derive(Clone, Copy)]
pub struct Rest {
    pub from: usize,
    pub to: usize,
}

/// Where a walk stands: the offset of the next raw attribute, the open list, and the skip key.
#[derive(Clone, Copy)]
pub struct State {
    pub raw: usize,
    pub list: Option<Rest>,
    pub key: Option<Key>,
}

/// An item: the record that holds it, the attribute, and for a non-resident one found by an entry the list from that
/// entry on.
#[derive(Clone, Copy)]
pub struct Item {
    pub file: RecordNumber,
    pub attribute: Attribute,
    pub rest: Option<Rest>,
}

/// An item, the end or a refusal, with the state left and what the call read.
// No `Counted`: it may end too, and a state is left by a refusal as well.
#[derive(Clone, Copy)]
pub struct Walked {
    pub answer: Result<Option<Item>, Refusal>,
    pub left: State,
    pub reads: u64,
}

impl State {
    ghost use Rattle.std.specs.Prelude.{◌≡◌};
    ghost use Rattle.items.specs.State.{fresh_of};
    ghost use Rattle.items.specs.Key.{skips};

    /// A walk that begins in a record of these bytes, whatever they are.
    #[tactic(auto, unfolding(crate::specs::State::fresh_of))]
    pub fn fresh(bytes: &[u8]) -> State
        ensures { result ≡ fresh_of bytes.now }
    {
        State {
            raw: record::first_attribute(bytes),
            list: None,
            key: None,
        }
    }

    // Whether an entry continues the stream of the key.
    #[tactic(auto, unfolding(crate::specs::Key::skips))]
    fn skips(&self, e: &NamedEntry) -> bool
        ensures { result ≡ skips self.now.key e.now.entry e.now.name.now }
    {
        match &self.key {
            Some(key) => key.is_continued_by(e),
            None => false,
        }
    }
}

/// Check 22 of any bytes: whether a list lies inside them. A refusal is told of the record with this number.
#[tactic(auto, unfolding(crate::specs::State::inside_of, crate::specs::State::lies_in))]
pub fn inside(bytes: &[u8], number: RecordNumber, list: Option<Rest>) -> Result<(), Refusal>
    ensures { told result ≡ inside_of bytes.now number list }
{
    if let Some(l) = list
        && (l.to < l.from || bytes.len() < l.to)
    {
        return Cause::BadState.refuses(number, 0);
    }
    Ok(())
}

impl<'a> File<'a> {
    ghost use Rattle.std.specs.Prelude.{◌≡◌, ◌*◌, ◌≤◌, length, Some, IfOk, IfSome};
    ghost use Rattle.fields.specs.Answer.{gives};
    ghost use Rattle.fields.specs.Told.{told};
    ghost use Rattle.record.specs.Told.{shown_record};
    ghost use Rattle.record.specs.Search.{count_of};
    ghost use Rattle.items.specs.State.{fresh_of, inside_of};
    ghost use Rattle.items.specs.Lies.{Lies};
    ghost use Rattle.items.specs.Told.{told_found};
    ghost use Rattle.items.specs.Lookup.{lookup_of};
    ghost use Rattle.items.specs.Key.{passed_over};
    ghost use Rattle.items.specs.Items.{sought_of, next_in, next_of};
    ghost use Rattle.items.specs.Calls.{items_of};
    ghost use Rattle.items.specs.Rest.{rest};
    ghost use Rattle.items.specs.OfFile.{of_file};
    ghost use Rattle.items.specs.Walked.{walked, told_next, report_of};
    ghost use Rattle.items.specs.Bounds.{size_of, Lowers, Paid};

    /// A walk that begins.
    pub fn fresh(&self) -> State
        ensures { result ≡ fresh_of self.now.base.bytes.now }
    {
        State::fresh(self.base.bytes)
    }

    /// Check 22: whether a state's list lies inside the base record.
    pub fn inside(&self, list: Option<Rest>) -> Result<(), Refusal>
        ensures { told result ≡ inside_of self.now.base.bytes.now self.now.base.number list }
    {
        inside(self.base.bytes, self.base.number, list)
    }

    // Whether the walk passes over an entry of a known type: one of the base record, or one that continues the stream
    // of the key.
    #[tactic(auto, unfolding(crate::specs::Key::passed_over))]
    fn passes_over(&self, at: &State, e: &NamedEntry) -> bool
        ensures { result ≡ passed_over self.now.base.number at.now.key e.now.entry e.now.name.now }
    {
        e.entry.file == self.base.number || at.skips(e)
    }

    /// The attribute that an entry at a place of the base record names, in the record that it names: 17, 2 and 27, then
    /// 3 to 6, 28 and 18.
    #[inline(always)]
    #[tactic(auto, unfolding(crate::specs::Items::sought_of, crate::specs::Items::found_in))]
    pub fn sought(&self, e: &Entry, place: usize) -> Counted<Located<'a>>
        ensures answer { told_found result ≡ count_of (of_file sought_of self.now e.now place) }
        ensures within { IfOk result.answer
            (λ l. of_file lookup_of self.now e.now.file place ≡ gives (shown_record l.within)) }
        ensures few { 16 * result.reads ≤ size_of self.now }
    {
        let miss = Refusal {
            cause: Cause::NoAttribute,
            file: self.base.number,
            place,
        };
        match self.lookup(e.file, place) {
            Ok(within) => {
                let found = within.find(e.ty, e.instance, miss);
                let answer = match found.answer {
                    Ok(attribute) => Ok(Located { within, attribute }),
                    Err(r) => Err(r),
                };
                Counted {
                    answer,
                    reads: found.reads,
                }
            }
            Err(r) => Counted {
                answer: Err(r),
                reads: 0,
            },
        }
    }

    // The next item, the end or a refusal, from a state whose list lies inside the record: the entry loop inside the
    // raw loop, as the rules have it, left by label. The state is left in place, so that a key is not moved.
    #[tactic(auto, using(crate::proofs::Steps::steps))]
    fn next_inside(&self, at: &mut State) -> Counted<Option<Item>>
        requires { IfSome at.old.list (Lies (size_of self.now)) }
        ensures answer { told_next (walked result at.new) ≡ report_of (of_file next_in self.now at.old) }
        ensures lower { Lowers (size_of self.now) at.old (walked result at.new) }
        ensures paid { Paid (size_of self.now) at.old (walked result at.new) }
    {
        let number = self.base.number;
        let mut reads: u64 = 0;
        let answer = 'raw: loop {
            'entries: while let Some(list) = at.list {
                let rest = &self.base.bytes[list.from..list.to];
                let named = match list::named(rest, number, list.from) {
                    Ok(Some(named)) => named,
                    Ok(None) => {
                        at.list = None;
                        continue 'entries;
                    }
                    Err(r) => break 'raw Err(r),
                };
                let e = named.entry;
                reads += 1;
                at.list = Some(Rest {
                    from: list.from + e.length,
                    to: list.to,
                });
                if !known_type(e.ty) {
                    break 'raw self.base.refused(Cause::UnknownType, list.from);
                }
                if self.passes_over(at, &named) {
                    continue 'entries;
                }
                let found = self.sought(&e, list.from);
                reads += found.reads;
                at.key = None;
                let attribute = match found.answer {
                    Ok(located) => located.attribute,
                    Err(r) => break 'raw Err(r),
                };
                if attribute.resident {
                    break 'raw Ok(Some(Item {
                        file: e.file,
                        attribute,
                        rest: None,
                    }));
                }
                at.key = Some(Key::of(&named));
                break 'raw Ok(Some(Item {
                    file: e.file,
                    attribute,
                    rest: Some(list),
                }));
            }
            let attribute = match self.base.step(at.raw) {
                Ok(Some(h)) => h,
                Ok(None) => break 'raw Ok(None),
                Err(r) => break 'raw Err(r),
            };
            reads += 1;
            at.raw += attribute.length;
            if attribute.ty != ATTRIBUTE_LIST {
                break 'raw Ok(Some(Item {
                    file: number,
                    attribute,
                    rest: None,
                }));
            }
            // No conversion from a span to a rest: that its end fits is known of this list alone.
            let holder = Located {
                within: self.base,
                attribute,
            };
            match holder.list() {
                Ok(p) => {
                    at.list = Some(Rest {
                        from: p.from,
                        to: p.from + p.bytes,
                    });
                }
                Err(r) => break 'raw Err(r),
            }
        };
        Counted { answer, reads }
    }

    /// The next item, the end or a refusal, and the state left in place: 22, then the steps. Any state may be lent.
    #[tactic(auto, using(crate::proofs::Bounds::insides))]
    pub fn advance(&self, at: &mut State) -> Counted<Option<Item>>
        ensures answer { told_next (walked result at.new) ≡ report_of (of_file next_of self.now at.old) }
        ensures lower { Lowers (size_of self.now) at.old (walked result at.new) }
        ensures paid { Paid (size_of self.now) at.old (walked result at.new) }
    {
        match self.inside(at.list) {
            Ok(()) => self.next_inside(at),
            Err(r) => Counted {
                answer: Err(r),
                reads: 0,
            },
        }
    }

    /// The same by value: any state may be handed in.
    pub fn next(&self, from: State) -> Walked
        ensures answer { told_next result ≡ report_of (of_file next_of self.now from) }
        ensures lower { Lowers (size_of self.now) from result }
        ensures paid { Paid (size_of self.now) from result }
    {
        let mut left = from;
        let counted = self.advance(&mut left);
        Walked {
            answer: counted.answer,
            left,
            reads: counted.reads,
        }
    }

    /// Its items, from the first on: what calls of `next` give from fresh.
    #[tactic(auto, unfolding(crate::specs::Calls::items_of))]
    pub fn items(&self) -> Items<'a>
        ensures file { result.file ≡ self.now }
        ensures state { result.state ≡ Some (fresh_of self.now.base.bytes.now) }
        ensures items { rest result ≡ of_file items_of self.now }
    {
        Items {
            file: *self,
            state: Some(self.fresh()),
        }
    }
}
