//! What was read for a record's listing.
ghost use Rattle.std.specs.Prelude.{◌<◌, ℕ, get_or};

use command::{Absence, Reason};
use fields::RecordNumber;
use references::MOST_REFERENCES;
use std::alloc::Global;

/// As many records as are listed together at most: one, and those that its lists refer to.
pub(crate) const MOST_RECORDS: usize = MOST_REFERENCES + 1;

/// A raw record at hand, and its number.
#[derive(Clone, Copy)]
pub(crate) struct RawRecord<'a> {
    pub(crate) number: RecordNumber,
    pub(crate) raw: &'a [u8],
    ghost bytes: { (i : ℕ) → get_or raw.now i 0 < 256 },
}

impl<'a> RawRecord<'a> {
    ghost use Rattle.std.specs.Prelude.{◌≡◌};

    /// One with a number.
    pub(crate) fn of(number: RecordNumber, raw: &'a [u8]) -> RawRecord<'a>
        ensures number { result.number ≡ number }
        ensures raw { result.raw ≡ raw.entry }
    {
        RawRecord { number, raw }
    }
}

/// A record that a listing lacks, and why.
#[derive(Clone, Copy, Debug, PartialEq, Eq)]
pub struct Lost {
    pub number: RecordNumber,
    pub why: Absence,
}

impl Lost {
    ghost use Rattle.std.specs.Prelude.{◌≡◌};
    ghost use Rattle.command.specs.declared.reason.Reason.TheVariants as reason;

    /// What is to be told of it, by the record whose lists refer to it.
    pub fn reason(self, of: RecordNumber) -> Reason
        ensures { result ≡ reason.Lost self.number of self.why }
    {
        Reason::Lost(self.number, of, self.why)
    }
}

/// Which records were read of those that a listing takes, and which are not there.
#[derive(Drop)]
pub(crate) struct Gathered {
    pub(crate) numbers: Vec<RecordNumber>,
    pub(crate) lost: Vec<Lost>,
}

impl Gathered {
    ghost use Rattle.std.specs.Prelude.{◌≡◌, ◌++◌, ◌∷◌, [], IfErr, OnOk};
    ghost use Rattle.command.specs.Read.{IsUnread};
    ghost use Rattle.mft.specs.Gathered.{kept_by};
    ghost use Rattle.mft.specs.Gather.{lost_by};

    /// Before the first one.
    pub(crate) fn none(alloc: Global) -> Gathered
        ensures numbers { result.numbers.items ≡ [] }
        ensures lost { result.lost.items ≡ [] }
    {
        Gathered {
            numbers: Vec::new(alloc),
            lost: Vec::new(alloc),
        }
    }

    /// One more, which is there, or is not for a reason.
    pub(crate) fn add(&mut self, number: RecordNumber, why: Option<Absence>) -> Result<(), Reason>
        ensures numbers { OnOk result (self.new.numbers.items ≡ self.old.numbers.items ++ kept_by why (number ∷ [])) }
        ensures lost { OnOk result (self.new.lost.items ≡ self.old.lost.items ++ lost_by number why) }
        ensures err { IfErr result IsUnread }
    {
        let added = match why {
            None => self.numbers.push(number).is_ok(),
            Some(why) => self.lost.push(Lost { number, why }).is_ok(),
        };
        if added {
            Ok(())
        } else {
            Err(Reason::OutOfMemory)
        }
    }
}
