//! Why two tables are not merged, in words.
ghost use Rattle.std.specs.Prelude.{◌≡◌, Some};
ghost use Rattle.command.specs.MergeMessage.{name_of, message_text, flawed_text};
ghost use Rattle.command.specs.MergeMessage.{has_size_text, of_size_text};

use crate::{Flaw, MergeFailure, Shown, Side};
use std::fmt;

/// Why two tables are not merged, in words, by the names of the two.
#[derive(Clone, Copy)]
pub struct MergeMessage<'a> {
    pub failure: MergeFailure,
    pub first: &'a str,
    pub second: &'a str,
}

// One of them by its name, and why it is no table.
#[derive(Clone, Copy)]
struct Flawed<'a>(&'a str, Flaw);

impl fmt::Display for Flawed<'_> {
    ghost output = { λ x. flawed_text x.0.now x.1 };

    fn fmt<W: fmt::Write>(&self, f: &mut fmt::Formatter<W>) -> fmt::Result {
        write!(f, "{} is no table ({})", Shown(self.0), self.1)
    }
}

// One of them by its name, and how many bytes its records have.
#[derive(Clone, Copy)]
struct HasSize<'a>(&'a str, u32);

impl fmt::Display for HasSize<'_> {
    ghost output = { λ x. Some (has_size_text x.0.now x.1) };

    fn fmt<W: fmt::Write>(&self, f: &mut fmt::Formatter<W>) -> fmt::Result {
        write!(f, "{} has records of {} bytes", Shown(self.0), self.1)
    }
}

// The other by its name, and how many its records have.
#[derive(Clone, Copy)]
struct OfSize<'a>(&'a str, u32);

impl fmt::Display for OfSize<'_> {
    ghost output = { λ x. Some (of_size_text x.0.now x.1) };

    fn fmt<W: fmt::Write>(&self, f: &mut fmt::Formatter<W>) -> fmt::Result {
        write!(f, "{} of {}", Shown(self.0), self.1)
    }
}

impl MergeMessage<'_> {
    // The name of one of the two.
    fn name(&self, side: Side) -> &str
        ensures { result.now ≡ name_of side self.now.first.now self.now.second.now }
    {
        match side {
            Side::First => self.first,
            Side::Second => self.second,
        }
    }
}

impl fmt::Display for MergeMessage<'_> {
    ghost output = { λ m. message_text m.failure m.first.now m.second.now };

    fn fmt<W: fmt::Write>(&self, f: &mut fmt::Formatter<W>) -> fmt::Result {
        let first = Shown(self.first);
        let second = Shown(self.second);
        match self.failure {
            MergeFailure::NoTable(side, flaw) => {
                let flawed = Flawed(self.name(side), flaw);
                write!(f, "merge: {flawed}")
            }
            MergeFailure::Sizes(ours, theirs) => {
                let ours = HasSize(self.first, ours);
                let theirs = OfSize(self.second, theirs);
                write!(f, "merge: {ours}, and {theirs}")
            }
            MergeFailure::Clash(number) => {
                write!(
                    f,
                    "merge: record {} differs between {first} and {second}",
                    number.0
                )
            }
            MergeFailure::TooManyRows => {
                write!(
                    f,
                    "merge: {first} and {second} have more than 4096 rows together"
                )
            }
            MergeFailure::Unreadable(side, error) => {
                write!(f, "{}: {error}", Shown(self.name(side)))
            }
            MergeFailure::OutOfMemory => write!(f, "merge: out of memory"),
        }
    }
}
