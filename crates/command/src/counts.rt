//! What is told of an extract whose table was made, and of two tables that were made one.
ghost use Rattle.std.specs.Prelude.{Some};
ghost use Rattle.command.specs.Counts.{counts_text, written_text};

use extract::Extracted;
use fields::{Cause, RecordNumber};
use merge::Merged;
use std::fmt;

/// How many records were written, left out and refused: `written W left L refused R`.
#[derive(Clone, Copy)]
pub struct Counts<'a>(pub &'a Extracted);

impl fmt::Display for Counts<'_> {
    ghost output = { λ c. Some (counts_text c.0.now) };

    fn fmt<W: fmt::Write>(&self, f: &mut fmt::Formatter<W>) -> fmt::Result {
        let counted = self.0;
        write!(
            f,
            "written {} left {} refused {}",
            counted.written, counted.left_out, counted.refused
        )
    }
}

/// How many rows the table of two has: `written W`.
#[derive(Clone, Copy)]
pub struct Written(pub Merged);

impl fmt::Display for Written {
    ghost output = { λ w. Some (written_text w.0) };

    fn fmt<W: fmt::Write>(&self, f: &mut fmt::Formatter<W>) -> fmt::Result {
        write!(f, "written {}", self.0.written)
    }
}

/// The first record of an extract that was refused.
#[derive(Clone, Copy, Debug, PartialEq, Eq)]
pub struct FirstRefused {
    /// Its position in the whole input, from 0.
    pub position: u64,
    /// Its number; none where that is 2^64 or more.
    pub number: Option<RecordNumber>,
    /// Why it is refused.
    pub cause: Cause,
}

// The record's number, in words.
#[derive(Clone, Copy)]
struct Numbered(Option<RecordNumber>);

impl fmt::Display for Numbered {
    fn fmt<W: fmt::Write>(&self, f: &mut fmt::Formatter<W>) -> fmt::Result {
        match self.0 {
            Some(number) => write!(f, "number {}", number.0),
            None => write!(f, "number 2^64 or above"),
        }
    }
}

impl fmt::Display for FirstRefused {
    fn fmt<W: fmt::Write>(&self, f: &mut fmt::Formatter<W>) -> fmt::Result {
        let number = Numbered(self.number);
        write!(
            f,
            "the record at position {}, {number}, is refused: {} ({})",
            self.position,
            self.cause,
            self.cause.number()
        )
    }
}
