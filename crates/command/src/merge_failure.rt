//! Why two tables are not merged, and the status that follows.
ghost use Rattle.std.specs.Prelude.{◌≡◌};

use crate::{Flaw, Status};
use fields::RecordNumber;
use std::io;

/// One of two tables.
#[derive(Clone, Copy, Debug, PartialEq, Eq)]
pub enum Side {
    First,
    Second,
}

/// Why two tables are not merged.
#[derive(Clone, Copy, Debug)]
pub enum MergeFailure {
    /// One of them is no table.
    NoTable(Side, Flaw),
    /// The record size of the first, and another one of the second.
    Sizes(u32, u32),
    /// The lowest number under which they have different bytes.
    Clash(RecordNumber),
    TooManyRows,
    Unreadable(Side, io::Error),
    OutOfMemory,
}

impl MergeFailure {
    ghost use Rattle.command.specs.MergeFailure.{status_of};

    /// The status that follows.
    pub fn status(self) -> Status
        ensures { result ≡ status_of self }
    {
        match self {
            MergeFailure::NoTable(..)
            | MergeFailure::Sizes(..)
            | MergeFailure::Clash(_)
            | MergeFailure::TooManyRows => Status::Refused,
            MergeFailure::Unreadable(..) | MergeFailure::OutOfMemory => Status::Unreadable,
        }
    }
}
