//! Why bytes are no record, for people: 1, 2 and 27 (RULES 3) tell them too little.
ghost use Rattle.std.specs.Prelude.{◌≡◌, take};
ghost use Rattle.command.specs.Asked.{record_reach};
ghost use Rattle.command.specs.Misfit.{begins_table};

use crate::asked::RECORD_REACH;
use fields::good_length;
use record::is_file;
use table::Fault;
use thiserror::Error;

/// Why bytes are no record. A table is told apart, since it is easily handed in for a record of it.
#[derive(Clone, Copy, Debug, PartialEq, Eq, Error)]
pub enum Misfit {
    #[error("it is empty")]
    Empty,
    #[error("it begins as a table does: ask for its rows, or list it")]
    Table,
    #[error("it is longer than 4096 bytes, the most that one record has")]
    Long,
    #[error("one record can't have {0} bytes: 64 to 4096, in steps of 8")]
    Length(usize),
    #[error("it begins otherwise than with FILE")]
    NotFile,
    #[error("its used size is above its length")]
    UsedSize,
}

// As many of an input's bytes as are read of it for a record.
#[tactic(auto, using(crate::proofs::Misfits::front_is_all))]
fn front(bytes: &[u8]) -> &[u8]
    ensures { result.now ≡ take record_reach bytes.now }
{
    if bytes.len() <= RECORD_REACH {
        bytes
    } else {
        &bytes[..RECORD_REACH]
    }
}

// Whether bytes with this fault are a table, or the front of one.
fn begins_table(fault: Option<Fault>) -> bool
    ensures { result ≡ begins_table fault }
{
    matches!(
        fault,
        None | Some(Fault::RecordsBegin(_)) | Some(Fault::RowEnd(_))
    )
}

impl Misfit {
    ghost use Rattle.std.specs.Prelude.{◌≡◌};
    ghost use Rattle.command.specs.Misfit.{misfit_of};

    /// Why these bytes are no record, of bytes that are none.
    #[tactic(auto, unfolding(crate::specs::Misfit::misfit_of))]
    pub fn of(bytes: &[u8]) -> Misfit
        ensures { result ≡ misfit_of bytes.now }
    {
        if bytes.is_empty() {
            return Misfit::Empty;
        }
        if begins_table(Fault::of(front(bytes))) {
            return Misfit::Table;
        }
        if RECORD_REACH <= bytes.len() {
            return Misfit::Long;
        }
        if !good_length(bytes.len()) {
            return Misfit::Length(bytes.len());
        }
        if !is_file(bytes) {
            return Misfit::NotFile;
        }
        // what has a record's length and word is refused by its used size alone
        Misfit::UsedSize
    }
}
