//! Base records, and records that were reused (docs/RULES.md, section 25): whether a record is a base record in use,
//! and what shows that a file's record is no longer its own.
#![tactic(auto)]

mod find;
pub mod laws;

ghost use Rattle.std.specs.Prelude.{◌≡◌};
ghost use Rattle.segments.specs.Base.{base_reference_of, is_zero, is_in_use, is_base_in_use, fits};

use fields::RecordNumber;
use fields::bytes::{u16_at, u48_at};
pub use find::{Hazard, hazards};
use record::Record;

/// A record's number with a sequence number (MFT_SEGMENT_REFERENCE). Where both are 0 it refers to no record.
#[derive(Clone, Copy, Debug, PartialEq, Eq)]
pub struct Reference {
    pub file: RecordNumber,
    pub sequence: u16,
}

const IN_USE: u16 = 0x0001;

const BASE_REFERENCE: usize = 32;

impl Reference {
    ghost use Rattle.std.specs.Prelude.{◌≡◌};
    ghost use Rattle.segments.specs.Base.{is_zero};

    // Whether all eight bytes are zero.
    #[tactic(auto, unfolding(crate::specs::Base::is_zero))]
    fn is_zero(&self) -> bool
        ensures { result ≡ is_zero self.now }
    {
        self.file == RecordNumber(0) && self.sequence == 0
    }
}

/// The reference to a record's base record, all zero in a base record (RULES 25.1).
#[tactic(auto, unfolding(crate::specs::Base::base_reference_of))]
pub fn base_reference(within: &Record<'_>) -> Reference
    ensures { result ≡ base_reference_of within.now.bytes.now }
{
    Reference {
        file: RecordNumber(u48_at(within.bytes, BASE_REFERENCE)),
        sequence: u16_at(within.bytes, BASE_REFERENCE + 6),
    }
}

#[tactic(auto, unfolding(crate::specs::Base::is_in_use))]
fn is_in_use(within: &Record<'_>) -> bool
    ensures { result ≡ is_in_use within.now.bytes.now }
{
    within.header().flags & IN_USE == IN_USE
}

/// Whether a record is a base record in use: its flag says so, and it has no base record of its own (RULES 25.2).
#[tactic(auto, unfolding(crate::specs::Base::is_base_in_use))]
pub fn is_base_in_use(within: &Record<'_>) -> bool
    ensures { result ≡ is_base_in_use within.now.bytes.now }
{
    is_in_use(within) && base_reference(within).is_zero()
}

// Whether a reference with this sequence number may mean a record that has another: 0 means any.
#[tactic(auto, unfolding(crate::specs::Base::fits))]
fn fits(named: u16, has: u16) -> bool
    ensures { result ≡ fits named has }
{
    named == 0 || named == has
}
