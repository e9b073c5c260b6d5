// A file record that passed the opening checks, and the raw walk over its attributes.
#![tactic(auto)]

mod attributes;
mod find;
pub mod laws;
mod layout;
mod reader;
mod values;

ghost use Rattle.std.specs.Prelude.{◌≡◌, ◌≤◌, length};
ghost use Rattle.fields.specs.Answer.{gives};
ghost use Rattle.fields.specs.Told.{told_as};
ghost use Rattle.record.specs.Open.{open_of, check_file, is_file, lent};
ghost use Rattle.record.specs.Header.{first_attribute, used_size};

pub use attributes::Attributes;
use fields::bytes::{u16_at, u32_at};
use fields::{Cause, END_MARKER, RecordNumber, Refusal, attribute_flags, good_length};
pub use layout::{Attribute, FullHeader, NonResidentHeader, RecordHeader, ResidentHeader, Span};
pub use reader::Reader;
pub use values::{Located, Value, View};

/// The bytes of a record, which passed checks 1, 2 and 27 (RULES 3), and its number.
#[derive(Clone, Copy)]
pub struct Record<'a> {
    pub bytes: &'a [u8],
    pub number: RecordNumber,
    pub ghost passed: { open_of bytes.now number ≡ gives (lent bytes.now number) },
    pub ghost least: { 64 ≤ length bytes.now },
    pub ghost most: { length bytes.now ≤ 4096 },
}

const SIGNATURE: &[u8; 4] = b"FILE";

const FIRST_ATTRIBUTE: usize = 20;

const USED_SIZE: usize = 24;

const RECORD_FLAGS: u16 = 0x0003;

const MARKER_SIZE: usize = 4;

const ATTRIBUTE_SIZE: usize = 16;

/// Whether the first four bytes are FILE.
#[tactic(auto, unfolding(crate::specs::Open::is_file))]
pub fn is_file(s: &[u8]) -> bool
    ensures { result ≡ is_file s.now }
{
    s.starts_with(SIGNATURE)
}

/// Where the raw walk of these bytes starts: an offset in bytes, 0 where they end before that field (RULES 5).
#[tactic(auto, unfolding(crate::specs::Header::first_attribute))]
pub fn first_attribute(s: &[u8]) -> usize
    ensures { result ≡ first_attribute s.now }
{
    if s.len() < FIRST_ATTRIBUTE + 2 {
        return 0;
    }
    usize::from(u16_at(s, FIRST_ATTRIBUTE))
}

// Where the used part of these bytes ends, an offset in bytes. No Option: a record's length has been tested.
#[tactic(auto, unfolding(crate::specs::Header::used_size))]
fn used_size(s: &[u8]) -> usize
    requires { 28 ≤ length s.now }
    ensures { result ≡ used_size s.now }
{
    u32_at(s, USED_SIZE) as usize
}

// Checks 2 and 27 of bytes that have a record's length.
#[tactic(auto, unfolding(crate::specs::Open::check_file, crate::specs::Open::check_used))]
fn check_file(bytes: &[u8], number: RecordNumber) -> Result<(), Refusal>
    requires { 28 ≤ length bytes.now }
    ensures { told_as (λ _. lent bytes.now number) result ≡ check_file bytes.now number }
{
    if !is_file(bytes) {
        return Cause::NotFile.refuses(number, 0);
    }
    if bytes.len() < used_size(bytes) {
        return Cause::UsedSize.refuses(number, 0);
    }
    Ok(())
}

// Checks 1, 2 and 27.
#[tactic(auto, using(crate::proofs::Opened::reaches_used), unfolding(crate::specs::Open::open_of))]
fn check(bytes: &[u8], number: RecordNumber) -> Result<(), Refusal>
    ensures { told_as (λ _. lent bytes.now number) result ≡ open_of bytes.now number }
{
    if !good_length(bytes.len()) {
        return Cause::RecordLength.refuses(number, 0);
    }
    check_file(bytes, number)
}

impl<'a> Record<'a> {
    ghost use Rattle.std.specs.Prelude.{◌≡◌, ◌+◌, ◌≤◌, length, Some, IfOk, IfSome};
    ghost use Rattle.fields.specs.Answer.{refuses, refusal};
    ghost use Rattle.fields.specs.Told.{told, told_as, told_step};
    ghost use Rattle.record.specs.Header.{header_of, first_attribute};
    ghost use Rattle.record.specs.Open.{open_of, open_in};
    ghost use Rattle.record.specs.Attribute.{attribute_at, checked_at};
    ghost use Rattle.record.specs.Inside.{Inside};
    ghost use Rattle.record.specs.Walk.{step_at, attributes_of};
    ghost use Rattle.record.specs.Told.{shown_record};
    ghost use Rattle.record.specs.Rest.{rest};

    /// Checks 1, 2 and 27: no record is made without them.
    #[tactic(auto, using(crate::proofs::Opened::opened))]
    pub fn open(bytes: &'a [u8], number: RecordNumber) -> Result<Record<'a>, Refusal>
        ensures { told_as shown_record result ≡ open_of bytes.now number }
    {
        check(bytes, number)?;
        Ok(Record { bytes, number })
    }

    /// The same of a record that has to be of a given size in bytes, as a table's records are: 1 where it isn't.
    #[tactic(auto, unfolding(crate::specs::Open::open_in))]
    pub fn open_sized(
        bytes: &'a [u8],
        number: RecordNumber,
        size: usize,
    ) -> Result<Record<'a>, Refusal>
        ensures { told_as shown_record result ≡ open_in bytes.now number size }
    {
        if bytes.len() != size {
            return Cause::RecordLength.refuses(number, 0);
        }
        Record::open(bytes, number)
    }

    /// A refusal of this record at a place in it.
    pub fn refused<T: Drop>(&self, cause: Cause, place: usize) -> Result<T, Refusal>
        ensures { told result ≡ refuses (refusal cause self.now.number place) }
    {
        cause.refuses(self.number, place)
    }

    /// The record's own fields (RULES 3).
    #[tactic(auto, unfolding(crate::specs::Header::header_of))]
    pub fn header(&self) -> RecordHeader
        ensures { result ≡ header_of self.now.bytes.now }
    {
        let s = self.bytes;
        RecordHeader {
            sequence: u16_at(s, 16),
            links: u16_at(s, 18),
            first_attribute: u16_at(s, FIRST_ATTRIBUTE),
            flags: u16_at(s, 22) & RECORD_FLAGS,
            used: u32_at(s, USED_SIZE),
            allocated: u32_at(s, 28),
        }
    }

    #[tactic(auto, unfolding(crate::specs::Attribute::attribute_at))]
    fn read(&self, at: usize) -> Attribute
        requires { at + 16 ≤ length self.now.bytes.now }
        ensures { result ≡ attribute_at self.now.bytes.now at }
    {
        let s = self.bytes;
        Attribute {
            offset: at,
            ty: u32_at(s, at),
            length: u32_at(s, at + 4) as usize,
            resident: s[at + 8] == 0,
            name_units: s[at + 9],
            name_offset: u16_at(s, at + 10),
            flags: attribute_flags(u16_at(s, at + 12)),
            instance: u16_at(s, at + 14),
        }
    }

    /// The attribute at an offset: checks 3, 4, 5 and 28 (RULES 4). One that is given lies inside the used part of the
    /// record.
    #[tactic(auto, using(crate::proofs::Given::placed), unfolding(crate::specs::Attribute::checked_at))]
    pub fn attribute(&self, at: usize) -> Result<Attribute, Refusal>
        ensures answer { told result ≡ checked_at self.now.bytes.now self.now.number at }
        ensures inside { IfOk result (Inside self.now.bytes.now) }
    {
        let left = self.bytes.len().saturating_sub(at);
        if left < ATTRIBUTE_SIZE {
            return self.refused(Cause::AttributeCut, at);
        }
        let h = self.read(at);
        if h.length < ATTRIBUTE_SIZE {
            return self.refused(Cause::AttributeShort, at);
        }
        if left < h.length {
            return self.refused(Cause::AttributeLong, at);
        }
        if used_size(self.bytes) < at + h.length {
            return self.refused(Cause::AttributeStale, at);
        }
        Ok(h)
    }

    /// One step of the raw walk at any place: the attribute there, the end, or 3 to 5 and 28 (RULES 5).
    #[tactic(auto, unfolding(crate::specs::Walk::step_at))]
    pub fn step(&self, at: usize) -> Result<Option<Attribute>, Refusal>
        ensures answer { told_step result ≡ step_at self.now.bytes.now self.now.number at }
        ensures inside { IfOk result (λ o. IfSome o (Inside self.now.bytes.now)) }
    {
        if self.bytes.len().saturating_sub(at) < MARKER_SIZE {
            return Ok(None);
        }
        if u32_at(self.bytes, at) == END_MARKER {
            return Ok(None);
        }
        Ok(Some(self.attribute(at)?))
    }

    /// Its attributes, from the first on (RULES 5).
    #[tactic(auto, unfolding(crate::specs::Walk::attributes_of))]
    pub fn attributes(&self) -> Attributes<'a>
        ensures within { result.within ≡ self.now }
        ensures place { result.at ≡ Some (first_attribute self.now.bytes.now) }
        ensures walk { rest result ≡ attributes_of self.now.bytes.now self.now.number }
    {
        Attributes {
            within: *self,
            at: Some(first_attribute(self.bytes)),
        }
    }
}
