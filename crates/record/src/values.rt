//! An attribute inside its record: its name, its full header, its value, and the list that it opens (RULES 6 to 8).
ghost use Rattle.std.specs.Prelude.{◌≡◌};
ghost use Rattle.record.specs.Inside.{Inside};

use crate::{Attribute, FullHeader, NonResidentHeader, Record, ResidentHeader, Span};
use fields::bytes::{u16_at, u32_at, u64_at};
use fields::{Cause, Refusal, Vcn};

/// Some bytes of a record, and where they start in it.
#[derive(Clone, Copy)]
pub struct View<'a> {
    pub from: usize,
    pub bytes: &'a [u8],
}

/// A value: its bytes in the record, or its run bytes with the stream's data size in bytes.
#[derive(Clone, Copy)]
pub enum Value<'a> {
    Resident(View<'a>),
    Runs(View<'a>, u64),
}

/// An attribute with the record that it lies inside.
#[derive(Clone, Copy)]
pub struct Located<'a> {
    pub within: Record<'a>,
    pub attribute: Attribute,
    pub ghost inside: { Inside within.bytes.now attribute },
}

const RESIDENT_SIZE: usize = 24;

const NON_RESIDENT_SIZE: usize = 64;

impl<'a> Located<'a> {
    ghost use Rattle.std.specs.Prelude.{◌≡◌, ◌+◌, ◌≤◌};
    ghost use Rattle.fields.specs.Answer.{refuses, refusal};
    ghost use Rattle.fields.specs.Told.{told, told_as};
    ghost use Rattle.record.specs.View.{piece_of};
    ghost use Rattle.record.specs.Name.{name_in};
    ghost use Rattle.record.specs.Value.{resident_at, non_resident_at, full_in, resident_in, runs_in};
    ghost use Rattle.record.specs.Value.{value_in, list_in};
    ghost use Rattle.record.specs.Told.{piece, shown_value};

    /// A refusal at the attribute.
    pub fn refused<T: Drop>(&self, cause: Cause) -> Result<T, Refusal>
        ensures { told result ≡ refuses (refusal cause self.now.within.number self.now.attribute.offset) }
    {
        self.within.refused(cause, self.attribute.offset)
    }

    // Some bytes of the attribute.
    #[tactic(auto, unfolding(crate::specs::View::piece_of))]
    fn view(&self, from: usize, bytes: usize) -> View<'a>
        requires { from + bytes ≤ self.now.attribute.length }
        ensures { piece result ≡ piece_of self.now.within.bytes.now self.now.attribute from bytes }
    {
        let start = self.attribute.offset + from;
        View {
            from: start,
            bytes: &self.within.bytes[start..start + bytes],
        }
    }

    /// Its name: 8, then 9; empty where it has none (RULES 6).
    #[tactic(auto, unfolding(crate::specs::Name::name_in))]
    pub fn name(&self) -> Result<View<'a>, Refusal>
        ensures { told_as piece result ≡ name_in self.now.within.bytes.now self.now.within.number self.now.attribute }
    {
        let h = self.attribute;
        let from = usize::from(h.name_offset);
        let bytes = 2 * usize::from(self.attribute.name_units);
        if from == 0 || bytes == 0 {
            return Ok(View {
                from: 0,
                bytes: &self.within.bytes[0..0],
            });
        }
        if h.length <= from {
            return self.refused(Cause::NameOffset);
        }
        if h.length < from + bytes {
            return self.refused(Cause::NameEnd);
        }
        Ok(self.view(from, bytes))
    }

    #[tactic(auto, unfolding(crate::specs::Value::resident_at))]
    fn read_resident(&self) -> ResidentHeader
        requires { 24 ≤ self.now.attribute.length }
        ensures { result ≡ resident_at self.now.within.bytes.now self.now.attribute.offset }
    {
        let s = self.within.bytes;
        let at = self.attribute.offset;
        ResidentHeader {
            value_length: u32_at(s, at + 16),
            value_offset: u16_at(s, at + 20),
        }
    }

    #[tactic(auto, unfolding(crate::specs::Value::non_resident_at))]
    fn read_non_resident(&self) -> NonResidentHeader
        requires { 64 ≤ self.now.attribute.length }
        ensures { result ≡ non_resident_at self.now.within.bytes.now self.now.attribute.offset }
    {
        let s = self.within.bytes;
        let at = self.attribute.offset;
        NonResidentHeader {
            lowest: Vcn(u64_at(s, at + 16)),
            highest: Vcn(u64_at(s, at + 24)),
            runs_offset: u16_at(s, at + 32),
            allocated: u64_at(s, at + 40),
            size: u64_at(s, at + 48),
            initialized: u64_at(s, at + 56),
        }
    }

    /// Its full header: 7 (RULES 7).
    #[tactic(auto, unfolding(crate::specs::Value::full_in))]
    pub fn full(&self) -> Result<FullHeader, Refusal>
        ensures { told result ≡ full_in self.now.within.bytes.now self.now.within.number self.now.attribute }
    {
        if self.attribute.resident {
            if self.attribute.length < RESIDENT_SIZE {
                return self.refused(Cause::HeaderCut);
            }
            return Ok(FullHeader::Resident(self.read_resident()));
        }
        if self.attribute.length < NON_RESIDENT_SIZE {
            return self.refused(Cause::HeaderCut);
        }
        Ok(FullHeader::NonResident(self.read_non_resident()))
    }

    // A resident value: 10, then 11.
    #[tactic(auto, unfolding(crate::specs::Value::resident_in))]
    fn resident(&self, f: ResidentHeader) -> Result<View<'a>, Refusal>
        ensures { told_as piece result
            ≡ resident_in self.now.within.bytes.now self.now.within.number self.now.attribute f }
    {
        let from = usize::from(f.value_offset);
        let bytes = f.value_length as usize;
        if self.attribute.length < from {
            return self.refused(Cause::ValueOffset);
        }
        if self.attribute.length < from + bytes {
            return self.refused(Cause::ValueEnd);
        }
        Ok(self.view(from, bytes))
    }

    // Run bytes: 12.
    #[tactic(auto, unfolding(crate::specs::Value::runs_in))]
    fn runs(&self, f: NonResidentHeader) -> Result<View<'a>, Refusal>
        ensures { told_as piece result ≡ runs_in self.now.within.bytes.now self.now.within.number self.now.attribute f }
    {
        let from = usize::from(f.runs_offset);
        if self.attribute.length < from {
            return self.refused(Cause::RunsOffset);
        }
        Ok(self.view(from, self.attribute.length - from))
    }

    /// Its value: 7, then 10 and 11, or 12 (RULES 7).
    #[tactic(auto, unfolding(crate::specs::Value::value_in, crate::specs::Value::value_after))]
    pub fn value(&self) -> Result<Value<'a>, Refusal>
        ensures { told_as shown_value result
            ≡ value_in self.now.within.bytes.now self.now.within.number self.now.attribute }
    {
        match self.full()? {
            FullHeader::Resident(f) => Ok(Value::Resident(self.resident(f)?)),
            FullHeader::NonResident(f) => Ok(Value::Runs(self.runs(f)?, f.size)),
        }
    }

    /// Where the list stands that it opens: 7, then 10 and 11, or 13 (RULES 8).
    #[tactic(auto, unfolding(crate::specs::Value::list_in, crate::specs::Value::list_after))]
    pub fn list(&self) -> Result<Span, Refusal>
        ensures { told result ≡ list_in self.now.within.bytes.now self.now.within.number self.now.attribute }
    {
        match self.full()? {
            FullHeader::NonResident(_) => self.refused(Cause::ListNotResident),
            FullHeader::Resident(f) => {
                let value = self.resident(f)?;
                Ok(Span {
                    from: value.from,
                    bytes: f.value_length as usize,
                })
            }
        }
    }
}

impl<'a> Record<'a> {
    ghost use Rattle.std.specs.Prelude.{◌≡◌, IfOk};
    ghost use Rattle.fields.specs.Told.{told, told_as};
    ghost use Rattle.record.specs.Attribute.{checked_at};
    ghost use Rattle.record.specs.Name.{name_of};
    ghost use Rattle.record.specs.Value.{full_of, value_of};
    ghost use Rattle.record.specs.Told.{attribute_of, piece, shown_value};

    /// The attribute at an offset with this record: 3 to 5 and 28.
    pub fn located(&self, at: usize) -> Result<Located<'a>, Refusal>
        ensures answer { told_as attribute_of result ≡ checked_at self.now.bytes.now self.now.number at }
        ensures within { IfOk result (λ l. l.within ≡ self.now) }
    {
        Ok(Located {
            within: *self,
            attribute: self.attribute(at)?,
        })
    }

    /// The name of the attribute at an offset: 3 to 5 and 28, then 8 and 9.
    #[tactic(auto, unfolding(crate::specs::Name::name_of))]
    pub fn name(&self, at: usize) -> Result<View<'a>, Refusal>
        ensures { told_as piece result ≡ name_of self.now.bytes.now self.now.number at }
    {
        self.located(at)?.name()
    }

    /// The full header of the attribute at an offset: 3 to 5 and 28, then 7.
    #[tactic(auto, unfolding(crate::specs::Value::full_of))]
    pub fn full(&self, at: usize) -> Result<FullHeader, Refusal>
        ensures { told result ≡ full_of self.now.bytes.now self.now.number at }
    {
        self.located(at)?.full()
    }

    /// The value of the attribute at an offset: 3 to 5 and 28, then 7, then 10 and 11, or 12.
    #[tactic(auto, unfolding(crate::specs::Value::value_of))]
    pub fn value(&self, at: usize) -> Result<Value<'a>, Refusal>
        ensures { told_as shown_value result ≡ value_of self.now.bytes.now self.now.number at }
    {
        self.located(at)?.value()
    }
}
