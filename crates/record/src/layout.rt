//! What a record's bytes say, by the layouts of RULES 3, 4 and 7.
use fields::Vcn;

/// The fields of a record's own header; offsets and sizes in bytes.
#[derive(Clone, Copy)]
pub struct RecordHeader {
    pub sequence: u16,
    pub links: u16,
    pub first_attribute: u16,
    pub flags: u16,
    pub used: u32,
    pub allocated: u32,
}

/// Where an attribute stands in its record, and the fields of its first sixteen bytes. `length` is the whole
/// attribute's in bytes, `name_units` the name's in units of two bytes, `name_offset` is counted from the attribute's
/// start.
#[derive(Clone, Copy)]
pub struct Attribute {
    pub offset: usize,
    // A number and no enum: a type that nobody knows is told too, and only some calls refuse it.
    pub ty: u32,
    pub length: usize,
    pub resident: bool,
    pub name_units: u8,
    pub name_offset: u16,
    pub flags: u16,
    pub instance: u16,
}

/// What a resident attribute adds: its value's length in bytes, and its offset from the attribute's start.
#[derive(Clone, Copy)]
pub struct ResidentHeader {
    pub value_length: u32,
    pub value_offset: u16,
}

/// What a non-resident attribute adds: the lowest and the highest cluster that it tells of, the run bytes' offset
/// from the attribute's start, and the stream's allocated, data and initialized size in bytes.
#[derive(Clone, Copy)]
pub struct NonResidentHeader {
    pub lowest: Vcn,
    pub highest: Vcn,
    pub runs_offset: u16,
    pub allocated: u64,
    pub size: u64,
    pub initialized: u64,
}

/// An attribute's full header, of one of two forms.
#[derive(Clone, Copy)]
pub enum FullHeader {
    Resident(ResidentHeader),
    NonResident(NonResidentHeader),
}

/// Some bytes of a record, told by where they start, counted from the record's start, and how many they are.
#[derive(Clone, Copy, Debug, PartialEq, Eq)]
pub struct Span {
    pub from: usize,
    pub bytes: usize,
}
