//! Answers in words and decimal numbers.
use extract::{Extracted, Judged, RefusedRecord};
use fields::{Counted, RecordNumber, Refusal};
use filename::{Found, Namespace};
use items::{Item, Key, Rest, State, Walked};
use list::{Entry, Listed};
use merge::{Merged, Unmerged};
use parts::Part;
use record::{Attribute, FullHeader, RecordHeader, Span, Value, View};
use references::{References, Rising};
use runs::{Decoded, Run};
use segments::{Hazard, Reference};
use std::io;
use std::io::Write;
use table::TableHeader;

/// What can be told on a line, or on a part of one.
// A trait and no Display: the types are other crates', and a refusal's Display is a sentence for people.
pub trait Tell {
    fn tell<W: Write>(&self, out: &mut W) -> io::Result<()>;
}

/// A word alone.
#[derive(Clone, Copy)]
pub struct Word<'a>(pub &'a str);

/// A word with a number.
#[derive(Clone, Copy)]
pub struct Numbered<'a>(pub &'a str, pub u64);

/// A word with some bytes: how many there are, and these as they are.
#[derive(Clone, Copy)]
pub struct Bytes<'a>(pub &'a str, pub &'a [u8]);

/// The bytes that a call hands out. Where it refuses there are none: its refusal is another question's answer.
pub fn view<'a>(given: Result<&'a [u8], Refusal>) -> Bytes<'a> {
    Bytes("view", given.unwrap_or(&[]))
}

/// An answer as a line.
pub fn line<W: Write, T: Tell>(out: &mut W, answer: &T) -> io::Result<()> {
    answer.tell(out)?;
    out.write_all(b"\n")
}

impl<'a> Tell for Word<'a> {
    fn tell<W: Write>(&self, out: &mut W) -> io::Result<()> {
        out.write_all(self.0.as_bytes())
    }
}

impl<'a> Tell for Numbered<'a> {
    fn tell<W: Write>(&self, out: &mut W) -> io::Result<()> {
        write!(out, "{} {}", self.0, self.1)
    }
}

impl<'a> Tell for Bytes<'a> {
    fn tell<W: Write>(&self, out: &mut W) -> io::Result<()> {
        write!(out, "{} {} ", self.0, self.1.len())?;
        out.write_all(self.1)
    }
}

impl Tell for Refusal {
    fn tell<W: Write>(&self, out: &mut W) -> io::Result<()> {
        let number = self.cause.number();
        write!(out, "refused {} {} {}", number, self.file.0, self.place)
    }
}

impl<T: Tell> Tell for Result<T, Refusal> {
    fn tell<W: Write>(&self, out: &mut W) -> io::Result<()> {
        match self {
            Ok(x) => x.tell(out),
            Err(r) => r.tell(out),
        }
    }
}

impl<T: Tell> Tell for Option<T> {
    fn tell<W: Write>(&self, out: &mut W) -> io::Result<()> {
        match self {
            Some(x) => x.tell(out),
            None => out.write_all(b"end"),
        }
    }
}

impl Tell for RecordHeader {
    fn tell<W: Write>(&self, out: &mut W) -> io::Result<()> {
        write!(out, "header {} {}", self.sequence, self.links)?;
        write!(out, " {} {}", self.first_attribute, self.flags)?;
        write!(out, " {} {}", self.used, self.allocated)
    }
}

impl Tell for Attribute {
    fn tell<W: Write>(&self, out: &mut W) -> io::Result<()> {
        let resident = u8::from(self.resident);
        write!(out, "attribute {} {}", self.offset, self.ty)?;
        write!(out, " {} {resident}", self.length)?;
        write!(out, " {} {}", self.name_units, self.name_offset)?;
        write!(out, " {} {}", self.flags, self.instance)
    }
}

impl Tell for Span {
    fn tell<W: Write>(&self, out: &mut W) -> io::Result<()> {
        write!(out, "span {} {}", self.from, self.bytes)
    }
}

impl<'a> Tell for View<'a> {
    fn tell<W: Write>(&self, out: &mut W) -> io::Result<()> {
        write!(out, "span {} {}", self.from, self.bytes.len())
    }
}

impl Tell for FullHeader {
    fn tell<W: Write>(&self, out: &mut W) -> io::Result<()> {
        match self {
            FullHeader::Resident(f) => {
                write!(out, "resident {} {}", f.value_length, f.value_offset)
            }
            FullHeader::NonResident(f) => {
                write!(out, "nonresident {} {}", f.lowest.0, f.highest.0)?;
                write!(out, " {} {}", f.runs_offset, f.allocated)?;
                write!(out, " {} {}", f.size, f.initialized)
            }
        }
    }
}

impl<'a> Tell for Value<'a> {
    fn tell<W: Write>(&self, out: &mut W) -> io::Result<()> {
        match self {
            Value::Resident(v) => { write!(out, "value resident {} {}", v.from, v.bytes.len()) }
            Value::Runs(v, size) => {
                write!(out, "value runs {} {} {size}", v.from, v.bytes.len())
            }
        }
    }
}

impl Tell for Run {
    fn tell<W: Write>(&self, out: &mut W) -> io::Result<()> {
        match self {
            Run::Clusters { start, length } => write!(out, "run {} {length}", start.0),
            Run::Hole { length } => write!(out, "hole {length}"),
        }
    }
}

impl Tell for Decoded {
    fn tell<W: Write>(&self, out: &mut W) -> io::Result<()> {
        self.answer.tell(out)?;
        write!(out, " last {} sum {}", self.carried.last, self.carried.sum)?;
        write!(out, " taken {}", self.taken)
    }
}

// A number of 2^64 or above has no decimals here.
impl Tell for RefusedRecord {
    fn tell<W: Write>(&self, out: &mut W) -> io::Result<()> {
        write!(out, "{} {} ", self.cause.number(), self.position)?;
        match self.number {
            Some(number) => write!(out, "{}", number.0),
            None => out.write_all(b"above"),
        }
    }
}

impl Tell for Extracted {
    fn tell<W: Write>(&self, out: &mut W) -> io::Result<()> {
        write!(out, "extracted {} {}", self.length, self.written)?;
        write!(out, " {} {} first ", self.left_out, self.refused)?;
        match &self.first_refused {
            Some(first) => first.tell(out),
            None => out.write_all(b"none"),
        }
    }
}

impl Tell for Merged {
    fn tell<W: Write>(&self, out: &mut W) -> io::Result<()> {
        write!(out, "merged {} {}", self.length, self.written)
    }
}

// Whose fault a refusal is, or the number of a clash, in front of it.
impl Tell for Unmerged {
    fn tell<W: Write>(&self, out: &mut W) -> io::Result<()> {
        match self {
            Unmerged::First(_) => out.write_all(b"first ")?,
            Unmerged::Second(_) => out.write_all(b"second ")?,
            Unmerged::Clash(number, _) => write!(out, "clash {} ", number.0)?,
            Unmerged::Both(_) => out.write_all(b"both ")?,
        }
        self.refusal().tell(out)
    }
}

impl Tell for Judged {
    fn tell<W: Write>(&self, out: &mut W) -> io::Result<()> {
        match self {
            Judged::LeftOut => out.write_all(b"left"),
            Judged::Refused(cause) => write!(out, "{}", cause.number()),
            Judged::Sound => out.write_all(b"sound"),
        }
    }
}

fn numbers<W: Write>(out: &mut W, word: &str, numbers: &[RecordNumber]) -> io::Result<()> {
    out.write_all(word.as_bytes())?;
    for number in numbers {
        write!(out, " {}", number.0)?;
    }
    Ok(())
}

impl Tell for References {
    fn tell<W: Write>(&self, out: &mut W) -> io::Result<()> {
        numbers(out, "references", &self.numbers[..self.count])?;
        out.write_all(b" ")?;
        match &self.answer {
            Ok(()) => out.write_all(b"end"),
            Err(r) => r.tell(out),
        }
    }
}

impl Tell for Rising {
    fn tell<W: Write>(&self, out: &mut W) -> io::Result<()> {
        numbers(out, "rising", &self.numbers[..self.count])
    }
}

impl Tell for Reference {
    fn tell<W: Write>(&self, out: &mut W) -> io::Result<()> {
        write!(out, "reference {} {}", self.file.0, self.sequence)
    }
}

impl Tell for Hazard {
    fn tell<W: Write>(&self, out: &mut W) -> io::Result<()> {
        match self {
            Hazard::Sequence {
                place,
                file,
                named,
                has,
            } => {
                write!(out, "sequence {place} {}", file.0)?;
                write!(out, " {named} {has}")
            }
            Hazard::NotInUse(file) => write!(out, "unused {}", file.0),
            Hazard::OtherBase { file, base } => {
                write!(out, "other {}", file.0)?;
                write!(out, " {} {}", base.file.0, base.sequence)
            }
        }
    }
}

impl Tell for Namespace {
    fn tell<W: Write>(&self, out: &mut W) -> io::Result<()> {
        match self {
            Namespace::Posix => out.write_all(b"posix"),
            Namespace::Win32 => out.write_all(b"win32"),
            Namespace::Dos => out.write_all(b"dos"),
            Namespace::Win32AndDos => out.write_all(b"both"),
            Namespace::Other(number) => write!(out, "other {number}"),
        }
    }
}

impl Tell for Found {
    fn tell<W: Write>(&self, out: &mut W) -> io::Result<()> {
        match self {
            Found::Yes => out.write_all(b"found yes"),
            Found::No => out.write_all(b"found no"),
            Found::Unknown(refusal) => {
                out.write_all(b"found unknown ")?;
                refusal.tell(out)
            }
        }
    }
}

impl Tell for Entry {
    fn tell<W: Write>(&self, out: &mut W) -> io::Result<()> {
        write!(out, "entry {} {}", self.ty, self.length)?;
        write!(out, " {} {}", self.name_units, self.name_offset)?;
        write!(out, " {} {} {}", self.lowest.0, self.file.0, self.instance)
    }
}

// All 510 bytes of the name are told whatever the answer, since they must be zeros where there is none.
impl Tell for Listed {
    fn tell<W: Write>(&self, out: &mut W) -> io::Result<()> {
        self.answer.tell(out)?;
        out.write_all(b" ")?;
        Bytes("name", &self.name).tell(out)
    }
}

impl Tell for TableHeader {
    fn tell<W: Write>(&self, out: &mut W) -> io::Result<()> {
        write!(out, "table {} {}", self.count, self.size)?;
        write!(out, " {} {} {}", self.directory, self.records, self.base)
    }
}

// A list that is not there is told as three zeros.
impl Tell for Rest {
    fn tell<W: Write>(&self, out: &mut W) -> io::Result<()> {
        write!(out, "1 {} {}", self.from, self.to)
    }
}

fn list<W: Write>(out: &mut W, list: Option<Rest>) -> io::Result<()> {
    match list {
        Some(l) => l.tell(out),
        None => out.write_all(b"0 0 0"),
    }
}

impl Tell for Item {
    fn tell<W: Write>(&self, out: &mut W) -> io::Result<()> {
        let h = self.attribute;
        let resident = u8::from(h.resident);
        write!(out, "item {} {} {}", self.file.0, h.offset, h.ty)?;
        write!(out, " {} {resident} {} rest ", h.length, h.instance)?;
        list(out, self.rest)
    }
}

impl Tell for Part {
    fn tell<W: Write>(&self, out: &mut W) -> io::Result<()> {
        write!(
            out,
            " part {} {} {}",
            self.file.0, self.offset, self.lowest.0
        )?;
        write!(out, " {} {}", self.runs.from, self.runs.bytes)?;
        write!(out, " {} {}", self.size, self.listed.0)
    }
}

// All 510 bytes of the name are told, in hex, up to the last that is not 0; a dash where there is none.
impl Tell for Key {
    fn tell<W: Write>(&self, out: &mut W) -> io::Result<()> {
        write!(out, "1 {} {} ", self.ty, self.units)?;
        let Some(last) = self.name.iter().rposition(|b| *b != 0) else {
            return out.write_all(b"-");
        };
        for b in &self.name[..=last] {
            write!(out, "{b:02x}")?;
        }
        Ok(())
    }
}

// A key that is not there is told as three zeros and a dash.
impl Tell for State {
    fn tell<W: Write>(&self, out: &mut W) -> io::Result<()> {
        write!(out, "left {} ", self.raw)?;
        list(out, self.list)?;
        out.write_all(b" ")?;
        match &self.key {
            Some(k) => k.tell(out),
            None => out.write_all(b"0 0 0 -"),
        }
    }
}

impl Tell for Walked {
    fn tell<W: Write>(&self, out: &mut W) -> io::Result<()> {
        self.answer.tell(out)?;
        out.write_all(b" ")?;
        self.left.tell(out)?;
        write!(out, " reads {}", self.reads)
    }
}

impl<T: Tell> Tell for Counted<T> {
    fn tell<W: Write>(&self, out: &mut W) -> io::Result<()> {
        self.answer.tell(out)?;
        write!(out, " reads {}", self.reads)
    }
}
