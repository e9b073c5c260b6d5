//! What is asked of one record.
use crate::question::Question;
use crate::tell::{Word, line};
use fields::{Cause, RecordNumber, Refusal};
use record::{Attribute, FullHeader, Reader, Record, RecordHeader, Span, Value, View};
use std::io;
use std::io::Write;

fn open<'a>(q: &Question<'a>) -> Result<Record<'a>, Refusal> {
    Record::open(q.record, q.number)
}

pub fn header(q: &Question<'_>) -> Result<RecordHeader, Refusal> {
    Ok(open(q)?.header())
}

/// Checks 1, 2 and 27 of a record that has to be of `place` bytes.
pub fn opening<'a>(q: &Question<'_>) -> Result<Word<'a>, Refusal> {
    Record::open_sized(q.record, q.number, q.place)?;
    Ok(Word("passed"))
}

pub fn step(q: &Question<'_>) -> Result<Option<Attribute>, Refusal> {
    open(q)?.step(q.place)
}

pub fn attribute(q: &Question<'_>) -> Result<Attribute, Refusal> {
    open(q)?.attribute(q.place)
}

/// The search. The base record's number, which only the refusal 18 tells, is one that no other answer holds.
pub fn search<W: Write>(out: &mut W, q: &Question<'_>) -> io::Result<()> {
    let miss = Refusal {
        cause: Cause::NoAttribute,
        file: RecordNumber(q.number.0.wrapping_add(1)),
        place: q.place,
    };
    let within = match open(q) {
        Ok(r) => r,
        Err(r) => return line(out, &r),
    };
    let found = within.find(q.ty, q.instance, miss);
    write!(out, "found {} ", found.reads)?;
    line(out, &found.answer)
}

/// The raw walk, one line for each answer.
pub fn walk<W: Write>(out: &mut W, q: &Question<'_>) -> io::Result<()> {
    let within = match open(q) {
        Ok(r) => r,
        Err(r) => return line(out, &r),
    };
    for answer in within.attributes() {
        line(out, &answer)?;
        if answer.is_err() {
            return Ok(());
        }
    }
    line(out, &Word("end"))
}

/// The list of the attribute at a place, whatever its type.
pub fn list(q: &Question<'_>) -> Result<Span, Refusal> {
    open(q)?.located(q.place)?.list()
}

pub fn name<'a>(q: &Question<'a>) -> Result<View<'a>, Refusal> {
    open(q)?.name(q.place)
}

pub fn name_bytes<'a>(q: &Question<'a>) -> Result<&'a [u8], Refusal> {
    Ok(name(q)?.bytes)
}

pub fn full(q: &Question<'_>) -> Result<FullHeader, Refusal> {
    open(q)?.full(q.place)
}

pub fn value<'a>(q: &Question<'a>) -> Result<Value<'a>, Refusal> {
    open(q)?.value(q.place)
}

pub fn value_bytes<'a>(q: &Question<'a>) -> Result<&'a [u8], Refusal> {
    match value(q)? {
        Value::Resident(v) => Ok(v.bytes),
        Value::Runs(v, _) => Ok(v.bytes),
    }
}

/// A reader's take at a place, and where it stands then.
pub fn take<W: Write>(out: &mut W, q: &Question<'_>) -> io::Result<()> {
    match open(q) {
        Err(r) => {
            write!(out, "moved {} ", q.place)?;
            line(out, &r)
        }
        Ok(within) => {
            let mut reader = Reader {
                within,
                at: q.place,
            };
            let answer = reader.take();
            write!(out, "moved {} ", reader.at)?;
            line(out, &answer)
        }
    }
}

/// What a reader takes behind as many takes as the place says.
pub fn taken(q: &Question<'_>) -> Result<Option<Attribute>, Refusal> {
    open(q)?.taken(q.place)
}
