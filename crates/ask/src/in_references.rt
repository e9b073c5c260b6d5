//! What is asked of the records that a record's lists refer to.
use crate::question::Question;
use crate::tell::{Tell, line};
use record::Record;
use references::References;
use std::io;
use std::io::Write;

/// The numbers told, what ended the walk, and the same numbers in rising order with the record's own.
pub fn of<W: Write>(out: &mut W, q: &Question<'_>) -> io::Result<()> {
    let within = match Record::open(q.record, q.number) {
        Ok(r) => r,
        Err(r) => return line(out, &r),
    };
    let references = References::of(&within);
    references.tell(out)?;
    out.write_all(b" ")?;
    line(out, &references.rising(q.number))
}
