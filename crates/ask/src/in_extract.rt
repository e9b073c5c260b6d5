//! What is asked of extracts of a raw $MFT.
use crate::question::Question;
use crate::tell::{Bytes, Tell, line};
use extract::{Extract, Extracted};
use fields::Refusal;
use std::io;
use std::io::{ErrorKind, Write};

/// A question's own bytes can't be written, so those that a buffer holds are copied into a room for it.
pub fn lent<'a>(held: &[u8], room: &'a mut [u8]) -> io::Result<&'a mut [u8]> {
    let Some(buffer) = room.get_mut(..held.len()) else {
        return Err(io::Error::from(ErrorKind::InvalidData));
    };
    buffer.copy_from_slice(held);
    Ok(buffer)
}

// The extract with the base record that is asked for, if one is.
fn based<'a>(extract: Extract<'a>, q: &Question<'_>) -> Extract<'a> {
    match q.base {
        Some(number) => extract.with_base(number),
        None => extract,
    }
}

fn extracted(q: &Question<'_>, buffer: &mut [u8]) -> Result<Extracted, Refusal> {
    based(Extract::check(q.record, q.size, q.number)?, q).write(buffer)
}

/// What a call reports or refuses, and the whole buffer that it was lent, as it stands then.
pub fn write<W: Write>(out: &mut W, q: &Question<'_>, room: &mut [u8]) -> io::Result<()> {
    let buffer = lent(q.table, room)?;
    let answer = extracted(q, buffer);
    answer.tell(out)?;
    out.write_all(b" ")?;
    line(out, &Bytes("view", buffer))
}

// What becomes of the record at each position, of what lies straight behind the last, and of that at `place`.
fn tell_judged<W: Write>(out: &mut W, q: &Question<'_>, extract: &Extract<'_>) -> io::Result<()> {
    out.write_all(b" judged")?;
    for position in 0..q.listed.len() {
        out.write_all(b" ")?;
        extract.judged(position).tell(out)?;
    }
    for position in [q.listed.len(), q.place] {
        out.write_all(b" ")?;
        extract.judged(position).tell(out)?;
    }
    Ok(())
}

/// The same of records with a number each, and in front of the buffer what becomes of each record.
pub fn write_chosen<W: Write>(out: &mut W, q: &Question<'_>, room: &mut [u8]) -> io::Result<()> {
    let buffer = lent(q.table, room)?;
    match Extract::chosen(q.record, q.size, q.listed) {
        Ok(extract) => {
            let extract = based(extract, q);
            extract.write(buffer).tell(out)?;
            tell_judged(out, q, &extract)?;
        }
        Err(r) => r.tell(out)?,
    }
    out.write_all(b" ")?;
    line(out, &Bytes("view", buffer))
}
