//! What is asked of the listing of a table, into a buffer of a stated size.
use crate::question::Question;
use crate::tell::{Bytes, line};
use std::io;
use std::io::{Cursor, Write};

/// How many bytes a buffer has at most.
const MOST_TEXT: usize = 32_768;

/// What stands in each byte of a buffer before the call: no byte of a listing.
const BLANK: u8 = 0xA5;

// The text in front of a buffer, and where the first byte behind it stands that is changed: behind the last where
// none is. What stands behind the lent part of the buffer counts too.
fn put_text<W: Write>(out: &mut W, buffer: &[u8], end: usize) -> io::Result<()> {
    let (text, behind) = buffer.split_at(end.min(buffer.len()));
    let unchanged = match behind.iter().position(|byte| *byte != BLANK) {
        Some(i) => text.len() + i,
        None => buffer.len(),
    };
    write!(out, "unchanged {unchanged} ")?;
    line(out, &Bytes("view", text))
}

/// The listing in a lent buffer: how many bytes of it are filled, and whether there is more.
pub fn page<W: Write>(out: &mut W, q: &Question<'_>) -> io::Result<()> {
    let mut buffer = [BLANK; MOST_TEXT];
    let room = q.buffer.min(MOST_TEXT);
    let listed = lines::list(q.table, &mut buffer[..room]);
    write!(out, "page {} {} ", listed.end, u8::from(listed.more))?;
    put_text(out, &buffer, listed.end)
}

/// The listing to a writer that fails once it has taken so many bytes: whether all was written, and what was.
pub fn written<W: Write>(out: &mut W, q: &Question<'_>) -> io::Result<()> {
    let mut buffer = [BLANK; MOST_TEXT];
    let room = q.buffer.min(MOST_TEXT);
    let mut taker = Cursor::new(&mut buffer[..room]);
    let all = lines::write_listing(q.table, &mut taker).is_ok();
    let end = taker.position() as usize;
    write!(out, "written {} {} ", end, u8::from(all))?;
    put_text(out, &buffer, end)
}
