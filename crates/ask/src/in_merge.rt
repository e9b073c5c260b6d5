//! What is asked of two tables that are made one.
use crate::in_extract::lent;
use crate::question::Question;
use crate::tell::{Bytes, Numbered, Tell, line};
use merge::Pair;
use std::io;
use std::io::{ErrorKind, Write};

/// What the call reports or refuses; how long a buffer is that is never too short, where two tables may be merged; and
/// the whole buffer that was lent, as it stands then. What it holds before comes as the table's last bytes, `buffer` of
/// them, behind the second table.
pub fn write<W: Write>(out: &mut W, q: &Question<'_>, room: &mut [u8]) -> io::Result<()> {
    let Some(behind) = q.table.len().checked_sub(q.buffer) else {
        return Err(io::Error::from(ErrorKind::InvalidData));
    };
    let (second, held) = q.table.split_at(behind);
    let buffer = lent(held, room)?;
    match merge::merge(q.record, second, buffer) {
        Ok(merged) => merged.tell(out)?,
        Err(why) => why.tell(out)?,
    }
    if let Ok(pair) = Pair::check(q.record, second) {
        Numbered(" room", pair.room() as u64).tell(out)?;
    }
    out.write_all(b" ")?;
    line(out, &Bytes("view", buffer))
}
