//! What is asked of the names of a file.
use crate::in_table::open;
use crate::question::Question;
use crate::tell::{Bytes, Tell, Word, line};
use items::File;
use list::MOST_NAME;
use std::io;
use std::io::Write;

/// The names of the file, one on each line, then the first, and whether the one that is sought is there.
pub fn of<W: Write>(out: &mut W, q: &Question<'_>) -> io::Result<()> {
    let file = match open(q) {
        Ok(file) => file,
        Err(r) => return line(out, &r),
    };
    put_names(out, &file)?;
    line(out, &filename::find_name(&file, sought(q)))
}

// The name that is sought: so many bytes of a key's, none where there is no key.
fn sought<'a>(q: &'a Question<'_>) -> &'a [u8] {
    match &q.key {
        Some(key) => &key.name[..usize::from(q.most).min(MOST_NAME)],
        None => &[],
    }
}

fn put_names<W: Write>(out: &mut W, file: &File<'_>) -> io::Result<()> {
    for name in filename::names_of(file) {
        line(out, &Bytes("name", name))?;
    }
    match filename::first_name(file) {
        Some(name) => line(out, &Bytes("first name", name)),
        None => line(out, &Word("first none")),
    }
}

/// The name in a value, which is the record.
pub fn value<W: Write>(out: &mut W, q: &Question<'_>) -> io::Result<()> {
    let Some(name) = filename::name_of(q.record) else {
        return line(out, &Word("none"));
    };
    name.namespace.tell(out)?;
    write!(out, " long {} ", u8::from(name.namespace.is_long()))?;
    line(out, &Bytes("name", name.bytes))
}
