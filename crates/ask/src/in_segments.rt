//! What is asked of base records, and of what shows that a record was reused.
use crate::in_table::open;
use crate::question::Question;
use crate::tell::{Tell, line};
use std::alloc::Global;
use std::io;
use std::io::Write;

/// Whether the base record is one that is in use, its reference to a base record, and the hazards of the file.
pub fn hazards<W: Write>(out: &mut W, q: &Question<'_>, alloc: Global) -> io::Result<()> {
    let file = match open(q) {
        Ok(file) => file,
        Err(r) => return line(out, &r),
    };
    let in_use = u8::from(segments::is_base_in_use(&file.base));
    write!(out, "base {in_use} ")?;
    segments::base_reference(&file.base).tell(out)?;
    out.write_all(b" hazards")?;
    let hazards = segments::hazards(&file, alloc)?;
    for hazard in hazards.iter() {
        out.write_all(b" ")?;
        hazard.tell(out)?;
    }
    out.write_all(b"\n")
}
