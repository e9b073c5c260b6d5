//! What is asked of cluster runs.
use crate::question::Question;
use crate::tell::{Word, line};
use record::{Record, Span};
use runs::{Carried, Decoded, Runs};
use std::io;
use std::io::Write;

/// One run, and what goes on from it.
pub fn step(q: &Question<'_>) -> Decoded {
    let carried = Carried {
        last: q.last,
        sum: q.sum,
    };
    runs::step(q.record, carried, q.number, q.place)
}

// Whatever the iterator gives: that a refusal is the last must show.
fn put_runs<W: Write>(out: &mut W, runs: Runs<'_>) -> io::Result<()> {
    for answer in runs {
        line(out, &answer)?;
    }
    Ok(())
}

/// All runs in so many bytes from a place of the record on, one line for each answer, and the end behind them.
pub fn all<W: Write>(out: &mut W, q: &Question<'_>) -> io::Result<()> {
    let bytes = Span {
        from: q.place,
        bytes: q.run_bytes,
    };
    match Record::open(q.record, q.number) {
        Ok(within) => put_runs(out, Runs::of(&within, bytes))?,
        Err(r) => line(out, &r)?,
    }
    line(out, &Word("end"))
}
