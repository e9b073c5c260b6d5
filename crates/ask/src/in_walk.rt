//! What is asked of the item walk and of the parts of its items.
use crate::in_table::open;
use crate::question::Question;
use crate::tell::{Tell, line};
use fields::{Counted, Refusal};
use items::{File, Item, Rest, State, Walked};
use parts::{Filled, MOST_PARTS, Part};
use std::io;
use std::io::Write;

pub fn fresh<W: Write>(out: &mut W, q: &Question<'_>) -> io::Result<()> {
    out.write_all(b"fresh ")?;
    line(out, &State::fresh(q.record))
}

// One call of the walk; where the file doesn't open, its refusal with the state as given.
fn call(file: &Result<File, Refusal>, from: State) -> Walked {
    match file {
        Ok(file) => file.next(from),
        Err(r) => Walked {
            answer: Err(*r),
            left: from,
            reads: 0,
        },
    }
}

pub fn next(q: &Question<'_>) -> Walked {
    call(&open(q), q.state())
}

pub fn first(q: &Question<'_>) -> Counted<Item> {
    match open(q) {
        Ok(file) => file.first_of(q.ty),
        Err(r) => Counted {
            answer: Err(r),
            reads: 0,
        },
    }
}

// How many parts there are, how they end, what was read, each of them, and where the first of the others stands
// that is changed: behind the last where none is.
fn put_parts<W: Write>(out: &mut W, filled: Filled, list: &[Part]) -> io::Result<()> {
    write!(out, "parts {} ", filled.count)?;
    match filled.answer {
        Ok(()) => out.write_all(b"whole")?,
        Err(r) => r.tell(out)?,
    }
    write!(out, " reads {}", filled.reads)?;
    let (front, behind) = list.split_at(filled.count.min(list.len()));
    for p in front {
        p.tell(out)?;
    }
    let unchanged = match behind.iter().position(|p| *p != Part::BLANK) {
        Some(i) => front.len() + i,
        None => list.len(),
    };
    writeln!(out, " unchanged {unchanged}")
}

// Where the file doesn't open there are no parts, and its refusal.
fn unopened(r: Refusal) -> Filled {
    Filled {
        count: 0,
        answer: Err(r),
        reads: 0,
    }
}

// The parts behind a list's front, with room for all that a list can lead to.
fn collect<W: Write>(
    out: &mut W,
    file: &Result<File, Refusal>,
    rest: Option<Rest>,
) -> io::Result<()> {
    match file {
        Ok(file) => {
            let collected = parts::collect(file, rest, MOST_PARTS);
            put_parts(out, collected.filled, &collected.parts)
        }
        Err(r) => put_parts(out, unopened(*r), &[Part::BLANK; MOST_PARTS]),
    }
}

pub fn parts<W: Write>(out: &mut W, q: &Question<'_>) -> io::Result<()> {
    collect(out, &open(q), q.list)
}

/// The parts written to a lent list, of which the call is handed as many as `most` says.
pub fn parts_within<W: Write>(out: &mut W, q: &Question<'_>) -> io::Result<()> {
    let mut list = [Part::BLANK; MOST_PARTS];
    let room = usize::from(q.most).min(MOST_PARTS);
    let filled = match open(q) {
        Ok(file) => parts::fill(&file, q.list, &mut list[..room]),
        Err(r) => unopened(r),
    };
    put_parts(out, filled, &list)
}

/// So many calls from fresh on, each from the state that the one before left. Where parts are asked for, those
/// of an item follow it as a line of their own. A flag and no closure: it would have to hold `out`, which the
/// walk's own lines go to.
pub fn walk<W: Write>(out: &mut W, q: &Question<'_>, with_parts: bool) -> io::Result<()> {
    let file = open(q);
    let mut at = State::fresh(q.record);
    for _ in 0..q.most {
        let walked = call(&file, at);
        line(out, &walked)?;
        if let Ok(Some(item)) = walked.answer
            && with_parts
        {
            collect(out, &file, item.rest)?;
        }
        at = walked.left;
    }
    Ok(())
}
