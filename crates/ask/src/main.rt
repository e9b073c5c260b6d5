// Asks the library: reads questions from standard input and writes the answer to each on a line, for tests that
// compare the answers with a second reading of the rules.
#![tactic(auto)]

mod in_extract;
mod in_listing;
mod in_merge;
mod in_names;
mod in_record;
mod in_references;
mod in_runs;
mod in_segments;
mod in_table;
mod in_walk;
mod numbers;
mod question;
mod tell;

use fields::RecordNumber;
use question::Question;
use std::alloc::Global;
use std::io;
use std::io::{BufReader, BufWriter, Read, Write};
use tell::{line, view};

// The questions on one record; the kinds behind them are the next function's. A kind is a byte, matched in
// these functions alone: an enum of thirty names would be made from the byte by the same list.
fn answer_on_record<W: Write>(out: &mut W, q: &Question<'_>) -> io::Result<()> {
    match q.kind {
        0 => line(out, &in_record::header(q)),
        1 => line(out, &in_record::opening(q)),
        2 => line(out, &numbers::known(q.ty)),
        3 => line(out, &numbers::flags(q.instance)),
        4 => line(out, &in_record::step(q)),
        5 => line(out, &in_record::attribute(q)),
        6 => in_record::search(out, q),
        7 => in_record::walk(out, q),
        8 => line(out, &in_record::list(q)),
        9 => line(out, &in_record::name(q)),
        10 => line(out, &view(in_record::name_bytes(q))),
        11 => line(out, &in_record::full(q)),
        12 => line(out, &in_record::value(q)),
        13 => line(out, &view(in_record::value_bytes(q))),
        14 => in_record::take(out, q),
        15 => line(out, &in_record::taken(q)),
        _ => answer_on_file(out, q),
    }
}

// Those on entries, tables, walks, listings, cluster runs, references and names. A kind that there is not has no
// answer.
fn answer_on_file<W: Write>(out: &mut W, q: &Question<'_>) -> io::Result<()> {
    match q.kind {
        16 => line(out, &in_table::entry(q)),
        17 => line(out, &in_table::listed(q)),
        18 => in_table::base_row(out, q.table),
        19 => line(out, &in_table::check(q)),
        20 => line(out, &in_table::opening(q)),
        21 => line(out, &in_table::lookup(q)),
        22 => line(out, &view(in_table::record_bytes(q))),
        23 => in_walk::fresh(out, q),
        24 => line(out, &in_walk::next(q)),
        25 => in_walk::walk(out, q, false),
        26 => line(out, &in_walk::first(q)),
        27 => in_walk::parts(out, q),
        28 => in_walk::parts_within(out, q),
        29 => in_walk::walk(out, q, true),
        30 => in_listing::page(out, q),
        31 => in_listing::written(out, q),
        32 => line(out, &in_runs::step(q)),
        33 => in_runs::all(out, q),
        36 => in_references::of(out, q),
        38 => in_names::of(out, q),
        39 => in_names::value(out, q),
        _ => Ok(()),
    }
}

// The questions on extracts and on two tables, whose calls want a room to write to, and on hazards, which are allocated;
// or one of the others.
fn answer<W: Write>(
    out: &mut W,
    q: &Question<'_>,
    room: &mut [u8],
    alloc: Global,
) -> io::Result<()> {
    match q.kind {
        34 => in_extract::write(out, q, room),
        35 => in_extract::write_chosen(out, q, room),
        37 => in_segments::hazards(out, q, alloc),
        40 => in_merge::write(out, q, room),
        _ => answer_on_record(out, q),
    }
}

// Answers one question after another. It ends by the error that the input's end is, or that of an answer that
// could not be written.
fn answer_each<R: Read, W: Write>(
    input: &mut R,
    space: &mut [u8],
    listed: &mut [RecordNumber],
    room: &mut [u8],
    alloc: Global,
    out: &mut W,
) -> io::Result<()> {
    // as many as come: a loop without a bound would have to be shown to end
    for _ in 0..u64::MAX {
        answer(out, &question::read(input, space, listed)?, room, alloc)?;
    }
    Ok(())
}

fn answer_all<R: Input + Print + AllocGlobal>(rt: &R) -> io::Result<()> {
    let mut input = BufReader::new(rt.alloc(), rt.reader())?;
    let mut out = BufWriter::new(rt.alloc(), io::writer(rt))?;
    let mut space = question::room(rt.alloc())?;
    let mut listed = question::listed_room(rt.alloc())?;
    let mut room = question::room(rt.alloc())?;
    let alloc = rt.alloc();
    let _ = answer_each(
        &mut input,
        &mut space,
        &mut listed,
        &mut room,
        alloc,
        &mut out,
    );
    out.flush()
}

// Whether all could be written is not asked: what is missing is missed by the test.
fn main(rt: HostRuntime) {
    let _ = answer_all(&rt);
}
