// The parts of an item, written to a lent list (RULES 15).
#![tactic(auto)]

pub mod laws;

ghost use Rattle.std.specs.Prelude.{◌≡◌, ◌+◌, ◌-◌, ◌*◌, ◌≤◌, min, length};
ghost use Rattle.fields.specs.Answer.{gives};
ghost use Rattle.fields.specs.Told.{told, told_report};
ghost use Rattle.record.specs.Told.{shown_record};
ghost use Rattle.list.specs.Entry.{entry_of};
ghost use Rattle.items.specs.State.{rest_of};
ghost use Rattle.items.specs.Key.{key_of, name_in};
ghost use Rattle.items.specs.Lies.{Lies};
ghost use Rattle.items.specs.OfFile.{of_file};
ghost use Rattle.items.specs.Bounds.{size_of};
ghost use Rattle.parts.specs.Part.{part_in};
ghost use Rattle.parts.specs.Parts.{parts_of};
ghost use Rattle.parts.specs.OfFile.{part_at, parts_begun, parts_behind, ended};
ghost use Rattle.parts.specs.Filled.{told_parts, filled, most_parts, blank_parts, collected};

use fields::{Cause, Counted, RecordNumber, Refusal, Vcn, known_type};
use items::{File, Key, Rest};
use list::{Entry, NamedEntry};
use record::{FullHeader, Located, Span};

/// A part: the record that holds it, its attribute's offset there, its own lowest VCN, where its run bytes stand in
/// that record, the stream's data size in bytes, and the lowest VCN that its list entry tells.
#[derive(Clone, Copy, PartialEq, Eq)]
pub struct Part {
    pub file: RecordNumber,
    pub offset: usize,
    pub lowest: Vcn,
    pub runs: Span,
    pub size: u64,
    pub listed: Vcn,
}

/// As many entries as a list in the largest record has room for, 4,096 / 26: with room for so many parts, 20 never
/// comes.
pub const MOST_PARTS: usize = 157;

/// How many parts were written, whether they are whole, and what was read.
// A count beside a lent list, since there is no heap: the caller lends the room.
#[derive(Clone, Copy)]
pub struct Filled {
    pub count: usize,
    pub answer: Result<(), Refusal>,
    pub reads: u64,
}

/// Up to `MOST_PARTS` parts by value, and what was reported of them.
#[derive(Clone, Copy)]
pub struct Collected {
    pub parts: [Part; MOST_PARTS],
    pub filled: Filled,
}

impl Part {
    /// What stands in a list before a part is written there.
    // A constant and no `Default`, so that an array of it needs no call.
    pub const BLANK: Part = Part {
        file: RecordNumber(0),
        offset: 0,
        lowest: Vcn(0),
        runs: Span { from: 0, bytes: 0 },
        size: 0,
        listed: Vcn(0),
    };
}

// The part of an attribute that was found: 19, then 7, then 12.
#[tactic(auto, unfolding(crate::specs::Part::part_in, crate::specs::Part::part_after))]
fn part_in(found: &Located, e: &Entry) -> Result<Part, Refusal>
    ensures { told result ≡ part_in e.now (shown_record found.now.within) found.now.attribute }
{
    if found.attribute.resident {
        return found.refused(Cause::PartResident);
    }
    let FullHeader::NonResident(f) = found.full()? else {
        return found.refused(Cause::PartResident);
    };
    let from = usize::from(f.runs_offset);
    if found.attribute.length < from {
        return found.refused(Cause::RunsOffset);
    }
    Ok(Part {
        file: found.within.number,
        offset: found.attribute.offset,
        lowest: f.lowest,
        runs: Span {
            from: found.attribute.offset + from,
            bytes: found.attribute.length - from,
        },
        size: f.size,
        listed: e.lowest,
    })
}

// The part that an entry at a place leads to: looked up, found, and judged.
#[tactic(auto, using(crate::proofs::Leads::leads))]
fn part_by(file: &File, e: &Entry, place: usize) -> Counted<Part>
    ensures answer { told_report result ≡ part_at file.now e.now place }
    ensures few { 16 * result.reads ≤ size_of file.now }
{
    let found = file.sought(e, place);
    let answer = match found.answer {
        Ok(located) => part_in(&located, e),
        Err(r) => Err(r),
    };
    Counted {
        answer,
        reads: found.reads,
    }
}

// The parts by the first entry of a list, whose type is known, and by those directly behind it while each continues its
// stream.
#[tactic(auto, using(crate::proofs::Steps::steps))]
fn fill_inside(file: &File, from: Rest, first: &NamedEntry, list: &mut [Part]) -> Filled
    requires lies { Lies (size_of file.now) from }
    requires stands { gives first.now.entry ≡ entry_of (rest_of file.now.base.bytes.now from)
        file.now.base.number from.from }
    ensures parts { filled list.new result ≡ told_parts list.old (parts_begun file.now
        (key_of first.now.entry first.now.name.now) (length list.old) from first.now.entry) }
    ensures fits { result.count ≤ length list.old }
    ensures size { length list.new ≡ length list.old }
    ensures few { 1 + result.reads ≤ 257 * (from.to - from.from) }
{
    let number = file.base.number;
    let key = Key::of(first);
    // A loop that counts, and no iterator: 20 comes before the lookup, and each way out tells the count and the reads.
    let mut at = from;
    let mut e = first.entry;
    let mut count: usize = 0;
    let mut reads: u64 = 0;
    let answer = 'entries: loop {
        if count == list.len() {
            break 'entries file.base.refused(Cause::NoRoom, at.from);
        }
        let found = part_by(file, &e, at.from);
        reads += found.reads;
        let next = match found.answer {
            Ok(p) => p,
            Err(r) => break 'entries Err(r),
        };
        list[count] = next;
        count += 1;
        at.from += e.length;
        let rest = &file.base.bytes[at.from..at.to];
        let named = match list::named(rest, number, at.from) {
            Ok(Some(named)) => named,
            Ok(None) => break 'entries Ok(()),
            Err(r) => break 'entries Err(r),
        };
        reads += 1;
        if !key.is_continued_by(&named) {
            break 'entries Ok(());
        }
        e = named.entry;
    };
    Filled {
        count,
        answer,
        reads,
    }
}

// Ended before the first part.
fn none(answer: Result<(), Refusal>, reads: u64) -> Filled
    ensures { result ≡ ended answer reads }
{
    Filled {
        count: 0,
        answer,
        reads,
    }
}

// The parts by a list inside the record: its first entry is judged by its type alone, and counts one read.
#[tactic(auto, using(crate::proofs::Steps::fronts))]
fn fill_from(file: &File, from: Rest, list: &mut [Part]) -> Filled
    requires { Lies (size_of file.now) from }
    ensures parts { filled list.new result ≡ told_parts list.old (parts_behind file.now (length list.old) from) }
    ensures fits { result.count ≤ length list.old }
    ensures size { length list.new ≡ length list.old }
    ensures few { result.reads ≤ 257 * (from.to - from.from) }
{
    let front = &file.base.bytes[from.from..from.to];
    let first = match list::named(front, file.base.number, from.from) {
        Ok(Some(first)) => first,
        Ok(None) => return none(Ok(()), 0),
        Err(r) => return none(Err(r), 0),
    };
    if !known_type(first.entry.ty) {
        return none(file.base.refused(Cause::UnknownType, from.from), 1);
    }
    let filled = fill_inside(file, from, &first, list);
    Filled {
        count: filled.count,
        answer: filled.answer,
        reads: 1 + filled.reads,
    }
}

/// The parts of an item, by its list from its own entry on, written to the front of a lent list: 22, then the steps.
/// There is room for as many as the list is long; 20 where that is not enough. An item without a list has none.
#[tactic(auto, using(crate::proofs::Calls::calls))]
pub fn fill(file: &File, rest: Option<Rest>, list: &mut [Part]) -> Filled
    ensures parts { filled list.new result ≡ told_parts list.old (of_file parts_of file.now (length list.old) rest) }
    ensures fits { result.count ≤ length list.old }
    ensures size { length list.new ≡ length list.old }
    ensures few { result.reads ≤ 257 * size_of file.now }
{
    match file.inside(rest) {
        Ok(()) => match rest {
            Some(from) => fill_from(file, from, list),
            None => none(Ok(()), 0),
        },
        Err(r) => none(Err(r), 0),
    }
}

/// The same by value, with room for up to `MOST_PARTS` parts: for callers that lend no list. What stands behind them
/// is blank.
#[tactic(auto, unfolding(crate::specs::Filled::blank_parts))]
pub fn collect(file: &File, rest: Option<Rest>, room: usize) -> Collected
    ensures { collected result ≡ told_parts blank_parts (of_file parts_of file.now (min room most_parts) rest) }
{
    let mut parts = [Part::BLANK; MOST_PARTS];
    let filled = fill(file, rest, &mut parts[..room.min(MOST_PARTS)]);
    Collected { parts, filled }
}
