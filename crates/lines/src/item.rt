//! The line of an item (RULES 18.3, 18.4).
ghost use Rattle.std.specs.Prelude.{◌≡◌, Some, length, None};
ghost use Rattle.fields.specs.Told.{told_as};
ghost use Rattle.record.specs.Told.{shown_record};
ghost use Rattle.record.specs.View.{span};
ghost use Rattle.parts.specs.OfFile.{parts_of_file};
ghost use Rattle.lines.specs.Ending.{says};
ghost use Rattle.lines.specs.Listing.{name_in, value_in, first_size, parts_contents};
ghost use Rattle.lines.specs.Raw.{raw_line, raw_runs};
ghost use Rattle.lines.specs.InFile.{line_in, runs_in, contents_in, Reads};
ghost use Rattle.lines.specs.Rest.{runs_rest};

use crate::runs_under::value_runs;
use crate::{AttributeLine, Contents, Line, Name};
use fields::Refusal;
use items::{File, Item, Rest};
use parts::Part;
use record::{Attribute, Record, Span, Value, View};
use runs::Runs;

/// The line of an item, the runs under it, how many parts it has, and what was read for them.
// The parts are told by their count: no heap, so that the caller lends the room.
#[derive(Clone, Copy)]
pub struct Told<'a> {
    pub line: Line,
    pub runs: Option<Runs<'a>>,
    pub count: usize,
    pub reads: u64,
}

/// The line of an attribute of the raw walk, which has no parts, and the runs under it.
#[derive(Clone, Copy)]
pub struct Raw<'a> {
    pub line: Line,
    pub runs: Option<Runs<'a>>,
}

// What is told of an item's value, and was read for it.
#[derive(Clone, Copy)]
struct Read {
    contents: Contents,
    count: usize,
    reads: u64,
}

// An item's name and value, as its record tells them.
#[derive(Clone, Copy)]
struct Places {
    name: Name,
    value: Contents,
}

// No `From`: both types are record's.
fn span_of(view: View) -> Span
    ensures { result ≡ span view.entry.from (length view.entry.bytes.now) }
{
    Span {
        from: view.from,
        bytes: view.bytes.len(),
    }
}

impl Name {
    ghost use Rattle.std.specs.Prelude.{◌≡◌};
    ghost use Rattle.fields.specs.Told.{told_as};
    ghost use Rattle.record.specs.Told.{piece};
    ghost use Rattle.lines.specs.Listing.{named};

    fn of(name: Result<View, Refusal>) -> Name
        ensures { result ≡ named (told_as piece name.entry) }
    {
        match name {
            Ok(view) => Name::At(span_of(view)),
            Err(r) => Name::Refused(r.cause),
        }
    }
}

impl Contents {
    ghost use Rattle.std.specs.Prelude.{◌≡◌};
    ghost use Rattle.fields.specs.Told.{told, told_as};
    ghost use Rattle.record.specs.Told.{shown_value};
    ghost use Rattle.lines.specs.Listing.{valued, parted};

    fn of(value: Result<Value, Refusal>) -> Contents
        ensures { result ≡ valued (told_as shown_value value.entry) }
    {
        match value {
            Ok(Value::Resident(view)) => Contents::Resident(span_of(view)),
            Ok(Value::Runs(view, size)) => Contents::Runs {
                runs: span_of(view),
                size,
            },
            Err(r) => Contents::Refused(r.cause),
        }
    }

    // Of parts, the first one's data size in bytes.
    fn of_parts(answer: Result<(), Refusal>, count: usize, size: u64) -> Contents
        ensures { result ≡ parted (told answer) count size }
    {
        match answer {
            Ok(()) => Contents::Parts { count, size },
            Err(r) => Contents::PartsRefused {
                count,
                cause: r.cause,
            },
        }
    }
}

fn places_in(looked: &Result<Record, Refusal>, at: usize) -> Places
    ensures name { result.name ≡ name_in (told_as shown_record looked.now) at }
    ensures value { result.value ≡ value_in (told_as shown_record looked.now) at }
{
    match looked {
        Ok(within) => Places {
            name: Name::of(within.name(at)),
            value: Contents::of(within.value(at)),
        },
        Err(r) => Places {
            name: Name::Refused(r.cause),
            value: Contents::Refused(r.cause),
        },
    }
}

fn first_size(parts: &[Part]) -> u64
    ensures { result ≡ first_size parts.now }
{
    match parts.first() {
        Some(part) => part.size,
        None => 0,
    }
}

fn read_parts(file: &File, rest: Rest, parts: &mut [Part]) -> Read
    ensures contents { result.contents ≡
        parts_contents (parts_of_file file.now (length parts.old) (Some rest)) }
    ensures reads { Reads (parts_of_file file.now (length parts.old) (Some rest)) parts.old parts.new
        result.count result.reads }
{
    let filled = parts::fill(file, Some(rest), parts);
    let size = first_size(&parts[..filled.count]);
    Read {
        contents: Contents::of_parts(filled.answer, filled.count, size),
        count: filled.count,
        reads: filled.reads,
    }
}

#[tactic(auto, unfolding(parts::specs::Parts::parts_of, parts::specs::Parts::parts_in, items::specs::State::lies_in))]
fn read_contents(file: &File, value: Contents, rest: Option<Rest>, parts: &mut [Part]) -> Read
    ensures contents { result.contents ≡ contents_in (length parts.old) file.now rest value }
    ensures reads { Reads (parts_of_file file.now (length parts.old) rest) parts.old parts.new
        result.count result.reads }
{
    match rest {
        Some(rest) => read_parts(file, rest, parts),
        None => Read {
            contents: value,
            count: 0,
            reads: 0,
        },
    }
}

/// The line of an attribute of the raw walk, and the runs under it, in the record that it lies in (RULES 18.10).
pub fn raw_line<'a>(within: &Record<'a>, attribute: &Attribute) -> Raw<'a>
    ensures line { result.line ≡ raw_line within.now.bytes.now within.now.number attribute.now }
    ensures runs { runs_rest result.runs ≡ raw_runs within.now.bytes.now within.now.number attribute.now }
{
    let itself = Ok(*within);
    let places = places_in(&itself, attribute.offset);
    let line = Line::Attribute(AttributeLine {
        file: within.number,
        offset: attribute.offset,
        ty: attribute.ty,
        length: attribute.length,
        instance: attribute.instance,
        name: places.name,
        contents: places.value,
    });
    Raw {
        line,
        runs: value_runs(&itself, places.value),
    }
}

/// The line of an item; its parts are written to the front of the lent list.
#[tactic(auto, unfolding(crate::specs::Listing::item_line, crate::specs::Listing::item_runs))]
pub fn item_line<'a>(file: &File<'a>, item: &Item, parts: &mut [Part]) -> Told<'a>
    ensures line { result.line ≡ line_in (length parts.old) file.now item.now }
    ensures runs { runs_rest result.runs ≡ runs_in (length parts.old) file.now item.now }
    ensures more { says result.line ≡ None }
    ensures reads { Reads (parts_of_file file.now (length parts.old) item.now.rest) parts.old parts.new
        result.count result.reads }
{
    let attribute = item.attribute;
    let looked = file.lookup(item.file, 0);
    let places = places_in(&looked, attribute.offset);
    let read = read_contents(file, places.value, item.rest, parts);
    let line = Line::Attribute(AttributeLine {
        file: item.file,
        offset: attribute.offset,
        ty: attribute.ty,
        length: attribute.length,
        instance: attribute.instance,
        name: places.name,
        contents: read.contents,
    });
    Told {
        line,
        runs: value_runs(&looked, read.contents),
        count: read.count,
        reads: read.reads,
    }
}
