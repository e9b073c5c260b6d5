//! One line of a listing, and its text (RULES 18.2 to 18.4, 18.12).
ghost use Rattle.std.specs.Prelude.{◌≡◌, Some, [], ◌∷◌};
ghost use Rattle.fields.specs.Told.{number_of};
ghost use Rattle.text.specs.Decimal.{numbers, words};
ghost use Rattle.lines.specs.Line.{name_text, contents_text, part_numbers, line_text};

use fields::{Cause, RecordNumber};
use parts::Part;
use record::Span;
use runs::Run;
use std::fmt;

/// No line is longer, in bytes.
pub const MOST_LINE: usize = 256;

/// Where a name stands, or why it is refused.
#[derive(Clone, Copy)]
pub enum Name {
    At(Span),
    Refused(Cause),
}

/// Where a value stands: its bytes, or its runs with the data size in bytes, or its parts, whole or refused behind so
/// many.
#[derive(Clone, Copy)]
pub enum Contents {
    Resident(Span),
    Runs { runs: Span, size: u64 },
    Refused(Cause),
    Parts { count: usize, size: u64 },
    PartsRefused { count: usize, cause: Cause },
}

/// An item: the record that holds it, its attribute's offset there, type, length in bytes and instance, and where its
/// name and its value are.
#[derive(Clone, Copy)]
pub struct AttributeLine {
    pub file: RecordNumber,
    pub offset: usize,
    pub ty: u32,
    pub length: usize,
    pub instance: u16,
    pub name: Name,
    pub contents: Contents,
}

/// A line of a listing.
#[derive(Clone, Copy)]
pub enum Line {
    Record { number: RecordNumber, size: usize },
    Attribute(AttributeLine),
    Part(Part),
    Run(Run),
    RunsRefused(Cause),
    End { reads: u64 },
    Stopped { cause: Cause, reads: u64 },
    TableRefused,
    NoRecord,
}

#[derive(Clone, Copy)]
struct Pair(usize, usize);

impl fmt::Display for Pair {
    ghost output = { λ n. Some (numbers (n.0 ∷ n.1 ∷ [])) };

    fn fmt<W: fmt::Write>(&self, f: &mut fmt::Formatter<W>) -> fmt::Result {
        write!(f, " {} {}", self.0, self.1)
    }
}

#[derive(Clone, Copy)]
struct DataSize(u64);

impl fmt::Display for DataSize {
    ghost output = { λ n. Some (words " size" (n.0 ∷ [])) };

    fn fmt<W: fmt::Write>(&self, f: &mut fmt::Formatter<W>) -> fmt::Result {
        write!(f, " size {}", self.0)
    }
}

#[derive(Clone, Copy)]
struct ByCause(Cause);

impl fmt::Display for ByCause {
    ghost output = { λ c. Some (words " refused" (number_of c.0 ∷ [])) };

    fn fmt<W: fmt::Write>(&self, f: &mut fmt::Formatter<W>) -> fmt::Result {
        write!(f, " refused {}", self.0.number())
    }
}

#[derive(Clone, Copy)]
struct Five(u64, u64, u64, u64, u64);

impl fmt::Display for Five {
    ghost output = { λ n. Some (numbers (n.0 ∷ n.1 ∷ n.2 ∷ n.3 ∷ n.4 ∷ [])) };

    fn fmt<W: fmt::Write>(&self, f: &mut fmt::Formatter<W>) -> fmt::Result {
        write!(f, " {} {} {} {} {}", self.0, self.1, self.2, self.3, self.4)
    }
}

impl fmt::Display for Name {
    ghost output = { λ n. Some (name_text n) };

    fn fmt<W: fmt::Write>(&self, f: &mut fmt::Formatter<W>) -> fmt::Result {
        match *self {
            Name::At(span) => write!(f, "name {} {}", span.from, span.bytes),
            Name::Refused(cause) => write!(f, "name refused {}", cause.number()),
        }
    }
}

impl fmt::Display for Contents {
    ghost output = { λ c. Some (contents_text c) };

    fn fmt<W: fmt::Write>(&self, f: &mut fmt::Formatter<W>) -> fmt::Result {
        match *self {
            Contents::Resident(span) => write!(f, "value resident {} {}", span.from, span.bytes),
            Contents::Runs { runs, size } => {
                let pair = Pair(runs.from, runs.bytes);
                let size = DataSize(size);
                write!(f, "value runs{pair}{size}")
            }
            Contents::Refused(cause) => write!(f, "value refused {}", cause.number()),
            Contents::Parts { count, size } => {
                let size = DataSize(size);
                write!(f, "value parts {count}{size}")
            }
            Contents::PartsRefused { count, cause } => {
                let refused = ByCause(cause);
                write!(f, "value parts {count}{refused}")
            }
        }
    }
}

impl AttributeLine {
    ghost use Rattle.std.specs.Prelude.{◌≡◌};
    ghost use Rattle.lines.specs.Line.{attribute_numbers};

    // The five numbers behind its first word, for `Five` and for put_words: one place has their order for both.
    pub fn numbers(&self) -> [u64; 5]
        ensures { result ≡ attribute_numbers self.now }
    {
        [
            self.file.0,
            self.offset as u64,
            u64::from(self.ty),
            self.length as u64,
            u64::from(self.instance),
        ]
    }
}

// The five numbers of a part's line, for both as well.
pub fn part_numbers(part: &Part) -> [u64; 5]
    ensures { result ≡ part_numbers part.now }
{
    [
        part.file.0,
        part.offset as u64,
        part.lowest.0,
        part.runs.from as u64,
        part.runs.bytes as u64,
    ]
}

impl fmt::Display for Line {
    ghost output = { λ l. Some (line_text l) };

    fn fmt<W: fmt::Write>(&self, f: &mut fmt::Formatter<W>) -> fmt::Result {
        match *self {
            Line::Record { number, size } => writeln!(f, "record {} size {size}", number.0),
            Line::Attribute(a) => {
                let [file, offset, ty, length, instance] = a.numbers();
                let five = Five(file, offset, ty, length, instance);
                writeln!(f, "attr{five} {} {}", a.name, a.contents)
            }
            Line::Part(p) => {
                let [file, offset, lowest, from, bytes] = part_numbers(&p);
                let five = Five(file, offset, lowest, from, bytes);
                writeln!(f, "part{five}")
            }
            Line::Run(Run::Clusters { start, length }) => writeln!(f, "run {} {length}", start.0),
            Line::Run(Run::Hole { length }) => writeln!(f, "hole {length}"),
            Line::RunsRefused(cause) => writeln!(f, "run refused {}", cause.number()),
            Line::End { reads } => writeln!(f, "end reads {reads}"),
            Line::Stopped { cause, reads } => {
                writeln!(f, "stopped {} reads {reads}", cause.number())
            }
            Line::TableRefused => writeln!(f, "table refused {}", Cause::BadTable.number()),
            Line::NoRecord => writeln!(f, "table refused {}", Cause::NoRecord.number()),
        }
    }
}
