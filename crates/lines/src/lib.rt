//! The listing of a table (docs/RULES.md, section 18): its lines one by one, and their text in a lent buffer or to a
//! writer.
#![tactic(auto)]

mod ending;
mod fill;
mod item;
pub mod laws;
mod line;
mod open;
mod put;
mod runs_under;
mod walk;
mod write;

pub use ending::Ending;
pub use fill::{Listed, list};
pub use item::{Raw, raw_line};
pub use line::{AttributeLine, Contents, Line, Name};
use parts::Part;
pub use put::put_line;
pub use runs_under::next_run;
pub use walk::Walk;
pub use write::{write_all, write_listing, write_record_of, write_table};

/// The lines of a listing that are still to come. No memory is allocated: the parts of the last item stand in a list
/// that the caller lends, and lends again to the next call as this one left it.
// There is no heap, so the parts stand in a list that the caller lends. The list is no field, and this no iterator: the
// compiler refuses a struct that holds such a list beside a walk, wherever one is made.
#[derive(Clone, Copy)]
pub struct Lines<'a> {
    pub first: Option<Line>,
    pub walk: Option<Walk<'a>>,
    pub last: Option<Line>,
}

impl<'a> Lines<'a> {
    ghost use Rattle.std.specs.Prelude.{◌≡◌, length};
    ghost use Rattle.lines.specs.Rest.{Gives};

    /// The next line, or that all have been given. There is room for as many parts as the list is long.
    #[inline(always)]
    pub fn next(&mut self, parts: &mut [Part]) -> Option<Line>
        ensures gives { Gives parts.old self.old result parts.new self.new }
        ensures size { length parts.new ≡ length parts.old }
    {
        if let Some(line) = self.first {
            self.first = None;
            return Some(line);
        }
        if let Some(walk) = &mut self.walk {
            let line = walk.next(parts);
            if line.ending().is_some() {
                self.walk = None;
            }
            return Some(line);
        }
        let line = self.last?;
        self.last = None;
        Some(line)
    }
}
