//! A walk whose lines are told.
ghost use Rattle.std.specs.Prelude.{◌≤◌, ◌<◌, ◌+◌, ◌*◌, length};
ghost use Rattle.items.specs.State.{weight};
ghost use Rattle.lines.specs.Bounds.{most_at_once, most_in_all};

use crate::Line;
use crate::item::item_line;
use crate::runs_under::{next_run, part_runs};
use items::{File, State};
use parts::Part;
use runs::Runs;

/// Where a walk stands that has lines to come: the runs under its last line, how many parts its last item has and how
/// many of them are shown, how many calls it may take, and what was read so far. The parts stand in a lent list.
// The calls are one more than what is left at most: counted here, so that the definition need not say that more change
// nothing.
#[derive(Clone, Copy)]
pub struct Walk<'a> {
    pub file: File<'a>,
    pub state: State,
    pub runs: Option<Runs<'a>>,
    pub shown: usize,
    pub count: usize,
    pub calls: usize,
    pub reads: u64,
    pub ghost less: { weight (length file.base.bytes.now) state < calls },
    pub ghost paid: { reads + most_at_once * weight (length file.base.bytes.now) state ≤ most_in_all },
}

impl<'a> Walk<'a> {
    ghost use Rattle.std.specs.Prelude.{◌≡◌, ◌≤◌, [], ◌∷◌, ◌++◌, take, length, Some};
    ghost use Rattle.std.specs.Option.{is_some};
    ghost use Rattle.fields.specs.Pick.{pick};
    ghost use Rattle.lines.specs.Rest.{walk_rest, runs_rest, parts_in, run_in};
    ghost use Rattle.lines.specs.Ending.{says};

    // The line of the next item, whose parts are written to the lent list, or the last one.
    #[tactic(auto, unfolding(crate::specs::Listing::lines_run, items::specs::Walked::report_of))]
    #[inline(always)]
    fn step(&mut self, parts: &mut [Part]) -> Line
        ensures lines { run_in (length parts.old) self.old.file self.old.calls self.old.reads self.old.state ≡
            result ∷ pick (is_some (says result)) [] (walk_rest parts.new (Some self.new)) }
        ensures size { length parts.new ≡ length parts.old }
    {
        let walked = self.file.advance(&mut self.state);
        let reads = self.reads + walked.reads;
        match walked.answer {
            Ok(None) => Line::End { reads },
            Err(r) => Line::Stopped {
                cause: r.cause,
                reads,
            },
            Ok(Some(item)) => {
                let told = item_line(&self.file, &item, parts);
                self.runs = told.runs;
                self.shown = 0;
                self.count = told.count;
                self.calls -= 1;
                self.reads = reads + told.reads;
                told.line
            }
        }
    }

    /// The next line: a run of the line before, a part of the item before with its runs to come, or what the walk
    /// gives.
    #[inline(always)]
    pub fn next(&mut self, parts: &mut [Part]) -> Line
        ensures lines { walk_rest parts.old (Some self.old) ≡
            result ∷ pick (is_some (says result)) [] (walk_rest parts.new (Some self.new)) }
        ensures size { length parts.new ≡ length parts.old }
    {
        if let Some(line) = next_run(&mut self.runs) {
            return line;
        }
        if self.shown < self.count && self.shown < parts.len() {
            let part = parts[self.shown];
            self.shown += 1;
            self.runs = part_runs(&self.file, &part);
            return Line::Part(part);
        }
        self.step(parts)
    }
}
