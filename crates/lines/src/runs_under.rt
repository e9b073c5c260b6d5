//! The runs under a line (RULES 18.12).
ghost use Rattle.std.specs.Prelude.{◌≡◌, [], ◌∷◌, MatchOption, IfSome, None};
ghost use Rattle.fields.specs.Told.{told_as};
ghost use Rattle.record.specs.Told.{shown_record};
ghost use Rattle.items.specs.Lookup.{lookup_of};
ghost use Rattle.items.specs.OfFile.{of_file};
ghost use Rattle.lines.specs.Ending.{says};
ghost use Rattle.lines.specs.Runs.{run_lines, value_lines};
ghost use Rattle.lines.specs.Rest.{runs_rest};

use crate::{Contents, Line};
use fields::Refusal;
use items::File;
use parts::Part;
use record::{Record, Span};
use runs::Runs;

// Those in some bytes of a record that was looked up.
#[tactic(auto, unfolding(crate::specs::Runs::run_lines))]
fn runs_in<'a>(looked: &Result<Record<'a>, Refusal>, bytes: Span) -> Option<Runs<'a>>
    ensures { runs_rest result ≡ run_lines (told_as shown_record looked.now) bytes }
{
    match looked {
        Ok(within) => Some(Runs::of(within, bytes)),
        Err(_) => None,
    }
}

/// Those of a part of a file: its record is looked up once for all of them.
pub fn part_runs<'a>(file: &File<'a>, part: &Part) -> Option<Runs<'a>>
    ensures { runs_rest result ≡ run_lines (of_file lookup_of file.now part.now.file 0) part.now.runs }
{
    runs_in(&file.lookup(part.file, 0), part.runs)
}

/// Those of a value, which may have none.
pub fn value_runs<'a>(looked: &Result<Record<'a>, Refusal>, contents: Contents) -> Option<Runs<'a>>
    ensures { runs_rest result ≡ value_lines (told_as shown_record looked.now) contents }
{
    match contents {
        Contents::Runs { runs, .. } => runs_in(looked, runs),
        Contents::Resident(_)
        | Contents::Refused(_)
        | Contents::Parts { .. }
        | Contents::PartsRefused { .. } => None,
    }
}

/// The line of the next run, or of the refusal that ends them, if there is one.
pub fn next_run(runs: &mut Option<Runs>) -> Option<Line>
    ensures gives { MatchOption result ((runs_rest runs.old ≡ []) × (runs_rest runs.new ≡ []))
        (λ line. runs_rest runs.old ≡ line ∷ runs_rest runs.new) }
    ensures more { IfSome result (λ line. says line ≡ None) }
{
    match runs.as_mut()?.next()? {
        Ok(run) => Some(Line::Run(run)),
        Err(r) => Some(Line::RunsRefused(r.cause)),
    }
}
