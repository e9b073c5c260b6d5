//! `nomutanku merge`: one table is made of two.
ghost use Rattle.std.specs.Prelude.{ℕ, List, ◌≡◌, codes, is_some, IfErr};
ghost use Rattle.clap.specs.Words.{found_of, first_value};
ghost use Rattle.command.specs.MergeFailure.{status_of};
ghost use Rattle.command.specs.Merging.{IsUnreadOf};
ghost use Rattle.nomutanku.specs.Merging.{told_names, pair_of, taken_status};
ghost use Rattle.nomutanku.specs.Merging.{IsMade, IsMerged, AnswersMerge};

use crate::failed::Failed;
use crate::inputs::{STANDARD_INPUT, Streams, named};
use crate::options::{FIRST_TABLE, SECOND_TABLE, TABLE};
use crate::output::write_table;
use crate::progress::Watched;
use clap::ArgMatches;
use command::{
    MergeFailure, MergeMessage, MergedTable, Side, Status, Written, merge_tables, read_table,
};
use merge::Merged;
use std::fs;
use std::rt::{Clock, Files};

const USAGE: &str =
    "standard input is for one of the two tables, and not for both: nomutanku merge --help";

/// The names of two tables.
#[derive(Clone, Copy)]
struct Names<'a> {
    first: &'a str,
    second: &'a str,
}

/// The two tables that are named; none where one is not, or where both are standard input.
fn names_in<'a>(options: &'a ArgMatches<'_>) -> Option<Names<'a>>
    ensures { told_names result ≡ pair_of (first_value (found_of options.now) (codes "first"))
        (first_value (found_of options.now) (codes "second")) }
{
    let first = options.get_str(FIRST_TABLE)?;
    let second = options.get_str(SECOND_TABLE)?;
    if first == STANDARD_INPUT && second == STANDARD_INPUT {
        return None;
    }
    Some(Names { first, second })
}

/// Reads a table by its name, and tells how far it is read, if someone reads along.
// apart, so that its buffer takes stack only while it runs
#[inline(never)]
fn read<R: Eprint + Input + Files + Clock + AllocGlobal>(
    rt: &R,
    side: Side,
    name: &str,
    watched: bool,
) -> Result<Vec<u8>, MergeFailure>
    ensures { IfErr result (IsUnreadOf side) }
{
    if name == STANDARD_INPUT {
        let mut input = Watched::new(rt, rt.reader(), named(name), watched);
        return read_table(rt.alloc(), side, &mut input);
    }
    match fs::open(rt, name) {
        Ok(file) => {
            let mut input = Watched::new(rt, file, named(name), watched);
            read_table(rt.alloc(), side, &mut input)
        }
        Err(error) => Err(MergeFailure::Unreadable(side, error)),
    }
}

/// Makes one table of two. The second is opened once the first is read and closed.
fn merge<R: Eprint + Input + Files + Clock + AllocGlobal>(
    rt: &R,
    names: Names,
    watched: bool,
) -> Result<MergedTable, MergeFailure>
    ensures { (s t : List ℕ) × IsMade s t result }
{
    let first = read(rt, Side::First, names.first, watched)?;
    let second = read(rt, Side::Second, names.second, watched)?;
    merge_tables(rt.alloc(), &first, &second)
}

/// Says why there is no table, and gives the status that follows.
fn refuse(rt: &impl Eprint, names: Names, failure: MergeFailure) -> Status
    ensures { result ≡ status_of failure }
{
    let message = MergeMessage {
        failure,
        first: named(names.first),
        second: named(names.second),
    };
    let _ = eprintln!(rt; "{message}");
    failure.status()
}

/// Reports how many rows the table has, if an output took it, and gives the status that follows.
fn report(rt: &impl Eprint, taken: bool, merged: Merged) -> Status
    ensures { result ≡ taken_status taken }
{
    if !taken {
        return Status::NotWritten;
    }
    let _ = eprintln!(rt; "{}", Written(merged));
    Status::Whole
}

/// Makes one table of two and writes it, or says why there is none.
#[tactic(auto, using(crate::proofs::Merged::merged_by))]
fn answer<R: Print + Eprint + Input + Files + Clock + AllocGlobal>(
    rt: &R,
    names: Names,
    table: Option<&str>,
    watched: bool,
) -> Result<Status, Failed>
    ensures { IsMerged (is_some table.entry) result }
{
    match merge(rt, names, watched) {
        Ok(made) => {
            let taken = write_table(rt, &made.table, table)?;
            Ok(report(rt, taken, made.merged))
        }
        Err(failure) => Ok(refuse(rt, names, failure)),
    }
}

/// Makes one table of the two that these options name.
pub fn obey<R: Print + Eprint + Input + Files + Clock + AllocGlobal>(
    rt: &R,
    streams: Streams,
    options: &ArgMatches,
) -> Result<Status, Failed>
    ensures { AnswersMerge options.now result }
{
    match names_in(options) {
        Some(names) => answer(rt, names, options.get_str(TABLE), streams.watched),
        None => {
            let _ = eprintln!(rt; "nomutanku: {USAGE}");
            Ok(Status::Usage)
        }
    }
}
