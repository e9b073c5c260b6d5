//! Tells what tables of NTFS records, and single records, hold, and makes tables of extracts of a raw $MFT, and one of
//! two: `nomutanku list`, `rows`, `record`, `extract`, `merge` and `explain` (docs/REFERENCE.md, "The command").
#![tactic(auto)]

ghost use Rattle.std.specs.Prelude.{◌≡◌, Ok, None, map, string_bytes};
ghost use Rattle.clap.specs.Words.{kind_of, subcommand_name_of};
ghost use Rattle.command.specs.declared.status.Status.TheVariants.{Usage};
ghost use Rattle.nomutanku.specs.Answers.{Tells, Answers};

mod door;
mod explain;
mod extraction;
mod failed;
mod given;
mod inputs;
mod merging;
mod numbers;
mod options;
mod output;
mod progress;
mod request;
mod warning;
mod wishes;

use clap::ArgMatches;
use clap::error::ErrorKind;
use command::Status;
use failed::Failed;
use inputs::Streams;
use options::{INPUTS, TABLE};
use std::io::IsTerminal;
use std::process::ExitCode;
use std::rt::{Clock, Env, Files};
use std::{env, io};

/// Does what the command line asks for.
fn obey<R: Print + Eprint + Input + Files + Clock + AllocGlobal>(
    rt: &R,
    streams: Streams,
    asked: &ArgMatches,
) -> Result<Status, Failed>
    ensures { subcommand_name_of asked.now ≡ None → result ≡ Ok Usage }
{
    match asked.subcommand() {
        Some(("explain", options)) => explain::obey(rt, options),
        Some(("list", options)) if door::is_asked(options) => door::obey(rt, streams, options),
        Some(("extract", options)) => {
            let asked = extraction::asked(options);
            let table = options.get_str(TABLE);
            extraction::obey(rt, streams, asked, table, options.get_strs(INPUTS))
        }
        Some(("merge", options)) => merging::obey(rt, streams, options),
        Some((name, options)) => match wishes::wish(name, options) {
            Some(wish) => inputs::obey(rt, streams, wish, options.get_strs(INPUTS)),
            None => Ok(Status::Usage),
        },
        None => Ok(Status::Usage),
    }
}

/// Tells what is wrong with the command line, or prints the help or the version that it asks for.
fn tell<R: Print + Eprint>(rt: &R, error: &clap::Error) -> Result<Status, Failed>
    ensures { Tells (kind_of error.now) result }
{
    if error.kind() == ErrorKind::OutOfMemory {
        return Err(Failed::Memory);
    }
    let printed = error.print(rt);
    if error.use_stderr() {
        return Ok(Status::Usage);
    }
    printed.map_err(Failed::Output)?;
    Ok(Status::Whole)
}

/// Does what these words ask for, or tells what is wrong with them.
#[tactic(auto, using(crate::proofs::Words::no_memory))]
fn answer<R: Print + Eprint + Input + Files + Clock + AllocGlobal>(
    rt: &R,
    streams: Streams,
    words: &[String],
) -> Result<Status, Failed>
    ensures { Answers (map string_bytes words.now) result }
{
    match options::command(rt.alloc())?.try_get_matches_from(words) {
        Ok(asked) => obey(rt, streams, &asked),
        Err(error) => tell(rt, &error),
    }
}

/// Reads the command line and does what it asks for.
fn run<R: Print + Eprint + Input + Files + Clock + Env + AllocGlobal>(
    rt: &R,
    streams: Streams,
) -> Result<Status, Failed> {
    let words = match env::args(rt) {
        Ok(words) => words,
        Err(error) if error.kind() == io::ErrorKind::OutOfMemory => return Err(Failed::Memory),
        Err(_) => {
            let _ = eprintln!(rt;
                "nomutanku: a word of the command line is no UTF-8: hand such a file in by standard input"
            );
            return Ok(Status::Usage);
        }
    };
    let words: Vec<String> = words.collect(rt.alloc())?;
    answer(rt, streams, words.as_slice())
}

fn main(rt: HostRuntime) -> ExitCode {
    let streams = Streams {
        given: given::given(&rt, rt.stdin().is_terminal()),
        watched: rt.stderr().is_terminal(),
    };
    let status = match run(&rt, streams) {
        Ok(status) => status,
        Err(failed) => {
            failed.tell(&rt);
            failed.status()
        }
    };
    ExitCode::from(status.code())
}
