//! Lists a table: reads it from standard input and writes its listing to standard output (docs/RULES.md, section 18).
//! The exit status says how the listing ended, and a line on standard error why there is none.
#![tactic(auto)]

mod failed;
mod outcome;
mod status;

ghost use Rattle.std.specs.Prelude.{◌≡◌, ℕ, List, IfOk, IfErr, IfSome, take};
ghost use Rattle.listing.specs.Ran.{most_read, Ran, IsUnread};

use crate::failed::Failed;
use crate::outcome::{Outcome, outcome_of};
use crate::status::status;
use std::alloc::Global;
use std::io;
use std::io::{Read, Write};
use std::process::ExitCode;

// One byte more than a table may have: a longer input is known by it.
const MOST_READ: u64 = 65_537;

// The input, as far as it tells whether it is a table that is short enough.
fn read_table<R: Read + Drop>(alloc: Global, input: R) -> Result<Vec<u8>, Failed>
    ensures ok { IfOk result (λ v. IfSome (R.remaining input) (λ bytes. v.items ≡ take most_read bytes)) }
    ensures err { IfErr result IsUnread }
{
    let mut table = Vec::new(alloc);
    match input.take(MOST_READ).read_to_end(&mut table) {
        Ok(_) => Ok(table),
        Err(error) => Err(Failed::of_read(error)),
    }
}

// Writes the listing of what is read. Where no contract knows what the reader gives, it is the listing of some bytes.
fn run<R: Read + Drop, W: Write>(alloc: Global, input: R, out: &mut W) -> Result<Outcome, Failed>
    ensures known { IfSome (R.remaining input) (λ bytes.
        Ran bytes (W.contents out.old) (W.contents out.new) result) }
    ensures unknown { (bytes : List ℕ) × Ran bytes (W.contents out.old) (W.contents out.new) result }
{
    let table = match read_table(alloc, input) {
        Ok(table) => table,
        Err(failed) => return Err(failed),
    };
    match lines::write_listing(&table, out) {
        Ok(ending) => Ok(outcome_of(&table, ending)),
        Err(error) => Err(Failed::Write(error)),
    }
}

// One line, in words; none where the listing tells all, or where the reader of a pipe has closed it.
fn say<E: Eprint>(rt: &E, ended: &Result<Outcome, Failed>) -> io::Result<()> {
    match ended {
        Ok(Outcome::EmptyInput) => eprintln!(rt; "listing: the input is empty"),
        Err(failed) if !failed.is_closed_pipe() => eprintln!(rt; "listing: {failed}"),
        Ok(Outcome::Listed(_)) | Err(_) => Ok(()),
    }
}

fn main(rt: HostRuntime) -> ExitCode {
    let ended = run(rt.alloc(), rt.reader(), &mut io::writer(&rt));
    let _ = say(&rt, &ended);
    ExitCode::from(status(&ended))
}
