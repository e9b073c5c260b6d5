//! `nomutanku extract`: a table is made of an extract of a raw $MFT.
ghost use Rattle.std.specs.Prelude.{◌≡◌, ◌≢◌, ℕ, List, Ok, None, Some, IfSome, cond};
ghost use Rattle.command.specs.Make.{Extracts};
ghost use Rattle.command.specs.declared.status.Status.TheVariants.{Usage};
ghost use Rattle.nomutanku.specs.Inputs.{names_of, inputs_of};
ghost use Rattle.nomutanku.specs.Answers.{IsExtracted, reported};
ghost use Rattle.nomutanku.specs.Wishes.{AsksExtraction};

use crate::failed::Failed;
use crate::inputs::{STANDARD_INPUT, Streams, inputs_of, named};
use crate::numbers::number;
use crate::output::write_table;
use crate::progress::Watched;
use clap::ArgMatches;
use command::{
    Counts, Extraction, Made, Reason, Shown, Status, extract_input, extract_rest, read_front,
};
use extract::Extracted;
use fields::RecordNumber;
use std::fs;
use std::io::{Seek, SeekFrom};
use std::rt::{Clock, Files};

const USAGE: &str = "name an extract, or pipe one in: nomutanku extract --help";

/// What these options ask for.
pub fn asked(options: &ArgMatches) -> Extraction
    ensures { AsksExtraction options.now result }
{
    Extraction {
        size: number(options, "size"),
        first: RecordNumber(number(options, "first").unwrap_or(0)),
        from: number(options, "from").unwrap_or(0),
        count: number(options, "count"),
    }
}

/// Extracts what is asked for of a file. Where the file can be gone to a place, what is in front of it is not read.
fn of_file<R: Eprint + Files + Clock + AllocGlobal>(
    rt: &R,
    name: &str,
    asked: Extraction,
    watched: bool,
) -> Result<Made, Reason>
    ensures { (front bytes : List ℕ) × Extracts asked front (λ n. bytes) result }
{
    let mut file = fs::open(rt, name).map_err(Reason::Unreadable)?;
    let mut front = match asked.size {
        Some(_) => Vec::new(rt.alloc()),
        None => read_front(rt.alloc(), &mut file)?,
    };
    let size = asked.size(&front)?;
    let mut place = asked.place(size);
    if goes_to(&mut file, place) {
        front.clear();
        place = 0;
    }
    let mut input = Watched::new(rt, file, name, watched);
    extract_rest(rt.alloc(), &front, &mut input, place, asked, size)
}

/// Goes to a place of a file, and answers whether it did; where it can't, it stays.
fn goes_to<F: Seek>(file: &mut F, place: u128) -> bool
    ensures { IfSome (F.stream_position file.old) (λ at.
        F.stream_position file.new ≡ Some (cond result place at)) }
{
    match u64::try_from(place) {
        Ok(place) => file.seek(SeekFrom::Start(place)).is_ok(),
        Err(_) => false,
    }
}

/// Extracts what is asked for of an input.
// apart, so that its buffer takes stack only while it runs
#[inline(never)]
fn extract<R: Eprint + Input + Files + Clock + AllocGlobal>(
    rt: &R,
    name: &str,
    asked: Extraction,
    watched: bool,
) -> Result<Made, Reason>
    ensures { (front bytes : List ℕ) × Extracts asked front (λ n. bytes) result }
{
    if name == STANDARD_INPUT {
        let mut input = Watched::new(rt, rt.reader(), named(name), watched);
        return extract_input(rt.alloc(), &mut input, asked);
    }
    of_file(rt, name, asked, watched)
}

/// Reports what became of the records of an extract.
fn report(rt: &impl Eprint, name: &str, asked: Extraction, extracted: &Extracted) -> Status
    ensures { result ≡ reported asked extracted.now }
{
    let _ = eprintln!(rt; "{}", Counts(extracted));
    match asked.refused(extracted) {
        Some(reason) => {
            let _ = eprintln!(rt; "{}: {reason}", Shown(named(name)));
            reason.status()
        }
        None => Status::Whole,
    }
}

/// Makes a table of an input and writes it, or says why there is none.
#[tactic(auto, using(crate::proofs::Extracted::extracted_by))]
fn answer<R: Print + Eprint + Input + Files + Clock + AllocGlobal>(
    rt: &R,
    name: &str,
    asked: Extraction,
    table: Option<&str>,
    watched: bool,
) -> Result<Status, Failed>
    ensures { IsExtracted asked result }
{
    match extract(rt, name, asked, watched) {
        Ok(made) => {
            if !write_table(rt, &made.table, table)? {
                return Ok(Status::NotWritten);
            }
            Ok(report(rt, name, asked, &made.extracted))
        }
        Err(reason) => {
            let _ = eprintln!(rt; "{}: {reason}", Shown(named(name)));
            Ok(reason.status())
        }
    }
}

/// Makes a table of the input that is named, or of standard input where none is and it has something to give.
pub fn obey<R: Print + Eprint + Input + Files + Clock + AllocGlobal>(
    rt: &R,
    streams: Streams,
    asked: Extraction,
    table: Option<&str>,
    names: Option<&[&str]>,
) -> Result<Status, Failed>
    ensures none { inputs_of (names_of names.entry) streams.given ≡ None → result ≡ Ok Usage }
    ensures ends { inputs_of (names_of names.entry) streams.given ≢ None → IsExtracted asked result }
{
    match inputs_of(names, streams.given) {
        Some([name, ..]) => answer(rt, name, asked, table, streams.watched),
        _ => {
            let _ = eprintln!(rt; "nomutanku: {USAGE}");
            Ok(Status::Usage)
        }
    }
}
