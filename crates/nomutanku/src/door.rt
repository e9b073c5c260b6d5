//! `nomutanku list --mft MFT`: records of a raw $MFT are listed, those that are named or all.
ghost use Rattle.std.specs.Prelude.{◌≡◌, ◌≤◌, max, Ok, Some, option_map, is_some, IfOk, IfErr};
ghost use Rattle.command.specs.Status.{code_of};
ghost use Rattle.command.specs.declared.status.Status.TheVariants.{Unreadable};
ghost use Rattle.mft.specs.Told.{worst_of};
ghost use Rattle.nomutanku.specs.Answers.{IsTold};
ghost use Rattle.nomutanku.specs.Door.{SpeaksOfMft, AnswersMft, AnswersRequest, AnswersWords, AreNumbers, Say};
ghost use Rattle.nomutanku.specs.Door.{checked_of, text_of, is_listed, unfound_code};
ghost use Rattle.nomutanku.specs.Wishes.{Counts};
ghost use Rattle.nomutanku.specs.declared.failed.Failed.TheVariants.{Memory};

use crate::failed::Failed;
use crate::inputs::Streams;
use crate::progress::Watched;
use crate::request::Request;
use crate::warning::Warning;
use clap::ArgMatches;
use command::{Reason, Shown, Status};
use fields::RecordNumber;
use mft::{Mft, Records, Told, Turn};
use naming::units_of;
use std::io::{BufReader, BufWriter, Read, Write};
use std::rt::{Clock, Files};
use std::{fs, io};

/// As many bytes of a raw $MFT as are read at once where all of it is gone over.
const PIECE: usize = 65536;

/// Whether records of a raw $MFT are asked for, or what only goes with one.
pub fn is_asked(options: &ArgMatches) -> bool
    ensures { SpeaksOfMft options.now result }
{
    Request::of(options).speaks_of_mft()
}

/// The number that a word says.
fn said(word: &str) -> Option<RecordNumber>
    ensures { Counts (Some word.now) (option_map (λ n. n.0) result) }
{
    match word.parse::<u64>() {
        Ok(number) => Some(RecordNumber(number)),
        Err(_) => None,
    }
}

/// The numbers that words say, or the first word that says none.
fn numbers<'a, R: AllocGlobal>(
    rt: &R,
    words: &[&'a str],
) -> Result<Result<Vec<RecordNumber>, &'a str>, Failed>
    ensures all { IfOk result (λ r. IfOk r (λ ns. Say words.now ns.items)) }
    ensures none { IfOk result (λ r. IfErr r (λ w. AreNumbers words.now → ⊥)) }
    ensures memory { IfErr result (λ failed. failed ≡ Memory) }
{
    let mut numbers = Vec::new(rt.alloc());
    for word in words {
        match said(word) {
            Some(number) => {
                if numbers.push(number).is_err() {
                    return Err(Failed::Memory);
                }
            }
            None => return Ok(Err(*word)),
        }
    }
    Ok(Ok(numbers))
}

/// A raw $MFT by its file's name, whose record size is told where it is not asked for.
fn open<R: Eprint + Files + AllocGlobal>(
    rt: &R,
    name: &str,
    request: &Request,
) -> Result<Mft<R::File>, Reason> {
    let file = fs::open(rt, name).map_err(Reason::Unreadable)?;
    let mft = Mft::of(rt.alloc(), file, request.extraction())?;
    if request.size.is_none() {
        let _ = eprintln!(rt; "{}: records of {} bytes", Shown(name), mft.size());
    }
    Ok(mft)
}

/// Its records one behind another, by a handle of their own; how far they are read is told, if someone reads along.
// the clock is asked once for each piece, and not for each record
fn records<'a, R: Eprint + Files + Clock + AllocGlobal>(
    rt: &'a R,
    name: &'a str,
    request: &Request,
    watched: bool,
) -> Result<Records<BufReader<Watched<'a, &'a R, R::File>>>, Reason> {
    let file = fs::open(rt, name).map_err(Reason::Unreadable)?;
    let input = Watched::new(rt, file, name, watched);
    match BufReader::with_capacity(rt.alloc(), PIECE, input) {
        Ok(input) => Ok(Records::of(input, request.extraction().first)),
        Err(_) => Err(Reason::OutOfMemory),
    }
}

/// Says on standard error what a record's listing lacks, what shows that a record may be another file's, and why the
/// listing does not come to its end.
fn tell(rt: &impl Eprint, name: &str, told: &Told) {
    let number = told.number;
    for lost in &told.lost {
        let _ = eprintln!(rt; "{}: {}", Shown(name), lost.reason(number));
    }
    for hazard in &told.hazards {
        let warning = Warning::of(number, *hazard);
        let _ = eprintln!(rt; "{}: warning: file {}: {warning}", Shown(name), number.0);
    }
    if let Some(reason) = told.reason {
        tell_reason(rt, name, number, reason);
    }
}

/// Says why a record's listing does not come to its end, or is none; and of which record, where the reason does not.
fn tell_reason(rt: &impl Eprint, name: &str, number: RecordNumber, reason: Reason) {
    match reason {
        Reason::Absent(..) | Reason::Unlisted(..) | Reason::Unsearched(..) => {
            let _ = eprintln!(rt; "{}: {reason}", Shown(name));
        }
        _ => {
            let _ = eprintln!(rt; "{}: record {}: {reason}", Shown(name), number.0);
        }
    }
}

/// Says what there is to say of a record, behind its lines, and gives the worst status so far.
fn note<W: Write>(
    rt: &impl Eprint,
    name: &str,
    told: &Told,
    strict: bool,
    worst: Status,
    out: &mut W,
) -> Result<Status, Failed>
    ensures worst { IfOk result (λ s. code_of s ≡ max (code_of worst) (worst_of strict told.now)) }
    ensures most { IfOk result (λ s. code_of worst ≤ code_of Unreadable → code_of s ≤ code_of Unreadable) }
{
    let is_silent = told.lost.is_empty() && told.hazards.is_empty() && told.reason.is_none();
    if !is_silent {
        out.flush().map_err(Failed::Output)?;
        tell(rt, name, told);
    }
    Ok(worst.worse(told.status(strict)))
}

/// Lists one record after another, and says on standard error what is not told, and why.
// apart from what opens the file, so that the stack of both is not held at once
#[inline(never)]
fn list_each<R: Print + Eprint + Files + AllocGlobal>(
    rt: &R,
    name: &str,
    mft: &mut Mft<R::File>,
    numbers: &[RecordNumber],
    request: &Request,
) -> Result<Status, Failed>
    ensures { IsTold result }
{
    let Ok(mut out) = BufWriter::new(rt.alloc(), io::writer(rt)) else {
        return Err(Failed::Memory);
    };
    let mut worst = Status::Whole;
    for number in numbers {
        let told = mft
            .list(rt.alloc(), *number, request.manner(), &mut out)
            .map_err(Failed::Output)?;
        worst = note(rt, name, &told, request.strict, worst, &mut out)?;
    }
    out.flush().map_err(Failed::Output)?;
    Ok(worst)
}

/// Says why a file can't be read, and gives the status that follows.
#[tactic(auto, using(crate::proofs::Told::of_reason))]
fn refuse(rt: &impl Eprint, name: &str, reason: Reason) -> Status
    ensures { code_of result ≤ code_of Unreadable }
{
    let _ = eprintln!(rt; "{}: {reason}", Shown(name));
    reason.status()
}

/// Lists records of a file, or says why it can't be read.
fn list<R: Print + Eprint + Files + AllocGlobal>(
    rt: &R,
    name: &str,
    numbers: &[RecordNumber],
    request: &Request,
) -> Result<Status, Failed>
    ensures { IsTold result }
{
    match open(rt, name, request) {
        Ok(mut mft) => list_each(rt, name, &mut mft, numbers, request),
        Err(reason) => Ok(refuse(rt, name, reason)),
    }
}

/// Whether a record's lines were written, by the reason that is told of it.
fn is_listed(told: &Told) -> bool
    ensures { result ≡ is_listed told.now.reason }
{
    matches!(told.reason, None | Some(Reason::Stopped(_)))
}

/// The status where all base records in use were gone over. That none of them is of a file with the name that is wanted
/// is said.
fn conclude(
    rt: &impl Eprint,
    name: &str,
    find: Option<&str>,
    is_found: bool,
    worst: Status,
) -> Status
    ensures worst { code_of result ≡ max (code_of worst) (unfound_code (is_some find.entry) is_found) }
    ensures most { code_of worst ≤ code_of Unreadable → code_of result ≤ code_of Unreadable }
{
    let Some(find) = find else {
        return worst;
    };
    if is_found {
        return worst;
    }
    let _ = eprintln!(rt;
        "{}: found no file with the name {}",
        Shown(name),
        Shown(find)
    );
    worst.worse(Status::Refused)
}

/// Lists every base record in use, or those of files with the name that is wanted, and says on standard error what is
/// not told, and why.
// apart from what opens the file, so that the stack of both is not held at once
#[inline(never)]
fn list_all<R: Print + Eprint + Files + AllocGlobal, S: Read + Drop>(
    rt: &R,
    name: &str,
    mft: &mut Mft<R::File>,
    records: &mut Records<S>,
    wanted: Option<&[u8]>,
    request: &Request,
) -> Result<Status, Failed>
    ensures { IsTold result }
{
    let Ok(mut out) = BufWriter::new(rt.alloc(), io::writer(rt)) else {
        return Err(Failed::Memory);
    };
    let mut worst = Status::Whole;
    let mut is_found = false;
    for _ in 0..u64::MAX {
        let turn = mft
            .list_next(rt.alloc(), records, wanted, request.manner(), &mut out)
            .map_err(Failed::Output)?;
        match turn {
            Turn::Passed => {}
            Turn::Told(told) => {
                is_found = is_found || is_listed(&told);
                worst = note(rt, name, &told, request.strict, worst, &mut out)?;
            }
            Turn::Ended(reason) => {
                out.flush().map_err(Failed::Output)?;
                worst = worst.worse(refuse(rt, name, reason));
                break;
            }
            Turn::End => break,
        }
    }
    out.flush().map_err(Failed::Output)?;
    Ok(conclude(rt, name, request.find, is_found, worst))
}

/// Goes over all of a file, for the files with a name, if one is wanted, or says why it can't be read.
fn go_over<R: Print + Eprint + Files + Clock + AllocGlobal>(
    rt: &R,
    name: &str,
    request: &Request,
    wanted: Option<&[u8]>,
    watched: bool,
) -> Result<Status, Failed>
    ensures { IsTold result }
{
    let mut mft = match open(rt, name, request) {
        Ok(mft) => mft,
        Err(reason) => return Ok(refuse(rt, name, reason)),
    };
    match records(rt, name, request, watched) {
        Ok(mut records) => list_all(rt, name, &mut mft, &mut records, wanted, request),
        Err(reason) => Ok(refuse(rt, name, reason)),
    }
}

/// Goes over all of a file, by the name that is wanted, if one is.
fn list_found<R: Print + Eprint + Files + Clock + AllocGlobal>(
    rt: &R,
    name: &str,
    request: &Request,
    watched: bool,
) -> Result<Status, Failed>
    ensures { IsTold result }
{
    match request.find {
        Some(find) => {
            let units = units_of(rt.alloc(), find)?;
            go_over(rt, name, request, Some(&units), watched)
        }
        None => go_over(rt, name, request, None, watched),
    }
}

/// Lists the records that words name, or says which word names none.
fn list_named<R: Print + Eprint + Files + AllocGlobal>(
    rt: &R,
    name: &str,
    request: &Request,
) -> Result<Status, Failed>
    ensures { AnswersWords request.now.words.now result }
{
    match numbers(rt, request.words)? {
        Ok(numbers) => list(rt, name, numbers.as_slice(), request),
        Err(word) => {
            let _ = eprintln!(rt;
                "nomutanku: {} is no record's number: nomutanku list --help",
                Shown(word)
            );
            Ok(Status::Usage)
        }
    }
}

/// Lists what is asked for of the file with a name.
#[tactic(auto, using(crate::proofs::Checked::told_beside_all))]
fn list_asked<R: Print + Eprint + Files + Clock + AllocGlobal>(
    rt: &R,
    streams: Streams,
    name: &str,
    request: &Request,
) -> Result<Status, Failed>
    requires { checked_of request.now (text_of request.now.mft) ≡ Ok name.now }
    ensures { AnswersWords request.now.words.now result }
{
    if request.goes_over_all() {
        list_found(rt, name, request, streams.watched)
    } else {
        list_named(rt, name, request)
    }
}

/// Lists what is asked for, or says why the command line is wrong.
fn answer<R: Print + Eprint + Files + Clock + AllocGlobal>(
    rt: &R,
    streams: Streams,
    request: &Request,
) -> Result<Status, Failed>
    ensures { AnswersRequest request.now result }
{
    match request.checked() {
        Ok(name) => list_asked(rt, streams, name, request),
        Err(wrong) => {
            let _ = eprintln!(rt; "nomutanku: {wrong}: nomutanku list --help");
            Ok(Status::Usage)
        }
    }
}

/// Lists what these options ask for, or says why the command line is wrong.
pub fn obey<R: Print + Eprint + Files + Clock + AllocGlobal>(
    rt: &R,
    streams: Streams,
    options: &ArgMatches,
) -> Result<Status, Failed>
    ensures { AnswersMft options.now result }
{
    answer(rt, streams, &Request::of(options))
}
