//! `nomutanku list`, `rows` and `record`: what is asked of each input is told, one after another.
ghost use Rattle.std.specs.Prelude.{◌≡◌, ◌≢◌, ℕ, List, Ok, None, codes};
ghost use Rattle.command.specs.declared.status.Status.TheVariants.{Usage};
ghost use Rattle.command.specs.Run.{Ran};
ghost use Rattle.nomutanku.specs.Inputs.{names_of, inputs_of};
ghost use Rattle.nomutanku.specs.Answers.{IsTold};

use crate::failed::Failed;
use crate::progress::Watched;
use command::{Asked, Given, Reason, Shown, Status, heading, report_input};
use lines::write_all;
use report::Form;
use std::io::{BufWriter, Write};
use std::rt::{Clock, Files};
use std::{fs, io};

/// How standard input is named on the command line.
pub const STANDARD_INPUT: &str = "-";

/// What is asked of each input, the form in which it is told, and what is said where none is named.
#[derive(Clone, Copy)]
pub struct Wish<'a> {
    pub asked: Asked,
    pub form: Form,
    pub usage: &'a str,
}

/// What the system tells of the streams: what standard input is, and whether someone reads along on standard error.
#[derive(Clone, Copy)]
pub struct Streams {
    pub given: Given,
    pub watched: bool,
}

/// How an input is named in messages.
pub fn named<'a>(name: &'a str) -> &'a str
    ensures standard { name.entry.now ≡ codes "-" → result.now ≡ codes "standard input" }
    ensures other { name.entry.now ≢ codes "-" → result ≡ name.entry }
{
    if name == STANDARD_INPUT {
        "standard input"
    } else {
        name
    }
}

/// Tells what is asked of one input, and gives the reason where it is not told to its end. What its bytes are the
/// system says.
// apart, so that its buffer takes stack only while it runs
#[inline(never)]
#[tactic(auto, using(crate::proofs::Told::unread))]
fn tell_one<R: Eprint + Input + Files + Clock + AllocGlobal, W: Write>(
    rt: &R,
    name: &str,
    wish: Wish,
    watched: bool,
    out: &mut W,
) -> io::Result<Option<Reason>>
    ensures { (bytes : List ℕ)
        × Ran wish.entry.asked wish.entry.form bytes (W.contents out.old) (W.contents out.new) result }
{
    if name == STANDARD_INPUT {
        let mut input = Watched::new(rt, rt.reader(), named(name), watched);
        return report_input(rt.alloc(), &mut input, wish.asked, wish.form, out);
    }
    match fs::open(rt, name) {
        Ok(file) => {
            let mut input = Watched::new(rt, file, named(name), watched);
            report_input(rt.alloc(), &mut input, wish.asked, wish.form, out)
        }
        Err(error) => Ok(Some(Reason::Unreadable(error))),
    }
}

/// Tells one input after another, and says on standard error why one is not told to its end.
#[tactic(auto, using(crate::proofs::Told::of_reason))]
fn tell_each<R: Print + Eprint + Input + Files + Clock + AllocGlobal>(
    rt: &R,
    names: &[&str],
    wish: Wish,
    watched: bool,
) -> Result<Status, Failed>
    ensures { IsTold result }
{
    let Ok(mut out) = BufWriter::new(rt.alloc(), io::writer(rt)) else {
        return Err(Failed::Memory);
    };
    let mut worst = Status::Whole;
    for name in names {
        if names.len() > 1 {
            let line = heading(rt.alloc(), wish.form, name)?;
            write_all(&mut out, &line).map_err(Failed::Output)?;
        }
        let told = tell_one(rt, name, wish, watched, &mut out).map_err(Failed::Output)?;
        out.flush().map_err(Failed::Output)?;
        if let Some(reason) = told {
            let _ = eprintln!(rt; "{}: {reason}", Shown(named(name)));
            worst = worst.worse(reason.status());
        }
    }
    Ok(worst)
}

/// The inputs that are told: those that are named, or standard input where none is and it has something to give.
pub fn inputs_of<'i, 'a>(names: Option<&'i [&'a str]>, given: Given) -> Option<&'i [&'a str]>
    ensures { names_of result ≡ inputs_of (names_of names.entry) given }
{
    match names {
        Some(names) if !names.is_empty() => Some(names),
        _ if given.is_listed() => Some(&[STANDARD_INPUT]),
        _ => None,
    }
}

/// Tells the inputs that are named, or standard input where none is and it has something to give.
pub fn obey<R: Print + Eprint + Input + Files + Clock + AllocGlobal>(
    rt: &R,
    streams: Streams,
    wish: Wish,
    names: Option<&[&str]>,
) -> Result<Status, Failed>
    ensures none { inputs_of (names_of names.entry) streams.given ≡ None → result ≡ Ok Usage }
    ensures told { inputs_of (names_of names.entry) streams.given ≢ None → IsTold result }
{
    match inputs_of(names, streams.given) {
        Some(names) => tell_each(rt, names, wish, streams.watched),
        None => {
            let _ = eprintln!(rt; "nomutanku: {}", wish.usage);
            Ok(Status::Usage)
        }
    }
}
