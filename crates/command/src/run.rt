//! An input, read and told as it is asked for, and the reason where it is not told to its end.
ghost use Rattle.std.specs.Prelude.{◌≡◌, ℕ, List, Some, IfOk, OnOk, OnErr, IfSome};
ghost use Rattle.std.specs.Io.KnownBytes.{Appends};
ghost use Rattle.lines.specs.Went.{StopsWithin};
ghost use Rattle.report.specs.Form.{lines_text};
ghost use Rattle.report.specs.declared.form.Form.TheVariants as forms;
ghost use Rattle.report.specs.Ending.{ending_of};
ghost use Rattle.command.specs.declared.asked.Asked.TheVariants as asks;
ghost use Rattle.command.specs.Asked.{asked_lines};
ghost use Rattle.command.specs.Run.{Tells, Ran};

use crate::{Asked, Reason, read_input};
use fields::RecordNumber;
use lines::Ending;
use report::Form;
use std::alloc::Global;
use std::io;
use std::io::{Read, Write};

// A listing as text, by `lines`: many lines to a write.
#[tactic(auto, using(crate::proofs::Listings::alike), unfolding(crate::specs::Asked::asked_lines))]
fn list_text<W: Write>(
    bytes: &[u8],
    wanted: Option<RecordNumber>,
    out: &mut W,
) -> io::Result<Ending>
    ensures ok { OnOk result (Appends (W.contents out.old) (W.contents out.new)
        (lines_text forms.Text (asked_lines (asks.Listing wanted) bytes.now))) }
    ensures err { OnErr result (StopsWithin (W.contents out.old) (W.contents out.new)
        (lines_text forms.Text (asked_lines (asks.Listing wanted) bytes.now))) }
    ensures ending { IfOk result (λ e. ending_of (asked_lines (asks.Listing wanted) bytes.now) ≡ Some e) }
{
    match wanted {
        Some(number) => lines::write_record_of(bytes, number, out),
        None => lines::write_table(bytes, out),
    }
}

#[tactic(auto, unfolding(crate::specs::Asked::asked_lines))]
fn list_json<W: Write>(
    bytes: &[u8],
    wanted: Option<RecordNumber>,
    out: &mut W,
) -> io::Result<Ending>
    ensures ok { OnOk result (Appends (W.contents out.old) (W.contents out.new)
        (lines_text forms.Json (asked_lines (asks.Listing wanted) bytes.now))) }
    ensures err { OnErr result (StopsWithin (W.contents out.old) (W.contents out.new)
        (lines_text forms.Json (asked_lines (asks.Listing wanted) bytes.now))) }
    ensures ending { IfOk result (λ e. ending_of (asked_lines (asks.Listing wanted) bytes.now) ≡ Some e) }
{
    match wanted {
        Some(number) => report::write_numbered(bytes, number, Form::Json, out),
        None => report::write_table(bytes, Form::Json, out),
    }
}

fn write_listing<W: Write>(
    bytes: &[u8],
    wanted: Option<RecordNumber>,
    form: Form,
    out: &mut W,
) -> io::Result<Ending>
    ensures ok { OnOk result (Appends (W.contents out.old) (W.contents out.new)
        (lines_text form (asked_lines (asks.Listing wanted) bytes.now))) }
    ensures err { OnErr result (StopsWithin (W.contents out.old) (W.contents out.new)
        (lines_text form (asked_lines (asks.Listing wanted) bytes.now))) }
    ensures ending { IfOk result (λ e. ending_of (asked_lines (asks.Listing wanted) bytes.now) ≡ Some e) }
{
    match form {
        Form::Text => list_text(bytes, wanted, out),
        Form::Json => list_json(bytes, wanted, out),
    }
}

#[tactic(auto, unfolding(crate::specs::Asked::asked_lines))]
fn write_asked<W: Write>(bytes: &[u8], asked: Asked, form: Form, out: &mut W) -> io::Result<Ending>
    ensures ok { OnOk result (Appends (W.contents out.old) (W.contents out.new)
        (lines_text form (asked_lines asked bytes.now))) }
    ensures err { OnErr result (StopsWithin (W.contents out.old) (W.contents out.new)
        (lines_text form (asked_lines asked bytes.now))) }
    ensures ending { IfOk result (λ e. ending_of (asked_lines asked bytes.now) ≡ Some e) }
{
    match asked {
        Asked::Listing(wanted) => write_listing(bytes, wanted, form, out),
        Asked::Rows => report::write_rows(bytes, form, out),
        Asked::Record(number) => report::write_record(bytes, number, form, out),
    }
}

/// Writes what is asked of an input's bytes in a form, and answers why it does not come to its end, if it does not.
/// What is written before a failure is the front of it.
pub fn write_report<W: Write>(
    bytes: &[u8],
    asked: Asked,
    form: Form,
    out: &mut W,
) -> io::Result<Option<Reason>>
    ensures ok { IfOk result (λ reason.
        Tells asked form bytes.now (W.contents out.old) (W.contents out.new) reason) }
    ensures err { OnErr result (StopsWithin (W.contents out.old) (W.contents out.new)
        (lines_text form (asked_lines asked bytes.now))) }
{
    let ending = write_asked(bytes, asked, form, out)?;
    Ok(Reason::of_ending(asked, bytes, ending))
}

/// Reads an input as far as it matters and writes what is asked of it. Nothing is written of an input that can't be
/// read. Where no contract knows what the reader gives, it is what is asked of some bytes.
#[tactic(auto, using(crate::proofs::Fronts::runs))]
pub fn report_input<R: Read, W: Write>(
    alloc: Global,
    input: &mut R,
    asked: Asked,
    form: Form,
    out: &mut W,
) -> io::Result<Option<Reason>>
    ensures known { IfSome (R.remaining input.old) (λ bytes.
        Ran asked form bytes (W.contents out.old) (W.contents out.new) result) }
    ensures unknown { (bytes : List ℕ) × Ran asked form bytes (W.contents out.old) (W.contents out.new) result }
{
    match read_input(alloc, input, asked) {
        Ok(bytes) => write_report(&bytes, asked, form, out),
        Err(reason) => Ok(Some(reason)),
    }
}
