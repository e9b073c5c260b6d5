//! What is told of the base record of a table.
ghost use Rattle.std.specs.Prelude.{◌≡◌, ◌++◌, ℕ, List, [], None, Some, IfOk, IfErr, OnErr, option_copied};
ghost use Rattle.std.specs.Io.KnownBytes.{Appends};
ghost use Rattle.fields.specs.declared.RecordNumber as numbers;
ghost use Rattle.lines.specs.Went.{StopsWithin};
ghost use Rattle.lines.specs.declared.ending.Ending.{Ending};
ghost use Rattle.report.specs.Form.{lines_text};
ghost use Rattle.report.specs.Ending.{ending_of};
ghost use Rattle.command.specs.Asked.{asked_lines};
ghost use Rattle.command.specs.Reason.{ending_reason};
ghost use Rattle.command.specs.declared.asked.Asked.TheVariants as asks;
ghost use Rattle.mft.specs.Listing.{name_by, hazards_by};
ghost use Rattle.mft.specs.Base.{ListsBase, FailsBase};
ghost use Rattle.mft.specs.Sought.{IsKnown, answer, IsUnknown, IsSought, IsUnsought};
ghost use Rattle.table.specs.Held.{record_of};
ghost use Rattle.mft.specs.Opened.{IsFile};

use crate::Manner;
use crate::made::file_of;
use agreement::tables_list_as_what_they_are_of;
use command::{Asked, Reason, write_report};
use fields::{RecordNumber, Refusal};
use filename::laws::names_are_those_of_the_references;
use filename::{Found, find_name, first_name};
use items::File;
use lines::write_all;
use naming::file_line;
use segments::Hazard;
use segments::laws::hazards_are_those_of_the_references;
use std::alloc::{AllocError, Global};
use std::io;
use std::io::Write;

/// What is told of a listing beside what is written: hazards, and why it does not come to its end, if so.
#[derive(Drop)]
pub(crate) struct Heard {
    pub(crate) hazards: Vec<Hazard>,
    pub(crate) reason: Option<Reason>,
}

impl Heard {
    ghost use Rattle.std.specs.Prelude.{◌≡◌, [], Some};

    /// Nothing is written, for a reason.
    pub(crate) fn skipped(alloc: Global, reason: Reason) -> Heard
        ensures hazards { result.hazards.items ≡ [] }
        ensures reason { result.reason ≡ Some reason }
    {
        Heard {
            hazards: Vec::new(alloc),
            reason: Some(reason),
        }
    }
}

// The name of a file, if it opens and its name is wanted.
fn name_of<'a>(file: &Result<File<'a>, Refusal>, manner: Manner) -> Option<&'a [u8]>
    ensures { (size : ℕ) (b : List ℕ) (n : numbers.RecordNumber) (t : List ℕ) → IsFile file.now size b n t
        → option_copied result ≡ name_by size b n (record_of t) manner }
{
    match file {
        Ok(file) if manner.named => first_name(file),
        _ => None,
    }
}

// The hazards of a file, if it opens.
fn hazards_of(file: &Result<File<'_>, Refusal>, alloc: Global) -> Result<Vec<Hazard>, AllocError>
    ensures { IfOk result (λ v. (size : ℕ) (b : List ℕ) (n : numbers.RecordNumber) (t : List ℕ)
        → IsFile file.now size b n t → v.items ≡ hazards_by size b n (record_of t)) }
{
    match file {
        Ok(file) => segments::hazards(file, alloc),
        Err(_) => Ok(Vec::new(alloc)),
    }
}

// Writes a line, and behind it the listing of a table.
fn list_under<W: Write>(
    line: &[u8],
    table: &[u8],
    manner: Manner,
    out: &mut W,
) -> io::Result<Option<Reason>>
    ensures ok { IfOk result (λ reason. Appends (W.contents out.old) (W.contents out.new)
        (line.now ++ lines_text manner.form (asked_lines (asks.Listing None) table.now))
        × ((e : Ending) × (ending_of (asked_lines (asks.Listing None) table.now) ≡ Some e)
        × (reason ≡ ending_reason (asks.Listing None) table.now e))) }
    ensures err { OnErr result (StopsWithin (W.contents out.old) (W.contents out.new)
        (line.now ++ lines_text manner.form (asked_lines (asks.Listing None) table.now))) }
{
    write_all(out, line)?;
    write_report(table, Asked::Listing(None), manner.form, out)
}

/// Lists the base record of a table: a line `file N`, with its name behind it where that is wanted, and its listing.
pub(crate) fn list_base<W: Write>(
    alloc: Global,
    table: &[u8],
    number: RecordNumber,
    manner: Manner,
    out: &mut W,
) -> io::Result<Heard>
    ensures ok { IfOk result (ListsBase manner number table.now (W.contents out.old) (W.contents out.new)) }
    ensures err { OnErr result (FailsBase manner number table.now (W.contents out.old) (W.contents out.new)) }
{
    tables_list_as_what_they_are_of();
    names_are_those_of_the_references();
    hazards_are_those_of_the_references();
    let file = file_of(table);
    let Ok(hazards) = hazards_of(&file, alloc) else {
        return Ok(Heard::skipped(alloc, Reason::OutOfMemory));
    };
    let Ok(line) = file_line(alloc, manner.form, number, name_of(&file, manner)) else {
        return Ok(Heard::skipped(alloc, Reason::OutOfMemory));
    };
    let reason = list_under(&line, table, manner, out)?;
    Ok(Heard { hazards, reason })
}

// Whether a table's base record has a name, or why that is not known.
fn find_in(table: &[u8], number: RecordNumber, name: &[u8]) -> Result<bool, Reason>
    ensures ok { IfOk result (λ is. IsKnown table.now number name.now (answer is)) }
    ensures err { IfErr result (IsUnknown number table.now name.now) }
{
    names_are_those_of_the_references();
    match file_of(table) {
        Ok(file) => match find_name(&file, name) {
            Found::Yes => Ok(true),
            Found::No => Ok(false),
            Found::Unknown(refusal) => Err(Reason::Unsearched(number, refusal.cause)),
        },
        Err(refusal) => Err(Reason::Unsearched(number, refusal.cause)),
    }
}

/// Whether a table's base record has the name that is wanted, if one is; or why that is not known.
pub(crate) fn seek_name(
    table: &[u8],
    number: RecordNumber,
    wanted: Option<&[u8]>,
) -> Result<bool, Reason>
    ensures ok { IfOk result (IsSought number table.now (option_copied wanted.entry)) }
    ensures err { IfErr result (IsUnsought number table.now (option_copied wanted.entry)) }
{
    match wanted {
        Some(name) => find_in(table, number, name),
        None => Ok(true),
    }
}
