//! The table of an extract that a reader gives, or of a part of it.
ghost use Rattle.std.specs.Prelude.{◌≡◌, ◌⊎◌, ℕ, List, ◌++◌, take, option_map, IfOk, IfErr, IfSome};
ghost use Rattle.command.specs.Extraction.{front_size, first_of, most_of, part_of};
ghost use Rattle.command.specs.Part.{part_at};
ghost use Rattle.command.specs.Make.{IsSkipped, Fills, Makes, Extracts};
ghost use Rattle.command.specs.Passed.{HasFront};
ghost use Rattle.command.specs.Read.{IsUnread};

use crate::part::{pass_over, read_front, take_bytes};
use crate::{Extraction, Reason, Unmade};
use extract::laws::{reports_add_up, rooms_are_enough};
use extract::{Extract, Extracted};
use fields::RecordNumber;
use std::alloc::Global;
use std::io::Read;

/// A table that was made of an extract, and what became of the records.
#[derive(Drop)]
pub struct Made {
    pub table: Vec<u8>,
    pub extracted: Extracted,
}

// The table of an extract that passed its check, in a buffer that is never too short.
fn fill_table(alloc: Global, extract: &Extract) -> Result<Made, Reason>
    ensures { IsSkipped result ⊎ Fills extract.now result }
{
    rooms_are_enough();
    reports_add_up();
    let Ok(mut table) = vec![in alloc; 0; extract.room()] else {
        return Err(Reason::OutOfMemory);
    };
    match extract.write(&mut table) {
        Ok(extracted) => {
            table.truncate(extracted.length);
            Ok(Made { table, extracted })
        }
        Err(refusal) => Err(Reason::Unmade(Unmade::by_refusal(refusal))),
    }
}

// The table of these bytes as an extract.
fn make_table(alloc: Global, bytes: &[u8], size: u16, first: RecordNumber) -> Result<Made, Reason>
    ensures { Makes size first bytes.now result }
{
    match Extract::check(bytes, usize::from(size), first) {
        Ok(extract) => fill_table(alloc, &extract),
        Err(_) => Err(Reason::Unmade(Unmade::by_sizes(size, bytes))),
    }
}

/// Extracts what is asked for, of records of this size: from a place on, counted from the front's first byte, in a
/// front that was read and what the input has behind it.
pub fn extract_rest<R: Read>(
    alloc: Global,
    front: &[u8],
    input: &mut R,
    place: u128,
    asked: Extraction,
    size: u16,
) -> Result<Made, Reason>
    ensures known { IfSome (R.remaining input.old) (λ rest.
        Makes size (first_of asked) (part_at (most_of asked size) place (front.now ++ rest)) result) }
    ensures unknown { (bytes : List ℕ) × Makes size (first_of asked) bytes result }
{
    let mut whole = front.chain(input);
    pass_over(&mut whole, place)?;
    let bytes = take_bytes(alloc, &mut whole, asked.most(size))?;
    make_table(alloc, &bytes, size, asked.first())
}

// The input's front, where the record size stands there alone.
fn front_for<R: Read>(alloc: Global, input: &mut R, asked: Extraction) -> Result<Vec<u8>, Reason>
    ensures ok { IfOk result (λ front. HasFront asked (R.remaining input.old) (R.remaining input.new) front.items) }
    ensures err { IfErr result IsUnread }
{
    if asked.size.is_some() {
        return Ok(Vec::new(alloc));
    }
    read_front(alloc, input)
}

/// Extracts what is asked for of an input, from its first byte on. Where no contract knows what the reader gives, it
/// is of some bytes.
pub fn extract_input<R: Read>(
    alloc: Global,
    input: &mut R,
    asked: Extraction,
) -> Result<Made, Reason>
    ensures known { IfSome (R.remaining input.old) (λ bytes.
        Extracts asked (take front_size bytes) (λ n. part_of asked n bytes) result) }
    ensures unknown { (front bytes : List ℕ) × Extracts asked front (λ n. bytes) result }
{
    let front = front_for(alloc, input, asked)?;
    let size = asked.size(&front)?;
    extract_rest(alloc, &front, input, asked.place(size), asked, size)
}
