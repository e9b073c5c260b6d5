//! The hazards of a file: what shows that a record is no longer its own, or never was (RULES 25.3).
ghost use Rattle.std.specs.Prelude.{◌≡◌, ◌+◌, ◌≤◌, ◌++◌, length, OnOk, IfOk};
ghost use Rattle.record.specs.Inside.{Inside};
ghost use Rattle.record.specs.Value.{list_in};
ghost use Rattle.items.specs.OfFile.{of_file};
ghost use Rattle.segments.specs.Base.{is_back};
ghost use Rattle.segments.specs.Placed.{at_place, list_placed};
ghost use Rattle.segments.specs.Whole.{is_whole};
ghost use Rattle.segments.specs.Hazards.{record_hazards, entry_hazards, entries_hazards, listed_hazards};
ghost use Rattle.segments.specs.Hazards.{number_hazards, referred_hazards, hazards_of};

use crate::{Reference, base_reference, fits, is_in_use};
use fields::bytes::u16_at;
use fields::{ATTRIBUTE_LIST, RecordNumber};
use items::File;
use list::Entry;
use record::{Attribute, Located, Record};
use references::References;
use std::alloc::{AllocError, Global};

/// What shows that a record may not be the file's.
#[derive(Clone, Copy, Debug, PartialEq, Eq)]
pub enum Hazard {
    /// The entry at this place of the base record refers to a record by a sequence number that is not the record's own:
    /// the record was reused.
    Sequence {
        place: usize,
        file: RecordNumber,
        named: u16,
        has: u16,
    },
    /// The record is not in use.
    NotInUse(RecordNumber),
    /// The record has this reference to a base record: the file's own base record has one at all, or another record of
    /// the file has none, or one to another record.
    OtherBase {
        file: RecordNumber,
        base: Reference,
    },
}

const SEQUENCE: usize = 22;

// What a record itself shows, by whether its reference to a base record is as it should be.
#[tactic(auto, unfolding(crate::specs::Hazards::record_hazards))]
fn put_record(found: &mut Vec<Hazard>, within: &Record<'_>, is_due: bool) -> Result<(), AllocError>
    ensures { OnOk result (found.new.items
        ≡ found.old.items ++ record_hazards within.now.bytes.now within.now.number is_due) }
{
    if !is_in_use(within) {
        found.push(Hazard::NotInUse(within.number))?;
    }
    if !is_due {
        found.push(Hazard::OtherBase {
            file: within.number,
            base: base_reference(within),
        })?;
    }
    Ok(())
}

// An entry of a list, at a place of the base record.
#[tactic(auto, unfolding(crate::specs::Hazards::entry_hazards, crate::specs::Hazards::sequence_hazards))]
fn put_entry(
    found: &mut Vec<Hazard>,
    file: &File<'_>,
    entry: &Entry,
    place: usize,
) -> Result<(), AllocError>
    requires { place + 26 ≤ length file.now.base.bytes.now }
    ensures { OnOk result (found.new.items
        ≡ found.old.items ++ of_file entry_hazards file.now (at_place place entry.now)) }
{
    let named = u16_at(file.base.bytes, place + SEQUENCE);
    if let Ok(within) = file.lookup(entry.file, place) {
        let has = within.header().sequence;
        if !fits(named, has) {
            found.push(Hazard::Sequence {
                place,
                file: entry.file,
                named,
                has,
            })?;
        }
    }
    Ok(())
}

// The entries of the list that an attribute opens; whether they came to the list's end, or a refusal stopped them.
fn put_list(
    found: &mut Vec<Hazard>,
    file: &File<'_>,
    attribute: Attribute,
) -> Result<bool, AllocError>
    requires { Inside file.now.base.bytes.now attribute }
    ensures hazards { OnOk result (found.new.items ≡ found.old.items
        ++ of_file entries_hazards file.now (list_placed file.now.base.bytes.now file.now.base.number
        (list_in file.now.base.bytes.now file.now.base.number attribute))) }
    ensures whole { IfOk result (λ whole. whole ≡ is_whole (list_placed file.now.base.bytes.now file.now.base.number
        (list_in file.now.base.bytes.now file.now.base.number attribute))) }
{
    let holder = Located {
        within: file.base,
        attribute,
    };
    let Ok(list) = holder.list() else {
        return Ok(false);
    };
    let to = list.from + list.bytes;
    let mut at = list.from;
    loop {
        let entry = match list::header(&file.base.bytes[at..to], file.base.number, at) {
            Ok(Some(entry)) => entry,
            Ok(None) => return Ok(true),
            Err(_) => return Ok(false),
        };
        put_entry(found, file, &entry, at)?;
        at += entry.length;
    }
}

// The lists of the base record, one behind another, up to the first refusal.
fn put_lists(found: &mut Vec<Hazard>, file: &File<'_>) -> Result<(), AllocError>
    ensures { OnOk result (found.new.items ≡ found.old.items ++ of_file listed_hazards file.now) }
{
    let mut at = record::first_attribute(file.base.bytes);
    loop {
        let attribute = match file.base.step(at) {
            Ok(Some(attribute)) => attribute,
            Ok(None) => return Ok(()),
            Err(_) => return Ok(()),
        };
        if attribute.ty == ATTRIBUTE_LIST && !put_list(found, file, attribute)? {
            return Ok(());
        }
        at += attribute.length;
    }
}

// Whether a record's reference to its base record means this file's.
#[tactic(auto, unfolding(crate::specs::Base::is_back))]
fn is_back(file: &File<'_>, base: Reference) -> bool
    ensures { result ≡ is_back file.now.base.bytes.now file.now.base.number base }
{
    base.file == file.base.number
        && !base.is_zero()
        && fits(base.sequence, file.base.header().sequence)
}

// The records that the lists refer to.
fn put_referred(found: &mut Vec<Hazard>, file: &File<'_>) -> Result<(), AllocError>
    ensures { OnOk result (found.new.items ≡ found.old.items ++ of_file referred_hazards file.now) }
{
    let references = References::of(&file.base);
    for number in references.numbers[..references.count].iter() {
        put_looked_up(found, file, *number)?;
    }
    Ok(())
}

// The record with a number, where it can be looked up.
#[tactic(auto, unfolding(crate::specs::Hazards::number_hazards, crate::specs::Hazards::found_hazards))]
fn put_looked_up(
    found: &mut Vec<Hazard>,
    file: &File<'_>,
    number: RecordNumber,
) -> Result<(), AllocError>
    ensures { OnOk result (found.new.items ≡ found.old.items ++ of_file number_hazards file.now number) }
{
    match file.lookup(number, 0) {
        Ok(within) => put_record(found, &within, is_back(file, base_reference(&within))),
        Err(_) => Ok(()),
    }
}

/// The hazards of a file: those of its base record, then of the entries of its lists, up to the first refusal, then of
/// the records that they refer to (RULES 25.3). Where there are none, nothing is allocated.
#[tactic(auto, unfolding(crate::specs::Hazards::hazards_of))]
pub fn hazards(file: &File<'_>, alloc: Global) -> Result<Vec<Hazard>, AllocError>
    ensures { IfOk result (λ v. v.items ≡ of_file hazards_of file.now) }
{
    let mut found = Vec::new(alloc);
    put_record(&mut found, &file.base, base_reference(&file.base).is_zero())?;
    put_lists(&mut found, file)?;
    put_referred(&mut found, file)?;
    Ok(found)
}

#[cfg(test)]
mod tests {
    use super::*;
    use std::test::Fail;

    // A table of no rows, with records of 64 bytes.
    const NO_ROWS: [u8; 20] = [
        0, 0, 0, 0, 64, 0, 0, 0, 20, 0, 0, 0, 20, 0, 0, 0, 0, 0, 0, 0,
    ];

    // No contract rules out that memory runs out: so that there is some, and the hazards come, is run.
    #[test]
    fn hazards_come(rt: HostRuntime) -> Result<(), Fail> {
        let mut bytes = [0u8; 64];
        bytes[..4].copy_from_slice(b"FILE");
        bytes[20] = 56;
        bytes[22] = 1;
        // used up to the end marker
        bytes[24] = 56;
        bytes[56..60].copy_from_slice(&[255; 4]);
        let number = RecordNumber(40);
        let sound = File::of_bytes(&NO_ROWS, &bytes, number)?;
        assert_eq!(rt; hazards(&sound, rt.alloc())?.len(), 0);
        bytes[22] = 0;
        let deleted = File::of_bytes(&NO_ROWS, &bytes, number)?;
        let found = hazards(&deleted, rt.alloc())?;
        assert_eq!(rt; found.as_slice(), [Hazard::NotInUse(number)].as_slice());
        Ok(())
    }
}
