//! A raw record alone: its own table, and which others its listing takes.
ghost use Rattle.std.specs.Prelude.{◌≡◌, ◌<◌, ℕ, List, true, length, IfOk, IfErr};
ghost use Rattle.extract.specs.Fixup.{verdict_of, sound};
ghost use Rattle.extract.specs.Size.{good_size};
ghost use Rattle.mft.specs.Sole.{IsSole, Sifts, Unsifted};
ghost use Rattle.mft.specs.Room.{Roomy};
ghost use Rattle.table.specs.Check.{number_end};

use crate::absence::absence_of;
use crate::made::{file_of, wanted_in, write_alone};
use command::{Absence, Reason};
use extract::laws::{extracts_are_held, fixups_byte_by_byte};
use fields::RecordNumber;
use references::Rising;
use segments::is_base_in_use;

/// A raw record in a table of its own: how many bytes that has, and the numbers of the records that its listing takes.
#[derive(Clone, Copy)]
pub(crate) struct Sole {
    pub(crate) length: usize,
    pub(crate) wanted: Rising,
}

/// A raw record that is sound, alone in a table.
pub(crate) fn set_apart(own: &[u8], number: RecordNumber, table: &mut [u8]) -> Sole
    requires good { good_size (length own.now) ≡ true }
    requires sound { (b : List ℕ) × (verdict_of own.now ≡ sound b) }
    requires number { number.0 < number_end }
    requires room { Roomy (length own.now) (length table.old) }
    ensures { IsSole own.now number (length table.old) table.new result }
{
    extracts_are_held();
    fixups_byte_by_byte();
    let length = write_alone(own, number, table);
    let wanted = wanted_in(&file_of(&table[..length]), number);
    Sole { length, wanted }
}

/// The same where it is a base record in use, and nothing of another.
pub(crate) fn sift(
    own: &[u8],
    number: RecordNumber,
    table: &mut [u8],
) -> Result<Option<Sole>, Reason>
    requires good { good_size (length own.now) ≡ true }
    requires number { number.0 < number_end }
    requires room { Roomy (length own.now) (length table.old) }
    ensures ok { IfOk result (Sifts own.now number (length table.old) table.new) }
    ensures err { IfErr result (Unsifted own.now number) }
{
    extracts_are_held();
    fixups_byte_by_byte();
    match absence_of(own) {
        None => {}
        Some(Absence::Refused(cause)) => return Err(Reason::Unlisted(number, cause)),
        Some(_) => return Ok(None),
    }
    let length = write_alone(own, number, table);
    let file = file_of(&table[..length]);
    match &file {
        Ok(opened) if is_base_in_use(&opened.base) => {}
        Ok(_) => return Ok(None),
        Err(refusal) => return Err(Reason::Unlisted(number, refusal.cause)),
    }
    let wanted = wanted_in(&file, number);
    Ok(Some(Sole { length, wanted }))
}
