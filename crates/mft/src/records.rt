//! Raw records of an input, one behind another.
use crate::fetch::fill;
use command::{Absence, Reason, Unmade};
use fields::RecordNumber;
use std::io::Read;
use table::{HEADER_SIZE, NUMBER_END};

/// Raw records of an input, one behind another, each with its number.
#[derive(Drop)]
pub struct Records<R> {
    input: R,
    next: RecordNumber,
}

impl<R: Read + Drop> Records<R> {
    ghost use Rattle.std.specs.Prelude.{◌≡◌, ◌<◌, length, IfOk, IfErr};
    ghost use Rattle.mft.specs.Next.{Reads};
    ghost use Rattle.mft.specs.Records.{IsEnd};

    /// Those of an input, the first of which has this number.
    pub fn of(input: R, first: RecordNumber) -> Records<R>
        ensures input { result.input ≡ input }
        ensures first { result.next ≡ first }
    {
        Records { input, next: first }
    }

    /// Reads the next one into a room of its size; its number, or none where there is no more.
    pub(crate) fn read(&mut self, room: &mut [u8]) -> Result<Option<RecordNumber>, Reason>
        requires { 0 < length room.old }
        ensures ok { IfOk result (λ found. Reads (R.remaining self.old.input) (R.remaining self.new.input)
            self.old.next self.new.next room.new found) }
        ensures err { IfErr result (IsEnd (R.remaining self.old.input) (length room.old) self.old.next) }
    {
        let have = fill(&mut self.input, room)?;
        if have == 0 {
            return Ok(None);
        }
        let number = self.next;
        if have < room.len() {
            return Err(Reason::Absent(number, Absence::BrokenOff));
        }
        if NUMBER_END <= number.0 {
            return Err(Reason::Unmade(Unmade::RowNumber(HEADER_SIZE)));
        }
        self.next = RecordNumber(number.0 + 1);
        Ok(Some(number))
    }
}
