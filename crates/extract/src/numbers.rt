//! Which numbers an extract's records have (RULES 23.1, 23.9).
ghost use Rattle.std.specs.Prelude.{◌≡◌, ◌<◌, ◌^◌, length};
ghost use Rattle.fields.specs.Told.{told};
ghost use Rattle.extract.specs.Numbers.{numbers_risen, listed_at};

use fields::{Cause, RecordNumber, Refusal};
use table::{HEADER_SIZE, ROW_SIZE};

/// The numbers of an extract's records.
#[derive(Clone, Copy)]
pub enum Numbers<'a> {
    /// The first one's; each next one's is higher by 1.
    From(RecordNumber),
    /// Each one's own, in the order of the records.
    Listed(&'a [RecordNumber]),
}

/// 21 where a number is not above the one before it.
pub(crate) fn check_risen(numbers: &[RecordNumber]) -> Result<(), Refusal>
    ensures { told result ≡ numbers_risen numbers.now }
{
    for i in 1..numbers.len() {
        if numbers[i].0 <= numbers[i - 1].0 {
            return Cause::BadTable.refuses(RecordNumber(0), HEADER_SIZE + ROW_SIZE * i);
        }
    }
    Ok(())
}

// The number at a position of a list: a call of its own, whose contract carries that it is below 2^64.
pub(crate) fn listed(numbers: &[RecordNumber], i: usize) -> u64
    requires { i < length numbers.now }
    ensures number { result ≡ (listed_at numbers.now i).0 }
    ensures fits { result < 2 ^ 64 }
{
    numbers[i].0
}
