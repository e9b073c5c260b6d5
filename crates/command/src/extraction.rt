//! What is asked of an extract of a raw $MFT: which of its records, of which size, and with which numbers.
ghost use Rattle.std.specs.Prelude.{◌≡◌};
ghost use Rattle.extract.specs.Size.{good_size};
ghost use Rattle.command.specs.Extraction.{good_or_none, size_told};

use crate::counts::FirstRefused;
use crate::{Reason, Unmade};
use extract::{Extract, Extracted};
use fields::RecordNumber;
use record::Record;

/// What is asked of an extract.
#[derive(Clone, Copy, Debug, PartialEq, Eq)]
pub struct Extraction {
    /// The size of its records in bytes; none where the record at its front is to tell it.
    pub size: Option<u64>,
    /// The number of the record at position 0.
    pub first: RecordNumber,
    /// The position of the first record that is taken.
    pub from: u64,
    /// How many records are taken, at most; none where all that follow are.
    pub count: Option<u64>,
}

// Whether an extract may have records of so many bytes (RULES 23.2): an empty one is refused for nothing else.
#[tactic(auto, unfolding(extract::specs::Size::sizes_checked, extract::specs::Size::whole_records))]
pub(crate) fn good_size(size: usize) -> bool
    ensures { result ≡ good_size size }
{
    Extract::check(&[], size, RecordNumber(0)).is_ok()
}

// A size, where an extract's records may have it.
fn good_or_none(size: usize) -> Option<usize>
    ensures { result ≡ good_or_none size }
{
    if good_size(size) { Some(size) } else { None }
}

/// The record size that the record at an input's front tells, by its allocated size, where an extract's records may
/// have it. The front is as many bytes as the longest record has, or all of a shorter input.
#[tactic(auto, unfolding(crate::specs::Extraction::size_told))]
pub fn size_told(front: &[u8]) -> Option<usize>
    ensures { result ≡ size_told front.now }
{
    match Record::open(front, RecordNumber(0)) {
        Ok(record) => good_or_none(record.header().allocated as usize),
        Err(_) => None,
    }
}

impl Extraction {
    ghost use Rattle.std.specs.Prelude.{◌≡◌, ◌*◌, true, option_map, IfOk};
    ghost use Rattle.extract.specs.Size.{good_size};
    ghost use Rattle.command.specs.Extraction.{size_of, first_of, place_of, most_of, number_of_taken, refused_of};

    /// The record size: as it is asked for, or else as the record at the input's front tells it.
    #[tactic(auto, using(crate::proofs::Sizes::sizes_fit), unfolding(crate::specs::Extraction::size_of))]
    pub fn size(self, front: &[u8]) -> Result<u16, Reason>
        ensures size { result ≡ size_of self.size front.now }
        ensures good { IfOk result (λ n. good_size n ≡ true) }
    {
        match self.size {
            Some(size) => match good_or_none(size as usize) {
                Some(size) => Ok(size as u16),
                None => Err(Reason::Unmade(Unmade::RecordSize(size))),
            },
            None => match size_told(front) {
                Some(size) => Ok(size as u16),
                None => Err(Reason::SizeUntold),
            },
        }
    }

    // The number of the first record that is taken. One that is too large for a `u64` is as good as the largest: no
    // record with either is written (44).
    pub(crate) fn first(self) -> RecordNumber
        ensures { result ≡ first_of self }
    {
        RecordNumber(self.first.0.saturating_add(self.from))
    }

    /// Where the first record that is taken stands in the input, by the record size.
    pub fn place(self, size: u16) -> u128
        ensures { result ≡ place_of self size }
    {
        u128::from(size) * u128::from(self.from)
    }

    // How many bytes are taken, at most.
    pub(crate) fn most(self, size: u16) -> Option<u128>
        ensures { result ≡ most_of self size }
    {
        match self.count {
            Some(count) => Some(u128::from(size) * u128::from(count)),
            None => None,
        }
    }

    // The number of the record at a position behind the first that is taken; none where that is 2^64 or more.
    fn number(self, position: usize) -> Option<RecordNumber>
        ensures { result ≡ number_of_taken self position }
    {
        let number = u128::from(self.first.0) + u128::from(self.from) + position as u128;
        match u64::try_from(number) {
            Ok(number) => Some(RecordNumber(number)),
            Err(_) => None,
        }
    }

    /// Why an extract is not written whole, of which this is reported, if it is not: its first refused record, by its
    /// position and its number in the whole input.
    pub fn refused(self, extracted: &Extracted) -> Option<Reason>
        ensures { result ≡ refused_of self extracted.now }
    {
        match extracted.first_refused {
            Some(refused) => Some(Reason::RecordRefused(FirstRefused {
                position: self.from.saturating_add(refused.position as u64),
                number: self.number(refused.position),
                cause: refused.cause,
            })),
            None => None,
        }
    }
}
