//! What is counted over an extract's records, and what is reported of it (RULES 23.7).
use crate::Extract;
use crate::fixup::Judged;
use fields::{Cause, RecordNumber};

/// A record that is refused, and not written.
#[derive(Clone, Copy, Debug, PartialEq, Eq)]
pub struct RefusedRecord {
    /// Its position in the extract, from 0.
    pub position: usize,
    /// The first number and its position; none where that is 2^64 or more.
    pub number: Option<RecordNumber>,
    /// 29 or 30, at place 0 of the record.
    pub cause: Cause,
}

/// What became of an extract's records.
#[derive(Clone, Copy, Debug, PartialEq, Eq)]
pub struct Extracted {
    /// How many bytes the table takes.
    pub length: usize,
    /// How many rows it has: a row for each record that was written.
    pub written: usize,
    /// How many records do not begin with FILE.
    pub left_out: usize,
    /// How many records were refused by 29 or 30.
    pub refused: usize,
    /// The first of these.
    pub first_refused: Option<RefusedRecord>,
}

/// What is counted over the first records of an extract.
#[derive(Clone, Copy)]
pub(crate) struct Tally {
    pub(crate) written: usize,
    pub(crate) left_out: usize,
    pub(crate) refused: usize,
    pub(crate) first_refused: Option<RefusedRecord>,
    /// Where the first row whose number is too large would stand (44).
    pub(crate) late: Option<usize>,
    /// Which row is the base row; as many as there are while none is.
    pub(crate) base: usize,
}

impl Tally {
    ghost use Rattle.std.specs.Prelude.{◌≡◌, ◌+◌, ◌<◌, ◌++◌, List, ℕ};
    ghost use Rattle.extract.specs.declared.Extract.{Extract};
    ghost use Rattle.extract.specs.Base.{base_in};
    ghost use Rattle.extract.specs.Fixup.{sound};
    ghost use Rattle.extract.specs.Judge.{told_verdict};
    ghost use Rattle.extract.specs.Told.{tally_below};
    ghost use Rattle.extract.specs.Records.{record_count, record_at, verdict_at, row_by, rows_below};

    /// In front of the first record.
    pub(crate) fn none() -> Tally
        ensures { (x : Extract) → result ≡ tally_below x 0 }
    {
        Tally {
            written: 0,
            left_out: 0,
            refused: 0,
            first_refused: None,
            late: None,
            base: 0,
        }
    }

    // Which row is the base row, with a row of the record at a position behind those that were counted.
    fn base_with(&self, extract: &Extract, i: usize) -> usize
        requires inside { i < record_count extract.now }
        requires before { self.now ≡ tally_below extract.now i }
        ensures { (b : List ℕ) → result
            ≡ base_in extract.now.base (rows_below extract.now i ++ row_by extract.now i (sound b)) }
    {
        if self.base < self.written || extract.is_base(i) {
            self.base
        } else {
            self.written + 1
        }
    }

    /// Counts the record at a position, behind those in front of it.
    pub(crate) fn add(&mut self, extract: &Extract, i: usize, judged: Judged)
        requires inside { i < record_count extract.now }
        requires before { self.old ≡ tally_below extract.now i }
        requires judged { told_verdict (record_at extract.now i) judged ≡ verdict_at extract.now i }
        ensures { self.new ≡ tally_below extract.now (i + 1) }
    {
        match judged {
            Judged::LeftOut => self.left_out += 1,
            Judged::Refused(cause) => {
                let told = RefusedRecord {
                    position: i,
                    number: extract.number(i),
                    cause,
                };
                self.first_refused = self.first_refused.or(Some(told));
                self.refused += 1;
            }
            Judged::Sound => {
                self.base = self.base_with(extract, i);
                self.late = self.late.or(extract.late_row(i, self.written));
                self.written += 1;
            }
        }
    }
}
