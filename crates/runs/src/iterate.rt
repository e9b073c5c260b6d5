//! The runs of an attribute as an iterator (RULES 21.7).
ghost use Rattle.std.specs.Prelude.{◌≡◌, ◌≤◌, ◌+◌, length};

use crate::{Carried, Run, step};
use fields::{RecordNumber, Refusal};
use record::{Record, Span};

/// The runs that are left, one behind the other; a refusal is the last item.
#[derive(Clone, Copy)]
pub struct Runs<'a> {
    pub left: &'a [u8],
    pub carried: Carried,
    pub file: RecordNumber,
    pub place: usize,
    pub ghost inside: { place + length left.now ≤ 4096 },
}

impl<'a> Runs<'a> {
    ghost use Rattle.std.specs.Prelude.{◌≡◌, take, drop};
    ghost use Rattle.runs.specs.Runs.{runs_of};
    ghost use Rattle.runs.specs.Rest.{rest};

    /// The runs in some bytes of a record; where these go past the record, those up to its end.
    pub fn of(within: &Record<'a>, bytes: Span) -> Runs<'a>
        ensures { rest result ≡
            runs_of within.now.number (take bytes.bytes (drop bytes.from within.now.bytes.now)) bytes.from }
    {
        let from = bytes.from.min(within.bytes.len());
        let behind = &within.bytes[from..];
        Runs {
            left: &behind[..bytes.bytes.min(behind.len())],
            carried: Carried::FRESH,
            file: within.number,
            place: from,
        }
    }
}

impl<'a> Iterator for Runs<'a> {
    ghost use Rattle.std.specs.Iterator.{item_count, YieldsFirstBy};
    ghost use Rattle.fields.specs.Told.{told};
    ghost use Rattle.runs.specs.Rest.{rest};

    type Item = Result<Run, Refusal>;

    ghost next_gives = { YieldsFirstBy told rest };

    ghost remaining = { item_count rest };

    #[tactic(auto, using(crate::proofs::Walks::walks))]
    fn next(&mut self) -> Option<Result<Run, Refusal>> {
        let decoded = step(self.left, self.carried, self.file, self.place);
        match decoded.answer {
            Ok(Some(run)) => {
                self.left = &self.left[decoded.taken..];
                self.carried = decoded.carried;
                self.place += decoded.taken;
                Some(Ok(run))
            }
            Ok(None) => {
                self.left = &[];
                None
            }
            Err(r) => {
                self.left = &[];
                Some(Err(r))
            }
        }
    }
}
