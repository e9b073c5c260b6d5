//! The row with a number, by halves (RULES 10.6), and how few rows are looked at for it (10.7).
ghost use Rattle.std.specs.Prelude.{◌≡◌, ◌-◌, ◌<◌, ◌≤◌};
ghost use Rattle.table.specs.Row.{first_row, FewLooks};

use crate::Row;
use crate::look::{Directory, Looks};
use fields::RecordNumber;
use std::cmp::Ordering;
use std::sync::ledger::{Blank, Ledger};

impl<'a> Directory<'a> {
    // By halves: the numbers rise from row to row. By hand, since the rows are bytes and no slice of rows that a
    // library's search could take.
    #[tactic(auto, using(crate::proofs::Halves::halves))]
    fn search<L: Ledger>(&self, wanted: RecordNumber, looks: &mut Looks<L>) -> Option<Row>
        ensures row { result ≡ first_row self.now.table.bytes.now self.now.table.header wanted }
        ensures on { looks.old ≤ looks.new }
        ensures few { FewLooks self.now.table.header.count (looks.new - looks.old) }
    {
        let mut from: usize = 0;
        let mut to = self.count();
        'search: while from < to {
            let i = from + (to - from) / 2;
            let row = self.look(i, looks);
            match row.number.cmp(&wanted) {
                Ordering::Equal => return Some(row),
                Ordering::Less => from = i + 1,
                Ordering::Greater => to = i,
            }
        }
        None
    }

    /// The first row with a number, if there is one, where nobody asks for the looks.
    pub(crate) fn find<L: Ledger>(&self, wanted: RecordNumber, blank: Blank) -> Option<Row>
        requires name { blank.name ≡ L.name }
        requires parts { blank.parts ≡ L.parts }
        requires some { 0 < blank.parts }
        ensures { result ≡ first_row self.now.table.bytes.now self.now.table.header wanted }
    {
        self.search(wanted, &mut Looks::<L>::none(blank))
    }
}
