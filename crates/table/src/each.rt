//! The rows of a table with their records, as an iterator (RULES 10.6).
ghost use Rattle.std.specs.Prelude.{◌≡◌};

use crate::{Row, Table};

/// The rows from a row on, each with its record's bytes.
#[derive(Clone, Copy)]
pub struct EachRow<'a> {
    pub table: Table<'a>,
    pub at: usize,
}

impl<'a> Iterator for EachRow<'a> {
    ghost use Rattle.std.specs.Iterator.{item_count, YieldsFirstBy};
    ghost use Rattle.table.specs.Rows.{told_filed, rest};

    type Item = (Row, &'a [u8]);

    ghost next_gives = { YieldsFirstBy told_filed rest };

    ghost remaining = { item_count rest };

    #[tactic(auto, using(crate::proofs::Files::files))]
    fn next(&mut self) -> Option<(Row, &'a [u8])> {
        let i = self.at;
        if (self.table.header.count as usize) <= i {
            return None;
        }
        self.at = i + 1;
        let row = self.table.row(i);
        Some((row, self.table.record(row)))
    }
}
