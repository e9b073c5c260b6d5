//! A look at a row of a table, and the count of looks, which is there for the proof alone (RULES 10.7).
ghost use Rattle.std.specs.Prelude.{◌≡◌, ◌+◌, ◌<◌, ℕ};
ghost use Rattle.table.specs.Layout.{row_at};

use crate::{Row, Table};
use std::marker::{Brand, Model};
use std::sync::ledger::{Blank, Book, Ledger, Share};

/// How many looks were taken so far. It takes no bytes and no time, and only a look adds to it.
#[derive(Drop)]
pub(crate) struct Looks<L: Ledger> {
    book: Book<L>,
    share: Share<L>,
}

const _: () = prove!(size_of::<Looks<Brand>>() == 0);

impl<L: Ledger> Model for Looks<L> {
    ghost Value = { ℕ };

    ghost view = { λ l. l.book.total };

    ghost invariant = { λ l. 0 < l.share.parts };
}

impl<L: Ledger> Looks<L> {
    // No look so far.
    pub(crate) fn none(blank: Blank) -> Looks<L>
        requires name { blank.name ≡ L.name }
        requires parts { blank.parts ≡ L.parts }
        requires some { 0 < blank.parts }
        ensures { result ≡ 0 }
    {
        let (book, share) = blank.open();
        Looks { book, share }
    }

    fn add_one(&mut self)
        ensures { self.new ≡ self.old + 1 }
    {
        self.book.add(&mut self.share, 1);
    }
}

/// The directory of a table that passed its check. Its rows are seen by a look at a time, and in no other way.
#[derive(Clone, Copy)]
pub(crate) struct Directory<'a> {
    table: Table<'a>,
}

impl<'a> Directory<'a> {
    pub(crate) fn of(table: &Table<'a>) -> Directory<'a>
        ensures { result.table ≡ table.now }
    {
        Directory { table: *table }
    }

    pub(crate) fn count(&self) -> usize
        ensures { result ≡ self.now.table.header.count }
    {
        self.table.header.count as usize
    }

    pub(crate) fn look<L: Ledger>(&self, i: usize, looks: &mut Looks<L>) -> Row
        requires { i < self.now.table.header.count }
        ensures row { result ≡ row_at self.now.table.bytes.now self.now.table.header i }
        ensures look { looks.new ≡ looks.old + 1 }
    {
        looks.add_one();
        self.table.row(i)
    }
}
