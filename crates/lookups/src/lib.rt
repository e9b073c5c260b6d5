//! Lookups of many numbers in one table, by halves and in turn, for the benchmark to time. No program links it.
#![tactic(auto)]

ghost use Rattle.std.specs.Prelude.{◌≡◌, count_by};
ghost use Rattle.lookups.specs.Wanted.{has, held_of};

use fields::RecordNumber;
use table::Table;
use table::laws::the_first_row_is_found;

// By the rows alone, as one would go through them; the law says that the lookup answers alike.
#[tactic(auto, using(crate::proofs::InTurn::in_turn))]
fn has_in_turn(table: &Table<'_>, wanted: u64) -> bool
    ensures { result ≡ has table.now.bytes.now wanted }
{
    the_first_row_is_found();
    let mut rows = table.rows();
    'rows: while let Some((row, _)) = rows.next() {
        if row.number.0 == wanted {
            return true;
        }
    }
    false
}

fn count(table: &Table<'_>, wanted: &[u64]) -> usize
    ensures { result ≡ count_by (has table.now.bytes.now) wanted.now }
{
    let mut held = 0;
    for n in wanted {
        if table.get(RecordNumber(*n)).is_some() {
            held += 1;
        }
    }
    held
}

fn count_in_turn(table: &Table<'_>, wanted: &[u64]) -> usize
    ensures { result ≡ count_by (has table.now.bytes.now) wanted.now }
{
    let mut held = 0;
    for n in wanted {
        if has_in_turn(table, *n) {
            held += 1;
        }
    }
    held
}

/// How many of the numbers a table has, each looked up as a listing looks it up; none where the bytes are no table.
#[unsafe(no_mangle)]
pub extern "C" fn lookups_by_halves(table: &[u8], wanted: &[u64]) -> usize
    ensures { result ≡ held_of table.now wanted.now }
{
    match Table::check(table) {
        Ok(table) => count(&table, wanted),
        Err(_) => 0,
    }
}

/// The same, with the rows gone through from the first on for each number.
#[unsafe(no_mangle)]
pub extern "C" fn lookups_in_turn(table: &[u8], wanted: &[u64]) -> usize
    ensures { result ≡ held_of table.now wanted.now }
{
    match Table::check(table) {
        Ok(table) => count_in_turn(&table, wanted),
        Err(_) => 0,
    }
}
