//! What holds of tables, each law the contract of a function that does nothing.
ghost use Rattle.table.specs.Laws.{RowsRise, RecordsLieInside, RowsAreFound, OthersAreNot, RowsAreHeld};
ghost use Rattle.table.specs.Laws.{BaseIsARow, ChecksSettle, RowsSettle, RowsStand, SizesAreGood};
ghost use Rattle.table.specs.Laws.{FirstIsFound, FirstIsTold, FewByLog, FewOfNone, FewOfMost};
ghost use Rattle.table.specs.Laws.{FaultsRefuse, FrontsAnswer, FrontsHold};

/// What the check shows (RULES 10).
pub fn tables_are_sound()
    ensures size { SizesAreGood }
    ensures stand { RowsStand }
    ensures rise { RowsRise }
    ensures inside { RecordsLieInside }
{}

/// What a table holds: its rows' records, each by its row's number, and nothing else.
pub fn tables_hold_their_rows()
    ensures found { RowsAreFound }
    ensures missed { OthersAreNot }
    ensures held { RowsAreHeld }
    ensures base { BaseIsARow }
{}

/// The row that a search by halves finds is the first one with the number, as if the rows were gone through in turn; it
/// tells the record that the table has under the number (RULES 10.6).
pub fn the_first_row_is_found()
    ensures found { FirstIsFound }
    ensures told { FirstIsTold }
{}

/// How few rows a lookup looks at (RULES 10.7): of n rows log2 n rounded down and 1 at most, 13 of 4,096.
pub fn looks_are_few()
    ensures log { FewByLog }
    ensures none { FewOfNone }
    ensures most { FewOfMost }
{}

/// The contracts leave no choice. A slice that is handed out is its bytes: where they stand is not told.
pub fn results_settle()
    ensures checks { ChecksSettle }
    ensures rows { RowsSettle }
{}

/// A fault that is told is the one that the check refuses by.
pub fn faults_refuse()
    ensures { FaultsRefuse }
{}

/// A front that is as long as its reach answers for the whole input.
pub fn fronts_are_enough()
    ensures answer { FrontsAnswer }
    ensures hold { FrontsHold }
{}
