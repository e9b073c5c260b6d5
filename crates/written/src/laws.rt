//! What holds of tables that are written, each law the contract of a function that does nothing.
ghost use Rattle.written.specs.Laws.{TablesPass, RowsAreHeld, TablesAreLong};
ghost use Rattle.written.specs.Laws.{TablesBegin, RowsFollow, TablesEnd};
ghost use Rattle.written.specs.Cases.{RowLimits, RoomLimits, EmptyRoomLimits};

/// A table of rows that fit passes check 21 (RULES 10) and holds exactly those rows, whatever stands behind it.
pub fn written_tables_hold_their_rows()
    ensures pass { TablesPass }
    ensures held { RowsAreHeld }
    ensures long { TablesAreLong }
{}

/// The header first, then each row and its record in their places, in order: so a table comes to stand in a buffer,
/// and what the buffer has behind it stays.
pub fn tables_come_to_stand()
    ensures begin { TablesBegin }
    ensures follow { RowsFollow }
    ensures end { TablesEnd }
{}

/// Both sides of 34 and of 35 (RULES 20).
pub fn both_sides_of_each_line()
    ensures rows { RowLimits }
    ensures room { RoomLimits }
    ensures empty { EmptyRoomLimits }
{}
