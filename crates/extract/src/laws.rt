//! What holds of extracts, each law the contract of a function that does nothing.
ghost use Rattle.extract.specs.Cases.{SizeLimits, EndLimits, RiseLimits, OneEachLimits, FirstLimits, BaseLimits};
ghost use Rattle.extract.specs.Cases.{NumberLimits, PlaceLimits, CountLimits, PairLimits};
ghost use Rattle.extract.specs.Laws.{TablesPass, RecordsAreFound, OthersAreNot, CountsAddUp, LengthsAreTold};
ghost use Rattle.extract.specs.Laws.{RoomsAreEnough, BasesAreTold, NumbersRise, RisingIsAccepted, FallenIsTold};
ghost use Rattle.extract.specs.Laws.{ArraysAreClear, ClearArraysAreGood, PairsAreReplaced, ReadAsProtected};

/// Numbers that are lent rise from record to record, or are refused by 21 at the row of the first that does not
/// (RULES 23.9).
pub fn numbers_rise()
    ensures rise { NumbersRise }
    ensures accepted { RisingIsAccepted }
    ensures told { FallenIsTold }
{}

/// The table that is written passes check 21 (RULES 10) and holds exactly the records written, each fixed up; what is
/// refused or left out does not show in it. Its base row is the one that is asked for.
pub fn extracts_are_held()
    ensures pass { TablesPass }
    ensures found { RecordsAreFound }
    ensures others { OthersAreNot }
    ensures bases { BasesAreTold }
{}

/// The report accounts for each record, and for each byte of the table.
pub fn reports_add_up()
    ensures counts { CountsAddUp }
    ensures lengths { LengthsAreTold }
{}

/// A buffer as long as `Extract::room` says is never too short.
pub fn rooms_are_enough()
    ensures { RoomsAreEnough }
{}

/// What 29 asks of an array, and what a fixup changes, byte by byte (RULES 23.4, 23.6).
pub fn fixups_byte_by_byte()
    ensures clear { ArraysAreClear }
    ensures good { ClearArraysAreGood }
    ensures replaced { PairsAreReplaced }
{}

/// A record that was protected is read as it was (RULES 23.8).
pub fn protected_records_are_read()
    ensures { ReadAsProtected }
{}

/// Both sides of 1, 21, 44, 29 and 30 (RULES 20), and which row is the base row.
pub fn both_sides_of_each_line()
    ensures sizes { SizeLimits }
    ensures ends { EndLimits }
    ensures rise { RiseLimits }
    ensures each { OneEachLimits }
    ensures first { FirstLimits }
    ensures base { BaseLimits }
    ensures numbers { NumberLimits }
    ensures places { PlaceLimits }
    ensures counts { CountLimits }
    ensures pairs { PairLimits }
{}
