//! What holds of tables that are merged, each law the contract of a function that does nothing.
ghost use Rattle.merge.specs.Laws.{MergedRise, MergedHold, NoneIsAgreed, ClashIsLowest};
ghost use Rattle.merge.specs.Laws.{TablesPass, RecordsAreFound, NoneIsLost, LengthsAreTold};
ghost use Rattle.merge.specs.Laws.{RoomsAreEnough, FrontsMerge};
ghost use Rattle.merge.specs.Cases.{SizeLimits, MergeLimits, ClashLimits, ClashFirst, OrderLimits, RoomLimits};

/// Two lists of rows become one in which the numbers rise, with every row of both and no other (RULES 27.1).
pub fn merged_lists_hold_both()
    ensures rise { MergedRise }
    ensures hold { MergedHold }
{}

/// A clash is the lowest number under which two lists have different records, and none is where there is no such number
/// (RULES 27.3).
pub fn clashes_are_the_lowest()
    ensures agreed { NoneIsAgreed }
    ensures lowest { ClashIsLowest }
{}

/// The table that is written passes check 21 (RULES 10) and holds every record of both tables under its number, and
/// nothing else; it has no base row.
pub fn merged_tables_hold_both()
    ensures pass { TablesPass }
    ensures found { RecordsAreFound }
    ensures lost { NoneIsLost }
    ensures lengths { LengthsAreTold }
{}

/// A buffer as long as `Pair::room` says is never too short.
pub fn rooms_are_enough()
    ensures { RoomsAreEnough }
{}

/// Of two inputs no more matters than their fronts, each as long as its reach.
pub fn fronts_are_enough()
    ensures { FrontsMerge }
{}

/// Both sides of 32, 33 and 35, the order of all refusals, and which rows are merged (RULES 20).
pub fn both_sides_of_each_line()
    ensures sizes { SizeLimits }
    ensures merge { MergeLimits }
    ensures clashes { ClashLimits }
    ensures first { ClashFirst }
    ensures order { OrderLimits }
    ensures room { RoomLimits }
{}
