//! What holds of parts whatever the bytes, each law the contract of a function that does nothing.
ghost use Rattle.fields.specs.Laws.{Settles};
ghost use Rattle.parts.specs.Filled.{collected};
ghost use Rattle.parts.specs.Laws.{FilledSettle, PartsInFront, PartsFit, RoomSuffices, WholePartsAreSome};
ghost use Rattle.parts.specs.Laws.{PartsAreOneStream, PartsAreFoundAgain};

/// A call whose contract states what it reports leaves one list and has one result at most (RULES 2, 17).
pub fn results_settle()
    ensures lent { FilledSettle }
    ensures by_value { Settles collected }
{}

/// Parts stand in front of the lent list, no more of them than it has room for; what stands behind them is unchanged
/// (RULES 15).
pub fn parts_stand_in_front()
    ensures front { PartsInFront }
    ensures fit { PartsFit }
{}

/// With room for `MOST_PARTS` parts, 20 never comes for want of more (RULES 15).
pub fn room_suffices()
    ensures { RoomSuffices }
{}

/// Parts of an item that tells a list are refused, or are at least one (RULES 15).
pub fn whole_parts_are_some()
    ensures { WholePartsAreSome }
{}

/// The parts by a list are of one stream, in its order, and whole ones leave none out (RULES 15.2).
pub fn parts_are_one_stream()
    ensures { PartsAreOneStream }
{}

/// The record of each part is found again by its number, and the part's run bytes lie inside it (RULES 15).
pub fn parts_are_found_again()
    ensures { PartsAreFoundAgain }
{}
