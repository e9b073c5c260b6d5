//! What holds of a record's attributes, names, values, search and reader whatever the bytes, each law the contract of
//! a function that does nothing.
ghost use Rattle.record.specs.Laws.{RecordsSettle, ViewsSettle, ValuesSettle, TakesSettle};
ghost use Rattle.record.specs.Laws.{CheckedStand, SteppedStand, TailsGiveNothing, TailsChangeNothing, WalksEnd};
ghost use Rattle.record.specs.Laws.{TakesWalk, PlacesRise, EndsStay, RefusalsStay, EndsRest, RefusalsRest};
ghost use Rattle.record.specs.Laws.{NamesLie, ValuesLie, ListsLie, SearchesReadFew, FoundLie, FoundStand};

/// A call whose contract states its answer shows one result at most (RULES 2); of plain results `fields` has the law.
pub fn results_settle()
    ensures records { RecordsSettle }
    ensures views { ViewsSettle }
    ensures values { ValuesSettle }
    ensures takes { TakesSettle }
{}

/// An attribute that is given is what stands at its offset, is at least 16 bytes long and ends inside the record and
/// its used part (RULES 4).
pub fn attributes_stand()
    ensures checked { CheckedStand }
    ensures stepped { SteppedStand }
{}

/// What stands behind the used part makes no attribute, and changes or hides none, nor its name, value or list (RULES 4
/// to 8).
pub fn tails_tell_nothing()
    ensures attributes { TailsGiveNothing }
    ensures contents { TailsChangeNothing }
{}

/// The raw walk ends (RULES 5).
pub fn walks_end()
    ensures { WalksEnd }
{}

/// The takes of a reader are the raw walk, answer by answer and place by place; at its end and at a refusal both
/// stand still (RULES 5).
pub fn takes_walk()
    ensures walk { TakesWalk }
    ensures places { PlacesRise }
    ensures ended { EndsStay }
    ensures refused { RefusalsStay }
    ensures end_rests { EndsRest }
    ensures refusal_rests { RefusalsRest }
{}

/// A name, a value's bytes, run bytes and a list lie inside the record and its used part (RULES 6, 7, 8).
pub fn views_lie_inside()
    ensures names { NamesLie }
    ensures values { ValuesLie }
    ensures lists { ListsLie }
{}

/// A search reads at most one attribute for each 16 bytes of the record, and finds one that stands inside it (RULES
/// 12).
pub fn searches_read_few()
    ensures few { SearchesReadFew }
    ensures inside { FoundLie }
    ensures stand { FoundStand }
{}
