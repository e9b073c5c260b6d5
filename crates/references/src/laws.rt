//! What holds of references whatever the bytes, each law the contract of a function that does nothing.
ghost use Rattle.references.specs.Laws.{NumbersOfEntries, ReferencesAreFew, SortedRise, SortedAreTheSame};
ghost use Rattle.references.specs.Laws.{ReferencesSettle, RisingSettle};
ghost use Rattle.references.specs.Cases.{ReferencesTold, Sorted};

/// Two results that tell the same numbers and the same answer are equal in each place of their arrays (RULES 2).
pub fn results_settle()
    ensures references { ReferencesSettle }
    ensures rising { RisingSettle }
{}

/// Records whose lists refer to none, to themselves, to one twice, to several and by several lists, and one that
/// refuses; and numbers placed in front of others, between them, behind them and beside an equal one (RULES 24).
pub fn both_sides_of_each_line()
    ensures references { ReferencesTold }
    ensures sorts { Sorted }
{}

/// The numbers told are those in the entries of the record's lists, in their order, each once, without its own; and no
/// more than a record has room for entries (RULES 24.2).
pub fn references_are_those_of_the_entries()
    ensures numbers { NumbersOfEntries }
    ensures few { ReferencesAreFew }
{}

/// In rising order they are the same numbers, and one with the record's own (RULES 24.4).
pub fn sorted_numbers_rise()
    ensures rise { SortedRise }
    ensures same { SortedAreTheSame }
{}
