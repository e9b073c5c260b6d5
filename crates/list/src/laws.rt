//! What holds of the list step whatever the bytes, each law the contract of a function that does nothing.
ghost use Rattle.list.specs.Laws.{StepsSettle, EntriesStand, NamesStand, PaddingTellsNothing, EmptyNamesPass};

/// The contract of the list step leaves no choice (RULES 2); of its answer alone `fields` has the law.
pub fn steps_settle()
    ensures { StepsSettle }
{}

/// An entry that is given is what stands there, with its name between its header and its end, and ends inside its list;
/// its name is the bytes at its name offset, and zeros (RULES 9).
pub fn entries_stand()
    ensures stand { EntriesStand }
    ensures names { NamesStand }
{}

/// What stands between an entry's header and its name, and behind its name, tells nothing; nor does the name offset of
/// an entry without a name (RULES 9).
pub fn padding_tells_nothing()
    ensures padding { PaddingTellsNothing }
    ensures empty { EmptyNamesPass }
{}
