//! What holds of the definitions, each law the contract of a function that does nothing.
ghost use Rattle.naming.specs.Laws.{LinesAreOne, NothingHidden, LinesSettle, StringsSay, UnitsReadBack};

/// A file's line is one line, whatever its name, and shows no character that speaks to a terminal.
pub fn lines_are_one()
    ensures one { LinesAreOne }
    ensures hidden { NothingHidden }
{}

/// A line of text can't be taken for that of another number or name, and a string of JSON says the name that it is of.
pub fn names_settle()
    ensures settle { LinesSettle }
    ensures say { StringsSay }
{}

/// A text that is made units, as a name is asked for by, is read as the same characters again.
pub fn units_read_back()
    ensures { UnitsReadBack }
{}
