//! What holds of the definitions, each law the contract of a function that does nothing.
ghost use Rattle.fields.specs.Laws.{Settles};
ghost use Rattle.command.specs.Status.{code_of};
ghost use Rattle.command.specs.Laws.{NamesPrint, NamesSettle, StringsSay, NumbersFind, FoundHaveTheNumber};
ghost use Rattle.command.specs.Laws.{FrontsTell, FrontsExplain};

/// An exit status tells how it went.
pub fn statuses_settle()
    ensures { Settles code_of }
{}

/// A shown name can't be taken for a line, nor for another name; and a string of JSON says the name that it is of.
pub fn names_settle()
    ensures print { NamesPrint }
    ensures settle { NamesSettle }
    ensures say { StringsSay }
{}

/// An input of which as many bytes were read as it is asked for tells what the whole input tells: of a record, the
/// first 4,097.
pub fn fronts_tell()
    ensures tell { FrontsTell }
    ensures explain { FrontsExplain }
{}

/// An explanation is the cause's that has the number.
pub fn explanations_settle()
    ensures found { NumbersFind }
    ensures number { FoundHaveTheNumber }
{}
