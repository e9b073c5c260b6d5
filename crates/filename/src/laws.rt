//! What holds of names whatever the bytes, each law the contract of a function that does nothing.
ghost use Rattle.filename.specs.Laws.{NamesLie, NamesReadBack, ItemsHaveNames, RefusalsEnd, Has, HasFirst};
ghost use Rattle.filename.specs.Laws.{NamesAgree, FoundAgree};
ghost use Rattle.filename.specs.Cases.{BothSides};

/// The cases on both sides of each line (RULES 26).
pub fn both_sides_of_each_line()
    ensures { BothSides }
{}

/// A name is twice as many bytes as its units, and stands in its value behind the first 66 bytes; and a value that is
/// made of a name has it, whatever stands behind (RULES 26.1, 26.2).
pub fn names_lie_inside()
    ensures lie { NamesLie }
    ensures read_back { NamesReadBack }
{}

/// An item has a name where it is of type 48 and its value is resident and has a long name; what a walk gives behind a
/// refusal has none (RULES 26.3).
pub fn items_have_names()
    ensures items { ItemsHaveNames }
    ensures refusals { RefusalsEnd }
{}

/// A file has a name where it is one of its names, and nowhere else; it is told not to have it only where its walk came
/// to its end. It has its first name (RULES 26.4).
pub fn names_are_found()
    ensures has { Has }
    ensures first { HasFirst }
{}

/// Names depend on the base record and on the records that its lists refer to alone (RULES 26.5).
pub fn names_are_those_of_the_references()
    ensures names { NamesAgree }
    ensures found { FoundAgree }
{}
