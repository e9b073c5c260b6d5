//! What holds of a file's calls whatever the bytes, each law the contract of a function that does nothing.
ghost use Rattle.fields.specs.Laws.{Settles};
ghost use Rattle.items.specs.Walked.{told_next};
ghost use Rattle.items.specs.Laws.{OpeningsSettle, SoughtSettle, CallsGiveItems, CallsGoOn, EndsStay};
ghost use Rattle.items.specs.Laws.{ItemsLower, CallsEnd, EntriesEnd, ItemsOfAttributes, KeysOutliveLists};
ghost use Rattle.items.specs.Laws.{ItemsCome, ItemsAreFoundAgain, KeysTell, TailsTellNothing};
ghost use Rattle.items.specs.Lines.{BothSides, Joined};

/// A call whose contract states its answer shows one result at most (RULES 2, 17); of other results `fields` and
/// `record` have the law.
pub fn results_settle()
    ensures files { OpeningsSettle }
    ensures searches { SoughtSettle }
    ensures walks { Settles told_next }
{}

/// The cases on both sides of each line (RULES 20).
pub fn both_sides_of_each_line()
    ensures bytes { BothSides }
    ensures streams { Joined }
{}

/// An entry continues the stream of the key that another left where it has the same type and the same name, and its own
/// lowest VCN is not 0; what stands in a key behind its name tells nothing (RULES 13.1, 14.9).
pub fn keys_tell_a_stream()
    ensures stream { KeysTell }
    ensures tails { TailsTellNothing }
{}

/// Calls of `next` one after another give the items of the walk (RULES 14).
pub fn calls_give_the_items()
    ensures { CallsGiveItems }
{}

/// The items of a file are those of its raw attributes, with each list replaced by what its entries give; the skip key
/// outlives the list (RULES 14).
pub fn items_are_those_of_the_attributes()
    ensures items { ItemsOfAttributes }
    ensures keys { KeysOutliveLists }
{}

/// An item comes by a raw attribute or by an entry, and a lookup of its record finds its attribute again (RULES 11,
/// 14).
pub fn items_are_found_again()
    ensures come { ItemsCome }
    ensures again { ItemsAreFoundAgain }
{}

/// What a call passed over stays passed over, also where it refused; and the end stays the end (RULES 13, 14).
pub fn calls_go_on()
    ensures further { CallsGoOn }
    ensures ended { EndsStay }
{}

/// A walk ends, and so do the entries of a list (RULES 9, 14).
pub fn walks_end()
    ensures lower { ItemsLower }
    ensures calls { CallsEnd }
    ensures entries { EntriesEnd }
{}
