//! Two lookups that agree on the records that a record's lists refer to make of it the same items, parts and listing
//! (docs/RULES.md, 24.5). So a table of these records alone lists as all of the $MFT would.
#![tactic(auto)]

ghost use Rattle.agreement.specs.Laws.{CallsAgree, FirstsAgree, PartsAgree, ListingsAgree, TablesList};

/// The walk from fresh on: its calls with their states and reads, the first item of each type, the record and the parts
/// of each item, and the listing.
pub fn lookups_that_agree_give_the_same()
    ensures calls { CallsAgree }
    ensures firsts { FirstsAgree }
    ensures parts { PartsAgree }
    ensures listings { ListingsAgree }
{}

/// The listing of a table is that of its base record by every lookup that agrees with the table's; so is the listing of
/// a record that is named (RULES 24.6).
pub fn tables_list_as_what_they_are_of()
    ensures { TablesList }
{}
