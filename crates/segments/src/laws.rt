//! What holds of base records and of hazards whatever the bytes, each law the contract of a function that does nothing.
ghost use Rattle.segments.specs.Laws.{BaseReferencesAreEightBytes, BaseRecordsTell, EntriesArePlaced};
ghost use Rattle.segments.specs.Laws.{NoHazards, HazardsAgree};
ghost use Rattle.segments.specs.Cases.{BaseRecords, HazardsTold};

/// Flags, and each of the eight bytes, of a base record in use and of others; and hazards of each kind, what is just
/// none, and all of them in their order (RULES 25).
pub fn both_sides_of_each_line()
    ensures bases { BaseRecords }
    ensures hazards { HazardsTold }
{}

/// A base reference is the eight bytes at 32. A base record in use has the lowest bit of its flags, and eight zeros
/// there (RULES 25.1, 25.2).
pub fn base_records_tell()
    ensures eight { BaseReferencesAreEightBytes }
    ensures tell { BaseRecordsTell }
{}

/// The entries are those that the references are told by, and each stands at the place that a hazard names (RULES
/// 25.3).
pub fn entries_are_placed()
    ensures { EntriesArePlaced }
{}

/// A file has no hazards exactly where its base record is a base record in use, each entry refers to its record by 0 or
/// by the record's own sequence number, and each record referred to is in use and refers back to the base record, as
/// far as they can be looked up (RULES 25.3).
pub fn no_hazards_where_all_is_sound()
    ensures { NoHazards }
{}

/// Hazards depend on the base record and on the records that its lists refer to alone (RULES 24.5).
pub fn hazards_are_those_of_the_references()
    ensures { HazardsAgree }
{}
