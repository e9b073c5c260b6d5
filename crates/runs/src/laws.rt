//! What holds of cluster runs whatever the bytes, each law the contract of a function that does nothing.
ghost use Rattle.runs.specs.Laws.{StepsSettle, CallsGiveTheRuns, CallsCanBeMade, RunsEnd, RunsAreFew, EndsStay};
ghost use Rattle.runs.specs.Laws.{RefusalsStay, DistancesLeadBack, StartsLieSoFar, ReadAsWritten, LeastSizesFit};
ghost use Rattle.runs.specs.Laws.{WhatIsReadIsSpelled};
ghost use Rattle.runs.specs.Cases.{BothSides};

/// The contract of the run step leaves no choice (RULES 2); of its answer alone `fields` has the law.
pub fn steps_settle()
    ensures { StepsSettle }
{}

/// Calls of the step one behind another give the runs that are left, and end; a run takes two bytes at least, and the
/// end and a refusal take none (RULES 21).
pub fn calls_give_the_runs()
    ensures calls { CallsGiveTheRuns }
    ensures made { CallsCanBeMade }
    ensures end { RunsEnd }
    ensures few { RunsAreFew }
    ensures end_stays { EndsStay }
    ensures refusal_stays { RefusalsStay }
{}

/// A signed distance of any width leads to the start that it was made for, and each number to the start whose distance
/// it is (RULES 21.3).
pub fn distances_over_the_width()
    ensures back { DistancesLeadBack }
    ensures so { StartsLieSoFar }
{}

/// Runs and holes are read as they were written, in whatever sizes they fit; the least sizes fit; and what is read is
/// written so (RULES 21).
pub fn runs_are_read_as_written()
    ensures back { ReadAsWritten }
    ensures least { LeastSizesFit }
    ensures so { WhatIsReadIsSpelled }
{}

/// The cases on both sides of each line (RULES 20).
pub fn both_sides_of_each_line()
    ensures { BothSides }
{}
