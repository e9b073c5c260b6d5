//! A theorem on reports, the contract of a function that does nothing.
ghost use Rattle.report.specs.Laws.{FrontsTell};

/// An input of which as many bytes were read as `table::reach` asks for has the rows of the whole input.
pub fn fronts_tell_the_rows()
    ensures { FrontsTell }
{}
