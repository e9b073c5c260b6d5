//! What holds of the definitions, each law the contract of a function that does nothing.
ghost use Rattle.fields.specs.Told.{number_of, told, told_step, told_report};
ghost use Rattle.fields.specs.Laws.{NumbersSplit, NumbersFit, NumbersReadBack, NumbersWriteBack, Settles};

/// What numbers of every width share (RULES 1).
pub fn numbers_over_the_width()
    ensures split { NumbersSplit }
    ensures fit { NumbersFit }
    ensures read_back { NumbersReadBack }
    ensures write_back { NumbersWriteBack }
{}

/// A number tells its cause (RULES 19).
pub fn refusals_settle()
    ensures { Settles number_of }
{}

/// A call whose contract states its answer has one result at most, whatever it gives (RULES 2, 17).
pub fn answers_settle<T>()
    ensures gives { Settles (told {A = T}) }
    ensures steps { Settles (told_step {A = T}) }
    ensures counts { Settles (told_report {A = T}) }
{}
