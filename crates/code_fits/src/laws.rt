//! The laws: code is well formed, and is as long as its size says.

ghost use Rattle.code_fits.specs.Formed.{ExpressionsAreFormed, StatementsAreFormed};
ghost use Rattle.code_fits.specs.Formed.{ProgramsAreFormed, ExpressionsHaveTheirSize};

/// The code of every expression that fits is well formed, in a function that has its registers.
pub fn expressions_are_formed()
    ensures { ExpressionsAreFormed }
{}

/// The code of every statement that fits is well formed, in a function that has its registers.
pub fn statements_are_formed()
    ensures { StatementsAreFormed }
{}

/// The code of every program is well formed.
pub fn programs_are_formed()
    ensures { ProgramsAreFormed }
{}

/// The code of every expression is as long as its size says, by which jumps go.
pub fn expressions_have_their_size()
    ensures { ExpressionsHaveTheirSize }
{}
