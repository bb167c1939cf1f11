//! Laws of what fits. Each is the contract of a function that does nothing.

ghost use Rattle.program_fits.specs.Laws.{CallsHaveTheirArguments, HomesAreNotSet, BreakNeedsALoop};

/// A call of a program's function has an operand for each of its parameters.
pub fn calls_have_their_arguments()
    ensures { CallsHaveTheirArguments }
{}

/// A local that has a home is never set: it is changed in memory.
pub fn homes_are_not_set()
    ensures { HomesAreNotSet }
{}

/// No function's body is a `break`: it stands in a loop or a switch.
pub fn break_needs_a_loop()
    ensures { BreakNeedsALoop }
{}
