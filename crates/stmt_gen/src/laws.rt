//! The laws: code plays what it is the code of, and is as long as its size says. And worked code, and what plays nothing.

ghost use Rattle.stmt_gen.specs.Correct.{StatementsPlay, ProgramsPlay, CodeHasItsSize};
ghost use Rattle.stmt_gen.specs.Worked.{BlockIsCode, IfIsCode, WhileIsCode, ForIsCode};
ghost use Rattle.stmt_gen.specs.Worked.{SwitchIsCode, ReturnIsCode, FunctionIsCode};
ghost use Rattle.stmt_gen.specs.Worked.{EndlessCodePlaysNothing, OneJumpMoreIsNoPlay};

/// The code of every statement plays it, by its flow to its end, to an exit or to a return.
pub fn statements_play()
    ensures { StatementsPlay }
{}

/// The code of a program plays it, in both directions.
pub fn programs_play()
    ensures { ProgramsPlay }
{}

/// The code of a statement is as long as its size says, wherever it stands.
pub fn code_has_its_size()
    ensures { CodeHasItsSize }
{}

/// Worked code of blocks, choices, loops and switches.
pub fn worked_code_of_statements()
    ensures block { BlockIsCode }
    ensures choice { IfIsCode }
    ensures while_loop { WhileIsCode }
    ensures for_loop { ForIsCode }
    ensures switch { SwitchIsCode }
{}

/// Worked code of returns and of a function.
pub fn worked_code_of_functions()
    ensures returned { ReturnIsCode }
    ensures function { FunctionIsCode }
{}

/// Code that idles plays nothing, be it for ever or for one backward jump.
pub fn idling_code_plays_nothing()
    ensures endless { EndlessCodePlaysNothing }
    ensures once { OneJumpMoreIsNoPlay }
{}
