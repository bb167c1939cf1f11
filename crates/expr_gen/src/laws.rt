//! The laws: code plays what it is the code of. And worked code.

ghost use Rattle.expr_gen.specs.Correct.{OperationsPlay, ExpressionsPlay};
ghost use Rattle.expr_gen.specs.Worked.{DifferenceIsCode, MinusIsCode, ComparisonIsCode};
ghost use Rattle.expr_gen.specs.Worked.{ConversionIsCode, RetreatIsCode, DistanceIsCode};
ghost use Rattle.expr_gen.specs.Worked.{ElementIsCode, StepIsCode, StoreIsCode, UpdateIsCode};
ghost use Rattle.expr_gen.specs.Worked.{CopyIsCode, ExchangeIsCode, PairExchangeIsCode};
ghost use Rattle.expr_gen.specs.Worked.{AndIsCode, OrIsCode, ChoiceIsCode, PrintIsCode};

/// The code of every operation plays it, from operands in their registers.
pub fn operations_play()
    ensures { OperationsPlay }
{}

/// The code of every expression plays it: its operands from left to right, and then its operation.
pub fn expressions_play()
    ensures { ExpressionsPlay }
{}

/// Worked code of operators and pointers.
pub fn operators_have_code()
    ensures difference { DifferenceIsCode }
    ensures minus { MinusIsCode }
    ensures comparison { ComparisonIsCode }
    ensures conversion { ConversionIsCode }
    ensures retreat { RetreatIsCode }
    ensures distance { DistanceIsCode }
    ensures element { ElementIsCode }
{}

/// Worked code of assignments and atomic exchanges.
pub fn assignments_have_code()
    ensures step { StepIsCode }
    ensures store { StoreIsCode }
    ensures update { UpdateIsCode }
    ensures copy { CopyIsCode }
    ensures exchange { ExchangeIsCode }
    ensures pair { PairExchangeIsCode }
{}

/// Worked code of choices, and of `printf`.
pub fn choices_have_code()
    ensures and { AndIsCode }
    ensures or { OrIsCode }
    ensures choice { ChoiceIsCode }
    ensures print { PrintIsCode }
{}
