//! Laws of the play, and worked plays.

ghost use Rattle.tree_play.specs.MoreRounds.{MoreRounds};
ghost use Rattle.tree_play.specs.MoreAnswers.{MoreAnswers};
ghost use Rattle.tree_play.specs.EndsLast.{NothingFollowsAnEnd};
ghost use Rattle.tree_play.specs.Gapless.{ProgramsAreGapless};
ghost use Rattle.tree_play.specs.Histories.{HistoriesStayLegal, BeginningsAreLegal};
ghost use Rattle.tree_play.specs.Worked.Integers.{IntRead, IntStore, RefusedRead};
ghost use Rattle.tree_play.specs.Worked.Integers.{NoCellIsNoReason, IntSwap, IntFetch, IntCombine};
ghost use Rattle.tree_play.specs.Worked.Integers.{AtomicDivision, IntExchange, IntExchangeFails};
ghost use Rattle.tree_play.specs.Worked.Integers.{BoolExchangeFails, OperatorsCompute};
ghost use Rattle.tree_play.specs.Worked.Integers.{OperatorsWrap, OperatorsTrap};
ghost use Rattle.tree_play.specs.Worked.Integers.{NegativeIsExchanged, NegativeIsFound};
ghost use Rattle.tree_play.specs.Worked.Changes.{ResultIsConverted, TypeIsTheOperators};
ghost use Rattle.tree_play.specs.Worked.Changes.{AtomicResultIsConverted, NothingIsStored};
ghost use Rattle.tree_play.specs.Worked.Changes.{PointersAreChanged, LocalPointersAreChanged};
ghost use Rattle.tree_play.specs.Worked.Pointers.{PointerRead, PairRead, PointerStore, PairStore};
ghost use Rattle.tree_play.specs.Worked.Pointers.{PairSwap, PlainSwap, NoCellTraps, TornRead};
ghost use Rattle.tree_play.specs.Worked.PairExchanges.{ExchangeIsMade, ExchangeIsTriedAgain};
ghost use Rattle.tree_play.specs.Worked.PairExchanges.{ExchangeFails, ExchangeWantsACell};
ghost use Rattle.tree_play.specs.Worked.PairExchanges.{ExchangeTellsHalvesApart};
ghost use Rattle.tree_play.specs.Worked.Addresses.{PointersMove, AddressesComeRound};
ghost use Rattle.tree_play.specs.Worked.Addresses.{FunctionsHaveAddresses, IntegersNameNothing};
ghost use Rattle.tree_play.specs.Worked.Addresses.{PointersHaveDistances, PointersAreCompared};
ghost use Rattle.tree_play.specs.Worked.Addresses.{PointersBecomeIntegers};
ghost use Rattle.tree_play.specs.Worked.Intrinsics.{LockIsTaken, LockIsCheckedAgain, LockIsCut};
ghost use Rattle.tree_play.specs.Worked.Intrinsics.{LockIsRefused, ObjectIsMade, ObjectIsFreed};
ghost use Rattle.tree_play.specs.Worked.Intrinsics.{SizeIsTold, ByteIsPutOut, ByteIsTakenIn};
ghost use Rattle.tree_play.specs.Worked.Intrinsics.{ThreadIsStarted, ThreadIsJoined};
ghost use Rattle.tree_play.specs.Worked.Intrinsics.{ThreadHasAnId, ProgramEnds};
ghost use Rattle.tree_play.specs.Worked.Order.{LvalueComesFirst, OldValueIsReadLate};
ghost use Rattle.tree_play.specs.Worked.Order.{LocalIsReadLate, StepGivesTheOldValue};
ghost use Rattle.tree_play.specs.Worked.Order.{LeftComesFirst, PointerIsLookedAtLast, LogicStops};
ghost use Rattle.tree_play.specs.Worked.Order.{OrderIsEvaluatedFirst};
ghost use Rattle.tree_play.specs.Worked.Order.{OneIsChosen, CommaGivesTheRight};
ghost use Rattle.tree_play.specs.Worked.Statements.{HomeIsMade, ParameterIsMoved};
ghost use Rattle.tree_play.specs.Worked.Statements.{LocalsAreZeroAgain, HomesStay, LoopGoesRound};
ghost use Rattle.tree_play.specs.Worked.Statements.{ContinueMakesTheStep, ReturnLeavesTheLoop};
ghost use Rattle.tree_play.specs.Worked.Statements.{LoopIsCut, SwitchPassesOver, SwitchContinues};
ghost use Rattle.tree_play.specs.Worked.Statements.{PointerIsMoved, HomesHaveAnOrder};
ghost use Rattle.tree_play.specs.Worked.Statements.{NextLeavesTheLoop, BreakStaysInTheLoop};
ghost use Rattle.tree_play.specs.Worked.Statements.{ReturnLeavesTheSwitch};
ghost use Rattle.tree_play.specs.Worked.Copies.{WordsAreCopied, BytesAreCopied, NumbersAreCopied};
ghost use Rattle.tree_play.specs.Worked.Printing.{PrintIsLocked, PrintIsRefused};
ghost use Rattle.tree_play.specs.Worked.Programs.{MainExits, ThreadEnds, ArgumentsArePassed};
ghost use Rattle.tree_play.specs.Worked.Programs.{PointersAreCalled, HomeOutlivesItsCall};
ghost use Rattle.tree_play.specs.Worked.Programs.{PointersTakeArguments, MovedPointerCalls};
ghost use Rattle.tree_play.specs.Worked.Programs.{CalledMainReturns};
ghost use Rattle.tree_play.specs.Worked.Lines.{DivisionHasItsLine, LibraryHasTheUsersLine};
ghost use Rattle.tree_play.specs.Worked.Lines.{LibraryCallsFurther, FirstFunctionHasItsLine};
ghost use Rattle.tree_play.specs.Worked.Lines.{DepthHasTheUsersLine, LinkHasTheChainsLine};
ghost use Rattle.tree_play.specs.Worked.Lines.{HeaderHasTheUsersLine, HeaderCallsTheUser};
ghost use Rattle.tree_play.specs.Worked.Lines.{PrintingCallHasTheUsersLine};
ghost use Rattle.tree_play.specs.Worked.Depth.{DepthIsReached, DepthIsPassed};
ghost use Rattle.tree_play.specs.Worked.Histories.{TornPairIsLegal};
ghost use Rattle.tree_play.specs.Worked.Legality.{ExitIsTheReturn, RoundsAreBounded};
ghost use Rattle.tree_play.specs.Worked.Legality.{OthersGoOn, SlotsAreUsedAgain};
ghost use Rattle.tree_play.specs.Worked.Legality.{FreedMayBeShown, OthersReadAnObject};

/// With a greater bound on rounds a thread that was cut goes on, and any other does the same.
pub fn more_rounds_only_add()
    ensures { MoreRounds }
{}

/// With more answers a thread does all that it did, or goes on where it waited.
pub fn more_answers_only_add()
    ensures { MoreAnswers }
{}

/// A thread makes nothing after it ended itself or the program.
pub fn nothing_follows_an_end()
    ensures { NothingFollowsAnEnd }
{}

/// A history stays legal where each loop may make more rounds.
pub fn histories_stay_legal()
    ensures { HistoriesStayLegal }
{}

/// Each beginning of a legal history is legal.
pub fn beginnings_are_legal()
    ensures { BeginningsAreLegal }
{}

/// A thread of a program waits for want of an answer, and for nothing else.
pub fn programs_are_gapless()
    ensures { ProgramsAreGapless }
{}

/// Operators on integers make no event, and trap where they have no result.
pub fn operators_make_no_event()
    ensures compute { OperatorsCompute }
    ensures wrap { OperatorsWrap }
    ensures trap { OperatorsTrap }
{}

/// Integers are read and stored by a check and one event.
pub fn integers_are_checked_and_then_accessed()
    ensures read { IntRead }
    ensures store { IntStore }
    ensures refused { RefusedRead }
    ensures no_cell { NoCellIsNoReason }
{}

/// An atomic operation on an integer is one event after its check.
pub fn atomic_integers_make_one_event()
    ensures swap { IntSwap }
    ensures fetch { IntFetch }
    ensures combine { IntCombine }
    ensures division { AtomicDivision }
    ensures exchange { IntExchange }
    ensures fails { IntExchangeFails }
    ensures negative { NegativeIsExchanged }
    ensures negative_found { NegativeIsFound }
    ensures bytes { BoolExchangeFails }
{}

/// What is there is read, changed in the operator's type, converted and stored; a pointer keeps its
/// capability.
pub fn assignments_change_what_is_there()
    ensures convert { ResultIsConverted }
    ensures operator { TypeIsTheOperators }
    ensures atomic { AtomicResultIsConverted }
    ensures trap { NothingIsStored }
    ensures pointers { PointersAreChanged }
    ensures locals { LocalPointersAreChanged }
{}

/// Pointers are read and stored by their two halves, or as a pair.
pub fn pointers_have_two_halves()
    ensures read { PointerRead }
    ensures pair { PairRead }
    ensures store { PointerStore }
    ensures atomic_store { PairStore }
    ensures swap { PairSwap }
    ensures plain_swap { PlainSwap }
    ensures no_cell { NoCellTraps }
    ensures torn { TornRead }
{}

/// A compare and exchange of a pointer goes by addresses, and is tried again where another pointer
/// came in between.
pub fn pointers_are_exchanged_by_address()
    ensures made { ExchangeIsMade }
    ensures again { ExchangeIsTriedAgain }
    ensures halves { ExchangeTellsHalvesApart }
    ensures fails { ExchangeFails }
    ensures no_cell { ExchangeWantsACell }
{}

/// A pointer that moves keeps its capability, and one that is looked at is named.
pub fn addresses_move_and_are_looked_at()
    ensures move_on { PointersMove }
    ensures come_round { AddressesComeRound }
    ensures functions { FunctionsHaveAddresses }
    ensures integers { IntegersNameNothing }
    ensures distances { PointersHaveDistances }
    ensures comparisons { PointersAreCompared }
    ensures conversions { PointersBecomeIntegers }
{}

/// Each intrinsic makes its event, and gives what it is answered.
pub fn intrinsics_make_their_events()
    ensures lock { LockIsTaken }
    ensures lock_again { LockIsCheckedAgain }
    ensures lock_cut { LockIsCut }
    ensures lock_refused { LockIsRefused }
    ensures new { ObjectIsMade }
    ensures free { ObjectIsFreed }
    ensures size { SizeIsTold }
    ensures out { ByteIsPutOut }
    ensures input { ByteIsTakenIn }
    ensures spawn { ThreadIsStarted }
    ensures join { ThreadIsJoined }
    ensures id { ThreadHasAnId }
    ensures ends { ProgramEnds }
{}

/// Operands are evaluated from left to right, and the old value of an assignment is read last.
pub fn evaluation_has_an_order()
    ensures lvalue { LvalueComesFirst }
    ensures old_value { OldValueIsReadLate }
    ensures local { LocalIsReadLate }
    ensures step { StepGivesTheOldValue }
    ensures left { LeftComesFirst }
    ensures pointer { PointerIsLookedAtLast }
    ensures order { OrderIsEvaluatedFirst }
    ensures logic { LogicStops }
    ensures choice { OneIsChosen }
    ensures comma { CommaGivesTheRight }
{}

/// Blocks make homes, loops go round, and switches pass over declarations.
pub fn statements_have_flows()
    ensures home { HomeIsMade }
    ensures parameter { ParameterIsMoved }
    ensures pointer { PointerIsMoved }
    ensures homes { HomesHaveAnOrder }
    ensures zero { LocalsAreZeroAgain }
    ensures homes_stay { HomesStay }
    ensures round { LoopGoesRound }
    ensures step { ContinueMakesTheStep }
    ensures next { NextLeavesTheLoop }
    ensures leaves { ReturnLeavesTheLoop }
    ensures cut { LoopIsCut }
    ensures passes { SwitchPassesOver }
    ensures continues { SwitchContinues }
    ensures breaks { BreakStaysInTheLoop }
    ensures switch { ReturnLeavesTheSwitch }
{}

/// Structures are copied unit by unit.
pub fn structures_are_copied()
    ensures words { WordsAreCopied }
    ensures bytes { BytesAreCopied }
    ensures numbers { NumbersAreCopied }
{}

/// `printf` holds the lock of the output while it puts out its pieces.
pub fn printf_locks_the_output()
    ensures locked { PrintIsLocked }
    ensures refused { PrintIsRefused }
{}

/// `main` ends the program, another first function its thread.
pub fn threads_end_by_their_return()
    ensures main { MainExits }
    ensures thread { ThreadEnds }
    ensures call { CalledMainReturns }
{}

/// Functions are called by number and through pointers, and homes outlive their calls.
pub fn functions_are_called()
    ensures arguments { ArgumentsArePassed }
    ensures pointers { PointersAreCalled }
    ensures pointer_arguments { PointersTakeArguments }
    ensures moved { MovedPointerCalls }
    ensures home { HomeOutlivesItsCall }
{}

/// A trap has the line of the innermost text of the user's.
pub fn traps_have_lines()
    ensures division { DivisionHasItsLine }
    ensures link { LinkHasTheChainsLine }
    ensures header { HeaderHasTheUsersLine }
    ensures printing { PrintingCallHasTheUsersLine }
    ensures library { LibraryHasTheUsersLine }
    ensures further { LibraryCallsFurther }
    ensures user { HeaderCallsTheUser }
    ensures first { FirstFunctionHasItsLine }
    ensures depth { DepthHasTheUsersLine }
{}

/// A thread has 1,024 activations at once, and the call of one more traps.
pub fn calls_have_a_depth()
    ensures reached { DepthIsReached }
    ensures passed { DepthIsPassed }
{}

/// A worked example: a history in which two threads store a pointer, and what is read back is torn.
pub fn a_torn_pair_is_legal()
    ensures { TornPairIsLegal }
{}

/// Worked examples: histories of short programs that are legal, and others that are not.
pub fn histories_are_told_apart()
    ensures exit { ExitIsTheReturn }
    ensures rounds { RoundsAreBounded }
    ensures others { OthersGoOn }
    ensures objects { OthersReadAnObject }
    ensures slots { SlotsAreUsedAgain }
    ensures freed { FreedMayBeShown }
{}
