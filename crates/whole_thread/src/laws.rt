//! Worked plays of code: each instruction at least once.

ghost use Rattle.whole_thread.specs.Worked.Registers.{RegistersAreSet, PollsAreSilent};
ghost use Rattle.whole_thread.specs.Worked.Registers.{IntegersAreComputed, ArithmeticTraps};
ghost use Rattle.whole_thread.specs.Worked.Registers.{PointersMove, PointersAreLookedAt};
ghost use Rattle.whole_thread.specs.Worked.Registers.{JumpsAreCounted, JumpsOnZero};
ghost use Rattle.whole_thread.specs.Worked.Integers.{IntegerIsLoaded, IntegerIsStored};
ghost use Rattle.whole_thread.specs.Worked.Integers.{IntegerIsUpdated, IntegerIsExchanged};
ghost use Rattle.whole_thread.specs.Worked.Pointers.{PointerIsLoaded, PointerIsStored, PairIsStored};
ghost use Rattle.whole_thread.specs.Worked.Pointers.{PairIsSwapped, NoCellTraps};
ghost use Rattle.whole_thread.specs.Worked.Rounds.{LockIsTaken, LockIsCheckedAgain, LockIsRefused};
ghost use Rattle.whole_thread.specs.Worked.Rounds.{ExchangeIsMade, ExchangeFails};
ghost use Rattle.whole_thread.specs.Worked.Rounds.{ExchangeIsTriedAgain};
ghost use Rattle.whole_thread.specs.Worked.Intrinsics.{HomeIsMade, ObjectIsMade, ObjectIsFreed};
ghost use Rattle.whole_thread.specs.Worked.Intrinsics.{SizeIsTold, ByteIsPutOut, ByteIsTakenIn};
ghost use Rattle.whole_thread.specs.Worked.Intrinsics.{ThreadIsStarted, ThreadIsJoined, ProgramEnds};
ghost use Rattle.whole_thread.specs.Worked.Calls.{MainExits, ThreadEnds, CodeIsCut};
ghost use Rattle.whole_thread.specs.Worked.Calls.{ArgumentsArePassed, PointersAreCalled};
ghost use Rattle.whole_thread.specs.Worked.Calls.{DepthIsReached, DepthIsPassed};
ghost use Rattle.whole_thread.specs.Worked.Calls.{TrapsHaveLines, FirstFunctionHasItsLine};
ghost use Rattle.whole_thread.specs.Worked.Walks.{LoadWalks, StoreWalks, LockWalks, ExchangeWalks};
ghost use Rattle.whole_thread.specs.Worked.Walks.{NamesWalk, RefusalWalks, CallsWalk, PollWalks};
ghost use Rattle.whole_thread.specs.Worked.Walks.{StaticWalks};
ghost use Rattle.whole_thread.specs.Worked.Walks.{LibraryRefusalWalks, LibraryStepWalks};
ghost use Rattle.whole_thread.specs.PlaysOn.{ThreadsFollow, StopsOutside, BeginFollows, ThreadsStay};
ghost use Rattle.whole_thread.specs.PlaysOn.{LockRoundFollows, ExchangeRoundFollows};
ghost use Rattle.whole_thread.specs.PlaysOn.{CodeGoesOnHere, RoundsStay, StandsWithin};

/// Registers are set without an event, and a poll makes none.
pub fn registers_are_set()
    ensures values { RegistersAreSet }
    ensures poll { PollsAreSilent }
{}

/// Integers are computed in a type, and arithmetic without a result traps.
pub fn integers_are_computed()
    ensures values { IntegersAreComputed }
    ensures traps { ArithmeticTraps }
{}

/// A pointer that moves keeps its capability, and one that is looked at is named.
pub fn pointers_move_and_are_looked_at()
    ensures move_on { PointersMove }
    ensures looks { PointersAreLookedAt }
{}

/// Jumps that don't lead forward are counted.
pub fn jumps_lead_to_their_target()
    ensures counted { JumpsAreCounted }
    ensures on_zero { JumpsOnZero }
{}

/// Integers in memory are checked, and then read, stored or updated by one event.
pub fn integers_are_checked_and_then_accessed()
    ensures load { IntegerIsLoaded }
    ensures store { IntegerIsStored }
    ensures update { IntegerIsUpdated }
    ensures exchange { IntegerIsExchanged }
{}

/// Pointers in memory are read and stored by their two halves, or as a pair.
pub fn pointers_have_two_halves()
    ensures load { PointerIsLoaded }
    ensures store { PointerIsStored }
    ensures pair { PairIsStored }
    ensures swap { PairIsSwapped }
    ensures no_cell { NoCellTraps }
{}

/// A lock that isn't taken, and an exchange that is lost, are tried again where they stand.
pub fn rounds_stand_where_they_are()
    ensures lock { LockIsTaken }
    ensures lock_again { LockIsCheckedAgain }
    ensures lock_refused { LockIsRefused }
    ensures exchange { ExchangeIsMade }
    ensures fails { ExchangeFails }
    ensures again { ExchangeIsTriedAgain }
{}

/// The instructions of single events.
pub fn intrinsics_make_their_events()
    ensures home { HomeIsMade }
    ensures new { ObjectIsMade }
    ensures free { ObjectIsFreed }
    ensures size { SizeIsTold }
    ensures out { ByteIsPutOut }
    ensures input { ByteIsTakenIn }
    ensures spawn { ThreadIsStarted }
    ensures join { ThreadIsJoined }
    ensures ends { ProgramEnds }
{}

/// `main` ends the program, another first function its thread.
pub fn threads_end_by_their_return()
    ensures main { MainExits }
    ensures thread { ThreadEnds }
    ensures cut { CodeIsCut }
{}

/// Functions are called by number and through pointers, to a depth of 1,024 activations.
pub fn functions_are_called()
    ensures arguments { ArgumentsArePassed }
    ensures pointers { PointersAreCalled }
    ensures reached { DepthIsReached }
    ensures passed { DepthIsPassed }
{}

/// A trap has the line of the innermost text of the user's.
pub fn traps_have_lines()
    ensures lines { TrapsHaveLines }
    ensures first { FirstFunctionHasItsLine }
{}

/// A thread as data wants an instruction's events one after another.
pub fn threads_walk_from_event_to_event()
    ensures load { LoadWalks }
    ensures store { StoreWalks }
    ensures lock { LockWalks }
    ensures exchange { ExchangeWalks }
    ensures names { NamesWalk }
    ensures refusal { RefusalWalks }
    ensures calls { CallsWalk }
    ensures poll { PollWalks }
    ensures statics { StaticWalks }
    ensures library_refusal { LibraryRefusalWalks }
    ensures library_step { LibraryStepWalks }
{}

/// A thread follows the play of its code, by what it wants: an event, a step, a poll or nothing.
pub fn threads_follow_their_play()
    ensures follow { ThreadsFollow }
    ensures outside { StopsOutside }
    ensures within { StandsWithin }
{}

/// A further round of a lock, or of an exchange of a pointer, goes on as behind its check.
pub fn rounds_go_on_behind_their_check()
    ensures lock { LockRoundFollows }
    ensures exchange { ExchangeRoundFollows }
    ensures here { CodeGoesOnHere }
{}

/// A thread begins with its id, as `main` or not, before its function, and stays so.
pub fn threads_stay_as_they_begin()
    ensures begin { BeginFollows }
    ensures stay { ThreadsStay }
    ensures rounds { RoundsStay }
{}
