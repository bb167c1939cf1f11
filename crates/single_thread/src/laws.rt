//! What holds of every run of one thread.

ghost use Rattle.single_thread.specs.Runs.{RunsAreLegal, RunsAreLegalByTurns, RunsGoOn};
ghost use Rattle.single_thread.specs.Runs.{RunsEnd, RunsAreUnfinished};

/// A run of code that plays a program is a legal history of the program.
pub fn runs_are_legal()
    ensures by_jumps { RunsAreLegal }
    ensures by_turns { RunsAreLegalByTurns }
{}

/// More instructions only add to a run's history.
pub fn runs_go_on()
    ensures { RunsGoOn }
{}

/// Once the program has ended, more instructions add nothing.
pub fn runs_end()
    ensures { RunsEnd }
{}

/// A run that hasn't ended the program was cut after its instructions, and waits for nothing.
pub fn runs_are_unfinished()
    ensures { RunsAreUnfinished }
{}
