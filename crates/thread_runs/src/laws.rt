//! A thread's run is the play of its code.

ghost use Rattle.thread_runs.specs.AsPlayed.{RunsAreAsPlayed, PlaysAreRun, RunsBeginAsPlayed};

use whole_thread::laws;

/// A thread that begins and is given answers makes the events that its code's play makes of them, and
/// ends as the play ends.
pub fn threads_run_as_their_code_plays()
    ensures runs { RunsAreAsPlayed }
    ensures plays { PlaysAreRun }
    ensures begins { RunsBeginAsPlayed }
{
    laws::threads_follow_their_play();
    laws::rounds_go_on_behind_their_check();
    laws::threads_stay_as_they_begin();
}
