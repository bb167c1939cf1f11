//! The law behind the calls of `CodeThread`.

ghost use Rattle.code_thread.specs.Follows.{ThreadFollows};

/// The calls go on in the play of the code.
pub fn calls_follow_the_play()
    ensures { ThreadFollows }
{}
