//! Laws of legal histories.

ghost use Rattle.form_play.specs.Beginnings.{BeginningsAreLegal};
ghost use Rattle.form_play.specs.EndsLast.{NothingFollowsAnEnd};
ghost use Rattle.form_play.specs.MoreRounds.{MoreRounds};
ghost use Rattle.form_play.specs.Objects.{ObjectsStay, ObjectsNeverMove};
ghost use Rattle.form_play.specs.Objects.{ObjectsAreApart, CoveredObjectsAreNotNamed};
ghost use Rattle.form_play.specs.Worked.{MainReturns, NothingElse, NothingAfterExit, NoSecondBegin};
ghost use Rattle.form_play.specs.Worked.{ThreadsHaveTheirIds};

/// A history stays legal where each loop may make more rounds.
pub fn histories_stay_legal()
    ensures { MoreRounds }
{}

/// Each beginning of a legal history is legal.
pub fn beginnings_are_legal()
    ensures { BeginningsAreLegal }
{}

/// A thread makes nothing after it ended itself or the program.
pub fn nothing_follows_an_end()
    ensures { NothingFollowsAnEnd }
{}

/// In a history no object moves, changes its size or comes back from being freed or covered.
pub fn objects_stay()
    ensures objects { ObjectsStay }
    ensures addresses { ObjectsNeverMove }
{}

/// No thread sees two objects at one address: at no time do two in use share a byte, and what is
/// covered is named no more.
pub fn no_two_objects_are_seen_at_one_address()
    ensures apart { ObjectsAreApart }
    ensures covered { CoveredObjectsAreNotNamed }
{}

/// A worked example: the histories of a program that returns 3.
pub fn a_program_returns_once()
    ensures main_returns { MainReturns }
    ensures nothing_else { NothingElse }
    ensures nothing_after_exit { NothingAfterExit }
    ensures no_second_begin { NoSecondBegin }
{}

/// A thread is begun with the id of its slot and of the slot's generation.
pub fn threads_have_their_ids()
    ensures { ThreadsHaveTheirIds }
{}
