//! The law behind `compile`, and what it refuses.

ghost use Rattle.code_gen.specs.Correct.{CodePlays};
ghost use Rattle.code_gen.specs.Worked.{EndlessCodePlaysNothing, OneJumpMoreIsNoPlay};

/// The code of every program plays it.
pub fn code_plays()
    ensures { CodePlays }
{}

/// Code that idles plays nothing, be it for ever or for one backward jump.
pub fn idling_code_plays_nothing()
    ensures endless { EndlessCodePlaysNothing }
    ensures once { OneJumpMoreIsNoPlay }
{}
