//! Laws of preprocessing: what it is, apart from how the definitions say it. The statements are in
//! `specs/Law.antt`.

ghost use Rattle.c_preproc.specs.Law.{BlocksEndWithLines, DefinitionsReplace, ExpansionsStay, GroupsOfOneStay, GroupsOfZeroAreCutOut, LinesAreOfTheFile, LinesNeverFall, NamesAreReplaced, UntouchedTokensStay};

/// A name is replaced by its macro's tokens, each of them replaced where that macro is not there any
/// more. Any other token stays.
#[tactic(auto, using(crate::proofs::Depth::names_are_replaced))]
pub fn names_are_replaced()
    ensures { NamesAreReplaced }
{}

/// Tokens that no directive and no macro touches expand to themselves.
#[tactic(auto, using(crate::proofs::Untouched::untouched_tokens_stay))]
pub fn untouched_tokens_stay()
    ensures { UntouchedTokensStay }
{}

/// What tokens expand to expands to itself, but for the name of the one macro that is there at the
/// beginning: no `#` is left in it.
#[tactic(auto, using(crate::proofs::Settled::expansions_stay))]
pub fn expansions_stay()
    ensures { ExpansionsStay }
{}

/// What stands between `#if 0` and its `#endif` may be cut out with them, wherever it stands.
#[tactic(auto, using(crate::proofs::CutGroups::groups_of_zero_are_cut_out))]
pub fn groups_of_zero_are_cut_out()
    ensures { GroupsOfZeroAreCutOut }
{}

/// What stands between `#if 1` and its `#endif` may stand there without them.
#[tactic(auto, using(crate::proofs::CutGroups::groups_of_one_stay))]
pub fn groups_of_one_stay()
    ensures { GroupsOfOneStay }
{}

/// Where the lines of tokens never fall, those of their expansion never do.
#[tactic(auto, using(crate::proofs::Lines::lines_never_fall))]
pub fn lines_never_fall()
    ensures { LinesNeverFall }
{}

/// Each line of an expansion is that of a token which was there.
#[tactic(auto, using(crate::proofs::Lines::lines_are_of_the_file))]
pub fn lines_are_of_the_file()
    ensures { LinesAreOfTheFile }
{}

/// Where no other macro and no directive follows a definition, each token of its name is replaced by its
/// tokens.
#[tactic(auto, using(crate::proofs::Defining::definitions_replace))]
pub fn definitions_replace()
    ensures { DefinitionsReplace }
{}

/// Where a list goes on with a new line, its blocks are those of both parts: so what is said of blocks
/// holds of lines.
#[tactic(auto, using(crate::proofs::Blocks::blocks_end_with_lines))]
pub fn blocks_end_with_lines()
    ensures { BlocksEndWithLines }
{}
