//! Laws of the list: the statements are in `specs/Law.antt`.

ghost use Rattle.c_terminals.specs.Law.{TextsDiffer, NumbersAreOfTexts, NumbersAreOfEarlierTokens};

/// The texts of the keywords are different, and so are those of the punctuators.
#[tactic(auto, using(crate::proofs::LawProofs::texts_differ))]
pub fn texts_differ()
    ensures { TextsDiffer }
{}

/// Two words have the same number exactly where they have the same text.
#[tactic(auto, using(crate::proofs::LawProofs::numbers_are_of_texts))]
pub fn numbers_are_of_texts()
    ensures { NumbersAreOfTexts }
{}

/// The number of a word is at most that of its token.
#[tactic(auto, using(crate::proofs::LawProofs::numbers_are_of_earlier_tokens))]
pub fn numbers_are_of_earlier_tokens()
    ensures { NumbersAreOfEarlierTokens }
{}
