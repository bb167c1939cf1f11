//! Laws of tokens: where comments and quotes end and what is bad, apart from the machines that read them. The
//! statements are in `specs/Endings.antt`.

ghost use Rattle.c_lexer.specs.Endings.{CommentsEndAtStarSlash, OnlyTheseAreBad, QuotesCloseUnescaped, UnescapedQuotesClose};

/// A comment ends behind the first star and slash in it.
#[tactic(auto, using(crate::proofs::LawProofs::comments_end_at_star_slash))]
pub fn comments_end_at_star_slash()
    ensures { CommentsEndAtStarSlash }
{}

/// Only a byte that begins nothing is bad, and in a user's file a name of the library.
#[tactic(auto, using(crate::proofs::LawProofs::only_these_are_bad))]
pub fn only_these_are_bad()
    ensures { OnlyTheseAreBad }
{}

/// A text or a character constant closes at the first quote on its line that an even number of backslashes
/// stands before.
pub fn quotes_close_unescaped()
    ensures { QuotesCloseUnescaped }
{}

/// Where none closes, no such quote stands on the line.
#[tactic(auto, using(crate::proofs::LawProofs::unescaped_quotes_close))]
pub fn unescaped_quotes_close()
    ensures { UnescapedQuotesClose }
{}
