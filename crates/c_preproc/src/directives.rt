//! Directives: where one ends, and what its word is.

ghost use Rattle.std.specs.Prelude.{◌≡◌, ◌≤◌, ◌∷◌, length, take, drop, MatchOption};
ghost use Rattle.c_preproc.specs.Directives.{blocks_of, directive_word, rest_of_line, word_of, Plain, Directive};

use crate::texts::{is_punctuator, is_word};
use c_lexer::{Token, TokenKind};

/// What a directive is, by its word. `Nothing` has no word, and `Unknown` one that isn't known.
#[derive(Clone, Copy)]
pub enum DirectiveWord {
    Nothing,
    Include,
    Define,
    Undefine,
    If,
    IfDefined,
    IfUndefined,
    ElseIf,
    Else,
    EndIf,
    Pragma,
    Unknown,
}

fn word_of(bytes: &[u8], word: Token) -> DirectiveWord
    ensures { result ≡ word_of bytes.now word }
{
    if is_word(bytes, word, b"include") {
        DirectiveWord::Include
    } else if is_word(bytes, word, b"define") {
        DirectiveWord::Define
    } else if is_word(bytes, word, b"undef") {
        DirectiveWord::Undefine
    } else if is_word(bytes, word, b"if") {
        DirectiveWord::If
    } else if is_word(bytes, word, b"ifdef") {
        DirectiveWord::IfDefined
    } else if is_word(bytes, word, b"ifndef") {
        DirectiveWord::IfUndefined
    } else if is_word(bytes, word, b"elif") {
        DirectiveWord::ElseIf
    } else if is_word(bytes, word, b"else") {
        DirectiveWord::Else
    } else if is_word(bytes, word, b"endif") {
        DirectiveWord::EndIf
    } else if is_word(bytes, word, b"pragma") {
        DirectiveWord::Pragma
    } else {
        DirectiveWord::Unknown
    }
}

/// What the directive is that has these tokens behind its `#`.
pub fn directive_word(bytes: &[u8], tokens: &[Token]) -> DirectiveWord
    ensures { result ≡ directive_word bytes.now tokens.now }
{
    match *tokens {
        [] => DirectiveWord::Nothing,
        [word, ..] => word_of(bytes, word),
    }
}

/// The number of tokens at the front that stand on the line of the one before them.
fn line_rest(tokens: &[Token]) -> usize
    ensures value { result ≡ length (rest_of_line tokens.now) }
    ensures within { result ≤ length tokens.now }
{
    tokens
        .iter()
        .take_while(|token| !token.first && !matches!(token.kind, TokenKind::End))
        .count()
}

/// The number of tokens behind this one that are part of the directive that it begins; none where it
/// begins none.
pub fn directive_length(bytes: &[u8], token: Token, behind: &[Token]) -> Option<usize>
    ensures block { MatchOption result
        (blocks_of bytes.now 0 (token ∷ behind.now) ≡ Plain token ∷ blocks_of bytes.now 0 behind.now)
        (λ count. blocks_of bytes.now 0 (token ∷ behind.now)
        ≡ Directive token (take count behind.now) ∷ blocks_of bytes.now 0 (drop count behind.now)) }
    ensures within { MatchOption result (0 ≤ 0) (λ count. count ≤ length behind.now) }
{
    if token.first && is_punctuator(bytes, token, b"#") {
        Some(line_rest(behind))
    } else {
        None
    }
}
