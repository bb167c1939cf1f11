//! Tokens by their texts.

ghost use Rattle.std.specs.Prelude.{◌≡◌};
ghost use Rattle.std.specs.Str.{bytes_eq};
ghost use Rattle.c_terminals.specs.Texts.{text_of, is_name, same_name};

use c_lexer::{Token, TokenKind};

/// The bytes of a token.
pub fn text_of(bytes: &[u8], token: Token) -> &[u8]
    ensures { result.now ≡ text_of bytes.now token }
{
    let end = bytes.len().min(token.end as usize);
    let start = end.min(token.start as usize);
    &bytes[start..end]
}

/// Whether two texts are the same.
pub fn is_same_text(a: &[u8], b: &[u8]) -> bool
    ensures { result ≡ bytes_eq a.now b.now }
{
    a == b
}

/// Whether the token is a word: a name or a keyword.
pub fn is_name(token: Token) -> bool
    ensures { result ≡ is_name token }
{
    matches!(token.kind, TokenKind::Name)
}

/// Whether two tokens are words and stand at the same bytes, so that they have the same text.
pub fn is_same_name(a: Token, b: Token) -> bool
    ensures { result ≡ same_name a b }
{
    is_name(a) && is_name(b) && a.start == b.start && a.end == b.end
}
