//! The list of a file's tokens, with the bytes that they are slices of.

ghost use Rattle.std.specs.Prelude.{IsTrue, length};
ghost use Rattle.c_lexer.specs.List.{all_within, ends_once};

use crate::token::Token;

/// The tokens of a file, and the file without its splices, of which each token's text is a slice.
#[derive(Drop)]
pub struct Tokens {
    pub list: Vec<Token>,
    pub bytes: Vec<u8>,
    pub ghost within: { IsTrue (all_within (length bytes.items) list.items) },
    pub ghost ends: { IsTrue (ends_once list.items) },
}
