//! Tokens: the first pass over a C file, from its bytes to a list of tokens.
//!
//! A backslash before a line feed is a splice, and is taken out first, anywhere. What is left is
//! cut from the left: at each place white space, a comment, or the longest token that begins
//! there. The first place where no token stands is answered, with its line.
//!
//! Read `specs/Tokens.antt` first: `tokens_of` is that list, and `lex` is proved to give it. The
//! files before it in `specs/Lib.antt` say what each kind of token is. `specs/Law.antt` says
//! what such a list is in other words: nothing of the file is lost, and no token could be longer.
//!
//! The crate knows nothing of lines that begin with `#`, of keywords, or of the headers.
#![tactic(auto)]

mod classes;
mod fault;
mod front;
pub mod laws;
mod numbers;
mod punct;
mod quoted;
mod scan;
mod source;
mod token;
mod tokens;

pub use fault::LexFault;
pub use numbers::{Number, read_number};
pub use quoted::{read_character, read_text};
pub use scan::{lex, lex_library};
pub use token::{Token, TokenKind};
pub use tokens::Tokens;

#[cfg(test)]
mod tests;
