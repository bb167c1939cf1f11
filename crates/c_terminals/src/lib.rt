//! Tokens as the grammar sees them: the terminal of each, and a number for each name.
//!
//! A token's kind and its text decide what the grammar may do with it. A word is a keyword or a
//! name; an operator or a separator has a terminal of its own; of numbers, characters and texts the
//! grammar sees the kind alone. Names have numbers, so that the scopes of names compare numbers.
//!
//! Read `specs/Words.antt` first, which has the table of keywords (C11 6.4.1) and the one of
//! punctuators (6.4.6), then `specs/Lexemes.antt`: `lexemes_of` is the list, and `lexemes` is proved
//! to give it. `specs/Law.antt` says of both what can be said apart from how they go.
//!
//! The crate knows nothing of the grammar, of scopes or of typedefs.
#![tactic(auto)]

pub mod laws;
mod numbers;
mod texts;
mod whole;
mod words;

pub use whole::{lexemes, line_at};

#[cfg(test)]
mod tests;
