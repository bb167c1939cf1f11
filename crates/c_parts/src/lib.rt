//! Parts of a grammar: what they spell, what begins them, and how a reader with one or two tokens ahead
//! takes them.
#![tactic(auto)]

mod lexeme;
mod span;
mod terminal;

pub use lexeme::{Binding, Lexeme};
pub use span::Span;
pub use terminal::{Terminal, code};
