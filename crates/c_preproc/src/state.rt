//! What directives change: the macros that are defined, the open `if`s, and the tokens so far.

use crate::macros::Macros;
use c_lexer::Token;

/// The group that an open `if` is in.
#[derive(Clone, Copy)]
pub enum Group {
    /// The `if` stands in a group that isn't active.
    Outside,
    /// No group was active so far.
    Waiting,
    /// The active one.
    Active,
    /// One after the active one.
    Past,
}

/// The macros, the group of each open `if`, innermost last, and the tokens so far.
#[derive(Drop)]
pub struct State {
    pub macros: Macros,
    pub groups: Vec<Group>,
    pub out: Vec<Token>,
}
