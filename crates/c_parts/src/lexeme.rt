//! A token as the grammar sees it, and the names that it can be.

use crate::terminal::Terminal;

/// A token: its terminal, the number of its name where it is one, and its line. Two names are equal
/// exactly where their numbers are.
#[derive(Clone, Copy, Debug, PartialEq, Eq)]
pub struct Lexeme {
    pub terminal: Terminal,
    pub name: u32,
    pub line: u32,
}

/// A name that a declaration brings into scope: as a typedef, or as another thing, which hides one.
#[derive(Clone, Copy, Debug, PartialEq, Eq)]
pub struct Binding {
    pub name: u32,
    pub is_typedef: bool,
}
