//! What is remembered while a part is read.

/// Where a node begins: the line and the number of its first token.
#[derive(Clone, Copy, Debug, PartialEq, Eq)]
pub struct Start {
    pub line: u32,
    pub first: u32,
}

/// The specifiers before a token: whether they have a type, and whether they have `typedef`.
#[derive(Clone, Copy, Debug, PartialEq, Eq)]
pub struct Before {
    pub typed: bool,
    pub typedef: bool,
}
