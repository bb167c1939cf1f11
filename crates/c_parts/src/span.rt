//! Where a node of the tree stands among the tokens.

/// Where a node stands: the line of its first token, and the numbers of its first and of its last
/// token, counted from 0. A declarator that is empty has as its first token the one behind it, and as
/// its last the one before.
#[derive(Clone, Copy, Debug, PartialEq, Eq)]
pub struct Span {
    pub line: u32,
    pub first: u32,
    pub last: u32,
}
