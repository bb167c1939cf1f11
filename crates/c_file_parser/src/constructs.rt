//! The constructs of statements and initialisers that count as nesting, and what reading one gives.

use c_syntax::{BlockItem, Expr, ForStart, Initialiser, Statement, SwitchItem};
use sqlite_items::Items;

/// A construct that counts as nesting.
#[derive(Clone, Copy)]
pub enum Construct {
    /// `{ initialisers }`
    Initialisers,
    /// `{ items }` of a block
    Block,
    /// `{ items }` of a `switch`
    SwitchBody,
    /// `( start condition ; step )` of a `for`
    Header,
    /// The statement under `if`, `else`, `while`, `do` or `for`.
    Under,
}

/// What reading a construct gives.
#[derive(Drop)]
pub enum Opened {
    Initialisers(Items<Initialiser>),
    BlockItems(Items<BlockItem>),
    SwitchItems(Items<SwitchItem>),
    Header(ForStart, Option<Expr>, Option<Expr>),
    Statement(Statement),
}

/// A statement that is a scope of its own.
#[derive(Clone, Copy)]
pub enum Compound {
    If,
    While,
    Do,
    For,
    Switch,
}
