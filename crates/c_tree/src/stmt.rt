//! Statements.
//!
//! `while (e) s` is a Loop of a Block of BreakUnless and s; `for` has its step as `next`, where `continue` goes
//! on. `switch (e) {..}` is a Run that sets a local to e's value, and a Block with the switch's locals and the
//! Switch on that local. That local is named in no block, and has no home.

use crate::expr::Expr;
use crate::operation::Access;
use sqlite_items::{Boxed, Items};

/// A statement. `line` is the line of its first token.
#[derive(Drop)]
pub enum Stmt {
    /// An expression whose value is dropped.
    Run {
        value: Expr,
    },
    /// Its locals are zero and have their homes when it is entered.
    Block {
        locals: Items<LocalDef>,
        body: Items<Stmt>,
    },
    If {
        line: u32,
        test: Expr,
        then: Boxed<Stmt>,
        otherwise: Boxed<Stmt>,
    },
    /// The body and then `next`, again and again.
    Loop {
        line: u32,
        body: Boxed<Stmt>,
        next: Boxed<Stmt>,
    },
    /// Leaves the loop where the test is zero.
    BreakUnless {
        line: u32,
        test: Expr,
    },
    Break {
        line: u32,
    },
    Continue {
        line: u32,
    },
    /// Goes on at the statement of the case with this value, or at `other`.
    Switch {
        line: u32,
        value: Expr,
        cases: Items<Case>,
        other: u32,
        body: Items<Stmt>,
    },
    Return {
        line: u32,
        value: Option<Expr>,
    },
}

/// A case: its value, and the index of the statement where it goes on.
#[derive(Clone, Copy, Debug, PartialEq, Eq)]
pub struct Case {
    pub value: u64,
    pub statement: u32,
}

/// A local where its block is entered: the line of its declarator, its number and what it begins with.
#[derive(Clone, Copy, Debug, PartialEq, Eq)]
pub struct LocalDef {
    pub line: u32,
    pub local: u32,
    pub kind: LocalKind,
}

/// What a local begins with.
#[derive(Clone, Copy, Debug, PartialEq, Eq)]
pub enum LocalKind {
    Zero,
    /// A home of so many bytes, all zero.
    Home(u64),
    /// A parameter whose value is moved into a home of so many bytes.
    Moved(u64, Access),
}
