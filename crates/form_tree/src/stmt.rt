//! Statements.

use crate::expr::Expr;
use filc_num::IntType;
use sqlite_items::{Boxed, Items};

/// A statement. `line` is the line of its first token.
#[derive(Drop)]
pub enum Stmt {
    /// `;`
    Empty,
    /// `local = value;`
    Assign {
        line: u32,
        local: u32,
        value: Expr,
    },
    /// `while (test) body`
    While {
        line: u32,
        test: Expr,
        body: Boxed<Stmt>,
    },
    /// `{ .. }`: its locals are zero when it is entered.
    Block {
        locals: Items<LocalDef>,
        body: Items<Stmt>,
    },
    /// `putchar(value);`: puts out the low byte.
    PutChar {
        line: u32,
        value: Expr,
    },
    /// `return value;`
    Return {
        line: u32,
        value: Expr,
    },
}

/// A local variable where it is declared: the line of its declarator, its number and its type.
#[derive(Clone, Copy, Debug, PartialEq, Eq)]
pub struct LocalDef {
    pub line: u32,
    pub local: u32,
    pub ty: IntType,
}
