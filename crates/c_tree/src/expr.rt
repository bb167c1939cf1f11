//! Expressions.
//!
//! An expression evaluates its operands from left to right and then does one operation on their values.
//! Operators of one level, commas, postfix operators and conversions are links of a chain, so an expression
//! nests only where the file's nesting is counted.

use crate::operation::{Operation, Piece};
use sqlite_items::{Boxed, Items};

/// An expression. `line` is the line of its first token.
#[cycle(expr)]
#[derive(Drop)]
pub enum Expr {
    /// An operation on operands.
    Apply {
        line: u32,
        op: Operation,
        operands: Items<Expr>,
    },
    /// What each link's operation gives is the first operand of the next link's.
    Chain {
        line: u32,
        first: Boxed<Expr>,
        links: Items<Link>,
    },
    /// `&&` where `all`, else `||`: the operands up to the first that decides.
    Logic {
        line: u32,
        all: bool,
        operands: Items<Expr>,
    },
    /// `test ? then : otherwise`
    Choose {
        line: u32,
        test: Boxed<Expr>,
        then: Boxed<Expr>,
        otherwise: Boxed<Expr>,
    },
    /// `printf`: the operands, of which the first is the pointer to the lock of the output, and then the pieces
    /// between that lock and its release.
    Print {
        line: u32,
        operands: Items<Expr>,
        pieces: Items<Piece>,
    },
}

/// An operation with the operands behind the first.
#[cycle(expr)]
#[derive(Drop)]
pub struct Link {
    pub op: Operation,
    pub operands: Items<Expr>,
}
