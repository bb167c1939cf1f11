//! Expressions.

use filc_num::{BinOp, IntType};
use sqlite_items::{Boxed, Items};

/// An expression. `line` is the line of its first token, and `ty` the type of its value.
#[cycle(expr)]
#[derive(Drop)]
pub enum Expr {
    /// A constant. `value` is kept as every value of a type is: sign- or zero-extended to 64 bits.
    Number {
        line: u32,
        ty: IntType,
        value: u64,
    },
    /// The value of a local variable.
    Local {
        line: u32,
        ty: IntType,
        local: u32,
    },
    /// `-operand`, computed in the type `ty`.
    Negate {
        line: u32,
        ty: IntType,
        operand: Boxed<Expr>,
    },
    /// `first op operand op operand ..`, grouped to the left: each link applies its operator to
    /// what stands before it and to its own operand.
    Chain {
        line: u32,
        first: Boxed<Expr>,
        links: Items<Link>,
    },
}

/// An operator with its right operand. `ty` is the type in which it is computed, and both operands
/// are converted to it before, but the count of a shift isn't.
#[cycle(expr)]
#[derive(Drop)]
pub struct Link {
    pub op: BinOp,
    pub ty: IntType,
    pub operand: Expr,
}
