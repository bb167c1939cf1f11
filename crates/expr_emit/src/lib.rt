//! The code of expressions, emitted: exactly the instructions that `expr_gen` says.
//!
//! Code is put in place from its end to its beginning, before a `Tail` that grows. Its size is counted once, and
//! then each node of the tree is visited once: what a jump forward leads to is there before the jump.
//!
//! Read `specs/Tail.antt` first, and then the contract of `emit_expression`.
#![tactic(auto)]

mod expression;
mod operation;
mod ops;
mod place;
mod printing;
mod several;
mod single;
mod size;
mod tail;

pub use expression::emit_expression;
pub use ops::{binary_op, store_op, sum};
pub use place::Place;
pub use size::size_of_expr;
pub use tail::{Tail, put};
