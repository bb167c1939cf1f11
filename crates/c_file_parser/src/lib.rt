//! Whole files: initialisers, declarations, statements and functions.
//!
//! Begin with `file` in whole.rt, then read `specs/Constructs.antt`. The grammar stands in c_syntax. What
//! counts as nesting is read through one function that calls itself, in knot.rt; all else is loops and
//! calls of a fixed depth.
#![tactic(auto)]

mod bodies;
mod constructs;
mod declarations;
mod expressions;
mod files;
mod knot;
mod nodes;
mod rules;
mod scopes;
mod sets;
mod statements;
mod whole;

pub use c_expr_parser::Refusal;
pub use whole::file;
