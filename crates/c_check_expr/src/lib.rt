//! An expression is typed, or its first broken rule is found (C11 6.5, 6.6).
//!
//! The definition is `c_expr_rules`. `Checker` checks expressions: `src/expressions.rt` is its recursion, and
//! `src/contexts.rt` what statements and declarations ask of an expression. `src/constructs.rt` makes of what is found of the
//! parts of a construct what is found of it.
#![tactic(auto)]

mod constructs;
mod contexts;
mod expressions;
mod parts;

pub use constructs::is_text;
pub use contexts::constant_in;
pub use parts::Checker;
