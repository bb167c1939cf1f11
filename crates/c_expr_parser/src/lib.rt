//! Expressions, and the type names, specifiers and declarators that stand in them.
#![tactic(auto)]

mod declarators;
mod expressions;
mod grammar;
mod knot;
mod nodes;
mod opened;
mod pointers;
mod refusal;
mod sets;
mod whole;

pub use grammar::Grammar;
pub use knot::construct;
pub use opened::{Opened, What};
pub use refusal::Refusal;
pub use whole::expression;
