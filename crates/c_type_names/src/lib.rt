//! Type names, specifiers and declarators with all that stands in them, expressions too.
//! `src/specifiers.rt` is their recursion.
#![tactic(auto)]

mod enumerations;
mod expressions;
mod sizes;
mod specifiers;

pub use expressions::checker;
pub use specifiers::{formed, specifiers_said, type_named};
