//! What each operator makes of what is found of its operands (C11 6.5.2 to 6.5.17), but for calls.
//!
//! The definition is `c_expr_rules`: `specs/Operators.antt` has the operators and `specs/Expressions.antt` members.
#![tactic(auto)]

mod assigning;
mod binary_operators;
mod choosing;
mod logical;
mod members;
mod operands;
mod unary;

pub use assigning::{assigned_value, assignment, compound, step_before, step_behind};
pub use binary_operators::binary;
pub use choosing::choice;
pub use logical::{first_test, logic, second, with_test};
pub use members::{address, arrow, dereference, index, member, part_at};
pub use unary::{complement, negation, negative, plus, test_tree};
