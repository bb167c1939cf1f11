//! Why a file is refused: the rules of the checker, the fault of a file that breaks one, and the refusals of all phases.
//!
//! `specs/Rules.antt` has the rules with their numbers and texts in one table, `specs/Refusals.antt` the texts of the other reasons.
#![tactic(auto)]

mod fault;
mod refusal;
mod rule;

pub use fault::CheckFault;
pub use refusal::{Refusal, RefusalKind};
pub use rule::Rule;

#[cfg(test)]
mod tests;
