//! Which type a declarator has: its pointers and suffixes as derivations of a base type.
//!
//! Read `specs/Declarators.antt` first. `specs/Outermost.antt` and `specs/Parameters.antt` say what becomes of arrays whose
//! size isn't said, and of lists of parameters.
#![tactic(auto)]

mod derivations;
mod known;
mod outermost;
mod parameters;

pub use derivations::{derivations_of, pointer_derivation};
pub use known::Known;
pub use outermost::{complete_outermost, ends_open};
pub use parameters::{ParameterType, lowest_rule_of, says_none};
