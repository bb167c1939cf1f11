//! What may stand on a type: further qualifiers, `_Atomic`, and the membership of a structure or union.
//!
//! Read `specs/Qualified.antt` first: the qualifiers of an array are its elements'. `specs/Atomic.antt` and
//! `specs/Members.antt` say which types may be atomic and which may be members.
#![tactic(auto)]

mod atomic;
mod members;
mod qualification;

pub use atomic::{atomic_type, may_be_atomic, rule_of_set, type_of};
pub use members::{layout_of_members, rule_of_member};
pub use qualification::qualify;

#[cfg(test)]
mod tests;
