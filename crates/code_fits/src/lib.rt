//! The law that the code of what fits is well formed: it names no register, instruction, function or static
//! object that isn't there.
//!
//! Read `specs/Formed.antt`.
#![tactic(auto)]

pub mod laws;
