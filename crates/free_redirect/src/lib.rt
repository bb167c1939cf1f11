//! Freeing an object.
//!
//! `free` doesn't give the cell back: other threads may hold pointers into it, and it must not be
//! made again under them. It sets the void bit of the object's state by one operation, so of two
//! threads that free the object one finds the bit already set, and each later check finds the
//! object freed. The cell comes back where the sweep finds it out of reach.
//!
//! Read `specs/VoidObject.antt`: what the piece wants, what it tells, and what its step means. The
//! laws are in `src/laws.rt`.
#![tactic(auto)]

pub mod laws;
#[cfg(test)]
mod tests;
mod void_object;

pub use void_object::VoidObject;
