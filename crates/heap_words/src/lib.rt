//! The heap's words, and work on them that touches one word at a time.
//!
//! All that the threads and the collector share is one list of 64-bit words. Whoever wants
//! something of it makes one operation on one word (`WordOp`), and gets one word as the answer. So
//! a step is the same thing whether one driver makes all steps in turn (`PlainWords`) or several
//! threads make theirs at once: both are `Words`.
//!
//! Longer work is cut into such steps. A `Piece` is a machine that says which operation it makes
//! next, takes the answer in, and tells whether it is done. It sees no words, so pieces of several
//! threads can be mixed in any order. What a piece does where nobody else steps in between, its
//! contract says by `alone`.
//!
//! Read `specs/Operations.antt` first: what each operation leaves and answers. `specs/Work.antt`
//! says what a piece is, and `specs/Steps.antt` has the shape in which each piece says what one of
//! its steps does among those of others. What it does alone (`specs/Alone.antt`) and with any
//! answers (`specs/Answers.antt`) follows from its steps by the rules in `proofs/Rules.antt`.
#![tactic(auto)]

pub mod laws;
mod op;
mod piece;
#[cfg(test)]
mod tests;
mod words;

pub use op::WordOp;
pub use piece::{Piece, Step, try_alone};
pub use words::{PlainWords, Words};
