//! Whether functions and static objects make a program that keeps what its type says.
//!
//! Each tree is gone through once, and the program is made only where all of them fit. Read `specs/Fits.antt` of
//! `c_tree` first, and then the contract of `program_of`.
#![tactic(auto)]

mod expression;
pub mod laws;
mod operation;
mod outline;
mod program;
mod registers;
mod statement;

pub use program::{fits, program_of};
