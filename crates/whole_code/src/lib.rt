//! Register code: what the compiler makes of a program, and what a thread carries out.
//!
//! A function's code is a list of instructions over registers, and a jump names an instruction by
//! its index in that list. The crate has every instruction, the one fact that makes it safe to carry
//! code out without a test, which is that code is well formed, and the listing of code as a text. It
//! doesn't say what an instruction does.
//!
//! Read `specs/WellFormed.antt` first. It says what a value of the type `Code` keeps.
#![tactic(auto)]

mod code;
pub mod laws;
mod lines;
mod number;
mod op;

pub use code::{Code, CodeFunction};
pub use lines::listing;
pub use number::{SET, operator_at, operator_number, type_at, type_number};
pub use op::{Instruction, Op};
