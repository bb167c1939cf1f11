//! Register code: what the compiler makes of a program, and what a thread carries out.
//!
//! A function's code is a list of instructions over registers, and a jump names an instruction by
//! its index in that list. The crate has the instructions and the one fact that makes it safe to
//! carry them out without a test: code is well formed. It doesn't say what an instruction does.
//!
//! Read `specs/WellFormed.antt` first. It says what a value of the type `Code` keeps.
#![tactic(auto)]

mod code;
mod number;
mod op;

pub use code::{Code, CodeFunction};
pub use number::{operator_at, operator_number, type_at, type_number};
pub use op::{Instruction, Op};
