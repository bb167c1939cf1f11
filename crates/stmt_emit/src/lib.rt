//! The compiler: from a program's typed tree to register code, which is well formed and plays the program.
//!
//! A function's size is counted once, and then its code is put in place from its end to its beginning: the end of
//! a loop, the statements of a switch and the other branch of a choice stand there before the jumps to them.
//!
//! Read the contract of `compile` first. The code's definition is in `stmt_gen`.
#![tactic(auto)]

mod program;
mod size;
mod statement;
mod switching;

pub use program::compile;
