//! A file is a program, or breaks a rule: `check` gives the parts of the program that the
//! definition of `c_file_rules` gives, or the first rule that is broken, with its line.
//!
//! A file is read twice: which locals have their address taken and how functions' types are
//! numbered is told by its end alone.
#![tactic(auto)]

mod constructs;
mod known;
mod reading;
mod round;
mod tokens;
mod whole;

pub use whole::{CheckedFile, check};
