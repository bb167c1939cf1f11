//! The code of statements, functions and programs, and the law that it plays them.
//!
//! A statement's jumps go by the sizes of its parts, which the tree alone tells, and its exits are arguments
//! of its code: so nothing is patched.
//!
//! Read `specs/Code.antt` for statements, `specs/Programs.antt` for functions and programs, and
//! `specs/Correct.antt` for what is promised.
#![tactic(auto)]

pub mod laws;
