//! The parser: an expanded token list to the one tree that spells it, or the line of its refusal.
//!
//! Read `specs/Parse.antt` first. The grammar and its trees are in `c_syntax`, the reading of a file in
//! `c_file_parser`, what the grammar sees of a token in `c_terminals`; here they are joined.
#![tactic(auto)]

mod fault;
pub mod laws;
mod whole;

pub use fault::ParseFault;
pub use whole::parse;
