//! The reader of the small form: the files that can be run so far.
//!
//! Read `specs/Form.antt` first. It says which files have the form, and of which tree; `read` decides just that,
//! and a file is of one program at most (`laws`).
//! The form has its own few lexemes (`specs/Lexemes.antt`), since spaces and line feeds alone stand between them.
#![tactic(auto)]

mod declared;
mod expressions;
mod form;
pub mod laws;
mod lexemes;
mod program;
mod statements;

pub use form::{MOST_BYTES, MOST_NESTING, MOST_NUMBER, MOST_VALUES, ReadFault, number_of};
pub use program::read;
