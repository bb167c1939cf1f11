//! What is made behind a file's constructs: the bytes and words of its static objects, the numbers of functions' types, and
//! the rules of the whole.
#![tactic(auto)]

mod closing;
mod contents;
mod kinded;
mod statics;

pub use closing::{Ending, closing_rule};
pub use kinded::kinds_of;
pub use statics::{statics_of, word_count};
