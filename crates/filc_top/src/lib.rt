//! The program's one call: words and a file go in, bytes and an ending come out.
//!
//! Read `specs/Headline.antt` first. It says what a call does, and is a clause of `filc`.
#![tactic(auto)]

mod call;
mod command;
mod ending;
mod front;
pub mod laws;
mod lines;

pub use c_rules::{Refusal, RefusalKind};
pub use call::filc;
pub use ending::{Ending, status_of};
pub use lines::write_line;
