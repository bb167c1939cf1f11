//! Pieces of work on the words outside the cells: a thread that begins, a byte of the output, a
//! byte of the input, and the exit word.
//!
//! Several threads may be at each of them at once. A word of the output, a byte of the input and
//! the exit word go to the one whose exchange wins. Whoever loses looks further: at the next output
//! word, or at the input count again. At the exit word the loser is done.
//!
//! Read `specs/Output.antt` first. It says which bytes of the output are written. The other files
//! of specs/ have a piece each: what it wants, what becomes of it by an answer, and what one step
//! means. `src/laws.rt` has the laws.
#![tactic(auto)]

mod begin_thread;
mod finish;
mod get_byte;
pub mod laws;
mod put_byte;
#[cfg(test)]
mod tests;

pub use begin_thread::{BeginStage, BeginThread};
pub use finish::Finish;
pub use get_byte::GetByte;
pub use put_byte::{PutByte, PutStage};
