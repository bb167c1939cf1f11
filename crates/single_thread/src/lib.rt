//! The driver of one thread.
//!
//! Where a program has one thread, nobody chooses who steps next, and the abstract machine has one
//! answer to each event. `specs/Alone.antt` says which history a run makes then, and
//! `specs/Runs.antt` what holds of it: it is legal, and more instructions only add to it. `run`
//! makes that history, and what it gives back is what the outside sees of it.
#![tactic(auto)]

pub mod laws;
mod runner;
#[cfg(test)]
mod tests;

pub use runner::{MOST_OUTPUT_BYTES, run};
