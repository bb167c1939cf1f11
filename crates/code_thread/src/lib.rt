//! Register code carried out, instruction by instruction.
//!
//! `specs/Exec.antt` has the meaning of each instruction, as a play: what it asks of the abstract
//! machine and how it goes on. `CodeThread` carries it out, one instruction or one answer a call;
//! `specs/Thread.antt` says what each call makes of it, and `specs/Follows.antt` that this is the
//! play.
//!
//! A frame of registers is taken once, when a thread is made, and no call after that takes memory
//! or looks at more than one instruction.
#![tactic(auto)]

mod act;
pub mod laws;
mod stage;
mod thread;

pub use stage::{Halt, Stage, Want};
pub use thread::CodeThread;
