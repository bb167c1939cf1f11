//! What register code does: what it asks of the abstract machine, instruction by instruction.
//!
//! `specs/Act.antt` has a line for each instruction, `specs/Standing.antt` says where a thread stands,
//! and `specs/CodePlay.antt` puts them together to the play of a thread's code. What each event is
//! asked for, and at which line it may trap, is said in `ideal_machine`, in phrases that C's text cites
//! too.
//!
//! `specs/Thread.antt` and `specs/Answers.antt` have a thread as data: what it wants, and what each
//! instruction and each answer makes of it. That it follows the play is said in `specs/PlaysOn.antt`.
#![tactic(auto)]

pub mod laws;
mod stage;

pub use stage::{Halt, Stage, Want};
