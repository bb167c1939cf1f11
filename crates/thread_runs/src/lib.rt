//! A thread of code over a whole list of answers: it runs as its code plays.
//!
//! `whole_thread` says what a thread wants, and what one instruction or one answer makes of it. Here it
//! goes on until it ends or wants an answer that isn't there. Read `specs/Run.antt` first: what a run
//! is, turn by turn. `specs/AsPlayed.antt` has the law: what a run makes is what the play of the code
//! makes on the same answers.
#![tactic(auto)]

pub mod laws;
