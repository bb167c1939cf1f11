//! Register code carried out, instruction by instruction, by a thread with a block of its own.
//!
//! `whole_thread` has a thread as data: what it wants, and what each instruction and each answer makes
//! of it. Here is the thread that does so, one instruction or one answer a call. Read
//! `specs/Blocks.antt` first: it says how the registers of 1,024 activations lie in one block, which is
//! taken once, when a thread is made. No call after that takes memory.
#![tactic(auto)]

mod activation;
mod arithmetic;
mod constants;
pub mod laws;
mod thread;

pub use thread::CodeThread;
