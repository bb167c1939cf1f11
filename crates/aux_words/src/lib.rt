//! The halves of pointers: getting one, setting one, and installing the table that keeps them.
//!
//! A pointer in memory has two halves. The address lies in the object's word, and the capability in
//! the word of the same number in the object's table, so that no store of an integer can make a
//! capability. The object's header names the table. A static object has its table from the start,
//! and any other object has none as long as no capability was stored. Each half is got or set by
//! one operation, so the two halves may come from two stores.
//!
//! `object_header` says where the half of an object's word lies (`specs/Halves.antt`). Read that
//! first, and then `specs/HalfSteps.antt`. The other files of specs/ have a piece each: what it
//! wants, what becomes of it by an answer, and what one step means. `src/laws.rt` has the laws.
#![tactic(auto)]

mod install;
pub mod laws;
mod read_half;
#[cfg(test)]
mod tests;
mod write_half;

pub use install::Install;
pub use read_half::ReadHalf;
pub use write_half::WriteHalf;
