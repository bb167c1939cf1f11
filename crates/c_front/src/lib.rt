//! A file as the parser takes it: its tokens, lexed and preprocessed, or why the file is refused.
//!
//! Each phase has faults of its own; here they become refusals of the whole file, with a kind and a
//! line. Read `specs/Phases.antt` first: `expanded_tokens_of` is the list or the first refusal, and
//! `expanded_tokens` is proved to give it.
#![tactic(auto)]

mod fault;
mod phases;

pub use fault::FrontFault;
pub use phases::expanded_tokens;

#[cfg(test)]
mod tests;
