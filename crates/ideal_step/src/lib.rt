//! The abstract machine carried out: whether an event may get an answer, and what it leaves.
//!
//! `ideal_machine` has the definitions, and this crate decides them. It knows no code, no heap and no
//! collector. Read `ideal_machine/specs/Allows.antt` and `Effects.antt` first, then `src/step.rt`.
#![tactic(auto)]

mod allow;
mod beginning;
mod ideal;
pub mod laws;
mod look;
mod make;
mod names;
mod object;
mod operation;
mod pair;
mod slot;
mod step;
mod threads;

pub use ideal::Ideal;
pub use step::ideal_step;

#[cfg(test)]
mod random_events;
#[cfg(test)]
mod tests;
