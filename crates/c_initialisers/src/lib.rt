//! Initialisers (C11 6.7.9): what they give an object, and how many elements they say that an
//! array has.
#![tactic(auto)]

mod fills;
mod initialising;
mod sizing;

pub use initialising::{initialiser_filled, look_at};
pub use sizing::{Sizing, items_type, sized, sized_before, sizing_of};
