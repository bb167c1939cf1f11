//! How many temporaries the expressions of a function need, by its text.
#![tactic(auto)]

mod needs;
mod temporaries;

pub use needs::function_temporaries;
