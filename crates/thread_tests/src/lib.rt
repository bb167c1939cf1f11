//! Small code carried out by a thread, with the events, the answers and the values worked out by hand.
#![tactic(auto)]

#[cfg(test)]
mod worked;
