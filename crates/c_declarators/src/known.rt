//! What the passes before found out of a declarator's sizes and parameters.

use c_types::{ElementCount, TypeRule};
use std::collections::BTreeMap;

/// What is known of suffixes, by the number of each suffix's first token.
#[derive(Drop)]
pub struct Known {
    /// How many elements an array has, where its size is an integer constant of 1 at least.
    pub sizes: BTreeMap<u32, ElementCount>,
    /// The number of a list of parameters, or the rule that one of them breaks.
    pub parameters: BTreeMap<u32, Result<u32, TypeRule>>,
}
