//! A function with a body, as a file has it.

use c_tree::FunctionDef;
use sqlite_items::Items;

/// A function, with the locals whose address is taken in it, the last one first.
#[derive(Drop)]
pub struct Made {
    pub function: FunctionDef,
    pub taken: Items<u32>,
}
