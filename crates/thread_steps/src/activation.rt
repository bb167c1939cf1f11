//! An activation of a function that waits for one that it called.

/// Where a caller goes on, and how much of its frame it has.
#[derive(Clone, Copy, Debug, PartialEq, Eq)]
pub struct Activation {
    /// The number of its function.
    pub function: u32,
    /// The index of the instruction after its call.
    pub index: usize,
    /// The line of the call that entered it; a thread's first function has none.
    pub called_at: Option<u32>,
    /// How many registers it has.
    pub values: u32,
    /// The register to which the result of its call goes.
    pub result: u32,
}
