//! What an actor's step tells its driver.

use crate::reason::Reason;

/// What an actor tells after the answer of its operation.
#[derive(Clone, Copy, Debug, PartialEq, Eq)]
pub enum Told {
    /// It goes on.
    Went,
    /// The answer showed that what it waits for isn't there yet.
    Waits,
    /// Its thread has ended, or the program has.
    Ended,
    /// It trapped, for a reason at a line of the file.
    Trapped(Reason, u32),
}
