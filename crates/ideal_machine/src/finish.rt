//! How a program ends.

use filc_num::Reason;

/// How a program ended.
#[derive(Clone, Copy, Debug, PartialEq, Eq)]
pub enum Finish {
    /// It ended itself, with this status.
    Exited(u8),
    /// It was stopped for this reason, at this line.
    Trapped(Reason, u32),
}
