//! Where a thread is, and what it wants.

use filc_code::Op;
use filc_num::Reason;
use ideal_machine::{Event, Finish};

/// What a thread wants next.
#[derive(Clone, Copy, Debug, PartialEq, Eq)]
pub enum Want {
    /// The answer to this event.
    Event(Event),
    /// To carry out an instruction on its registers.
    Instruction,
    /// Nothing: it has ended.
    Stopped,
}

/// How a thread ended.
#[derive(Clone, Copy, Debug, PartialEq, Eq)]
pub enum Halt {
    /// Its function returned this.
    Returned(u64),
    /// It ended the program, so.
    Finished(Finish),
}

/// Where a thread is in the instruction at its index: what it does next.
#[derive(Clone, Copy, Debug, PartialEq, Eq)]
pub enum Stage {
    /// An operation on registers alone, of this line.
    Acts(Op, u32),
    /// Puts out this byte, at this line.
    PutsOut(u8, u32),
    /// Ends the thread with this result.
    Ends(u64),
    /// Ends the program with this status.
    Exits(u8),
    /// Stops the program for this reason, at this line: the instruction has begun.
    Traps(Reason, u32),
    /// Nothing: it has ended.
    Over(Halt),
}
