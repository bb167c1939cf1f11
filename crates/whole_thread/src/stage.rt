//! Where a thread is within an instruction, and what it wants.

use filc_num::Reason;
use ideal_machine::{Access, Event, Finish, Found, Value};

/// What a thread wants next.
#[derive(Clone, Copy, Debug, PartialEq, Eq)]
pub enum Want {
    /// The answer to this event.
    Event(Event),
    /// To carry out an instruction on its registers.
    Instruction,
    /// To go on after a poll.
    Poll,
    /// Nothing: it has ended.
    Stopped,
}

/// How a thread ended.
#[derive(Clone, Copy, Debug, PartialEq, Eq)]
pub enum Halt {
    /// Its first function returned this.
    Returned(u64),
    /// It ended the program, so.
    Finished(Finish),
}

/// Where a thread is within the instruction at which it stands: what was answered so far.
#[derive(Clone, Copy, Debug, PartialEq, Eq)]
pub enum Stage {
    /// Before the instruction.
    Before,
    /// The instruction's check has granted this access.
    Granted(Access),
    /// The integer of a pointer is stored there, and its half isn't yet.
    Stored(Access),
    /// This half was found there.
    Found(Access, Found),
    /// It is the half of this pointer.
    Read(Access, Found, Value),
    /// That pointer has the expected one's address.
    Matches(Access, Found, Value),
    /// The first of two pointers is named.
    NamedFirst,
    /// A check was granted to what is no object, which no memory does.
    Waits,
    /// The program is to be stopped for this reason, at this line.
    Traps(Reason, u32),
    /// The thread has ended.
    Over(Halt),
}
