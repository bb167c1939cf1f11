//! Events and answers: what passes between a thread and the memory.

use crate::value::{Found, Half, Kept};
use filc_num::{BinOp, IntType, Reason};

/// The bytes that an access touches: `width` of them, from `offset` in the object.
#[derive(Clone, Copy, Debug, PartialEq, Eq)]
pub struct Access {
    pub object: u64,
    pub offset: u64,
    pub width: u32,
}

/// What a read-modify-write puts in place of the old bytes.
#[derive(Clone, Copy, Debug, PartialEq, Eq)]
pub enum Operation {
    /// The value's bytes.
    Set,
    /// An operator on the old value and the event's. The first type is the object's, the second
    /// that in which it is computed.
    Compute(BinOp, IntType, IntType),
}

/// What a compare and exchange of a half expects: any half, or this one.
#[derive(Clone, Copy, Debug, PartialEq, Eq)]
pub enum Seen {
    Any,
    Found(Found),
}

/// What a thread asks of the memory.
#[derive(Clone, Copy, Debug, PartialEq, Eq)]
pub enum Event {
    /// May these bytes be accessed by this pointer?
    Check {
        half: Half,
        address: u64,
        width: u32,
        write: bool,
    },
    /// Reads an integer.
    GetInt {
        access: Access,
    },
    /// Writes an integer.
    SetInt {
        access: Access,
        value: u64,
    },
    /// Reads an integer and writes what the operation gives.
    RmwInt {
        access: Access,
        operation: Operation,
        value: u64,
    },
    /// Writes the desired integer where the expected one is.
    CasInt {
        access: Access,
        expected: u64,
        desired: u64,
    },
    /// Reads the half of a word.
    GetHalf {
        object: u64,
        word: u32,
    },
    /// Reads the address and the half of a stored pair.
    Open {
        pair: u64,
    },
    /// Writes the half of a word.
    SetHalf {
        object: u64,
        word: u32,
        half: Kept,
    },
    /// Writes the new half where the seen one is.
    CasHalf {
        object: u64,
        word: u32,
        seen: Seen,
        new: Kept,
    },
    /// Makes an object.
    New {
        bytes: u64,
        kind: u32,
    },
    /// Frees the object of a pointer.
    Void {
        half: Half,
        address: u64,
    },
    /// The bytes of the object of a pointer.
    Size {
        half: Half,
        address: u64,
    },
    /// Looks at a pointer's address.
    Name {
        half: Half,
        address: u64,
    },
    /// Takes a lock: 4 bytes that are 0 become 1.
    Lock {
        object: u64,
        offset: u64,
    },
    /// Puts out a byte.
    Out {
        byte: u8,
    },
    /// Takes in a byte.
    Input,
    /// Starts a thread.
    Spawn {
        function: u32,
        address: u64,
        half: Half,
    },
    /// A started thread begins to run.
    Begin {
        function: u32,
        address: u64,
        half: Half,
    },
    /// A thread ends with a result.
    End {
        result: u64,
    },
    /// Takes the result of a thread that has ended.
    Join {
        id: u64,
    },
    /// A cycle of the collector is over.
    Collected {
        cycle: u64,
    },
    /// Ends the program.
    Exit {
        status: u8,
    },
    /// Stops the program for a reason, at a line.
    Trap {
        reason: Reason,
        line: u32,
    },
}

/// What the memory answers.
#[derive(Clone, Copy, Debug, PartialEq, Eq)]
pub enum Answer {
    /// The check holds.
    Granted,
    /// The first reason against it.
    Refused(Reason),
    /// It was done.
    Done,
    /// An integer, a byte, a size, an id or a result.
    Number(u64),
    /// The half that was found.
    Found(Found),
    /// The address and the half of a pair.
    Opened(u64, Half),
    /// The new object and its address.
    Made(u64, u64),
    /// None: no object, no id, no result.
    Absent,
    /// The input's end.
    End,
}
