//! What an expression does with the values of its operands.

use filc_num::{BinOp, IntType};

/// How a value lies in memory.
#[derive(Clone, Copy, Debug, PartialEq, Eq)]
pub enum Access {
    Integer(IntType),
    Pointer,
    /// An atomic pointer.
    Box,
}

/// What a structure is copied by: integers of its alignment, or where that is 8 pointers with both halves.
#[derive(Clone, Copy, Debug, PartialEq, Eq)]
pub enum Unit {
    Byte,
    TwoBytes,
    FourBytes,
    Pointer,
}

/// How a compound assignment, `++` or `--` makes a new value of the old one and its right operand.
#[derive(Clone, Copy, Debug, PartialEq, Eq)]
pub enum Change {
    /// An operator, the type in which it is computed, and the type to which its result is converted.
    Integer(BinOp, IntType, IntType),
    /// A pointer to elements of so many bytes goes forward.
    Advance(u64),
    /// It goes back.
    Retreat(u64),
}

/// What is done with the values of operands, once all of them are there. It gives one value.
#[derive(Clone, Copy, Debug, PartialEq, Eq)]
pub enum Operation {
    /// A constant, kept as every value of a type is: sign- or zero-extended to 64 bits.
    Number(u64),
    /// The value of a local, or where it has a home the pointer to that.
    Local(u32),
    /// A pointer to a static object.
    Static(u32),
    /// A pointer to a function.
    Function(u32),

    Convert(IntType),
    /// Operands are converted to the type, but the count of a shift isn't.
    Binary(BinOp, IntType),
    Negate(IntType),
    Complement(IntType),
    Not(IntType),

    /// A pointer to elements of so many bytes, and an integer. With no bytes it gives its first operand's value:
    /// so the value of an atomic call waits while further operands are evaluated and dropped.
    Advance(u64),
    Retreat(u64),
    /// An integer, and a pointer to elements of so many bytes.
    AdvanceBy(u64),
    /// A pointer to a member that lies so many bytes behind the structure's first.
    Offset(u64),
    /// An integer becomes a pointer without a capability.
    ToPointer,

    /// How many elements of so many bytes lie between two pointers.
    Distance(u64),
    /// A comparison of two addresses.
    Compare(BinOp),
    /// A pointer's address as an integer, or whether it isn't null.
    ToInteger(IntType),

    /// A local without a home gets a value.
    SetLocal(u32),
    /// A local without a home is changed by a right operand; gives the new value.
    UpdateLocal(u32, Change),
    /// The same; gives the old value.
    StepLocal(u32, Change),

    /// The first operand of the following is the address.
    Load(Access),
    Store(Access),
    /// What is there is changed by a right operand; gives the new value.
    Update(Access, Change),
    /// The same; gives the old value.
    Step(Access, Change),
    /// So many units from the second address to the first; gives the first.
    Copy(Unit, u64),

    /// Atomic exchange; gives the old value.
    Swap(Access),
    /// Atomic compare and exchange: the object, the address of what is expected, and what is desired.
    Cas(Access),
    /// An atomic operator on an object of the first type, computed in the second; gives the old value.
    Fetch(IntType, BinOp, IntType),
    /// The same; gives the new value.
    Combine(IntType, BinOp, IntType),

    /// A call of this function with the operands as arguments.
    Call(u32),
    /// A call through the first operand with the others as arguments, as a function of this kind.
    CallPointer(u32),

    New,
    Free,
    Size,
    Lock,
    Out,
    Input,
    Spawn,
    Join,
    SelfId,
    Exit,
    Abort,

    /// The second operand's value.
    Second,
}

/// A piece of what `printf` puts out.
#[derive(Clone, Copy, Debug, PartialEq, Eq)]
pub enum Piece {
    Byte(u8),
    /// The low byte of this operand.
    Out(u32),
    /// A library function puts out this operand: as a text, as a signed number, or in a radix.
    Put {
        function: u32,
        operand: u32,
        radix: Option<u8>,
    },
}
