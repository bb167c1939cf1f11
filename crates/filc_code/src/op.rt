//! The instructions: what a thread's code is made of.

/// One instruction. Its fields are its operands, in the order in which a listing prints them.
///
/// In the comments d is a register that is written, and a and b are registers that are read. A
/// target is the index of an instruction of the same function. An `op` is the number of a
/// `BinOp`, and a `t` that of an `IntType`, both counted from 0 in the order of their declaration.
#[derive(Clone, Copy, Debug, PartialEq, Eq)]
pub enum Op {
    /// d, constant: d becomes the constant.
    Const(u32, u64),
    /// d, a: d becomes a.
    Move(u32, u32),
    /// d, a, b, op, t: d becomes a op b, made in the type t. Both are converted to t before, but
    /// the count of a shift isn't.
    Binary(u32, u32, u32, u32, u32),
    /// target: goes on there.
    Jump(u32),
    /// a, target: goes on there where a is 0.
    JumpZero(u32, u32),
    /// a: the function's result is a.
    Return(u32),
    /// a: puts out the low byte of a.
    Out(u32),
    /// a: ends the program with the low byte of a as its status.
    Exit(u32),
}

/// An instruction with the place that it comes from in the file.
#[derive(Clone, Copy, Debug, PartialEq, Eq)]
pub struct Instruction {
    /// The line of the first token of the smallest expression or statement that it plays.
    pub line: u32,
    /// Whether it plays library text, whose traps have the line of the call into it.
    pub library: bool,
    pub op: Op,
}
