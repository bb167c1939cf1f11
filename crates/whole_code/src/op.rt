//! The instructions: what a thread's code is made of.

/// One instruction. Its fields are its operands, in the order in which a listing prints them.
///
/// d and w are registers that are written, and a, b, e, n and p are registers that are read: p holds
/// the pointer of an access. A `target` is the index of an instruction of the same function. `t` and
/// `u` are the numbers of an `IntType`, and `op` that of a `BinOp`, both counted from 0 in the order of
/// their declaration; in `RmwInt` an `op` may be `SET` too.
#[derive(Clone, Copy, Debug, PartialEq, Eq)]
pub enum Op {
    /// d becomes the constant.
    Const {
        d: u32,
        constant: u64,
    },
    /// d becomes a.
    Move {
        d: u32,
        a: u32,
    },
    /// d becomes the pointer to the static object of this number.
    StaticAt {
        d: u32,
        number: u32,
    },
    /// d becomes the pointer to the function of this number.
    FunctionAt {
        d: u32,
        number: u32,
    },
    /// d becomes the integer a, converted to t.
    Convert {
        d: u32,
        a: u32,
        t: u32,
    },
    /// d becomes a op b, made in t. Both are converted to t before, but the count of a shift isn't.
    Binary {
        d: u32,
        a: u32,
        b: u32,
        op: u32,
        t: u32,
    },
    /// d becomes the pointer a, moved by b elements of so many bytes.
    PointerAdd {
        d: u32,
        a: u32,
        b: u32,
        bytes: u32,
    },
    /// d becomes how many elements of so many bytes lie from the pointer b to the pointer a.
    PointerSub {
        d: u32,
        a: u32,
        b: u32,
        bytes: u32,
    },
    /// d becomes a op b, a comparison of the addresses of two pointers.
    PointerCompare {
        d: u32,
        a: u32,
        b: u32,
        op: u32,
    },
    /// d becomes the address of the pointer a, converted to t.
    ToInteger {
        d: u32,
        a: u32,
        t: u32,
    },
    /// d becomes the integer a as a pointer without a capability.
    ToPointer {
        d: u32,
        a: u32,
    },
    /// Goes on at the target.
    Jump {
        target: u32,
    },
    /// Goes on at the target where a is 0.
    JumpZero {
        a: u32,
        target: u32,
    },
    /// Lets the collector see the thread.
    Poll,
    /// d becomes the pointer to a new object of so many bytes, the home of a local.
    Home {
        d: u32,
        bytes: u32,
    },
    /// d becomes the integer of type t at p.
    LoadInt {
        d: u32,
        p: u32,
        t: u32,
    },
    /// Stores the integer a, of type t, at p.
    StoreInt {
        p: u32,
        a: u32,
        t: u32,
    },
    /// d becomes the integer of type t at p, in place of which comes what `op` makes of it and a, in
    /// one step. It is computed in u; for `SET` that is t.
    RmwInt {
        d: u32,
        p: u32,
        a: u32,
        op: u32,
        t: u32,
        u: u32,
    },
    /// d becomes the bytes of the integer of type t at p, as an unsigned number; where they are
    /// those of e, n comes in their place, in one step.
    CasInt {
        d: u32,
        p: u32,
        e: u32,
        n: u32,
        t: u32,
    },
    /// d becomes the pointer at p.
    LoadPointer {
        d: u32,
        p: u32,
    },
    /// Stores the pointer a at p, one half after the other.
    StorePointer {
        p: u32,
        a: u32,
    },
    /// Stores the pointer a at p, in one step.
    BoxStore {
        p: u32,
        a: u32,
    },
    /// d becomes the pointer at p, in place of which comes a, in one step.
    BoxSwap {
        d: u32,
        p: u32,
        a: u32,
    },
    /// d becomes the pointer at p; where its address is that of e, n comes in its place, and w
    /// becomes 1, else 0. Each round looks first and then exchanges in one step; one that is lost to
    /// another thread is made again.
    BoxCas {
        d: u32,
        w: u32,
        p: u32,
        e: u32,
        n: u32,
    },
    /// d becomes what this function returns for so many arguments, which stand in registers from
    /// `first` on.
    Call {
        d: u32,
        function: u32,
        first: u32,
        count: u32,
    },
    /// The same of the function that the pointer a names, if it is of this kind.
    CallPointer {
        d: u32,
        a: u32,
        first: u32,
        count: u32,
        kind: u32,
    },
    /// The function's result is a.
    Return {
        a: u32,
    },
    /// d becomes the pointer to a new object of a bytes, or null.
    New {
        d: u32,
        a: u32,
    },
    /// Frees the object of the pointer a.
    Free {
        a: u32,
    },
    /// d becomes how many bytes the object of the pointer a has.
    Size {
        d: u32,
        a: u32,
    },
    /// Takes the lock at p.
    Lock {
        p: u32,
    },
    /// Puts out the low byte of a.
    Out {
        a: u32,
    },
    /// d becomes the next byte of the input, or -1 at its end.
    Input {
        d: u32,
    },
    /// Starts a thread with the function that the pointer a names and the argument b; d becomes its
    /// id, or -1.
    Spawn {
        d: u32,
        a: u32,
        b: u32,
    },
    /// d becomes the result of the thread of the id a, or 4294967296.
    Join {
        d: u32,
        a: u32,
    },
    /// d becomes the id of this thread.
    SelfId {
        d: u32,
    },
    /// Ends the program with the low byte of a as its status.
    Exit {
        a: u32,
    },
    /// Stops the program.
    Abort,
}

/// An instruction with the place that it comes from in the file.
#[derive(Clone, Copy, Debug, PartialEq, Eq)]
pub struct Instruction {
    /// The line of the first token of the smallest expression, declarator or statement that it plays.
    pub line: u32,
    /// Whether it plays library text, whose traps have the line of the call into it.
    pub library: bool,
    pub op: Op,
}
