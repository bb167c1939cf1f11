//! How large a thread's block of registers is, and the numbers that have names of their own.

/// How many activations a thread has at most, its first one among them.
pub const ACTIVATIONS: usize = 1024;

/// How many there are at most beside the first.
pub const FURTHER_ACTIVATIONS: usize = 1023;

/// How many registers of the block an activation has: `filc_num::REGISTERS`, as the size that it is.
pub const FRAME: usize = 256;

/// How many registers the block has: a frame for each activation.
pub const BLOCK: usize = 262_144;

/// The kind of function that a thread begins with, `int(void*)`.
pub const THREAD_KIND: u32 = 0;

/// The address of the heap's first word.
pub const FIRST_ADDRESS: u64 = 65_536;

/// How many bytes a word has.
pub const WORD_BYTES: u64 = 8;

/// What a join gives where no thread has the id.
pub const NO_THREAD: u64 = 4_294_967_296;
