//! The registers of a function's frame.

/// The registers of a frame, and so the most values that a function may have.
pub const REGISTERS: u32 = 256;

/// The registers of a function beyond its locals and its temporaries.
pub const SPARE_REGISTERS: u32 = 8;
