//! The code of operations and expressions, and the law that it plays them.
//!
//! The operands of an operation are evaluated from left to right, each into the register after that of
//! the one before, and its value comes into the register of the first. So code needs no stack, and a
//! chain of operators as long as a file needs two registers.
//!
//! Read `specs/Operations.antt` for the instructions of each operation, `specs/Code.antt` for
//! expressions, and `specs/Correct.antt` for what is promised.
#![tactic(auto)]

pub mod laws;
