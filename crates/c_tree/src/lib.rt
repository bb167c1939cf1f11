//! The typed tree: a program whose names are resolved and whose conversions are explicit.
//!
//! The checker makes it, the meaning of a run is defined on it, and the compiler goes over it. Functions,
//! statics and locals are numbers, and each node knows its line. There is no type of places: a place in memory
//! is the value of a pointer expression, and a local without a home is its number. Reading a place is `Load`;
//! decay and `&` leave no trace.
//!
//! Read `specs/Fits.antt` first. It says what a program keeps.
#![tactic(auto)]

mod declared;
mod expr;
mod operation;
mod program;
mod stmt;

pub use declared::{
    Declared, DeclaredFunction, DeclaredObject, DeclaredTag, Definition, Linkage, ObjectNumber,
};
pub use expr::{Expr, Link};
pub use operation::{Access, Change, Operation, Piece, Unit};
pub use program::{FunctionDef, Program};
pub use stmt::{Case, LocalDef, LocalKind, Stmt};
