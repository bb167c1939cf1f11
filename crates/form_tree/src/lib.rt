//! The tree of the small form: a program whose names are resolved and whose conversions are explicit.
//!
//! `form_reader` makes it, the meaning of a run is defined on it (`form_play`), and the compiler goes
//! over it. Functions and locals are numbers, and each node knows its line.
//!
//! A file may nest to a stated depth, but its chains of operators of one level and its lists of
//! statements are as long as it likes. So these are lists in the tree too, and whoever walks it
//! recurses by nesting alone.
//!
//! Read `specs/Fits.antt` first. It says what a tree keeps.
#![tactic(auto)]

mod expr;
mod program;
mod stmt;
mod temps;

pub use expr::{Expr, Link};
pub use program::{FunctionDef, Program};
pub use stmt::{LocalDef, Stmt};
pub use temps::{expr_temps, statement_temps};
