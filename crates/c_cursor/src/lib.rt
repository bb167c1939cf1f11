//! A cursor over tokens that knows the names in scope.
#![tactic(auto)]

mod cursor;
mod fault;
mod marks;
mod names;

pub use cursor::Cursor;
pub use fault::Fault;
pub use marks::{Before, Start};
pub use names::Names;
