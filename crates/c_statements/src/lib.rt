//! Declarations, statements and functions (C11 6.7, 6.8, 6.9.1), as typed statements. `src/statements.rt` is the recursion
//! over statements.
#![tactic(auto)]

mod blocks;
mod declarations;
mod declaring;
mod expressions;
mod functions;
mod runs;
mod statements;

pub use declarations::declaration_made;
pub use functions::function_made;
pub use runs::asserted;
