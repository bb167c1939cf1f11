//! Names and what they stand for: two name spaces, blocks and linkage.
//!
//! Read `specs/Blocks.antt` first, which says what is visible, then `specs/Again.antt`, which says which
//! declarations of one name may stand together, and `specs/Scopes.antt`.
#![tactic(auto)]

mod again;
mod blocks;
pub mod laws;
mod scopes;
mod space;

pub use again::declaration;
pub use blocks::Declaration;
pub use scopes::{Scope, Scopes, space_of};
pub use space::{DeclareFault, Space, Unknown};
