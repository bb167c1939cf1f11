//! How a free cell becomes an object: claiming it, and publishing it.
//!
//! A cell goes through three states. Whoever exchanges the state of a free one for that of a
//! claimed one has the cell, and nobody else touches it then (`Claim`). It writes the header and
//! clears the payload, and sets the state to that of a live cell at last (`Publish`). The state
//! comes last because the sweep goes by it: a cell that were live before it has its mark would
//! look like one of an old cycle, and would be set free under its thread.
//!
//! Read `specs/Claim.antt` and `specs/Publish.antt` first. They say what each piece wants, what
//! becomes of it by an answer, and what one step means. `specs/Claims.antt` says what a claim
//! finds, alone and whatever other threads do in between. `src/laws.rt` has the laws.
#![tactic(auto)]

mod claim;
pub mod laws;
mod publish;
#[cfg(test)]
mod tests;

pub use claim::{Claim, ClaimStage};
pub use publish::{Publish, PublishStage};
