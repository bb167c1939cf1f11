//! The abstract machine: what a thread may ask of the memory, what it may be answered, and what
//! changes then.
//!
//! Its memory is as C sees it: a list of objects that only grows, the bytes put out, the threads'
//! slots. It knows no code, no heap and no collector, and nothing is ever collected. The rest of
//! the repository is measured against it: a run is right where its events, one after another, are
//! allowed here.
//!
//! Read `specs/Memory.antt` first, then `specs/Allows.antt` and `specs/Effects.antt`: when an event
//! may get an answer, and what it changes then. `specs/Refusals.antt` has the reasons why a pointer
//! is refused, and `laws` what holds of all this. `specs/Play.antt` says what a thread is:
//! something that asks, and goes on by the reply.
#![tactic(auto)]

mod event;
mod finish;
pub mod laws;
mod value;

pub use event::{Access, Answer, Event, Operation, Seen};
pub use finish::Finish;
pub use value::{Found, Half, Kept, Value};
