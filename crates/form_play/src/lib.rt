//! The meaning of a program: what its C text asks of the abstract machine.
//!
//! Each construct of C has its equation in `specs/FormPlay.antt`, with no schedule, no code and no
//! heap. `specs/Legal.antt` puts the threads' plays and the machine's transitions together: it says
//! which histories a program may have. `specs/Observable.antt` says what of a history the outside
//! sees.
//!
//! The crate has definitions, laws about them, and no calls that a program makes.
#![tactic(auto)]

pub mod laws;
