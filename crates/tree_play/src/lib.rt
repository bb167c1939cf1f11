//! The meaning of a program: what its C text asks of the abstract machine.
//!
//! `specs/Apply.antt` has a line for each operation, `specs/Expressions.antt` and
//! `specs/Statements.antt` an equation for each construct, and `specs/TreePlay.antt` puts them
//! together to the play of a thread. What each event is asked for, and at which line it may trap,
//! is said in `ideal_machine`, in phrases that register code cites too.
//!
//! The crate has definitions, laws about them, and no calls that a program makes.
#![tactic(auto)]

pub mod laws;
