//! What a name is as an expression, and what a call makes of what is found of the function and its arguments
//! (C11 6.5.1, 6.5.2.2), with the calls of `printf` and of operations on atomic objects.
//!
//! The definition is `c_expr_rules`: `specs/Calls.antt` has the calls and `specs/Expressions.antt` the names.
#![tactic(auto)]

mod atomic_calls;
mod calls;
mod names;
mod printing;

pub use atomic_calls::atomic_call;
pub use calls::{argument, call, convert_found, following, wanted_of, wanted_type};
pub use names::{
    align_typed, is_too_long, name_typed, object_typed, size_typed, size_value, text_typed,
};
pub use printing::{bad_print, print_call};
