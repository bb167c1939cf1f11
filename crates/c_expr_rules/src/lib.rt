//! What a typed expression is, and which rules an expression can break (C11 6.5, 6.6): the definition, and the parts that all
//! operators and calls share.
//!
//! Read `specs/Expressions.antt` first: its head has a table of the rules that can hold of each kind of expression, and its
//! recursion is the order in which they are looked at. `specs/Outcomes.antt` says what one construct leaves for the next,
//! `specs/Operators.antt`, `specs/Converting.antt` and `specs/Constants.antt` go beside C11 6.5, 6.3 and 6.6, and
//! `specs/Contexts.antt` has the conditions, constants and results of statements and declarations. `specs/Views.antt` says
//! what the values of the code are in the words of these.
//!
//! The crates above make what is defined here: `c_operators` of operators, `c_calls` of names and calls.
#![tactic(auto)]

mod above;
mod arguments;
mod arithmetic;
mod around;
mod converting;
pub mod folding;
mod found;
mod kinds;
mod known;
pub mod laws;
mod made;
mod printer;
mod reading;
mod special;
mod state;
mod typed;
mod types;

pub use above::{Fill, Filled, Placed};
pub use arguments::{Arguments, Wanted, first_first, last_first};
pub use arithmetic::{as_address, back, forward, is_shift, is_zero, operate};
pub use around::Surroundings;
pub use converting::{
    as_pointer, cast_value, convert_value, converts, integer_as, is_cast, is_null_constant,
    is_refused, point_alike,
};
pub use folding::convert_known;
pub use found::{Broken, Fault, Found, also, also_if_broken, by_rules};
pub use kinds::{common_kind, promote, rank};
pub use known::Known;
pub use made::{Made, leaf, made_of, operand_of, then_do, tree_of, with_operand, with_operation};
pub use printer::{Mode, Printer};
pub use reading::{behind, is_lvalue, is_register, read, read_found, target_found};
pub use special::{AtomicCall, Special, special_of};
pub use state::{Contents, Literal, Mark, MemberPlace, State};
pub use typed::{Place, Tests, Typed, constant, kind_value, part_value, value};
pub use types::{
    access_of, align_or_one, always_has_home, complete_size, copy_of, element_bytes, element_size,
    integer_kind, is_array, is_atomic, is_complete, is_const, is_integer, is_pointer, is_record,
    is_same_record, is_scalar, is_void, kind_of_value, pointed_part, record_number, size_or_zero,
    type_at, unit_of,
};
