//! What the parts of a type name make: tags, members, enumeration constants, parameters, declarators
//! over their base, and what a list of specifiers says. Nothing here looks at an expression.
#![tactic(auto)]

mod constants;
mod declarators;
mod members;
mod parameters;
mod said;
mod tags;

pub use constants::{counted_constant, enum_found, valued_constant};
pub use declarators::{declared_type, size_rule};
pub use members::{also_declares, declare_member, obey_member, record_found};
pub use parameters::{function_suffix, parameter_found};
pub use said::{
    Follows, Place, atomic_found, is_function, is_function_declared, is_tag_alone, makes_function,
    place_of, specified, typedef_named,
};
pub use tags::{tag_alone, tag_of, type_to_list};
