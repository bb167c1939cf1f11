//! What a declaration says: its specifiers and a declarator, as one type.
//!
//! Read `specs/Specified.antt` first, then `specs/Declarations.antt`. `specs/ParameterTypes.antt` says what a list of
//! parameters is.
#![tactic(auto)]

mod declaration;
mod fault;
mod parameters;
mod specifier_list;

pub use declaration::{
    Declaration, Found, declaration_of, declarator_type, knows_lists_in, rule_of,
};
pub use fault::DeclarationFault;
pub use parameters::{knows_parameters, parameter_types};
pub use specifier_list::{
    Named, Specification, Words, knows_whole, rule_of_words, specification_of, words_in,
};
