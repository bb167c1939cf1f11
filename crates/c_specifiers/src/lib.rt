//! Which type a list of type specifiers names (C11 6.7.2).
//!
//! Read `specs/Specifiers.antt`: it has the table of C11 6.7.2p2 for the types of this language. Then `specs/Lists.antt`
//! says what a list of specifiers is: a storage class, qualifiers, function specifiers and a type.
#![tactic(auto)]

pub mod laws;
mod list;
mod name;
mod names;
mod qualifiers;

pub use c_syntax::BasicType;
pub use list::{
    SpecifierFault, Standing, TypeSpecifier, allows, has_function_word, qualifiers_among,
    storage_class, type_specifier,
};
pub use name::type_named;
pub use names::{NameFault, tag_type, typedef_type};
pub use qualifiers::qualifiers_of;
