//! What the table of types holds.

use crate::ctype::CType;

/// What a number of a table of types names: a type, or a list of parameters.
#[derive(Clone, Copy, Debug, PartialEq, Eq, PartialOrd, Ord)]
pub enum Entry {
    OfType(CType),
    NoParameters,
    /// The number of the first parameter's type, and that of the list of the others.
    Parameters(u32, u32),
}

/// What a tag names.
#[derive(Clone, Copy, Debug, PartialEq, Eq)]
pub enum Tag {
    Structure,
    Union,
    Enumeration,
}
