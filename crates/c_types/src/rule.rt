//! Why there is no such type.

/// The rules that a declarator can break, the first one first.
#[derive(Clone, Copy, Debug, PartialEq, Eq)]
pub enum TypeRule {
    /// An array's element, or a parameter without a name, has no size.
    Incomplete,
    /// An array has over 131,072 bytes.
    TooLarge,
    /// An array's size is absent, or no count of elements.
    BadSize,
    /// A function's result is a function, an array, a structure or a union, or a parameter is a structure or
    /// a union.
    BadFunction,
}

/// Why a declarator has no type.
#[derive(Clone, Copy, Debug, PartialEq, Eq)]
pub enum DeriveFault {
    /// It breaks this rule, and none that comes before it.
    Broken(TypeRule),
    NoMemory,
}
