//! What a name stands for.

use c_types::{Part, Tag};

/// How declarations of one name in several scopes belong together (C11 6.2.2).
#[derive(Clone, Copy, Debug, PartialEq, Eq)]
pub enum Linkage {
    /// Each declaration is of a thing of its own.
    NoLinkage,
    Internal,
    External,
    /// That of what stood before, or external where nothing stood: it is that of `extern`, and of a function
    /// without a storage word.
    Prior,
}

/// The number of a static object, or of a local of the function.
#[derive(Clone, Copy, Debug, PartialEq, Eq)]
pub enum ObjectNumber {
    Static(u32),
    Local(u32),
}

/// How far declarations define an object (C11 6.9.2).
#[derive(Clone, Copy, Debug, PartialEq, Eq)]
pub enum Definition {
    /// Not at all: each is `extern`, without an initialiser.
    None,
    /// One outside of functions has neither `extern` nor an initialiser: where nothing defines the object, it
    /// is zero.
    Tentative,
    /// One has an initialiser, or stands in a function without `extern`.
    Full,
}

/// An object: the line of its first declarator, its type, and how far it is defined.
#[derive(Clone, Copy, Debug, PartialEq, Eq)]
pub struct DeclaredObject {
    pub line: u32,
    pub ty: Part,
    pub number: ObjectNumber,
    pub linkage: Linkage,
    pub is_register: bool,
    pub definition: Definition,
}

/// A function: the line of its first declarator, the number of its type, and whether it has a body.
#[derive(Clone, Copy, Debug, PartialEq, Eq)]
pub struct DeclaredFunction {
    pub line: u32,
    pub ty: u32,
    pub number: u32,
    pub linkage: Linkage,
    pub is_defined: bool,
}

/// A tag: what it names, the number of its type, and whether its list of members or constants was there.
#[derive(Clone, Copy, Debug, PartialEq, Eq)]
pub struct DeclaredTag {
    pub kind: Tag,
    pub ty: u32,
    pub is_listed: bool,
}

/// What a name stands for.
#[derive(Clone, Copy, Debug, PartialEq, Eq)]
pub enum Declared {
    Object(DeclaredObject),
    Function(DeclaredFunction),
    Typedef(Part),
    /// A constant of an enumeration: its value, kept as that of an `int`.
    Constant(u64),
    Tag(DeclaredTag),
}
