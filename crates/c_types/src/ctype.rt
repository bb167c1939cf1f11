//! Types, and their sizes and alignments.

ghost use Rattle.std.specs.Prelude.{◌≡◌, ◌<◌, ◌==◌};
ghost use Rattle.c_types.specs.Extents.{IsExtent};

use crate::qualifier_set::Qualifiers;
use bitflags::Flags;
use filc_num::CIntType;

/// The greatest size of an object in bytes.
pub const MOST_OBJECT_BYTES: u64 = 131_072;

/// The size and the alignment of a complete type.
#[derive(Clone, Copy, Debug, PartialEq, Eq, PartialOrd, Ord)]
pub struct Extent {
    pub size: u64,
    pub align: u64,
    pub ghost sound: { IsExtent size align },
}

/// A part of a type: the number of the part's own type, and the part's qualifiers.
#[derive(Clone, Copy, Debug, PartialEq, Eq, PartialOrd, Ord)]
pub struct Part {
    pub number: u32,
    pub qualifiers: Qualifiers,
}

impl Part {
    ghost use Rattle.c_types.specs.Qualifiers.{has_all};

    /// Whether two parts are of one type, but for the qualifiers that they have there.
    pub fn is_same_unqualified(self, other: Part) -> bool
        ensures { result ≡ (self.number == other.number) }
    {
        self.number == other.number
    }

    /// Whether this part has all qualifiers of another.
    pub fn keeps_qualifiers_of(self, other: Part) -> bool
        ensures { result ≡ has_all self.qualifiers other.qualifiers }
    {
        self.qualifiers.contains(other.qualifiers)
    }
}

/// How many elements an array has: one at least.
#[derive(Clone, Copy, Debug, PartialEq, Eq)]
pub struct ElementCount {
    pub value: u64,
    pub ghost some: { 0 < value },
}

/// An array: its element, whose type is complete, and how many of them there are.
#[derive(Clone, Copy, Debug, PartialEq, Eq, PartialOrd, Ord)]
pub struct Array {
    pub element: Part,
    pub extent: Extent,
    pub count: u64,
    pub ghost some: { 0 < count },
}

/// A function: the type of its result, and the number of its list of parameters. Neither the result nor a
/// parameter has qualifiers of its own (C11 6.7.6.3p15).
#[derive(Clone, Copy, Debug, PartialEq, Eq, PartialOrd, Ord)]
pub struct Signature {
    pub result: u32,
    pub parameters: u32,
    /// Whether further arguments may follow.
    pub more: bool,
}

/// A type of C. It names its parts by their numbers, and a structure, union or enumeration by the number
/// of its tag, since each of those is a type of its own (C11 6.7.2.3).
#[derive(Clone, Copy, Debug, PartialEq, Eq, PartialOrd, Ord)]
pub enum CType {
    Void,
    Integer(CIntType),
    /// An enumeration, which is kept as an `int`.
    Enumeration(u32),
    /// A pointer to this part.
    Pointer(Part),
    ArrayOf(Array),
    Function(Signature),
    /// A structure, with its extent once it has contents.
    Structure(u32, Option<Extent>),
    Union(u32, Option<Extent>),
}

/// Why a type has no size.
#[derive(Clone, Copy, Debug, PartialEq, Eq)]
pub enum TypeFault {
    /// It is void, a function, or a structure or union without contents.
    Incomplete,
    /// It has over 131,072 bytes.
    TooLarge,
}
