//! C's integer types by their names.

ghost use Rattle.std.specs.Prelude.{◌≡◌};
ghost use Rattle.filc_num.specs.CIntTypes.{int_type_of};

use crate::integer::IntType;

/// An integer type of C by its name (C11 6.2.5). Types of one width and sign are different types.
#[derive(Clone, Copy, Debug, PartialEq, Eq, PartialOrd, Ord)]
pub enum CIntType {
    Bool,
    Char,
    SignedChar,
    UnsignedChar,
    Short,
    UnsignedShort,
    Int,
    UnsignedInt,
    Long,
    UnsignedLong,
    LongLong,
    UnsignedLongLong,
}

impl CIntType {
    /// How the type's values are computed and kept. `char` is signed, and `long` and `long long` have 64 bits.
    pub fn int_type(self) -> IntType
        ensures { result ≡ int_type_of self }
    {
        match self {
            CIntType::Bool => IntType::Bool,
            CIntType::Char | CIntType::SignedChar => IntType::I8,
            CIntType::UnsignedChar => IntType::U8,
            CIntType::Short => IntType::I16,
            CIntType::UnsignedShort => IntType::U16,
            CIntType::Int => IntType::I32,
            CIntType::UnsignedInt => IntType::U32,
            CIntType::Long | CIntType::LongLong => IntType::I64,
            CIntType::UnsignedLong | CIntType::UnsignedLongLong => IntType::U64,
        }
    }
}
