//! The integer types of C and the operators on two integers.

ghost use Rattle.std.specs.Prelude.{◌≡◌, nat_lt};
ghost use Rattle.filc_num.specs.Integers.{width_of, bytes_of, is_signed, limit_of};

/// An integer type of C with its width: `_Bool`, and the two's complement types of 8 to 64 bits.
///
/// A value is kept in a `u64`: sign-extended where the type is signed, else zero-extended.
#[derive(Clone, Copy, Debug, PartialEq, Eq)]
pub enum IntType {
    Bool,
    I8,
    U8,
    I16,
    U16,
    I32,
    U32,
    I64,
    U64,
}

impl IntType {
    /// How many bits a value has, the sign among them.
    pub fn width(self) -> u32
        ensures { result ≡ width_of self }
    {
        match self {
            IntType::Bool => 1,
            IntType::I8 | IntType::U8 => 8,
            IntType::I16 | IntType::U16 => 16,
            IntType::I32 | IntType::U32 => 32,
            IntType::I64 | IntType::U64 => 64,
        }
    }

    /// How many bytes an object of the type takes.
    pub fn bytes(self) -> u32
        ensures { result ≡ bytes_of self }
    {
        self.width().div_ceil(8)
    }

    /// Whether the type has negative values.
    pub fn is_signed(self) -> bool
        ensures { result ≡ is_signed self }
    {
        matches!(
            self,
            IntType::I8 | IntType::I16 | IntType::I32 | IntType::I64
        )
    }

    /// Whether a natural number is an integer of the type.
    pub fn holds(self, number: u64) -> bool
        ensures { result ≡ nat_lt number (limit_of self) }
    {
        match self {
            IntType::Bool => number < 1 << 1,
            IntType::I8 => number < 1 << 7,
            IntType::U8 => number < 1 << 8,
            IntType::I16 => number < 1 << 15,
            IntType::U16 => number < 1 << 16,
            IntType::I32 => number < 1 << 31,
            IntType::U32 => number < 1 << 32,
            IntType::I64 => number < 1 << 63,
            IntType::U64 => true,
        }
    }
}

/// An operator on two integers, in the order in which listings number them.
#[derive(Clone, Copy, Debug, PartialEq, Eq)]
pub enum BinOp {
    Add,
    Sub,
    Mul,
    Div,
    Rem,
    And,
    Or,
    Xor,
    Shl,
    Shr,
    Lt,
    Le,
    Gt,
    Ge,
    Eq,
    Ne,
}

/// Why an operator has no result.
#[derive(Clone, Copy, Debug, PartialEq, Eq)]
pub enum ArithFault {
    /// A zero divisor, or the least value divided by -1.
    Divide,
    /// A shift count that is not below the width.
    Shift,
}
