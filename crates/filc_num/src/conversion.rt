//! Conversion between integer types.

ghost use Rattle.std.specs.Prelude.{◌≡◌};
ghost use Rattle.filc_num.specs.Integers.{convert_of, IsValue};

use crate::integer::IntType;

/// Converts the kept bits `v` to a type (C11 6.3.1.2 and 6.3.1.3). What type they had plays no part:
/// the bits above a value's width are those that its own type gives it.
#[tactic(auto, unfolding(crate::specs::Integers::convert_of))]
pub fn convert(v: u64, to: IntType) -> u64
    ensures exact { result ≡ convert_of v to }
    ensures value { IsValue to result }
{
    macro_rules! by_target {
        ($($signed:ident and $unsigned:ident have $bits:literal),*) => {
            match to {
                IntType::Bool => u64::from(v != 0),
                $(
                    IntType::$signed => {
                        let low = v % (1 << $bits);
                        if low < 1 << ($bits - 1) { low } else { low + (u64::MAX - (1 << $bits) + 1) }
                    }
                    IntType::$unsigned => v % (1 << $bits),
                )*
                IntType::I64 | IntType::U64 => v,
            }
        };
    }
    by_target! { I8 and U8 have 8, I16 and U16 have 16, I32 and U32 have 32 }
}
