//! Integer types in operations: ranks, promotion, and the type of two operands (C11 6.3.1).

ghost use Rattle.std.specs.Prelude.{◌≡◌, IsTrue};
ghost use Rattle.filc_num.specs.CIntTypes.{int_type_of};
ghost use Rattle.filc_num.specs.Integers.{is_promoted};
ghost use Rattle.c_expr_rules.specs.IntegerTypes.{rank_of, is_signed_kind, promotion, unsigned_of, greater_rank, of_both_signs, of_promoted, common_kind};

use filc_num::CIntType;

/// The rank of an integer type (6.3.1.1p1).
pub fn rank(kind: CIntType) -> u32
    ensures { result ≡ rank_of kind }
{
    match kind {
        CIntType::Bool => 0,
        CIntType::Char | CIntType::SignedChar | CIntType::UnsignedChar => 1,
        CIntType::Short | CIntType::UnsignedShort => 2,
        CIntType::Int | CIntType::UnsignedInt => 3,
        CIntType::Long | CIntType::UnsignedLong => 4,
        CIntType::LongLong | CIntType::UnsignedLongLong => 5,
    }
}

/// What promotion makes of a type (6.3.1.1p2).
pub fn promote(kind: CIntType) -> CIntType
    ensures kind { result ≡ promotion kind }
    ensures promoted { IsTrue (is_promoted (int_type_of result)) }
{
    match kind {
        CIntType::Bool
        | CIntType::Char
        | CIntType::SignedChar
        | CIntType::UnsignedChar
        | CIntType::Short
        | CIntType::UnsignedShort => CIntType::Int,
        CIntType::Int
        | CIntType::UnsignedInt
        | CIntType::Long
        | CIntType::UnsignedLong
        | CIntType::LongLong
        | CIntType::UnsignedLongLong => kind,
    }
}

fn is_signed(kind: CIntType) -> bool
    ensures { result ≡ is_signed_kind kind }
{
    kind.int_type().is_signed()
}

/// The unsigned type that corresponds to a signed one (6.2.5p6); any other type is itself.
fn to_unsigned(kind: CIntType) -> CIntType
    ensures { result ≡ unsigned_of kind }
{
    match kind {
        CIntType::Int => CIntType::UnsignedInt,
        CIntType::Long => CIntType::UnsignedLong,
        CIntType::LongLong => CIntType::UnsignedLongLong,
        _ => kind,
    }
}

fn greater(a: CIntType, b: CIntType) -> CIntType
    ensures { result ≡ greater_rank a b }
{
    if rank(a) < rank(b) { b } else { a }
}

/// The type of a signed and an unsigned operand.
fn of_both_signs(signed: CIntType, unsigned: CIntType) -> CIntType
    ensures { result ≡ of_both_signs signed unsigned }
{
    if rank(signed) <= rank(unsigned) {
        return unsigned;
    }
    if unsigned.int_type().width() < signed.int_type().width() {
        signed
    } else {
        to_unsigned(signed)
    }
}

/// The type of two promoted operands.
fn of_promoted(a: CIntType, b: CIntType) -> CIntType
    ensures { result ≡ of_promoted a b }
{
    match (is_signed(a), is_signed(b)) {
        (true, false) => of_both_signs(a, b),
        (false, true) => of_both_signs(b, a),
        _ => greater(a, b),
    }
}

/// The type of two operands by the usual arithmetic conversions (6.3.1.8): one in which operations are computed.
pub fn common_kind(a: CIntType, b: CIntType) -> CIntType
    ensures kind { result ≡ common_kind a b }
    ensures promoted { IsTrue (is_promoted (int_type_of result)) }
{
    let a = promote(a);
    let b = promote(b);
    of_promoted(a, b)
}
