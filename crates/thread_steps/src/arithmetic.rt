//! Conversions and operators in few machine instructions.
//!
//! The definitions are those of `filc_num`, which converts both operands before, and the result again.
//! The low bits of a sum, a difference or a product don't depend on the bits above them, and those of
//! `&`, `|`, `^` and `<<` don't either: there only the result is converted. A conversion to a signed
//! type is one extension by the sign.

ghost use Rattle.std.specs.Prelude.{◌≡◌, ◌<◌, IsTrue, Ok, int_lt, nat_eq};
ghost use Rattle.filc_num.specs.declared.integer.BinOp.TheVariants as operator;
ghost use Rattle.filc_num.specs.declared.integer.IntType.TheVariants.{I8, I16, I32};
ghost use Rattle.filc_num.specs.Integers.{convert_of, width_of, value_of, is_promoted, IsValue};
ghost use Rattle.ideal_machine.specs.Phrases.{operator_result};
ghost use Rattle.whole_code.specs.Numbers.{operator_at, type_at};
ghost use Rattle.whole_code.specs.Numbers.{IsOperatorNumber, IsArithmeticNumber};

use filc_num::{ArithFault, BinOp, IntType, binary, convert};
use whole_code::{operator_at, type_at};

/// The low 8 bits, extended by their sign.
#[inline(always)]
#[tactic(auto, unfolding(filc_num::specs::Integers::convert_of))]
fn signed_8(v: u64) -> u64
    ensures { result ≡ convert_of v I8 }
{
    let low = (v % (1 << 8)) as u8;
    i64::from(low.cast_signed()).cast_unsigned()
}

/// The low 16 bits, extended by their sign.
#[inline(always)]
#[tactic(auto, unfolding(filc_num::specs::Integers::convert_of))]
fn signed_16(v: u64) -> u64
    ensures { result ≡ convert_of v I16 }
{
    let low = (v % (1 << 16)) as u16;
    i64::from(low.cast_signed()).cast_unsigned()
}

/// The low 32 bits, extended by their sign.
#[inline(always)]
#[tactic(auto, unfolding(filc_num::specs::Integers::convert_of))]
fn signed_32(v: u64) -> u64
    ensures { result ≡ convert_of v I32 }
{
    let low = (v % (1 << 32)) as u32;
    i64::from(low.cast_signed()).cast_unsigned()
}

/// Kept bits converted to a type (C11 6.3.1.2 and 6.3.1.3).
#[inline(always)]
#[tactic(auto, unfolding(filc_num::specs::Integers::convert_of))]
pub fn converted(v: u64, ty: IntType) -> u64
    ensures { result ≡ convert_of v ty }
{
    match ty {
        IntType::Bool => u64::from(v != 0),
        IntType::I8 => signed_8(v),
        IntType::U8 => v % (1 << 8),
        IntType::I16 => signed_16(v),
        IntType::U16 => v % (1 << 16),
        IntType::I32 => signed_32(v),
        IntType::U32 => v % (1 << 32),
        IntType::I64 | IntType::U64 => v,
    }
}

/// Whether the value of a type that `a` is converted to is less than that of `b`.
#[inline(always)]
fn is_less(ty: IntType, a: u64, b: u64) -> bool
    ensures { result ≡ int_lt (value_of ty (convert_of a ty)) (value_of ty (convert_of b ty)) }
{
    let left = converted(a, ty);
    let right = converted(b, ty);
    if ty.is_signed() {
        left.cast_signed() < right.cast_signed()
    } else {
        left < right
    }
}

/// Whether the values of a type that `a` and `b` are converted to are the same.
#[inline(always)]
fn is_same(ty: IntType, a: u64, b: u64) -> bool
    ensures { result ≡ nat_eq (convert_of a ty) (convert_of b ty) }
{
    converted(a, ty) == converted(b, ty)
}

/// `a + b` in a type.
#[inline(always)]
fn sum(ty: IntType, a: u64, b: u64) -> u64
    requires { IsTrue (is_promoted ty) }
    ensures { Ok result ≡ operator_result operator.Add ty a b }
{
    converted(a.wrapping_add(b), ty)
}

/// `a - b` in a type.
#[inline(always)]
fn difference(ty: IntType, a: u64, b: u64) -> u64
    requires { IsTrue (is_promoted ty) }
    ensures { Ok result ≡ operator_result operator.Sub ty a b }
{
    converted(a.wrapping_sub(b), ty)
}

/// `a * b` in a type.
#[inline(always)]
fn product(ty: IntType, a: u64, b: u64) -> u64
    requires { IsTrue (is_promoted ty) }
    ensures { Ok result ≡ operator_result operator.Mul ty a b }
{
    converted(a.wrapping_mul(b), ty)
}

/// `a & b` in a type.
#[inline(always)]
fn bits_of_both(ty: IntType, a: u64, b: u64) -> u64
    requires { IsTrue (is_promoted ty) }
    ensures { Ok result ≡ operator_result operator.And ty a b }
{
    converted(a & b, ty)
}

/// `a | b` in a type.
#[inline(always)]
fn bits_of_either(ty: IntType, a: u64, b: u64) -> u64
    requires { IsTrue (is_promoted ty) }
    ensures { Ok result ≡ operator_result operator.Or ty a b }
{
    converted(a | b, ty)
}

/// `a ^ b` in a type.
#[inline(always)]
fn bits_of_one(ty: IntType, a: u64, b: u64) -> u64
    requires { IsTrue (is_promoted ty) }
    ensures { Ok result ≡ operator_result operator.Xor ty a b }
{
    converted(a ^ b, ty)
}

/// `a << count` in a type, for a count below its width.
#[inline(always)]
fn shifted(ty: IntType, a: u64, count: u64) -> u64
    requires promoted { IsTrue (is_promoted ty) }
    requires count { count < width_of ty }
    ensures { Ok result ≡ operator_result operator.Shl ty a count }
{
    converted(a << count, ty)
}

/// `a << count` in a type.
#[inline(always)]
fn left_shift(ty: IntType, a: u64, count: u64) -> Result<u64, ArithFault>
    requires promoted { IsTrue (is_promoted ty) }
    ensures { result ≡ operator_result operator.Shl ty a count }
{
    if count < u64::from(ty.width()) {
        Ok(shifted(ty, a, count))
    } else {
        Err(ArithFault::Shift)
    }
}

/// `a < b` in a type, as an `int`.
#[inline(always)]
#[tactic(auto, unfolding(filc_num::specs::Integers::binary_of))]
fn less(ty: IntType, a: u64, b: u64) -> u64
    ensures { Ok result ≡ operator_result operator.Lt ty a b }
{
    u64::from(is_less(ty, a, b))
}

/// `a <= b` in a type, as an `int`.
#[inline(always)]
#[tactic(auto, unfolding(filc_num::specs::Integers::binary_of))]
fn less_or_same(ty: IntType, a: u64, b: u64) -> u64
    ensures { Ok result ≡ operator_result operator.Le ty a b }
{
    u64::from(!is_less(ty, b, a))
}

/// `a > b` in a type, as an `int`.
#[inline(always)]
#[tactic(auto, unfolding(filc_num::specs::Integers::binary_of))]
fn greater(ty: IntType, a: u64, b: u64) -> u64
    ensures { Ok result ≡ operator_result operator.Gt ty a b }
{
    u64::from(is_less(ty, b, a))
}

/// `a >= b` in a type, as an `int`.
#[inline(always)]
#[tactic(auto, unfolding(filc_num::specs::Integers::binary_of))]
fn greater_or_same(ty: IntType, a: u64, b: u64) -> u64
    ensures { Ok result ≡ operator_result operator.Ge ty a b }
{
    u64::from(!is_less(ty, a, b))
}

/// `a == b` in a type, as an `int`.
#[inline(always)]
#[tactic(auto, unfolding(filc_num::specs::Integers::binary_of))]
fn same(ty: IntType, a: u64, b: u64) -> u64
    ensures { Ok result ≡ operator_result operator.Eq ty a b }
{
    u64::from(is_same(ty, a, b))
}

/// `a != b` in a type, as an `int`.
#[inline(always)]
#[tactic(auto, unfolding(filc_num::specs::Integers::binary_of))]
fn different(ty: IntType, a: u64, b: u64) -> u64
    ensures { Ok result ≡ operator_result operator.Ne ty a b }
{
    u64::from(!is_same(ty, a, b))
}

/// An operator that looks at the values, with their sign.
fn by_values(op: BinOp, ty: IntType, a: u64, b: u64) -> Result<u64, ArithFault>
    requires promoted { IsTrue (is_promoted ty) }
    ensures { result ≡ operator_result op ty a b }
{
    let left = convert(a, ty);
    match op {
        BinOp::Shl | BinOp::Shr => binary(op, ty, left, b),
        _ => binary(op, ty, left, convert(b, ty)),
    }
}

/// An operator on two integers, which are converted to its type before, but for a shift's count
/// (C11 6.3.1.8).
#[inline(always)]
pub fn arithmetic(op: u32, t: u32, a: u64, b: u64) -> Result<u64, ArithFault>
    requires op { IsOperatorNumber op }
    requires t { IsArithmeticNumber t }
    ensures { result ≡ operator_result (operator_at op) (type_at t) a b }
{
    let op = operator_at(op);
    let ty = type_at(t);
    match op {
        BinOp::Add => Ok(sum(ty, a, b)),
        BinOp::Sub => Ok(difference(ty, a, b)),
        BinOp::Mul => Ok(product(ty, a, b)),
        BinOp::And => Ok(bits_of_both(ty, a, b)),
        BinOp::Or => Ok(bits_of_either(ty, a, b)),
        BinOp::Xor => Ok(bits_of_one(ty, a, b)),
        BinOp::Shl => left_shift(ty, a, b),
        BinOp::Lt => Ok(less(ty, a, b)),
        BinOp::Le => Ok(less_or_same(ty, a, b)),
        BinOp::Gt => Ok(greater(ty, a, b)),
        BinOp::Ge => Ok(greater_or_same(ty, a, b)),
        BinOp::Eq => Ok(same(ty, a, b)),
        BinOp::Ne => Ok(different(ty, a, b)),
        BinOp::Div | BinOp::Rem | BinOp::Shr => by_values(op, ty, a, b),
    }
}
