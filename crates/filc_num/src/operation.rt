//! The operators on two values of a promoted type.
//!
//! Kept bits are added, subtracted and multiplied modulo 2^64, and then converted to the type: the low
//! bits of a sum do not depend on the bits above them. Division, `>>` and the comparisons look at the
//! values, with their sign.

ghost use Rattle.std.specs.Prelude.{◌≡◌, ◌≢◌, ◌^◌, ◌-◌, ◌<◌, ◌*ℤ◌, ◌+ℤ◌, ◌-ℤ◌, pos, IfOk, IsTrue, int_lt, nat_lt, int_div, int_rem};
ghost use Rattle.std.specs.Int.{w64, cast_signed, int_shr};
ghost use Rattle.filc_num.specs.Integers.{width_of, is_promoted, value_of, IsValue, IsRightOperand, bits_of, wrap, can_divide, result_type_of, binary_of};

use crate::conversion::convert;
use crate::integer::{ArithFault, BinOp, IntType};

/// Computes an operator on two values of a promoted type, `int` or wider. Arithmetic wraps. `/` and `%`
/// round toward zero and `>>` copies the sign. The count of a shift may be of any type.
///
/// Fails with `Divide` where the divisor is 0 or the least value is divided by -1, and with `Shift`
/// where the count is not below the width.
#[tactic(auto, unfolding(crate::specs::Integers::binary_of))]
pub fn binary(op: BinOp, ty: IntType, a: u64, b: u64) -> Result<u64, ArithFault>
    requires promoted { IsTrue (is_promoted ty) }
    requires left { IsValue ty a }
    requires right { IsRightOperand op ty b }
    ensures exact { result ≡ binary_of op ty a b }
    ensures value { IfOk result (IsValue (result_type_of op ty)) }
{
    match op {
        BinOp::Add => Ok(sum(ty, a, b)),
        BinOp::Sub => Ok(difference(ty, a, b)),
        BinOp::Mul => Ok(product(ty, a, b)),
        BinOp::Div => quotient(ty, a, b),
        BinOp::Rem => remainder(ty, a, b),
        BinOp::And => Ok(convert(a & b, ty)),
        BinOp::Or => Ok(convert(a | b, ty)),
        BinOp::Xor => Ok(convert(a ^ b, ty)),
        BinOp::Shl => left_shift(ty, a, b),
        BinOp::Shr => right_shift(ty, a, b),
        BinOp::Lt => Ok(u64::from(is_less(ty, a, b))),
        BinOp::Le => Ok(u64::from(!is_less(ty, b, a))),
        BinOp::Gt => Ok(u64::from(is_less(ty, b, a))),
        BinOp::Ge => Ok(u64::from(!is_less(ty, a, b))),
        BinOp::Eq => Ok(u64::from(a == b)),
        BinOp::Ne => Ok(u64::from(a != b)),
    }
}

fn sum(ty: IntType, a: u64, b: u64) -> u64
    ensures exact { result ≡ wrap ty (value_of ty a +ℤ value_of ty b) }
    ensures value { IsValue ty result }
{
    convert(a.wrapping_add(b), ty)
}

fn difference(ty: IntType, a: u64, b: u64) -> u64
    ensures exact { result ≡ wrap ty (value_of ty a -ℤ value_of ty b) }
    ensures value { IsValue ty result }
{
    convert(a.wrapping_sub(b), ty)
}

fn product(ty: IntType, a: u64, b: u64) -> u64
    ensures exact { result ≡ wrap ty (value_of ty a *ℤ value_of ty b) }
    ensures value { IsValue ty result }
{
    convert(a.wrapping_mul(b), ty)
}

/// Whether a division has a result.
fn has_quotient(ty: IntType, a: u64, b: u64) -> bool
    ensures { result ≡ can_divide ty a b }
{
    let least = u64::MAX - ((1 << (ty.width() - 1)) - 1);
    b != 0 && !(ty.is_signed() && a == least && b == u64::MAX)
}

#[tactic(auto, unfolding(crate::specs::Integers::binary_of))]
fn quotient(ty: IntType, a: u64, b: u64) -> Result<u64, ArithFault>
    requires { IsValue ty a }
    ensures exact { result ≡ binary_of BinOp.Div ty a b }
    ensures value { IfOk result (IsValue ty) }
{
    if has_quotient(ty, a, b) {
        Ok(convert(exact_quotient(ty, a, b), ty))
    } else {
        Err(ArithFault::Divide)
    }
}

/// The bits of a quotient that there is.
fn exact_quotient(ty: IntType, a: u64, b: u64) -> u64
    requires left { IsValue ty a }
    requires exists { IsTrue (can_divide ty a b) }
    ensures { result ≡ bits_of (int_div (value_of ty a) (value_of ty b)) }
{
    if ty.is_signed() {
        signed_quotient(a, b)
    } else {
        a / b
    }
}

fn signed_quotient(a: u64, b: u64) -> u64
    requires nonzero { 0 < b }
    requires fits { a ≡ 2 ^ 63 → b ≢ 2 ^ 64 - 1 }
    ensures { result ≡ bits_of (int_div (cast_signed w64 a) (cast_signed w64 b)) }
{
    (a.cast_signed() / b.cast_signed()).cast_unsigned()
}

#[tactic(auto, unfolding(crate::specs::Integers::binary_of))]
fn remainder(ty: IntType, a: u64, b: u64) -> Result<u64, ArithFault>
    requires { IsValue ty a }
    ensures exact { result ≡ binary_of BinOp.Rem ty a b }
    ensures value { IfOk result (IsValue ty) }
{
    if has_quotient(ty, a, b) {
        Ok(convert(exact_remainder(ty, a, b), ty))
    } else {
        Err(ArithFault::Divide)
    }
}

/// The bits of the remainder of a division that has a result.
fn exact_remainder(ty: IntType, a: u64, b: u64) -> u64
    requires left { IsValue ty a }
    requires exists { IsTrue (can_divide ty a b) }
    ensures { result ≡ bits_of (int_rem (value_of ty a) (value_of ty b)) }
{
    if ty.is_signed() {
        signed_remainder(a, b)
    } else {
        a % b
    }
}

fn signed_remainder(a: u64, b: u64) -> u64
    requires nonzero { 0 < b }
    requires fits { a ≡ 2 ^ 63 → b ≢ 2 ^ 64 - 1 }
    ensures { result ≡ bits_of (int_rem (cast_signed w64 a) (cast_signed w64 b)) }
{
    (a.cast_signed() % b.cast_signed()).cast_unsigned()
}

/// Whether a value may be shifted by this count.
fn is_count(ty: IntType, count: u64) -> bool
    ensures { result ≡ nat_lt count (width_of ty) }
{
    count < u64::from(ty.width())
}

#[tactic(auto, unfolding(crate::specs::Integers::binary_of))]
fn left_shift(ty: IntType, a: u64, count: u64) -> Result<u64, ArithFault>
    ensures exact { result ≡ binary_of BinOp.Shl ty a count }
    ensures value { IfOk result (IsValue ty) }
{
    if is_count(ty, count) {
        Ok(convert(left_shift_bits(ty, a, count), ty))
    } else {
        Err(ArithFault::Shift)
    }
}

/// The bits of a value doubled `count` times.
fn left_shift_bits(ty: IntType, a: u64, count: u64) -> u64
    requires { count < 64 }
    ensures { result ≡ bits_of (value_of ty a *ℤ pos (2 ^ count)) }
{
    a << count
}

#[tactic(auto, unfolding(crate::specs::Integers::binary_of))]
fn right_shift(ty: IntType, a: u64, count: u64) -> Result<u64, ArithFault>
    ensures exact { result ≡ binary_of BinOp.Shr ty a count }
    ensures value { IfOk result (IsValue ty) }
{
    if is_count(ty, count) {
        Ok(convert(right_shift_bits(ty, a, count), ty))
    } else {
        Err(ArithFault::Shift)
    }
}

/// The bits of a value halved `count` times, each time rounded down.
fn right_shift_bits(ty: IntType, a: u64, count: u64) -> u64
    requires { count < 64 }
    ensures { result ≡ bits_of (int_shr (value_of ty a) count) }
{
    if ty.is_signed() {
        (a.cast_signed() >> count).cast_unsigned()
    } else {
        a >> count
    }
}

/// Whether the value `a` is less than `b`.
fn is_less(ty: IntType, a: u64, b: u64) -> bool
    ensures { result ≡ int_lt (value_of ty a) (value_of ty b) }
{
    if ty.is_signed() {
        a.cast_signed() < b.cast_signed()
    } else {
        a < b
    }
}
