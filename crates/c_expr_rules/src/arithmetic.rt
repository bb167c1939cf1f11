//! What an operator on constants gives before a run (C11 6.6): the value that a run would compute, but that signed
//! arithmetic doesn't wrap.

ghost use Rattle.std.specs.Prelude.{◌≡◌, ◌+ℤ◌, ◌-ℤ◌, ◌*ℤ◌, IsTrue};
ghost use Rattle.filc_num.specs.Integers.{is_signed, is_promoted, IsValue, IsRightOperand};
ghost use Rattle.c_expr_rules.specs.Constants.{exact_of, holds, is_held, computed_value, known_as, known_binary, known_forward, known_back, known_pointer, is_zero};
ghost use Rattle.c_expr_rules.specs.Operators.{is_shift, right_known};

use crate::known::Known;
use filc_num::{BinOp, IntType, StaticHalf, binary, convert};

/// Whether an integer is one of the type.
fn holds(ty: IntType, number: i64) -> bool
    ensures { result ≡ holds ty number }
{
    match ty {
        IntType::Bool => 0 <= number && number <= 1,
        IntType::I8 => -128 <= number && number <= 127,
        IntType::U8 => 0 <= number && number <= 255,
        IntType::I16 => -32_768 <= number && number <= 32_767,
        IntType::U16 => 0 <= number && number <= 65_535,
        IntType::I32 => -2_147_483_648 <= number && number <= 2_147_483_647,
        IntType::U32 => 0 <= number && number <= 4_294_967_295,
        IntType::I64 => true,
        IntType::U64 => 0 <= number,
    }
}

/// Whether a signed type holds the sum of two integers.
fn holds_sum(ty: IntType, x: i64, y: i64) -> bool
    requires { IsTrue (is_signed ty) }
    ensures { result ≡ holds ty (x +ℤ y) }
{
    match x.checked_add(y) {
        None => false,
        Some(number) => holds(ty, number),
    }
}

/// Whether it holds their difference.
fn holds_difference(ty: IntType, x: i64, y: i64) -> bool
    requires { IsTrue (is_signed ty) }
    ensures { result ≡ holds ty (x -ℤ y) }
{
    match x.checked_sub(y) {
        None => false,
        Some(number) => holds(ty, number),
    }
}

/// Whether it holds their product.
fn holds_product(ty: IntType, x: i64, y: i64) -> bool
    requires { IsTrue (is_signed ty) }
    ensures { result ≡ holds ty (x *ℤ y) }
{
    match x.checked_mul(y) {
        None => false,
        Some(number) => holds(ty, number),
    }
}

/// Whether the exact result of an operator on a signed type is one of the type.
fn is_held(op: BinOp, ty: IntType, x: u64, y: u64) -> bool
    ensures { result ≡ is_held ty (exact_of op ty x y) }
{
    if !ty.is_signed() {
        return true;
    }
    match op {
        BinOp::Add => holds_sum(ty, x.cast_signed(), y.cast_signed()),
        BinOp::Sub => holds_difference(ty, x.cast_signed(), y.cast_signed()),
        BinOp::Mul => holds_product(ty, x.cast_signed(), y.cast_signed()),
        _ => true,
    }
}

/// An operator on two values of its type, but that the count of a shift is of any.
fn operation_value(op: BinOp, ty: IntType, x: u64, y: u64) -> Known
    requires promoted { IsTrue (is_promoted ty) }
    requires left { IsValue ty x }
    requires right { IsRightOperand op ty y }
    ensures { result ≡ computed_value op ty x y }
{
    if !is_held(op, ty, x, y) {
        return Known::Fault;
    }
    match binary(op, ty, x, y) {
        Ok(value) => Known::Integer(value),
        Err(_) => Known::Fault,
    }
}

/// Whether the right operand is the count of a shift, which isn't converted.
pub fn is_shift(op: BinOp) -> bool
    ensures { result ≡ is_shift op }
{
    matches!(op, BinOp::Shl | BinOp::Shr)
}

/// The right operand of an operator, converted where it is no count.
fn right_value(op: BinOp, ty: IntType, y: u64) -> u64
    ensures known { Known.Integer result ≡ right_known op ty (Known.Integer y) }
    ensures right { IsRightOperand op ty result }
{
    if is_shift(op) { y } else { convert(y, ty) }
}

/// What an operator gives on two operands that are converted to its type first, but for the count of a shift.
pub fn operate(op: BinOp, ty: IntType, left: Known, right: Known) -> Known
    requires { IsTrue (is_promoted ty) }
    ensures { result ≡ known_binary op ty (known_as ty left) (right_known op ty right) }
{
    match (left, right) {
        (Known::Integer(x), Known::Integer(y)) => {
            let x = convert(x, ty);
            let y = right_value(op, ty, y);
            operation_value(op, ty, x, y)
        }
        (Known::Integer(_) | Known::Fault, Known::Fault) => Known::Fault,
        (Known::Fault, Known::Integer(_)) => Known::Fault,
        _ => Known::Nothing,
    }
}

/// An address that goes forward by so many elements.
pub fn forward(bytes: u64, address: Known, count: Known) -> Known
    ensures { result ≡ known_forward bytes address count }
{
    match (address, count) {
        (Known::Address(half, offset), Known::Integer(elements)) => {
            Known::Address(half, offset.wrapping_add(elements.wrapping_mul(bytes)))
        }
        (Known::Address(..) | Known::Fault, Known::Fault) => Known::Fault,
        (Known::Fault, Known::Integer(_)) => Known::Fault,
        _ => Known::Nothing,
    }
}

/// An address that goes back by so many elements.
pub fn back(bytes: u64, address: Known, count: Known) -> Known
    ensures { result ≡ known_back bytes address count }
{
    match (address, count) {
        (Known::Address(half, offset), Known::Integer(elements)) => {
            Known::Address(half, offset.wrapping_sub(elements.wrapping_mul(bytes)))
        }
        (Known::Address(..) | Known::Fault, Known::Fault) => Known::Fault,
        (Known::Fault, Known::Integer(_)) => Known::Fault,
        _ => Known::Nothing,
    }
}

/// An integer constant as a pointer.
pub fn as_address(known: Known) -> Known
    ensures { result ≡ known_pointer known }
{
    match known {
        Known::Integer(value) => Known::Address(StaticHalf::None, value),
        Known::Fault => Known::Fault,
        Known::Nothing | Known::Address(..) => Known::Nothing,
    }
}

/// Whether it is the integer 0.
pub fn is_zero(known: Known) -> bool
    ensures { result ≡ is_zero known }
{
    match known {
        Known::Integer(value) => value == 0,
        Known::Nothing | Known::Fault | Known::Address(..) => false,
    }
}
