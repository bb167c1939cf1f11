//! The values of a condition: what signs, operators and choices make of them.
//!
//! A value is worked out for each part, evaluated or not. `&&`, `||` and a choice drop what isn't.

ghost use Rattle.std.specs.Prelude.{◌≡◌};
ghost use Rattle.filc_num.specs.Integers.{is_comparison};
ghost use Rattle.c_preproc.specs.Condition.{bits_of_both, bits_of_choice, bits_of_either, bits_of_not, bits_of_operator, is_shift, truth, type_of, value_of_choice, value_of_joint, value_of_operator, value_of_sign};

use crate::condition_item::{Joint, Sign, Value};
use filc_num::{BinOp, IntType, binary};

/// The type of a value's bits.
fn type_of(unsigned: bool) -> IntType
    ensures { result ≡ type_of unsigned }
{
    if unsigned { IntType::U64 } else { IntType::I64 }
}

fn is_comparison(op: BinOp) -> bool
    ensures { result ≡ is_comparison op }
{
    match op {
        BinOp::Lt | BinOp::Le | BinOp::Gt | BinOp::Ge | BinOp::Eq | BinOp::Ne => true,
        _ => false,
    }
}

fn is_shift(op: BinOp) -> bool
    ensures { result ≡ is_shift op }
{
    match op {
        BinOp::Shl | BinOp::Shr => true,
        _ => false,
    }
}

/// What an operator gives on two values of one type.
fn bits_of_operator(op: BinOp, unsigned: bool, a: Option<u64>, b: Option<u64>) -> Option<u64>
    ensures { result ≡ bits_of_operator op unsigned a b }
{
    let a = a?;
    let b = b?;
    binary(op, type_of(unsigned), a, b).ok()
}

/// Whether a value holds.
pub fn truth(bits: Option<u64>) -> Option<bool>
    ensures { result ≡ truth bits }
{
    let bits = bits?;
    Some(bits != 0)
}

/// What `&&` gives: its right side isn't evaluated where the left is 0.
fn bits_of_both(a: Option<u64>, b: Option<u64>) -> Option<u64>
    ensures { result ≡ bits_of_both a b }
{
    if truth(a)? {
        let holds = truth(b)?;
        Some(u64::from(holds))
    } else {
        Some(0)
    }
}

/// What `||` gives: its right side isn't evaluated where the left isn't 0.
fn bits_of_either(a: Option<u64>, b: Option<u64>) -> Option<u64>
    ensures { result ≡ bits_of_either a b }
{
    if truth(a)? {
        Some(1)
    } else {
        let holds = truth(b)?;
        Some(u64::from(holds))
    }
}

/// A value behind a sign.
pub fn value_of_sign(sign: Sign, a: Value) -> Value
    ensures { result ≡ value_of_sign sign a }
{
    match sign {
        Sign::Plus => a,
        Sign::Minus => Value {
            unsigned: a.unsigned,
            bits: bits_of_operator(BinOp::Sub, a.unsigned, Some(0), a.bits),
        },
        Sign::Complement => Value {
            unsigned: a.unsigned,
            bits: bits_of_operator(BinOp::Xor, a.unsigned, a.bits, Some(u64::MAX)),
        },
        Sign::Not => Value {
            unsigned: false,
            bits: bits_of_not(a.bits),
        },
    }
}

fn bits_of_not(bits: Option<u64>) -> Option<u64>
    ensures { result ≡ bits_of_not bits }
{
    let holds = truth(bits)?;
    Some(u64::from(!holds))
}

/// An operator on two values: both have its type but for the count of a shift.
fn value_of_operator(op: BinOp, a: Value, b: Value) -> Value
    ensures { result ≡ value_of_operator op a b }
{
    let unsigned = a.unsigned || b.unsigned && !is_shift(op);
    Value {
        unsigned: unsigned && !is_comparison(op),
        bits: bits_of_operator(op, unsigned, a.bits, b.bits),
    }
}

/// Two values and what joins them.
pub fn value_of_joint(joint: Joint, a: Value, b: Value) -> Value
    ensures { result ≡ value_of_joint joint a b }
{
    match joint {
        Joint::Operator(op) => value_of_operator(op, a, b),
        Joint::Both => Value {
            unsigned: false,
            bits: bits_of_both(a.bits, b.bits),
        },
        Joint::Either => Value {
            unsigned: false,
            bits: bits_of_either(a.bits, b.bits),
        },
    }
}

/// One of two values, as a condition holds or not: the other isn't evaluated.
pub fn value_of_choice(holds: Option<bool>, yes: Value, no: Value) -> Value
    ensures { result ≡ value_of_choice holds yes no }
{
    Value {
        unsigned: yes.unsigned || no.unsigned,
        bits: bits_of_choice(holds, yes.bits, no.bits),
    }
}

fn bits_of_choice(holds: Option<bool>, yes: Option<u64>, no: Option<u64>) -> Option<u64>
    ensures { result ≡ bits_of_choice holds yes no }
{
    if holds? { yes } else { no }
}
