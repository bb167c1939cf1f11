//! What an operation makes of an integer, and when an exchange finds what it expects.

ghost use Rattle.std.specs.Prelude.{◌≡◌, ◌↔◌, IsTrue};
ghost use Rattle.filc_num.specs.Integers.{is_promoted, IsRightOperand};
ghost use Rattle.ideal_machine.specs.Words.{right_operand, operator_result, operation_result, is_seen};
ghost use Rattle.ideal_machine.specs.Words.{same_half, same_found};
ghost use Rattle.ideal_machine.specs.Allows.{IsOperationOn};

use filc_num::{ArithFault, BinOp, IntType, binary, convert};
use ideal_machine::{Found, Half, Operation, Seen};

/// Whether a type is one of those in which operations are made.
fn is_promoted(ty: IntType) -> bool
    ensures { result ≡ is_promoted ty }
{
    32 <= ty.width()
}

/// Whether an operation is one on integers of so many bytes.
pub fn is_operation_on(width: u32, operation: Operation) -> bool
    ensures { IsTrue result ↔ IsOperationOn width operation }
{
    match operation {
        Operation::Set => true,
        Operation::Compute(_, of_object, computed_in) => {
            of_object.bytes() == width && is_promoted(computed_in)
        }
    }
}

/// The right operand as an operator takes it: converted, but for the count of a shift.
fn right_operand(op: BinOp, ty: IntType, b: u64) -> u64
    ensures exact { result ≡ right_operand op ty b }
    ensures fits { IsRightOperand op ty result }
{
    match op {
        BinOp::Shl | BinOp::Shr => b,
        _ => convert(b, ty),
    }
}

fn operator_result(op: BinOp, ty: IntType, a: u64, b: u64) -> Result<u64, ArithFault>
    requires { IsTrue (is_promoted ty) }
    ensures { result ≡ operator_result op ty a b }
{
    binary(op, ty, convert(a, ty), right_operand(op, ty, b))
}

/// What an operation makes of the old bytes and the event's value; nothing where its operator has no
/// result.
pub fn operation_result(operation: Operation, width: u32, old: u64, value: u64) -> Option<u64>
    requires { IsOperationOn width operation }
    ensures { result ≡ operation_result operation old value }
{
    match operation {
        Operation::Set => Some(value),
        Operation::Compute(op, of_object, computed_in) => {
            match operator_result(op, computed_in, convert(old, of_object), value) {
                Ok(number) => Some(convert(number, of_object)),
                Err(_) => None,
            }
        }
    }
}

fn same_half(a: Half, b: Half) -> bool
    ensures { result ≡ same_half a b }
{
    match (a, b) {
        (Half::Nothing, Half::Nothing) | (Half::Freed, Half::Freed) => true,
        (Half::Object(a), Half::Object(b)) => a == b,
        (Half::Function(a), Half::Function(b)) => a == b,
        _ => false,
    }
}

fn same_found(a: Found, b: Found) -> bool
    ensures { result ≡ same_found a b }
{
    match (a, b) {
        (Found::Plain(a), Found::Plain(b)) => same_half(a, b),
        (Found::Pair(a), Found::Pair(b)) => a == b,
        _ => false,
    }
}

/// Whether what was found is what an exchange expects.
pub fn is_seen(seen: Seen, found: Found) -> bool
    ensures { result ≡ is_seen seen found }
{
    match seen {
        Seen::Any => true,
        Seen::Found(expected) => same_found(expected, found),
    }
}
