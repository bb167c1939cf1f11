//! The code of an operation on operands that are in their registers.
//!
//! Operand number i is in the register t + i, and what the operation gives comes into t; the registers from t + n
//! on are free. Each function is a group of `operation_ops` in `expr_gen/specs/Operations.antt`, and each case is
//! a row of it, in the same order. A group of one instruction each has its own file, `single.rt`.

ghost use Rattle.std.specs.Prelude.{OnOk};
ghost use Rattle.expr_gen.specs.Code.{op_code, op_size};
ghost use Rattle.expr_emit.specs.Tail.{PutsBefore};
ghost use Rattle.expr_emit.specs.Groups.{IsOnIntegers, MovesPointer, LooksAtPointer};
ghost use Rattle.expr_emit.specs.Groups.{WritesLocal, IsOnMemory, IsAtomic};

use crate::ops::{
    advance_op, binary_op, convert_op, element, fetch_op, load_op, store_op, sum, swap_op,
};
use crate::place::Place;
use crate::several::{Registers, emit_change, emit_copy, emit_exchange, emit_update};
use crate::single::emit_single;
use crate::tail::{Tail, put};
use c_tree::{Change, Operation};
use filc_num::BinOp;
use std::alloc::AllocError;
use whole_code::{Op, operator_number, type_number};

/// The code of an operation on integers.
fn emit_integer(tail: &mut Tail, place: Place, op: Operation) -> Result<(), AllocError>
    requires { IsOnIntegers op }
    ensures { OnOk result (PutsBefore (op_size op)
        (op_code place.library op place.line place.t 0) tail.old tail.new) }
{
    let t = place.t;
    let b = sum(t, 1)?;
    match op {
        Operation::Convert(ty) => put(tail, place, &[convert_op(t, t, ty)]),
        Operation::Binary(operator, ty) => { put(tail, place, &[binary_op(operator, ty, t, t, b)]) }
        Operation::Negate(ty) => {
            let zero = Op::Const { d: b, constant: 0 };
            let negate = binary_op(BinOp::Sub, ty, t, b, t);
            put(tail, place, &[zero, negate])
        }
        Operation::Complement(ty) => {
            let constant = u64::MAX;
            let complement = binary_op(BinOp::Xor, ty, t, t, b);
            put(tail, place, &[Op::Const { d: b, constant }, complement])
        }
        Operation::Not(ty) => {
            let zero = Op::Const { d: b, constant: 0 };
            let compare = binary_op(BinOp::Eq, ty, t, t, b);
            put(tail, place, &[zero, compare])
        }
        _ => Ok(()),
    }
}

/// The code of an operation that moves a pointer.
fn emit_pointer_move(tail: &mut Tail, place: Place, op: Operation) -> Result<(), AllocError>
    requires { MovesPointer op }
    ensures { OnOk result (PutsBefore (op_size op)
        (op_code place.library op place.line place.t 0) tail.old tail.new) }
{
    let t = place.t;
    let b = sum(t, 1)?;
    match op {
        Operation::Advance(bytes) => {
            let bytes = element(bytes)?;
            put(tail, place, &[advance_op(t, t, b, bytes)])
        }
        Operation::Retreat(bytes) => {
            let registers = Registers {
                to: t,
                free: sum(t, 2)?,
                left: t,
                right: b,
            };
            emit_change(tail, place, Change::Retreat(bytes), registers)
        }
        Operation::AdvanceBy(bytes) => {
            let bytes = element(bytes)?;
            put(tail, place, &[advance_op(t, b, t, bytes)])
        }
        Operation::Offset(constant) => {
            let advance = advance_op(t, t, b, 1);
            put(tail, place, &[Op::Const { d: b, constant }, advance])
        }
        Operation::ToPointer => put(tail, place, &[Op::ToPointer { d: t, a: t }]),
        _ => Ok(()),
    }
}

/// The code of an operation that looks at pointers.
fn emit_pointer_look(tail: &mut Tail, place: Place, op: Operation) -> Result<(), AllocError>
    requires { LooksAtPointer op }
    ensures { OnOk result (PutsBefore (op_size op)
        (op_code place.library op place.line place.t 0) tail.old tail.new) }
{
    let d = place.t;
    let a = place.t;
    let b = sum(d, 1)?;
    match op {
        Operation::Distance(bytes) => {
            let bytes = element(bytes)?;
            put(tail, place, &[Op::PointerSub { d, a, b, bytes }])
        }
        Operation::Compare(operator) => {
            let op = operator_number(operator);
            put(tail, place, &[Op::PointerCompare { d, a, b, op }])
        }
        Operation::ToInteger(ty) => {
            let t = type_number(ty);
            put(tail, place, &[Op::ToInteger { d, a, t }])
        }
        _ => Ok(()),
    }
}

/// The code of an operation that writes a local without a home.
fn emit_local_write(tail: &mut Tail, place: Place, op: Operation) -> Result<(), AllocError>
    requires { WritesLocal op }
    ensures { OnOk result (PutsBefore (op_size op)
        (op_code place.library op place.line place.t 0) tail.old tail.new) }
{
    let t = place.t;
    let b = sum(t, 1)?;
    match op {
        Operation::SetLocal(d) => put(tail, place, &[Op::Move { d, a: t }]),
        Operation::UpdateLocal(x, how) => {
            let registers = Registers {
                to: t,
                free: b,
                left: x,
                right: t,
            };
            put(tail, place, &[Op::Move { d: x, a: t }])?;
            emit_change(tail, place, how, registers)
        }
        Operation::StepLocal(x, how) => {
            let registers = Registers {
                to: b,
                free: b,
                left: x,
                right: t,
            };
            put(
                tail,
                place,
                &[Op::Move { d: t, a: x }, Op::Move { d: x, a: b }],
            )?;
            emit_change(tail, place, how, registers)
        }
        _ => Ok(()),
    }
}

/// The code of an operation on memory that isn't atomic.
fn emit_memory(tail: &mut Tail, place: Place, op: Operation) -> Result<(), AllocError>
    requires { IsOnMemory op }
    ensures { OnOk result (PutsBefore (op_size op)
        (op_code place.library op place.line place.t 0) tail.old tail.new) }
{
    let t = place.t;
    let b = sum(t, 1)?;
    match op {
        Operation::Load(lies) => put(tail, place, &[load_op(lies, t, t)]),
        Operation::Store(lies) => {
            let store = store_op(lies, t, b);
            put(tail, place, &[store, Op::Move { d: t, a: b }])
        }
        Operation::Update(lies, how) => emit_update(tail, place, lies, how, b),
        Operation::Step(lies, how) => {
            let old = sum(t, 2)?;
            emit_update(tail, place, lies, how, old)
        }
        Operation::Copy(unit, count) => emit_copy(tail, place, unit, count),
        _ => Ok(()),
    }
}

/// The code of an atomic operation.
fn emit_atomic(tail: &mut Tail, place: Place, op: Operation) -> Result<(), AllocError>
    requires { IsAtomic op }
    ensures { OnOk result (PutsBefore (op_size op)
        (op_code place.library op place.line place.t 0) tail.old tail.new) }
{
    let t = place.t;
    let b = sum(t, 1)?;
    match op {
        Operation::Swap(lies) => put(tail, place, &[swap_op(lies, t, t, b)]),
        Operation::Cas(lies) => emit_exchange(tail, place, lies),
        Operation::Fetch(object, operator, computed) => {
            let fetch = fetch_op(object, operator, computed, t, t)?;
            put(tail, place, &[fetch])
        }
        Operation::Combine(object, operator, computed) => {
            let old = sum(t, 2)?;
            let fetch = fetch_op(object, operator, computed, old, t)?;
            let again = binary_op(operator, computed, t, old, b);
            put(tail, place, &[fetch, again, convert_op(t, t, object)])
        }
        _ => Ok(()),
    }
}

/// The code of an operation on n operands from the place's register on.
pub fn emit_operation(
    tail: &mut Tail,
    place: Place,
    op: Operation,
    n: u32,
) -> Result<(), AllocError>
    ensures { OnOk result (PutsBefore (op_size op)
        (op_code place.library op place.line place.t n) tail.old tail.new) }
{
    match op {
        Operation::Convert(_)
        | Operation::Binary(..)
        | Operation::Negate(_)
        | Operation::Complement(_)
        | Operation::Not(_) => emit_integer(tail, place, op),
        Operation::Advance(_)
        | Operation::Retreat(_)
        | Operation::AdvanceBy(_)
        | Operation::Offset(_)
        | Operation::ToPointer => emit_pointer_move(tail, place, op),
        Operation::Distance(_) | Operation::Compare(_) | Operation::ToInteger(_) => {
            emit_pointer_look(tail, place, op)
        }
        Operation::SetLocal(_) | Operation::UpdateLocal(..) | Operation::StepLocal(..) => {
            emit_local_write(tail, place, op)
        }
        Operation::Load(_)
        | Operation::Store(_)
        | Operation::Update(..)
        | Operation::Step(..)
        | Operation::Copy(..) => emit_memory(tail, place, op),
        Operation::Swap(_) | Operation::Cas(_) | Operation::Fetch(..) | Operation::Combine(..) =>
            emit_atomic(tail, place, op),
        _ => emit_single(tail, place, op, n),
    }
}
