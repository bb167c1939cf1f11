//! The code of an operation that is one instruction and computes nothing: a constant, a local, an object or a
//! function, a call, an intrinsic, and the comma.

ghost use Rattle.std.specs.Prelude.{OnOk};
ghost use Rattle.expr_gen.specs.Code.{op_code, op_size};
ghost use Rattle.expr_emit.specs.Tail.{PutsBefore};
ghost use Rattle.expr_emit.specs.Groups.{IsIntrinsic, IsOfOneOp};

use crate::ops::{call_op, sum};
use crate::place::Place;
use crate::tail::{Tail, put};
use c_tree::Operation;
use std::alloc::AllocError;
use whole_code::Op;

/// The code of an intrinsic.
fn emit_intrinsic(tail: &mut Tail, place: Place, op: Operation) -> Result<(), AllocError>
    requires { IsIntrinsic op }
    ensures { OnOk result (PutsBefore (op_size op)
        (op_code place.library op place.line place.t 0) tail.old tail.new) }
{
    let t = place.t;
    let b = sum(t, 1)?;
    match op {
        Operation::New => put(tail, place, &[Op::New { d: t, a: t }]),
        Operation::Free => put(tail, place, &[Op::Free { a: t }]),
        Operation::Size => put(tail, place, &[Op::Size { d: t, a: t }]),
        Operation::Lock => put(tail, place, &[Op::Lock { p: t }]),
        Operation::Out => put(tail, place, &[Op::Out { a: t }]),
        Operation::Input => put(tail, place, &[Op::Input { d: t }]),
        Operation::Spawn => put(tail, place, &[Op::Spawn { d: t, a: t, b }]),
        Operation::Join => put(tail, place, &[Op::Join { d: t, a: t }]),
        Operation::SelfId => put(tail, place, &[Op::SelfId { d: t }]),
        Operation::Exit => put(tail, place, &[Op::Exit { a: t }]),
        Operation::Abort => put(tail, place, &[Op::Abort]),
        _ => Ok(()),
    }
}

/// The code of an operation of one instruction, on n operands from the place's register on.
pub fn emit_single(tail: &mut Tail, place: Place, op: Operation, n: u32) -> Result<(), AllocError>
    requires { IsOfOneOp op }
    ensures { OnOk result (PutsBefore (op_size op)
        (op_code place.library op place.line place.t n) tail.old tail.new) }
{
    let t = place.t;
    let b = sum(t, 1)?;
    match op {
        Operation::Number(constant) => put(tail, place, &[Op::Const { d: t, constant }]),
        Operation::Local(a) => put(tail, place, &[Op::Move { d: t, a }]),
        Operation::Static(number) => put(tail, place, &[Op::StaticAt { d: t, number }]),
        Operation::Function(number) => put(tail, place, &[Op::FunctionAt { d: t, number }]),
        Operation::Call(function) => put(tail, place, &[call_op(t, function, t, n)]),
        Operation::CallPointer(kind) => {
            let call = Op::CallPointer {
                d: t,
                a: t,
                first: b,
                count: n.saturating_sub(1),
                kind,
            };
            put(tail, place, &[call])
        }
        Operation::Second => put(tail, place, &[Op::Move { d: t, a: b }]),
        _ => emit_intrinsic(tail, place, op),
    }
}
