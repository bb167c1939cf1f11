//! Operations of several instructions: changes, updates, copies of structures and exchanges.
//!
//! Code is put before what is there, so what is put first stands last: the calls of `put` in a function are read from
//! the last one to the first. What they jump forward to is there already.

ghost use Rattle.std.specs.Prelude.{◌≡◌, ◌+◌, [], ◌∷◌, ◌++◌, OnOk};
ghost use Rattle.c_tree.specs.declared.operation.Access.TheVariants.{Integer, Box};
ghost use Rattle.c_tree.specs.declared.operation.Operation.TheVariants.{Cas};
ghost use Rattle.whole_code.specs.declared.op.Op.TheVariants.{Move, PointerAdd};
ghost use Rattle.expr_gen.specs.Operations.{load_op, store_op};
ghost use Rattle.expr_gen.specs.Operations.{change_ops, copy_ops, cas_ops, unsigned_of};
ghost use Rattle.expr_gen.specs.Code.{instructions, op_size};
ghost use Rattle.tree_play.specs.Memory.{unit_access, unit_bytes};
ghost use Rattle.expr_emit.specs.Tail.{before, PutsBefore};

use crate::ops::{advance_op, binary_op, convert_op, element, load_op, store_op, sum};
use crate::place::Place;
use crate::tail::{Tail, put};
use c_tree::{Access, Change, Unit};
use filc_num::{BinOp, IntType};
use std::alloc::AllocError;
use whole_code::{Op, type_number};

/// The registers of a change: what it makes comes into `to`, of the old value in `left` and of `right`.
#[derive(Clone, Copy, Debug, PartialEq, Eq)]
pub struct Registers {
    pub to: u32,
    /// It is free, and neither `left` nor `right`.
    pub free: u32,
    pub left: u32,
    pub right: u32,
}

/// The code of a change.
pub fn emit_change(
    tail: &mut Tail,
    place: Place,
    how: Change,
    at: Registers,
) -> Result<(), AllocError>
    ensures { OnOk result (tail.new ≡ before (instructions place.library place.line
        (change_ops how at.to at.free at.left at.right)) tail.old) }
{
    let d = at.to;
    match how {
        Change::Integer(operator, computed, to) => {
            let compute = binary_op(operator, computed, d, at.left, at.right);
            put(tail, place, &[compute, convert_op(d, d, to)])
        }
        Change::Advance(bytes) => {
            let bytes = element(bytes)?;
            put(tail, place, &[advance_op(d, at.left, at.right, bytes)])
        }
        Change::Retreat(bytes) => {
            let s = at.free;
            let bytes = element(bytes)?;
            let zero = Op::Const { d: s, constant: 0 };
            let negate = binary_op(BinOp::Sub, IntType::U64, s, s, at.right);
            put(
                tail,
                place,
                &[zero, negate, advance_op(d, at.left, s, bytes)],
            )
        }
    }
}

/// The code of a change of what lies where t, the place's register, points, by the right operand in t + 1. The
/// expression's value is in the register `told`.
pub fn emit_update(
    tail: &mut Tail,
    place: Place,
    lies: Access,
    how: Change,
    told: u32,
) -> Result<(), AllocError>
    ensures { OnOk result (tail.new ≡ before (instructions place.library place.line
        (load_op lies (place.t + 2) place.t
        ∷ change_ops how (place.t + 1) (place.t + 3) (place.t + 2)
        (place.t + 1)
        ++ store_op lies place.t (place.t + 1) ∷ Move place.t told ∷ []))
        tail.old) }
{
    let t = place.t;
    let new = sum(t, 1)?;
    let old = sum(t, 2)?;
    let at = Registers {
        to: new,
        free: sum(t, 3)?,
        left: old,
        right: new,
    };
    let store = store_op(lies, t, new);
    put(tail, place, &[store, Op::Move { d: t, a: told }])?;
    emit_change(tail, place, how, at)?;
    put(tail, place, &[load_op(lies, old, t)])
}

/// How a unit of a structure lies.
fn unit_access(unit: Unit) -> Access
    ensures { result ≡ unit_access unit }
{
    match unit {
        Unit::Byte => Access::Integer(IntType::U8),
        Unit::TwoBytes => Access::Integer(IntType::U16),
        Unit::FourBytes => Access::Integer(IntType::U32),
        Unit::Pointer => Access::Pointer,
    }
}

/// How many bytes a unit of a structure has.
fn unit_bytes(unit: Unit) -> u32
    ensures { result ≡ unit_bytes unit }
{
    match unit {
        Unit::Byte => 1,
        Unit::TwoBytes => 2,
        Unit::FourBytes => 4,
        Unit::Pointer => 8,
    }
}

/// d goes forward by one element of so many bytes.
fn step_op(d: u32, one: u32, bytes: u32) -> Op
    ensures { result ≡ PointerAdd d d one bytes }
{
    Op::PointerAdd {
        d,
        a: d,
        b: one,
        bytes,
    }
}

/// The code of a copy of so many units, from the address in t + 1 to that in t, the place's
/// register.
pub fn emit_copy(tail: &mut Tail, place: Place, unit: Unit, count: u64) -> Result<(), AllocError>
    ensures { OnOk result (PutsBefore 10 (λ at. instructions place.library place.line
        (copy_ops (unit_access unit) (unit_bytes unit) count place.t at))
        tail.old tail.new) }
{
    let t = place.t;
    let lies = unit_access(unit);
    let bytes = unit_bytes(unit);
    let from = sum(t, 1)?;
    let to = sum(t, 2)?;
    let left = sum(t, 3)?;
    let one = sum(t, 4)?;
    let value = sum(t, 5)?;
    let end = tail.start();
    let test = end.saturating_sub(7);
    let ops = [
        Op::Move { d: to, a: t },
        Op::Const {
            d: left,
            constant: count,
        },
        Op::Const {
            d: one,
            constant: 1,
        },
        Op::JumpZero {
            a: left,
            target: end,
        },
        load_op(lies, value, from),
        store_op(lies, to, value),
        step_op(to, one, bytes),
        step_op(from, one, bytes),
        binary_op(BinOp::Sub, IntType::U64, left, left, one),
        Op::Jump { target: test },
    ];
    put(tail, place, &ops)
}

/// The unsigned type of as many bytes.
fn unsigned_of(ty: IntType) -> IntType
    ensures { result ≡ unsigned_of ty }
{
    match ty {
        IntType::Bool | IntType::I8 | IntType::U8 => IntType::U8,
        IntType::I16 | IntType::U16 => IntType::U16,
        IntType::I32 | IntType::U32 => IntType::U32,
        IntType::I64 | IntType::U64 => IntType::U64,
    }
}

/// The code of a compare and exchange of an integer.
fn emit_int_exchange(tail: &mut Tail, place: Place, ty: IntType) -> Result<(), AllocError>
    ensures { OnOk result (PutsBefore 10 (λ at. instructions place.library place.line
        (cas_ops (Integer ty) place.t at)) tail.old tail.new) }
{
    let t = place.t;
    let p = sum(t, 1)?;
    let n = sum(t, 2)?;
    let e = sum(t, 3)?;
    let found = sum(t, 4)?;
    let made = sum(t, 5)?;
    let end = tail.start();
    let failed = end.saturating_sub(3);
    let lies = Access::Integer(ty);
    let ops = [
        load_op(lies, e, p),
        Op::CasInt {
            d: found,
            p: t,
            e,
            n,
            t: type_number(ty),
        },
        convert_op(made, e, unsigned_of(ty)),
        binary_op(BinOp::Eq, IntType::U64, made, found, made),
        Op::JumpZero {
            a: made,
            target: failed,
        },
        Op::Const { d: t, constant: 1 },
        Op::Jump { target: end },
        convert_op(found, found, ty),
        store_op(lies, p, found),
        Op::Const { d: t, constant: 0 },
    ];
    put(tail, place, &ops)
}

/// The code of a compare and exchange of a pointer.
fn emit_pair_exchange(tail: &mut Tail, place: Place) -> Result<(), AllocError>
    ensures { OnOk result (PutsBefore 7 (λ at. instructions place.library place.line
        (cas_ops Box place.t at)) tail.old tail.new) }
{
    let t = place.t;
    let p = sum(t, 1)?;
    let n = sum(t, 2)?;
    let e = sum(t, 3)?;
    let found = sum(t, 4)?;
    let made = sum(t, 5)?;
    let end = tail.start();
    let failed = end.saturating_sub(2);
    let ops = [
        Op::LoadPointer { d: e, p },
        Op::BoxCas {
            d: found,
            w: made,
            p: t,
            e,
            n,
        },
        Op::JumpZero {
            a: made,
            target: failed,
        },
        Op::Const { d: t, constant: 1 },
        Op::Jump { target: end },
        Op::StorePointer { p, a: found },
        Op::Const { d: t, constant: 0 },
    ];
    put(tail, place, &ops)
}

/// The code of a compare and exchange.
pub fn emit_exchange(tail: &mut Tail, place: Place, lies: Access) -> Result<(), AllocError>
    ensures { OnOk result (PutsBefore (op_size (Cas lies)) (λ at. instructions place.library
        place.line (cas_ops lies place.t at)) tail.old tail.new) }
{
    match lies {
        Access::Integer(ty) => emit_int_exchange(tail, place, ty),
        Access::Pointer | Access::Box => emit_pair_exchange(tail, place),
    }
}
