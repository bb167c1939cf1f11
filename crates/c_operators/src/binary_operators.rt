//! Operators between two values (C11 6.5.5 to 6.5.12): of which type the result is, its tree, and what is known of it.

ghost use Rattle.std.specs.Prelude.{◌≡◌, IsTrue, IfOk};
ghost use Rattle.filc_num.specs.CIntTypes.{int_type_of};
ghost use Rattle.filc_num.specs.Integers.{is_promoted};
ghost use Rattle.c_expr_rules.specs.Operators.{computed_in, kind_of_result, on_integers, advance, advance_by, retreat, distance, pointer_type, comparison, sum, difference, result_of, binary};
ghost use Rattle.c_expr_rules.specs.Views.{seen_state, checked};

use crate::operands::{are_integers, takes};
use c_expr_rules::{
    Found, Known, State, Typed, as_pointer, back, by_rules, common_kind, element_bytes, forward,
    is_pointer, is_shift, kind_of_value, kind_value, operate, part_value, promote, with_operand,
};
use c_rules::Rule;
use c_tree::Operation;
use c_types::CType;
use filc_num::{BinOp, CIntType};
use std::alloc::{AllocError, Global};

/// The type in which an operator on integers is computed: that of both operands, and of a shift that of the left one.
pub fn computed_in(op: BinOp, x: CIntType, y: CIntType) -> CIntType
    ensures kind { result ≡ computed_in op x y }
    ensures promoted { IsTrue (is_promoted (int_type_of result)) }
{
    if is_shift(op) {
        promote(x)
    } else {
        common_kind(x, y)
    }
}

/// The type of the result. A comparison gives an int (C11 6.5.8p6, 6.5.9p3).
fn kind_of_result(op: BinOp, kind: CIntType) -> CIntType
    ensures { result ≡ kind_of_result op kind }
{
    match op {
        BinOp::Lt | BinOp::Le | BinOp::Gt | BinOp::Ge | BinOp::Eq | BinOp::Ne => CIntType::Int,
        BinOp::Add
        | BinOp::Sub
        | BinOp::Mul
        | BinOp::Div
        | BinOp::Rem
        | BinOp::And
        | BinOp::Or
        | BinOp::Xor
        | BinOp::Shl
        | BinOp::Shr => kind,
    }
}

/// An operator on two integers.
fn on_integers(alloc: Global, line: u32, op: BinOp, x: Typed, y: Typed) -> Result<Typed, AllocError>
    ensures { IfOk result (λ t. t ≡ on_integers line op x y) }
{
    let kind = computed_in(op, kind_of_value(&x), kind_of_value(&y));
    let ty = kind.int_type();
    let known = operate(op, ty, x.known, y.known);
    let made = with_operand(alloc, line, Operation::Binary(op, ty), x.made, y.made)?;
    Ok(kind_value(kind_of_result(op, kind), line, made, known))
}

/// A pointer and an integer. An element of a register array stays one.
fn advance(
    alloc: Global,
    state: &State,
    line: u32,
    pointer: Typed,
    count: Typed,
) -> Result<Typed, AllocError>
    ensures { IfOk result (λ t. t
        ≡ advance (seen_state state.now) line pointer count) }
{
    let (ty, of_register) = (pointer.ty, pointer.of_register);
    let bytes = element_bytes(state, ty);
    let known = forward(bytes, pointer.known, count.known);
    let op = Operation::Advance(bytes);
    let made = with_operand(alloc, line, op, pointer.made, count.made)?;
    Ok(part_value(ty, line, made, known, of_register))
}

/// An integer and a pointer.
fn advance_by(
    alloc: Global,
    state: &State,
    line: u32,
    count: Typed,
    pointer: Typed,
) -> Result<Typed, AllocError>
    ensures { IfOk result (λ t. t
        ≡ advance_by (seen_state state.now) line count pointer) }
{
    let (ty, of_register) = (pointer.ty, pointer.of_register);
    let bytes = element_bytes(state, ty);
    let known = forward(bytes, pointer.known, count.known);
    let op = Operation::AdvanceBy(bytes);
    let made = with_operand(alloc, line, op, count.made, pointer.made)?;
    Ok(part_value(ty, line, made, known, of_register))
}

/// A pointer less an integer.
fn retreat(
    alloc: Global,
    state: &State,
    line: u32,
    pointer: Typed,
    count: Typed,
) -> Result<Typed, AllocError>
    ensures { IfOk result (λ t. t
        ≡ retreat (seen_state state.now) line pointer count) }
{
    let (ty, of_register) = (pointer.ty, pointer.of_register);
    let bytes = element_bytes(state, ty);
    let known = back(bytes, pointer.known, count.known);
    let op = Operation::Retreat(bytes);
    let made = with_operand(alloc, line, op, pointer.made, count.made)?;
    Ok(part_value(ty, line, made, known, of_register))
}

/// How many elements lie between two pointers, as a long.
fn distance(
    alloc: Global,
    state: &State,
    line: u32,
    x: Typed,
    y: Typed,
) -> Result<Typed, AllocError>
    ensures { IfOk result (λ t. t ≡ distance (seen_state state.now) line x y) }
{
    let bytes = element_bytes(state, x.ty);
    let made = with_operand(alloc, line, Operation::Distance(bytes), x.made, y.made)?;
    Ok(kind_value(CIntType::Long, line, made, Known::Nothing))
}

/// The type of a pointer, or of what stands beside it.
fn pointer_type(x: &Typed, y: &Typed) -> CType
    ensures { result ≡ pointer_type x.now y.now }
{
    if is_pointer(x.ty) { x.ty } else { y.ty }
}

/// A comparison of two pointers, of which one may be a null constant.
fn comparison(alloc: Global, line: u32, op: BinOp, x: Typed, y: Typed) -> Result<Typed, AllocError>
    ensures { IfOk result (λ t. t ≡ comparison line op x y) }
{
    let ty = pointer_type(&x, &y);
    let x = as_pointer(alloc, ty, x)?;
    let y = as_pointer(alloc, ty, y)?;
    let made = with_operand(alloc, line, Operation::Compare(op), x.made, y.made)?;
    Ok(kind_value(CIntType::Int, line, made, Known::Nothing))
}

/// A sum with a pointer.
pub fn sum(alloc: Global, state: &State, line: u32, x: Typed, y: Typed) -> Result<Typed, AllocError>
    ensures { IfOk result (λ t. t ≡ sum (seen_state state.now) line x y) }
{
    if is_pointer(x.ty) {
        advance(alloc, state, line, x, y)
    } else {
        advance_by(alloc, state, line, x, y)
    }
}

/// A difference from a pointer.
fn difference(
    alloc: Global,
    state: &State,
    line: u32,
    x: Typed,
    y: Typed,
) -> Result<Typed, AllocError>
    ensures { IfOk result (λ t. t
        ≡ difference (seen_state state.now) line x y) }
{
    if is_pointer(y.ty) {
        distance(alloc, state, line, x, y)
    } else {
        retreat(alloc, state, line, x, y)
    }
}

/// What an operator gives on two values.
fn result_of(
    alloc: Global,
    state: &State,
    line: u32,
    op: BinOp,
    x: Typed,
    y: Typed,
) -> Result<Typed, AllocError>
    ensures { IfOk result (λ t. t
        ≡ result_of (seen_state state.now) line op x y) }
{
    if are_integers(&x, &y) {
        return on_integers(alloc, line, op, x, y);
    }
    match op {
        BinOp::Mul
        | BinOp::Div
        | BinOp::Rem
        | BinOp::And
        | BinOp::Or
        | BinOp::Xor
        | BinOp::Shl
        | BinOp::Shr => Ok(x),
        BinOp::Add => sum(alloc, state, line, x, y),
        BinOp::Sub => difference(alloc, state, line, x, y),
        BinOp::Lt | BinOp::Le | BinOp::Gt | BinOp::Ge | BinOp::Eq | BinOp::Ne => {
            comparison(alloc, line, op, x, y)
        }
    }
}

/// An operator between two values, or that it doesn't take them.
pub fn binary(
    alloc: Global,
    state: &State,
    line: u32,
    op: BinOp,
    x: Typed,
    y: Typed,
) -> Result<Found<Typed>, AllocError>
    ensures { IfOk result (λ found. let s = seen_state state.now in
        checked s found ≡ binary line op x s y) }
{
    let is_taken = takes(state, op, &x, &y);
    let found = result_of(alloc, state, line, op, x, y)?;
    Ok(by_rules(line, &[(Rule::BadOperand, !is_taken)], found))
}
