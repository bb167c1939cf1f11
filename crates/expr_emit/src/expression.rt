//! The code of an expression: exactly what `expr_code` says. What is put first stands last.
//!
//! An expression has its value in t, and its operands in t and the registers after it, from left to right: registers
//! are given out as a stack. So a node puts first what uses its operands, and then the operands, the last one first.

ghost use Rattle.std.specs.Prelude.{◌≡◌, ◌+◌, IfOk, OnOk};
ghost use Rattle.c_tree.specs.declared.expr.Expr.{Apply, Choose, Print};
ghost use Rattle.expr_gen.specs.Code.{expr_size, expr_code};
ghost use Rattle.expr_emit.specs.Tail.{PutsBefore};
ghost use Rattle.expr_emit.specs.Lists.{exprs_size, exprs_code, link_list_size, link_list_code};
ghost use Rattle.expr_emit.specs.Lists.{test_list_size, and_list_code, or_list_code};
ghost use Rattle.expr_emit.specs.Lists.{logic_list_size, logic_list_code};

use crate::operation::emit_operation;
use crate::ops::sum;
use crate::place::{Place, place_of};
use crate::printing::emit_print;
use crate::tail::{Tail, put};
use c_tree::{Expr, Link, Operation, Piece};
use std::alloc::AllocError;
use whole_code::Op;

/// The register so many after t, where there is one.
fn register(t: u32, index: usize) -> Result<u32, AllocError>
    ensures { IfOk result (λ n. n ≡ t + index) }
{
    match u32::try_from(index) {
        Ok(index) => sum(t, index),
        Err(_) => Err(AllocError),
    }
}

/// The code of operands, each in the register after that of the one before.
#[cycle(expression)]
fn emit_operands(
    tail: &mut Tail,
    library: bool,
    operands: &[Expr],
    t: u32,
) -> Result<(), AllocError>
    ensures { OnOk result (PutsBefore (exprs_size operands.now)
        (exprs_code library operands.now t) tail.old tail.new) }
{
    for index in (0..operands.len()).rev() {
        let d = register(t, index)?;
        emit_expression(tail, library, &operands[index], d)?;
    }
    Ok(())
}

/// The code of a chain's links, of which each has its value in the place's register.
#[cycle(expression)]
fn emit_links(tail: &mut Tail, place: Place, links: &[Link]) -> Result<(), AllocError>
    ensures { OnOk result (PutsBefore (link_list_size links.now)
        (link_list_code place.library place.line links.now place.t) tail.old tail.new) }
{
    let second = sum(place.t, 1)?;
    for index in (0..links.len()).rev() {
        let link = &links[index];
        let operands = link.operands.as_slice();
        let count = register(1, operands.len())?;
        emit_operation(tail, place, link.op, count)?;
        emit_operands(tail, place.library, operands, second)?;
    }
    Ok(())
}

/// The code of the operands of `&&`, of which one that is 0 goes to the index of a 0.
#[cycle(expression)]
fn emit_all(tail: &mut Tail, place: Place, operands: &[Expr], zero: u32) -> Result<(), AllocError>
    ensures { OnOk result (PutsBefore (test_list_size 1 operands.now)
        (λ at. and_list_code place.library place.line operands.now place.t at zero)
        tail.old tail.new) }
{
    let a = place.t;
    for index in (0..operands.len()).rev() {
        put(tail, place, &[Op::JumpZero { a, target: zero }])?;
        emit_expression(tail, place.library, &operands[index], place.t)?;
    }
    Ok(())
}

/// The code of the operands of `||`, of which one that isn't 0 becomes 1 and goes to the end.
#[cycle(expression)]
fn emit_any(tail: &mut Tail, place: Place, operands: &[Expr], end: u32) -> Result<(), AllocError>
    ensures { OnOk result (PutsBefore (test_list_size 3 operands.now)
        (λ at. or_list_code place.library place.line operands.now place.t at end)
        tail.old tail.new) }
{
    let t = place.t;
    for index in (0..operands.len()).rev() {
        let next = Op::JumpZero {
            a: t,
            target: tail.start(),
        };
        let one = Op::Const { d: t, constant: 1 };
        put(tail, place, &[next, one, Op::Jump { target: end }])?;
        emit_expression(tail, place.library, &operands[index], t)?;
    }
    Ok(())
}

/// The code of `&&`, where `all`, or of `||`.
#[cycle(expression)]
fn emit_logic(tail: &mut Tail, place: Place, all: bool, operands: &[Expr]) -> Result<(), AllocError>
    ensures { OnOk result (PutsBefore (logic_list_size all operands.now)
        (logic_list_code place.library place.line all operands.now place.t)
        tail.old tail.new) }
{
    let t = place.t;
    let end = tail.start();
    put(tail, place, &[Op::Const { d: t, constant: 0 }])?;
    if all {
        let zero = tail.start();
        let one = Op::Const { d: t, constant: 1 };
        put(tail, place, &[one, Op::Jump { target: end }])?;
        emit_all(tail, place, operands, zero)
    } else {
        emit_any(tail, place, operands, end)
    }
}

/// The code of an operation and its operands.
#[cycle(expression)]
fn emit_apply(
    tail: &mut Tail,
    place: Place,
    op: Operation,
    operands: &[Expr],
) -> Result<(), AllocError>
    ensures { OnOk result (PutsBefore (expr_size (Apply place.line op operands.now))
        (expr_code place.library (Apply place.line op operands.now) place.t)
        tail.old tail.new) }
{
    let count = register(0, operands.len())?;
    emit_operation(tail, place, op, count)?;
    emit_operands(tail, place.library, operands, place.t)
}

/// The code of a choice. What its test goes to, and its end, are there before the jumps to them.
#[cycle(expression)]
fn emit_choice(
    tail: &mut Tail,
    place: Place,
    test: &Expr,
    one: &Expr,
    last: &Expr,
) -> Result<(), AllocError>
    ensures { OnOk result (PutsBefore
        (expr_size (Choose place.line test.now one.now last.now))
        (expr_code place.library (Choose place.line test.now one.now last.now) place.t)
        tail.old tail.new) }
{
    let t = place.t;
    let end = tail.start();
    emit_expression(tail, place.library, last, t)?;
    let other = tail.start();
    put(tail, place, &[Op::Jump { target: end }])?;
    emit_expression(tail, place.library, one, t)?;
    let skip = Op::JumpZero {
        a: t,
        target: other,
    };
    put(tail, place, &[skip])?;
    emit_expression(tail, place.library, test, t)
}

/// The code of `printf` and its operands.
#[cycle(expression)]
fn emit_printf(
    tail: &mut Tail,
    place: Place,
    operands: &[Expr],
    pieces: &[Piece],
) -> Result<(), AllocError>
    ensures { OnOk result (PutsBefore (expr_size (Print place.line operands.now pieces.now))
        (expr_code place.library (Print place.line operands.now pieces.now) place.t)
        tail.old tail.new) }
{
    let count = register(0, operands.len())?;
    emit_print(tail, place, pieces, count)?;
    emit_operands(tail, place.library, operands, place.t)
}

/// The code of an expression, with its value in t, before what is there. A sum of registers, or an element's
/// size, that doesn't fit an instruction is too much memory.
#[cycle(expression)]
pub fn emit_expression(
    tail: &mut Tail,
    library: bool,
    expr: &Expr,
    t: u32,
) -> Result<(), AllocError>
    ensures { OnOk result (PutsBefore (expr_size expr.now)
        (expr_code library expr.now t) tail.old tail.new) }
{
    match expr {
        Expr::Apply { line, op, operands } => {
            emit_apply(tail, place_of(library, *line, t), *op, operands.as_slice())
        }
        Expr::Chain { line, first, links } => {
            emit_links(tail, place_of(library, *line, t), links.as_slice())?;
            emit_expression(tail, library, first.get(), t)
        }
        Expr::Logic {
            line,
            all,
            operands,
        } => {
            let place = place_of(library, *line, t);
            emit_logic(tail, place, *all, operands.as_slice())
        }
        Expr::Choose {
            line,
            test,
            then,
            otherwise,
        } => {
            let place = place_of(library, *line, t);
            emit_choice(tail, place, test.get(), then.get(), otherwise.get())
        }
        Expr::Print {
            line,
            operands,
            pieces,
        } => {
            let place = place_of(library, *line, t);
            emit_printf(tail, place, operands.as_slice(), pieces.as_slice())
        }
    }
}
