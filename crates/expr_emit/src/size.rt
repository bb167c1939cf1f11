//! How long the code of an expression is. It is found once, before any code is put.

ghost use Rattle.std.specs.Prelude.{◌≡◌, ◌+◌, ◌≤◌, IfOk, length};
ghost use Rattle.expr_gen.specs.Operations.{change_ops, piece_ops};
ghost use Rattle.expr_gen.specs.Code.{op_size, print_size, expr_size};
ghost use Rattle.expr_emit.specs.Lists.{exprs_size, link_list_size, test_list_size};
ghost use Rattle.expr_emit.specs.Lists.{logic_list_size};

use crate::ops::sum;
use c_tree::{Access, Change, Expr, Link, Operation, Piece};
use std::alloc::AllocError;

fn size_of_change(how: Change) -> u32
    ensures value { result ≡ length (change_ops how 0 0 0 0) }
    ensures small { result ≤ 3 }
{
    match how {
        Change::Integer(..) => 2,
        Change::Advance(_) => 1,
        Change::Retreat(_) => 3,
    }
}

/// The size of an operation.
pub fn size_of_operation(op: Operation) -> u32
    ensures { result ≡ op_size op }
{
    match op {
        Operation::Negate(_)
        | Operation::Complement(_)
        | Operation::Not(_)
        | Operation::Offset(_)
        | Operation::Store(_) => 2,
        Operation::Retreat(_) | Operation::Combine(..) => 3,
        Operation::UpdateLocal(_, how) => size_of_change(how) + 1,
        Operation::StepLocal(_, how) => size_of_change(how) + 2,
        Operation::Update(_, how) | Operation::Step(_, how) => size_of_change(how) + 3,
        Operation::Copy(..) | Operation::Cas(Access::Integer(_)) => 10,
        Operation::Cas(Access::Pointer | Access::Box) => 7,
        _ => 1,
    }
}

/// A piece, and the sum of bytes after it.
fn size_of_piece(piece: Piece) -> u32
    ensures { result ≡ length (piece_ops piece 0 0) + 1 }
{
    match piece {
        Piece::Byte(_) | Piece::Put { radix: Some(_), .. } => 4,
        Piece::Out(_) | Piece::Put { radix: None, .. } => 3,
    }
}

/// The size of `printf` behind its operands, where it fits.
pub fn size_of_print(pieces: &[Piece]) -> Result<u32, AllocError>
    ensures { IfOk result (λ n. n ≡ print_size pieces.now) }
{
    let mut size = 5;
    for piece in pieces {
        size = sum(size, size_of_piece(*piece))?;
    }
    Ok(size)
}

/// The size of operands, where it fits.
#[cycle(size)]
fn size_of_operands(operands: &[Expr]) -> Result<u32, AllocError>
    ensures { IfOk result (λ n. n ≡ exprs_size operands.now) }
{
    let mut size = 0;
    for operand in operands {
        size = sum(size, size_of_expr(operand)?)?;
    }
    Ok(size)
}

/// The size of a chain's links, where it fits.
#[cycle(size)]
fn size_of_links(links: &[Link]) -> Result<u32, AllocError>
    ensures { IfOk result (λ n. n ≡ link_list_size links.now) }
{
    let mut size = 0;
    for link in links {
        let operands = size_of_operands(link.operands.as_slice())?;
        size = sum(size, sum(operands, size_of_operation(link.op))?)?;
    }
    Ok(size)
}

/// The size of operands that are tested, with so many instructions after each, where it fits.
#[cycle(size)]
fn size_of_tests(operands: &[Expr], more: u32) -> Result<u32, AllocError>
    ensures { IfOk result (λ n. n ≡ test_list_size more operands.now) }
{
    let mut size = 0;
    for operand in operands {
        size = sum(size, sum(size_of_expr(operand)?, more)?)?;
    }
    Ok(size)
}

/// The size of `&&`, where `all`, or of `||`, where it fits.
#[cycle(size)]
fn size_of_logic(all: bool, operands: &[Expr]) -> Result<u32, AllocError>
    ensures { IfOk result (λ n. n ≡ logic_list_size all operands.now) }
{
    if all {
        let size = sum(size_of_tests(operands, 1)?, 3)?;
        Ok(size)
    } else {
        let size = sum(size_of_tests(operands, 3)?, 1)?;
        Ok(size)
    }
}

/// The size of an expression, where it fits.
#[cycle(size)]
pub fn size_of_expr(expr: &Expr) -> Result<u32, AllocError>
    ensures { IfOk result (λ n. n ≡ expr_size expr.now) }
{
    match expr {
        Expr::Apply { op, operands, .. } => {
            let operands = size_of_operands(operands.as_slice())?;
            let size = sum(operands, size_of_operation(*op))?;
            Ok(size)
        }
        Expr::Chain { first, links, .. } => {
            let first = size_of_expr(first.get())?;
            let size = sum(first, size_of_links(links.as_slice())?)?;
            Ok(size)
        }
        Expr::Logic { all, operands, .. } => size_of_logic(*all, operands.as_slice()),
        Expr::Choose {
            test,
            then,
            otherwise,
            ..
        } => {
            let test = size_of_expr(test.get())?;
            let one = size_of_expr(then.get())?;
            let other = size_of_expr(otherwise.get())?;
            let size = sum(sum(sum(test, one)?, other)?, 2)?;
            Ok(size)
        }
        Expr::Print {
            operands,
            pieces,
            ..
        } => {
            let operands = size_of_operands(operands.as_slice())?;
            let size = sum(operands, size_of_print(pieces.as_slice())?)?;
            Ok(size)
        }
    }
}
