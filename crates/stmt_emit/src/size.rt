//! How long the code of a statement is. It is found once, before any code is put.

ghost use Rattle.std.specs.Prelude.{◌≡◌, ◌+◌, IfOk};
ghost use Rattle.expr_gen.specs.Code.{branch_size, expr_size};
ghost use Rattle.stmt_gen.specs.Code.{local_size, locals_size, cases_size, return_size, stmt_size};
ghost use Rattle.stmt_emit.specs.Lists.{statements_size};

use c_tree::{Case, Expr, LocalDef, LocalKind, Stmt};
use expr_emit::{size_of_expr, sum};
use std::alloc::AllocError;

/// The size of the code that begins a local.
fn size_of_local(kind: LocalKind) -> u32
    ensures { result ≡ local_size kind }
{
    match kind {
        LocalKind::Zero | LocalKind::Home(_) => 1,
        LocalKind::Moved(..) => 3,
    }
}

/// The size of the code that begins a block's locals, where it fits.
fn size_of_locals(locals: &[LocalDef]) -> Result<u32, AllocError>
    ensures { IfOk result (λ n. n ≡ locals_size locals.now) }
{
    let mut size = 0;
    for local in locals {
        size = sum(size, size_of_local(local.kind))?;
    }
    Ok(size)
}

/// The size of the cases of a switch, where it fits.
fn size_of_cases(cases: &[Case]) -> Result<u32, AllocError>
    ensures { IfOk result (λ n. n ≡ cases_size cases.now) }
{
    let mut size = 0;
    for _case in cases {
        size = sum(size, 3)?;
    }
    Ok(size)
}

/// The size of a return, where it fits.
fn size_of_return(value: &Option<Expr>) -> Result<u32, AllocError>
    ensures { IfOk result (λ n. n ≡ return_size value.now) }
{
    match value {
        None => Ok(2),
        Some(value) => {
            let size = sum(size_of_expr(value)?, 1)?;
            Ok(size)
        }
    }
}

/// The size of statements, where it fits.
#[cycle(size)]
fn size_of_statements(body: &[Stmt]) -> Result<u32, AllocError>
    ensures { IfOk result (λ n. n ≡ statements_size body.now) }
{
    let mut size = 0;
    for stmt in body {
        size = sum(size, size_of_stmt(stmt)?)?;
    }
    Ok(size)
}

/// The size of a choice, where it fits: its parts, and a jump behind each but the last.
#[cycle(size)]
fn size_of_if(test: &Expr, one: &Stmt, last: &Stmt) -> Result<u32, AllocError>
    ensures { IfOk result (λ n. n ≡
        branch_size (expr_size test.now) (stmt_size one.now) (stmt_size last.now)) }
{
    let test = size_of_expr(test)?;
    let one = size_of_stmt(one)?;
    let other = size_of_stmt(last)?;
    let size = sum(sum(sum(test, one)?, other)?, 2)?;
    Ok(size)
}

/// The size of a switch, where it fits: its parts, and the jump to where no case leads.
#[cycle(size)]
fn size_of_switch(value: &Expr, cases: &[Case], body: &[Stmt]) -> Result<u32, AllocError>
    ensures { IfOk result (λ n. n ≡
        expr_size value.now + cases_size cases.now + 1 + statements_size body.now) }
{
    let value = size_of_expr(value)?;
    let cases = size_of_cases(cases)?;
    let body = size_of_statements(body)?;
    let size = sum(sum(sum(value, cases)?, 1)?, body)?;
    Ok(size)
}

/// The size of a statement, where it fits.
#[cycle(size)]
pub fn size_of_stmt(stmt: &Stmt) -> Result<u32, AllocError>
    ensures { IfOk result (λ n. n ≡ stmt_size stmt.now) }
{
    match stmt {
        Stmt::Run { value } => size_of_expr(value),
        Stmt::Block { locals, body } => {
            let locals = size_of_locals(locals.as_slice())?;
            let size = sum(locals, size_of_statements(body.as_slice())?)?;
            Ok(size)
        }
        Stmt::If {
            test,
            then,
            otherwise,
            ..
        } => size_of_if(test, then.get(), otherwise.get()),
        Stmt::Loop { body, next, .. } => {
            let body = size_of_stmt(body.get())?;
            let next = size_of_stmt(next.get())?;
            let size = sum(sum(body, next)?, 1)?;
            Ok(size)
        }
        Stmt::BreakUnless { test, .. } => {
            let size = sum(size_of_expr(test)?, 1)?;
            Ok(size)
        }
        Stmt::Break { .. } | Stmt::Continue { .. } => Ok(1),
        Stmt::Switch {
            value,
            cases,
            body,
            ..
        } => size_of_switch(value, cases.as_slice(), body.as_slice()),
        Stmt::Return { value, .. } => size_of_return(value),
    }
}
