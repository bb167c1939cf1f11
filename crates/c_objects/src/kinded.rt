//! The numbers of functions' types: 0 is that of `int(void *)`, which a thread begins with, and the others come in the order
//! in which functions and then calls through pointers have them first.
//!
//! It goes as deep as trees nest; operands, links and statements of a block are loops.

ghost use Rattle.std.specs.Prelude.{◌≡◌, fold, IfOk, OnOk};
ghost use Rattle.c_objects.specs.Calls.{operand_kinds, link_kinds, statement_kinds, own_kinds, called_kinds};
ghost use Rattle.c_file_rules.specs.Files.{functions_in};
ghost use Rattle.c_file_rules.specs.Kinds.{operation_kinds, expr_kinds, stmt_kinds, optional_kinds, with_kind, types_of_functions};

use c_file_rules::{Made, Numbering};
use c_tree::{Expr, Link, Operation, Stmt};
use std::alloc::{AllocError, Global};

/// Adds the type of a call through a pointer.
fn add_operation(op: Operation, kinds: &mut Numbering) -> Result<(), AllocError>
    ensures { OnOk result (kinds.new ≡ fold with_kind kinds.old (operation_kinds op)) }
{
    match op {
        Operation::CallPointer(kind) => kinds.add(kind),
        _ => Ok(()),
    }
}

/// Adds those of an expression: its operands' first.
#[cycle(expressions)]
fn add_expr(expr: &Expr, kinds: &mut Numbering) -> Result<(), AllocError>
    ensures { OnOk result (kinds.new ≡ fold with_kind kinds.old (expr_kinds expr.now)) }
{
    match expr {
        Expr::Apply { op, operands, .. } => {
            add_operands(operands.as_slice(), kinds)?;
            add_operation(*op, kinds)?;
            Ok(())
        }
        Expr::Chain { first, links, .. } => {
            add_expr(first.get(), kinds)?;
            add_links(links.as_slice(), kinds)?;
            Ok(())
        }
        Expr::Logic { operands, .. } => add_operands(operands.as_slice(), kinds),
        Expr::Choose {
            test,
            then,
            otherwise,
            ..
        } => {
            add_expr(test.get(), kinds)?;
            add_expr(then.get(), kinds)?;
            add_expr(otherwise.get(), kinds)?;
            Ok(())
        }
        Expr::Print { operands, .. } => add_operands(operands.as_slice(), kinds),
    }
}

#[cycle(expressions)]
fn add_operands(operands: &[Expr], kinds: &mut Numbering) -> Result<(), AllocError>
    ensures { OnOk result (kinds.new ≡ fold with_kind kinds.old (operand_kinds operands.now)) }
{
    'operands: for operand in operands {
        add_expr(operand, kinds)?;
    }
    Ok(())
}

#[cycle(expressions)]
fn add_links(links: &[Link], kinds: &mut Numbering) -> Result<(), AllocError>
    ensures { OnOk result (kinds.new ≡ fold with_kind kinds.old (link_kinds links.now)) }
{
    'links: for link in links {
        add_operands(link.operands.as_slice(), kinds)?;
        add_operation(link.op, kinds)?;
    }
    Ok(())
}

/// Adds those of the value of a `return`.
fn add_optional(value: &Option<Expr>, kinds: &mut Numbering) -> Result<(), AllocError>
    ensures { OnOk result (kinds.new ≡ fold with_kind kinds.old (optional_kinds value.now)) }
{
    match value {
        None => Ok(()),
        Some(expr) => add_expr(expr, kinds),
    }
}

/// Adds those of a statement, in the order of its text.
#[cycle(statements)]
fn add_stmt(statement: &Stmt, kinds: &mut Numbering) -> Result<(), AllocError>
    ensures { OnOk result (kinds.new ≡ fold with_kind kinds.old (stmt_kinds statement.now)) }
{
    match statement {
        Stmt::Run { value } => add_expr(value, kinds),
        Stmt::Block { body, .. } => add_stmts(body.as_slice(), kinds),
        Stmt::If {
            test,
            then,
            otherwise,
            ..
        } => {
            add_expr(test, kinds)?;
            add_stmt(then.get(), kinds)?;
            add_stmt(otherwise.get(), kinds)?;
            Ok(())
        }
        Stmt::Loop { body, next, .. } => {
            add_stmt(body.get(), kinds)?;
            add_stmt(next.get(), kinds)?;
            Ok(())
        }
        Stmt::BreakUnless { test, .. } => add_expr(test, kinds),
        Stmt::Break { .. } | Stmt::Continue { .. } => Ok(()),
        Stmt::Switch { value, body, .. } => {
            add_expr(value, kinds)?;
            add_stmts(body.as_slice(), kinds)?;
            Ok(())
        }
        Stmt::Return { value, .. } => add_optional(value, kinds),
    }
}

#[cycle(statements)]
fn add_stmts(statements: &[Stmt], kinds: &mut Numbering) -> Result<(), AllocError>
    ensures { OnOk result (kinds.new ≡ fold with_kind kinds.old (statement_kinds statements.now)) }
{
    'statements: for statement in statements {
        add_stmt(statement, kinds)?;
    }
    Ok(())
}

/// Adds those of functions.
fn add_functions(functions: &[Made], kinds: &mut Numbering) -> Result<(), AllocError>
    ensures { OnOk result (kinds.new
        ≡ fold with_kind kinds.old (own_kinds functions.now)) }
{
    'functions: for made in functions {
        kinds.add(made.function.kind)?;
    }
    Ok(())
}

/// Adds those of the calls in functions.
fn add_calls(functions: &[Made], kinds: &mut Numbering) -> Result<(), AllocError>
    ensures { OnOk result (kinds.new
        ≡ fold with_kind kinds.old (called_kinds functions.now)) }
{
    'functions: for made in functions {
        add_stmt(&made.function.body, kinds)?;
    }
    Ok(())
}

/// The types of functions in the order of their numbers, where functions and calls have the types' own numbers.
#[tactic(auto, using(crate::proofs::KindViews::own_list, crate::proofs::KindViews::called_list, crate::proofs::KindViews::fold_on))]
pub fn kinds_of(alloc: Global, functions: &[Made], thread: u32) -> Result<Numbering, AllocError>
    ensures { IfOk result (λ kinds.
        kinds ≡ types_of_functions thread (functions_in functions.now)) }
{
    let mut kinds = Numbering::new(alloc);
    kinds.push(thread)?;
    add_functions(functions, &mut kinds)?;
    add_calls(functions, &mut kinds)?;
    Ok(kinds)
}
