//! Whether a function's registers hold all that its trees need.
//!
//! An operand waits in a register of its own while those to its right are computed. So operand number i, counted
//! from 0, has i registers fewer.

ghost use Rattle.std.specs.Prelude.{◌+◌, ◌<◌, ◌≤◌, ◌^◌, ◌↔◌, IsTrue, All};
ghost use Rattle.c_tree.specs.Temps.{temps_of, optional_temps};
ghost use Rattle.program_fits.specs.Lists.{OperandsAreBelow, ExprIsWithin, LinkIsWithin};
ghost use Rattle.program_fits.specs.Parts.{StmtIsWithin, RegistersFit};

use c_tree::{Expr, FunctionDef, Link, Stmt};
use filc_num::{REGISTERS, SPARE_REGISTERS};

/// Whether an operand that has so many registers from its own on needs no more than those.
#[cycle(temps)]
fn operand_is_below(operand: &Expr, room: u64) -> bool
    requires { room ≤ 2 ^ 32 }
    ensures { IsTrue result ↔ (temps_of operand.now < room) }
{
    room > 0 && expr_is_within(operand, (room - 1) as u32)
}

/// Whether operands, of which the first has so many registers from its own on, need no more than those.
#[cycle(temps)]
fn operands_are_below(operands: &[Expr], mut room: u64) -> bool
    requires { room ≤ 2 ^ 32 }
    ensures { IsTrue result ↔ OperandsAreBelow room operands.now }
{
    for operand in operands {
        if !operand_is_below(operand, room) {
            return false;
        }
        room -= 1;
    }
    true
}

/// Whether each operand needs so many registers at most.
#[cycle(temps)]
fn each_is_within(operands: &[Expr], limit: u32) -> bool
    ensures { IsTrue result ↔ All (ExprIsWithin limit) operands.now }
{
    for operand in operands {
        if !expr_is_within(operand, limit) {
            return false;
        }
    }
    true
}

/// Whether the links of a chain need so many registers at most.
#[cycle(temps)]
fn links_are_within(links: &[Link], limit: u32) -> bool
    ensures { IsTrue result ↔ All (LinkIsWithin limit) links.now }
{
    for link in links {
        if !operands_are_below(link.operands.as_slice(), u64::from(limit)) {
            return false;
        }
    }
    true
}

/// Whether a value needs so many registers at most, of which its first operand stands in the first.
#[cycle(temps)]
fn value_is_within(operands: &[Expr], limit: u32) -> bool
    ensures { IsTrue result ↔ ((0 < limit) × OperandsAreBelow (limit + 1) operands.now) }
{
    limit > 0 && operands_are_below(operands, u64::from(limit) + 1)
}

/// Whether a chain needs so many registers at most.
#[cycle(temps)]
fn chain_is_within(first: &Expr, links: &[Link], limit: u32) -> bool
    ensures { IsTrue result
        ↔ (ExprIsWithin limit first.now × All (LinkIsWithin limit) links.now) }
{
    expr_is_within(first, limit) && links_are_within(links, limit)
}

/// Whether operands that are tested need so many registers at most.
#[cycle(temps)]
fn tests_are_within(operands: &[Expr], limit: u32) -> bool
    ensures { IsTrue result ↔ ((0 < limit) × All (ExprIsWithin limit) operands.now) }
{
    limit > 0 && each_is_within(operands, limit)
}

/// Whether a test and two values need so many registers at most.
#[cycle(temps)]
fn choice_is_within(test: &Expr, one: &Expr, other: &Expr, limit: u32) -> bool
    ensures { IsTrue result ↔ (ExprIsWithin limit test.now
        × (ExprIsWithin limit one.now × ExprIsWithin limit other.now)) }
{
    expr_is_within(test, limit) && expr_is_within(one, limit) && expr_is_within(other, limit)
}

/// Whether an expression needs so many registers at most.
#[cycle(temps)]
fn expr_is_within(expr: &Expr, limit: u32) -> bool
    ensures { IsTrue result ↔ ExprIsWithin limit expr.now }
{
    match expr {
        Expr::Apply { operands, .. } => value_is_within(operands.as_slice(), limit),
        Expr::Chain { first, links, .. } => {
            chain_is_within(first.get(), links.as_slice(), limit)
        }
        Expr::Logic { operands, .. } => tests_are_within(operands.as_slice(), limit),
        Expr::Choose {
            test,
            then,
            otherwise,
            ..
        } => choice_is_within(test.get(), then.get(), otherwise.get(), limit),
        Expr::Print { operands, .. } => value_is_within(operands.as_slice(), limit),
    }
}

/// Whether the value that may be returned needs so many registers at most.
fn optional_is_within(value: &Option<Expr>, limit: u32) -> bool
    ensures { IsTrue result ↔ (optional_temps value.now ≤ limit) }
{
    match value {
        None => true,
        Some(value) => expr_is_within(value, limit),
    }
}

/// Whether each statement needs so many registers at most.
#[cycle(statement_temps)]
fn statements_are_within(body: &[Stmt], limit: u32) -> bool
    ensures { IsTrue result ↔ All (StmtIsWithin limit) body.now }
{
    for stmt in body {
        if !stmt_is_within(stmt, limit) {
            return false;
        }
    }
    true
}

/// Whether two statements need so many registers at most.
#[cycle(statement_temps)]
fn both_are_within(one: &Stmt, other: &Stmt, limit: u32) -> bool
    ensures { IsTrue result ↔ (StmtIsWithin limit one.now × StmtIsWithin limit other.now) }
{
    stmt_is_within(one, limit) && stmt_is_within(other, limit)
}

/// Whether a test and two statements need so many registers at most.
#[cycle(statement_temps)]
fn branches_are_within(test: &Expr, one: &Stmt, other: &Stmt, limit: u32) -> bool
    ensures { IsTrue result ↔ ((temps_of test.now ≤ limit)
        × (StmtIsWithin limit one.now × StmtIsWithin limit other.now)) }
{
    expr_is_within(test, limit) && both_are_within(one, other, limit)
}

/// Whether a switch needs so many registers at most.
#[cycle(statement_temps)]
fn switch_is_within(value: &Expr, body: &[Stmt], limit: u32) -> bool
    ensures { IsTrue result
        ↔ ((temps_of value.now ≤ limit) × All (StmtIsWithin limit) body.now) }
{
    expr_is_within(value, limit) && statements_are_within(body, limit)
}

/// Whether the expressions of a statement need so many registers at most.
#[cycle(statement_temps)]
fn stmt_is_within(stmt: &Stmt, limit: u32) -> bool
    ensures { IsTrue result ↔ StmtIsWithin limit stmt.now }
{
    match stmt {
        Stmt::Run { value } => expr_is_within(value, limit),
        Stmt::Block { body, .. } => statements_are_within(body.as_slice(), limit),
        Stmt::If {
            test,
            then,
            otherwise,
            ..
        } => branches_are_within(test, then.get(), otherwise.get(), limit),
        Stmt::Loop { body, next, .. } => both_are_within(body.get(), next.get(), limit),
        Stmt::BreakUnless { test, .. } => expr_is_within(test, limit),
        Stmt::Break { .. } | Stmt::Continue { .. } => true,
        Stmt::Switch { value, body, .. } => switch_is_within(value, body.as_slice(), limit),
        Stmt::Return { value, .. } => optional_is_within(value, limit),
    }
}

/// Whether a function's registers hold all that it needs, and are no more than a frame has.
pub fn registers_fit(function: &FunctionDef) -> bool
    ensures { IsTrue result ↔ RegistersFit function.now }
{
    let spare = SPARE_REGISTERS - 2;
    let values = function.values;
    let locals = function.locals;
    if function.parameters > locals {
        return false;
    }
    if values > REGISTERS {
        return false;
    }
    if values < spare {
        return false;
    }
    let room = values - spare;
    if room < locals {
        return false;
    }
    stmt_is_within(&function.body, room - locals)
}
