//! Counting a function's values.

ghost use Rattle.std.specs.Prelude.{◌≡◌, ◌≤◌, min};
ghost use Rattle.form_tree.specs.Fits.{FunctionFits};
ghost use Rattle.form_tree.specs.Temps.{temps_of, stmt_temps, values_of};

use crate::expr::Expr;
use crate::program::FunctionDef;
use crate::stmt::Stmt;
use filc_num::{REGISTERS, SPARE_REGISTERS};

/// The temporaries of an expression, or `REGISTERS` where they are more: a frame has no more.
#[tactic(auto, using(crate::proofs::Views::negate_temps, crate::proofs::Views::chain_temps))]
pub fn expr_temps(expr: &Expr) -> u32
    ensures { result ≡ min (temps_of expr.now) REGISTERS }
{
    match expr {
        Expr::Number { .. } | Expr::Local { .. } => 1,
        Expr::Negate { operand, .. } => expr_temps(operand.get()),
        Expr::Chain { first, links, .. } => {
            let mut most = expr_temps(first.get());
            for link in links.as_slice() {
                let operand = expr_temps(&link.operand);
                most = most.max((1 + operand).min(REGISTERS));
            }
            most
        }
    }
}

/// The greatest temporaries of a statement's expressions, or `REGISTERS` where they are more.
#[tactic(auto, using(crate::proofs::Views::while_temps, crate::proofs::Views::block_temps))]
pub fn statement_temps(stmt: &Stmt) -> u32
    ensures { result ≡ min (stmt_temps stmt.now) REGISTERS }
{
    match stmt {
        Stmt::Empty => 0,
        Stmt::Assign { value, .. } | Stmt::PutChar { value, .. } => {
            (1 + expr_temps(value)).min(REGISTERS)
        }
        Stmt::Return { value, .. } => expr_temps(value),
        Stmt::While { test, body, .. } => expr_temps(test).max(statement_temps(body.get())),
        Stmt::Block { body, .. } => {
            let mut most = 0;
            for stmt in body.as_slice() {
                most = most.max(statement_temps(stmt));
            }
            most
        }
    }
}

impl FunctionDef {
    /// The function's values: its locals, its greatest temporaries, and the spare registers.
    pub fn values(&self) -> u32
        requires { FunctionFits self.now }
        ensures { result ≡ values_of self.now }
    {
        self.locals + statement_temps(&self.body) + SPARE_REGISTERS
    }
}
