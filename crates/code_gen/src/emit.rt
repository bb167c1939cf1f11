//! Emitting the code of expressions, statements and functions, one after another into one list.

ghost use Rattle.std.specs.Prelude.{◌≡◌, ◌+◌, ◌<◌, [], ◌∷◌, ◌++◌, length, IfOk, OnOk};
ghost use Rattle.form_tree.specs.Fits.{FunctionFits};
ghost use Rattle.form_tree.specs.Temps.{temps_of, stmt_temps};
ghost use Rattle.filc_code.specs.Plain.{plain_function};
ghost use Rattle.code_gen.specs.Code.{at_line, expr_code, zeros_code, with_stmt, function_code};

use filc_code::{CodeFunction, Instruction, Op, operator_number, type_number};
use filc_num::{BinOp, REGISTERS};
use form_tree::{Expr, FunctionDef, LocalDef, Stmt};
use std::alloc::{AllocError, Global};

/// The number of the type `int(void)`, which every function has: 0 is that of `int(void*)`.
const ONLY_KIND: u32 = 1;

/// An instruction of the user's text, for an operation.
fn instruction(line: u32, op: Op) -> Instruction
    ensures { result ≡ at_line line op }
{
    Instruction {
        line,
        library: false,
        op,
    }
}

/// One instruction more.
fn put(code: &mut Vec<Instruction>, line: u32, op: Op) -> Result<(), AllocError>
    ensures { OnOk result (code.new.items ≡ code.old.items ++ at_line line op ∷ []) }
{
    code.push(instruction(line, op))?;
    Ok(())
}

/// The index of the next instruction. More instructions than a jump can name are too much memory.
fn next_index(code: &Vec<Instruction>) -> Result<u32, AllocError>
    ensures { IfOk result (λ index. index ≡ length code.now.items) }
{
    match u32::try_from(code.len()) {
        Ok(index) => Ok(index),
        Err(_) => Err(AllocError),
    }
}

/// An expression, with its value in the register t.
fn emit_expr(code: &mut Vec<Instruction>, expr: &Expr, t: u32) -> Result<(), AllocError>
    requires { t + temps_of expr.now < REGISTERS }
    ensures { OnOk result (code.new.items ≡ code.old.items ++ expr_code expr.now t) }
{
    match expr {
        Expr::Number { line, value, .. } => put(code, *line, Op::Const(t, *value)),
        Expr::Local { line, local, .. } => put(code, *line, Op::Move(t, *local)),
        Expr::Negate { line, ty, operand } => {
            emit_expr(code, operand.get(), t)?;
            put(code, *line, Op::Const(t + 1, 0))?;
            let minus = operator_number(BinOp::Sub);
            put(
                code,
                *line,
                Op::Binary(t, t + 1, t, minus, type_number(*ty)),
            )?;
            Ok(())
        }
        Expr::Chain { line, first, links } => {
            emit_expr(code, first.get(), t)?;
            for link in links.as_slice() {
                emit_expr(code, &link.operand, t + 1)?;
                let op = operator_number(link.op);
                put(
                    code,
                    *line,
                    Op::Binary(t, t, t + 1, op, type_number(link.ty)),
                )?;
            }
            Ok(())
        }
    }
}

/// The locals of a block become zero.
fn emit_zeros(code: &mut Vec<Instruction>, locals: &[LocalDef]) -> Result<(), AllocError>
    ensures { OnOk result (code.new.items ≡ code.old.items ++ zeros_code locals.now) }
{
    for local in locals {
        put(code, local.line, Op::Const(local.local, 0))?;
    }
    Ok(())
}

/// A statement, with t as the first temporary.
fn emit_stmt(code: &mut Vec<Instruction>, stmt: &Stmt, t: u32) -> Result<(), AllocError>
    requires { t + stmt_temps stmt.now < REGISTERS }
    ensures { OnOk result (code.new.items ≡ with_stmt code.old.items stmt.now t) }
{
    match stmt {
        Stmt::Empty => Ok(()),
        Stmt::Assign { line, local, value } => {
            emit_expr(code, value, t)?;
            put(code, *line, Op::Move(*local, t))
        }
        Stmt::While { line, test, body } => {
            let start = next_index(code)?;
            emit_expr(code, test, t)?;
            let exit = code.len();
            put(code, *line, Op::JumpZero(t, 0))?;
            emit_stmt(code, body.get(), t)?;
            put(code, *line, Op::Jump(start))?;
            let end = next_index(code)?;
            code[exit] = instruction(*line, Op::JumpZero(t, end));
            Ok(())
        }
        Stmt::Block { locals, body } => {
            emit_zeros(code, locals.as_slice())?;
            for stmt in body.as_slice() {
                emit_stmt(code, stmt, t)?;
            }
            Ok(())
        }
        Stmt::PutChar { line, value } => {
            emit_expr(code, value, t)?;
            put(code, *line, Op::Out(t))
        }
        Stmt::Return { line, value } => {
            emit_expr(code, value, t)?;
            put(code, *line, Op::Return(t))
        }
    }
}

/// A function.
pub fn emit_function(alloc: Global, function: &FunctionDef) -> Result<CodeFunction, AllocError>
    requires { FunctionFits function.now }
    ensures { IfOk result (λ code. plain_function code ≡ function_code function.now) }
{
    let mut instructions = Vec::new(alloc);
    emit_stmt(&mut instructions, &function.body, function.locals)?;
    put(
        &mut instructions,
        function.line,
        Op::Const(function.locals, 0),
    )?;
    put(
        &mut instructions,
        function.line,
        Op::Return(function.locals),
    )?;
    Ok(CodeFunction {
        values: function.values(),
        parameters: 0,
        kind: ONLY_KIND,
        instructions,
    })
}
