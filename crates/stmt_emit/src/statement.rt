//! The code of a statement: exactly what `stmt_code` says. What is put first stands last.
//!
//! Where a `break` and a `continue` go on is handed in (`Exits`), so no jump is patched later. The end of a loop, the
//! other branch of a choice and the statements of a switch are put before the jumps to them, which know their index.

ghost use Rattle.std.specs.Prelude.{◌≡◌, ◌-◌, ◌≤◌, [], ◌∷◌, ◌++◌, reverse, IfOk, OnOk};
ghost use Rattle.stmt_gen.specs.Code.{local_ops, locals_code, return_size, return_code};
ghost use Rattle.stmt_gen.specs.Code.{stmt_size, stmt_code};
ghost use Rattle.c_tree.specs.declared.stmt.Stmt.{Block, BreakUnless, If, Loop, Switch};
ghost use Rattle.whole_code.specs.declared.op.Op.TheVariants.{Jump};
ghost use Rattle.expr_gen.specs.Code.{instructions};
ghost use Rattle.expr_emit.specs.Tail.{before, PutsBefore};
ghost use Rattle.stmt_emit.specs.Lists.{exits_of, inside_at};
ghost use Rattle.stmt_emit.specs.Lists.{statements_size, statements_code, starts_of};

use crate::switching::{emit_cases, start_of};
use c_tree::{Case, Expr, LocalDef, LocalKind, Stmt};
use expr_emit::{Place, Tail, emit_expression, put, store_op};
use std::alloc::{AllocError, Global};
use whole_code::{Instruction, Op};

/// Where a `break` and a `continue` go on.
#[derive(Clone, Copy, Debug, PartialEq, Eq)]
pub struct Exits {
    pub broke: u32,
    pub continued: u32,
}

/// What a statement stands in, the place of its first token, and its exits.
#[derive(Clone, Copy)]
pub struct Inside {
    /// Where the list of a switch's statements lies while their code is put.
    pub heap: Global,
    pub place: Place,
    pub exits: Exits,
}

/// The same for a statement of this line.
fn on_line(inside: Inside, line: u32) -> Inside
    ensures { result ≡ inside_at inside line }
{
    let heap = inside.heap;
    let library = inside.place.library;
    let t = inside.place.t;
    let place = Place { library, line, t };
    let exits = inside.exits;
    Inside { heap, place, exits }
}

/// The size of a home, where it fits.
fn home_size(bytes: u64) -> Result<u32, AllocError>
    ensures { IfOk result (λ n. n ≡ bytes) }
{
    match u32::try_from(bytes) {
        Ok(n) => Ok(n),
        Err(_) => Err(AllocError),
    }
}

/// The code that begins a local; t is free.
fn emit_local(tail: &mut Tail, library: bool, local: LocalDef, t: u32) -> Result<(), AllocError>
    ensures { OnOk result (tail.new ≡ before
        (instructions library local.line (local_ops local.kind local.local t)) tail.old) }
{
    let d = local.local;
    let line = local.line;
    let place = Place { library, line, t };
    match local.kind {
        LocalKind::Zero => put(tail, place, &[Op::Const { d, constant: 0 }]),
        LocalKind::Home(bytes) => {
            let bytes = home_size(bytes)?;
            put(tail, place, &[Op::Home { d, bytes }])
        }
        LocalKind::Moved(bytes, lies) => {
            let home = Op::Home {
                d: t,
                bytes: home_size(bytes)?,
            };
            let store = store_op(lies, t, d);
            put(tail, place, &[home, store, Op::Move { d, a: t }])
        }
    }
}

/// The code that begins a block's locals.
fn emit_locals(
    tail: &mut Tail,
    library: bool,
    locals: &[LocalDef],
    t: u32,
) -> Result<(), AllocError>
    ensures { OnOk result (tail.new ≡ before (locals_code library locals.now t) tail.old) }
{
    for index in (0..locals.len()).rev() {
        emit_local(tail, library, locals[index], t)?;
    }
    Ok(())
}

/// The code of a jump of this line.
fn emit_jump(tail: &mut Tail, inside: Inside, line: u32, target: u32) -> Result<(), AllocError>
    ensures { OnOk result (tail.new ≡ before
        (instructions inside.place.library line (Jump target ∷ [])) tail.old) }
{
    let t = inside.place.t;
    let library = inside.place.library;
    put(tail, Place { library, line, t }, &[Op::Jump { target }])
}

/// The code of a test of this line that breaks where it is 0.
fn emit_break_unless(
    tail: &mut Tail,
    inside: Inside,
    line: u32,
    test: &Expr,
) -> Result<(), AllocError>
    ensures { OnOk result (PutsBefore (stmt_size (BreakUnless line test.now))
        (λ at. stmt_code inside.place.library (BreakUnless line test.now) inside.place.t at
        (exits_of inside.exits)) tail.old tail.new) }
{
    let t = inside.place.t;
    let library = inside.place.library;
    let target = inside.exits.broke;
    let place = Place { library, line, t };
    put(tail, place, &[Op::JumpZero { a: t, target }])?;
    emit_expression(tail, library, test, t)
}

/// The code of a return of this line.
fn emit_return(
    tail: &mut Tail,
    inside: Inside,
    line: u32,
    value: &Option<Expr>,
) -> Result<(), AllocError>
    ensures { OnOk result (PutsBefore (return_size value.now)
        (return_code inside.place.library line value.now inside.place.t) tail.old tail.new) }
{
    let t = inside.place.t;
    let library = inside.place.library;
    let place = Place { library, line, t };
    match value {
        None => {
            let zero = Op::Const { d: t, constant: 0 };
            put(tail, place, &[zero, Op::Return { a: t }])
        }
        Some(value) => {
            put(tail, place, &[Op::Return { a: t }])?;
            emit_expression(tail, library, value, t)
        }
    }
}

/// The code of statements.
#[cycle(statement)]
fn emit_statements(tail: &mut Tail, inside: Inside, body: &[Stmt]) -> Result<(), AllocError>
    ensures { OnOk result (PutsBefore (statements_size body.now)
        (λ at. statements_code inside.place.library body.now inside.place.t at
        (exits_of inside.exits)) tail.old tail.new) }
{
    for index in (0..body.len()).rev() {
        emit_stmt(tail, inside, &body[index])?;
    }
    Ok(())
}

/// The code of a block.
#[cycle(statement)]
fn emit_block(
    tail: &mut Tail,
    inside: Inside,
    locals: &[LocalDef],
    body: &[Stmt],
) -> Result<(), AllocError>
    ensures { OnOk result (PutsBefore (stmt_size (Block locals.now body.now))
        (λ at. stmt_code inside.place.library (Block locals.now body.now) inside.place.t at
        (exits_of inside.exits)) tail.old tail.new) }
{
    emit_statements(tail, inside, body)?;
    emit_locals(tail, inside.place.library, locals, inside.place.t)
}

/// The code of the statements of a switch. The index behind the last, and where each begins, that of the last
/// first, are put behind what `starts` holds.
#[cycle(statement)]
fn emit_switch_body(
    tail: &mut Tail,
    inside: Inside,
    body: &[Stmt],
    starts: &mut Vec<u32>,
) -> Result<(), AllocError>
    ensures code { OnOk result (PutsBefore (statements_size body.now)
        (λ at. statements_code inside.place.library body.now inside.place.t at
        (exits_of inside.exits)) tail.old tail.new) }
    ensures starts { OnOk result (statements_size body.now ≤ tail.old.start →
        starts.new.items ≡ starts.old.items
        ++ reverse (starts_of body.now (tail.old.start - statements_size body.now))) }
{
    starts.push(tail.start())?;
    for index in (0..body.len()).rev() {
        emit_stmt(tail, inside, &body[index])?;
        starts.push(tail.start())?;
    }
    Ok(())
}

/// The code of a choice. What its test goes to, and its end, are there before the jumps to them.
#[cycle(statement)]
fn emit_if(
    tail: &mut Tail,
    inside: Inside,
    test: &Expr,
    one: &Stmt,
    last: &Stmt,
) -> Result<(), AllocError>
    ensures { OnOk result (PutsBefore
        (stmt_size (If inside.place.line test.now one.now last.now))
        (λ at. stmt_code inside.place.library
        (If inside.place.line test.now one.now last.now) inside.place.t at
        (exits_of inside.exits)) tail.old tail.new) }
{
    let t = inside.place.t;
    let end = tail.start();
    emit_stmt(tail, inside, last)?;
    let target = tail.start();
    put(tail, inside.place, &[Op::Jump { target: end }])?;
    emit_stmt(tail, inside, one)?;
    put(tail, inside.place, &[Op::JumpZero { a: t, target }])?;
    emit_expression(tail, inside.place.library, test, t)
}

/// The code of a loop, whose jump back is known when its body is there.
#[cycle(statement)]
fn emit_loop(tail: &mut Tail, inside: Inside, body: &Stmt, next: &Stmt) -> Result<(), AllocError>
    ensures { OnOk result (PutsBefore (stmt_size (Loop inside.place.line body.now next.now))
        (λ at. stmt_code inside.place.library (Loop inside.place.line body.now next.now)
        inside.place.t at (exits_of inside.exits)) tail.old tail.new) }
{
    let heap = inside.heap;
    let place = inside.place;
    let broke = tail.start();
    let behind = tail.len();
    put(tail, place, &[Op::Jump { target: 0 }])?;
    let back = tail.start();
    let exits = Exits {
        broke,
        continued: back,
    };
    emit_stmt(tail, Inside { heap, place, exits }, next)?;
    let continued = tail.start();
    let exits = Exits { broke, continued };
    emit_stmt(tail, Inside { heap, place, exits }, body)?;
    let target = tail.start();
    let instruction = Instruction {
        line: place.line,
        library: place.library,
        op: Op::Jump { target },
    };
    tail.replace(behind, instruction);
    Ok(())
}

/// The code of a switch: its value, its cases, the jump to where no case leads, and its statements.
#[cycle(statement)]
fn emit_switch(
    tail: &mut Tail,
    inside: Inside,
    value: &Expr,
    cases: &[Case],
    other: u32,
    body: &[Stmt],
) -> Result<(), AllocError>
    ensures { OnOk result (PutsBefore
        (stmt_size (Switch inside.place.line value.now cases.now other body.now))
        (λ at. stmt_code inside.place.library
        (Switch inside.place.line value.now cases.now other body.now) inside.place.t at
        (exits_of inside.exits)) tail.old tail.new) }
{
    let place = inside.place;
    let end = tail.start();
    let exits = Exits {
        broke: end,
        continued: inside.exits.continued,
    };
    let heap = inside.heap;
    let within = Inside { heap, place, exits };
    let mut starts = Vec::new(heap);
    emit_switch_body(tail, within, body, &mut starts)?;
    starts.reverse();
    let target = start_of(&starts, end, other);
    put(tail, place, &[Op::Jump { target }])?;
    emit_cases(tail, place, cases, &starts, end)?;
    emit_expression(tail, place.library, value, place.t)
}

/// The code of a statement, before what is there. Its expressions have their values in the place's register. A
/// size of a home that doesn't fit an instruction is too much memory.
#[cycle(statement)]
pub fn emit_stmt(tail: &mut Tail, inside: Inside, stmt: &Stmt) -> Result<(), AllocError>
    ensures { OnOk result (PutsBefore (stmt_size stmt.now)
        (λ at. stmt_code inside.place.library stmt.now inside.place.t at
        (exits_of inside.exits)) tail.old tail.new) }
{
    match stmt {
        Stmt::Run { value } => emit_expression(tail, inside.place.library, value, inside.place.t),
        Stmt::Block { locals, body } => {
            emit_block(tail, inside, locals.as_slice(), body.as_slice())
        }
        Stmt::If {
            line,
            test,
            then,
            otherwise,
        } => {
            let inside = on_line(inside, *line);
            emit_if(tail, inside, test, then.get(), otherwise.get())
        }
        Stmt::Loop { line, body, next } => {
            emit_loop(tail, on_line(inside, *line), body.get(), next.get())
        }
        Stmt::BreakUnless { line, test } => emit_break_unless(tail, inside, *line, test),
        Stmt::Break { line } => emit_jump(tail, inside, *line, inside.exits.broke),
        Stmt::Continue { line } => emit_jump(tail, inside, *line, inside.exits.continued),
        Stmt::Switch {
            line,
            value,
            cases,
            other,
            body,
        } => {
            let inside = on_line(inside, *line);
            let cases = cases.as_slice();
            emit_switch(tail, inside, value, cases, *other, body.as_slice())
        }
        Stmt::Return { line, value } => emit_return(tail, inside, *line, value),
    }
}
