//! Whether a statement keeps what a statement keeps.

ghost use Rattle.std.specs.Prelude.{◌≡◌, ◌≤◌, ◌++◌, [], ◌∷◌, ◌↔◌, IsTrue, IfOk, OnOk, MatchOption, All, length, reverse};
ghost use Rattle.c_tree.specs.declared.stmt.Case.{Case};
ghost use Rattle.c_tree.specs.Fits.{IsHomeSize, bytes_of_access, KindFits, LocalFits, LocalsFit, in_block, in_switch, OptionalFits, ExprFits, StmtFits};
ghost use Rattle.program_fits.specs.Parts.{BlockFits, HeadFits, homes_after};

use crate::expression::expr_fits;
use crate::outline::{Names, Place};
use c_tree::{Access, Case, Expr, LocalDef, LocalKind, Stmt};
use c_types::MOST_OBJECT_BYTES;
use std::alloc::{AllocError, Global};

/// Whether a home may have so many bytes.
fn is_home_size(bytes: u64) -> bool
    ensures { IsTrue result ↔ IsHomeSize bytes }
{
    bytes >= 1 && bytes <= MOST_OBJECT_BYTES
}

/// How many bytes lie in memory.
fn bytes_of_access(lies: Access) -> u64
    ensures { result ≡ bytes_of_access lies }
{
    match lies {
        Access::Integer(ty) => u64::from(ty.bytes()),
        Access::Pointer | Access::Box => 8,
    }
}

/// Whether a local may begin so.
fn kind_fits(kind: LocalKind) -> bool
    ensures { IsTrue result ↔ KindFits kind }
{
    match kind {
        LocalKind::Zero => true,
        LocalKind::Home(bytes) => is_home_size(bytes),
        LocalKind::Moved(bytes, lies) => bytes == bytes_of_access(lies),
    }
}

/// Whether a block's local fits where it stands.
fn local_fits(here: &Place, local: LocalDef) -> bool
    ensures { IsTrue result ↔ LocalFits here.now local }
{
    here.is_value(local.local) && kind_fits(local.kind)
}

/// A local with a home is put behind the homes.
fn put_home(homes: &mut Vec<u32>, local: LocalDef) -> Result<(), AllocError>
    ensures { OnOk result (homes.new.items ≡ homes_after local homes.old.items) }
{
    match local.kind {
        LocalKind::Zero => Ok(()),
        LocalKind::Home(_) | LocalKind::Moved(..) => {
            homes.push(local.local)?;
            Ok(())
        }
    }
}

/// The locals that have a home inside a block, the newest last, where each of the block's locals fits.
fn homes_inside(
    alloc: Global,
    here: &Place,
    locals: &[LocalDef],
) -> Result<Option<Vec<u32>>, AllocError>
    ensures fits { IfOk result (λ inside. MatchOption inside (LocalsFit here.now locals.now → ⊥)
        (λ homes. LocalsFit here.now locals.now)) }
    ensures homes { IfOk result (λ inside. MatchOption inside (Unit {0})
        (λ homes. in_block here.now locals.now
        ≡ record here.now { homes = reverse homes.items })) }
{
    let mut homes = here.homes(alloc)?;
    for local in locals {
        let behind = here.with_homes(homes.as_slice());
        if !local_fits(&behind, *local) {
            return Ok(None);
        }
        put_home(&mut homes, *local)?;
    }
    Ok(Some(homes))
}

/// Whether each case of a switch goes on at one of so many statements, or behind them.
fn cases_fit(cases: &[Case], statements: usize) -> bool
    ensures { IsTrue result ↔ All (λ (c : Case). c.statement ≤ statements) cases.now }
{
    cases
        .iter()
        .all(|case| case.statement as usize <= statements)
}

/// Whether what stands before the statements of a switch fits, of which there are so many.
fn head_fits(
    names: &Names,
    here: &Place,
    value: &Expr,
    cases: &[Case],
    other: u32,
    statements: usize,
) -> bool
    ensures { IsTrue result ↔ HeadFits names.now here.now value.now cases.now other statements }
{
    expr_fits(names, here, value) && cases_fit(cases, statements) && other as usize <= statements
}

/// Whether the value that may be returned fits.
fn optional_fits(names: &Names, here: &Place, value: &Option<Expr>) -> bool
    ensures { IsTrue result ↔ OptionalFits names.now here.now value.now }
{
    match value {
        None => true,
        Some(value) => expr_fits(names, here, value),
    }
}

/// Whether a test after which a loop is left fits.
fn leaving_fits(names: &Names, here: &Place, test: &Expr) -> bool
    ensures { IsTrue result
        ↔ (IsTrue here.now.may_break × ExprFits names.now here.now test.now) }
{
    here.may_break() && expr_fits(names, here, test)
}

/// Whether each statement fits.
#[cycle(statement)]
fn statements_fit(
    alloc: Global,
    names: &Names,
    here: &Place,
    body: &[Stmt],
) -> Result<bool, AllocError>
    ensures { IfOk result (λ fits. IsTrue fits ↔ All (StmtFits names.now here.now) body.now) }
{
    for stmt in body {
        let fits = stmt_fits(alloc, names, here, stmt)?;
        if !fits {
            return Ok(false);
        }
    }
    Ok(true)
}

/// Whether a block's locals fit, and its statements behind them.
#[cycle(statement)]
fn block_fits(
    alloc: Global,
    names: &Names,
    here: &Place,
    locals: &[LocalDef],
    body: &[Stmt],
) -> Result<bool, AllocError>
    ensures { IfOk result (λ fits. IsTrue fits
        ↔ BlockFits names.now here.now locals.now body.now) }
{
    let found = homes_inside(alloc, here, locals)?;
    match found {
        None => Ok(false),
        Some(homes) => {
            let items = homes.as_slice();
            let inside = here.with_homes(items);
            statements_fit(alloc, names, &inside, body)
        }
    }
}

/// Whether two statements fit, each at its place.
#[cycle(statement)]
fn both_fit<'a>(
    alloc: Global,
    names: &Names,
    here: &Place<'a>,
    one: &Stmt,
    there: &Place<'a>,
    other: &Stmt,
) -> Result<bool, AllocError>
    ensures { IfOk result (λ fits. IsTrue fits
        ↔ (StmtFits names.now here.now one.now × StmtFits names.now there.now other.now)) }
{
    let first = stmt_fits(alloc, names, here, one)?;
    if first {
        stmt_fits(alloc, names, there, other)
    } else {
        Ok(false)
    }
}

/// Whether a test and two statements fit.
#[cycle(statement)]
fn branches_fit(
    alloc: Global,
    names: &Names,
    here: &Place,
    test: &Expr,
    one: &Stmt,
    other: &Stmt,
) -> Result<bool, AllocError>
    ensures { IfOk result (λ fits. IsTrue fits ↔ (ExprFits names.now here.now test.now
        × (StmtFits names.now here.now one.now × StmtFits names.now here.now other.now))) }
{
    if expr_fits(names, here, test) {
        both_fit(alloc, names, here, one, here, other)
    } else {
        Ok(false)
    }
}

/// Whether a switch fits.
#[cycle(statement)]
fn switch_fits(
    alloc: Global,
    names: &Names,
    here: &Place,
    value: &Expr,
    cases: &[Case],
    other: u32,
    body: &[Stmt],
) -> Result<bool, AllocError>
    ensures { IfOk result (λ fits. IsTrue fits
        ↔ (HeadFits names.now here.now value.now cases.now other (length body.now)
        × All (StmtFits names.now (in_switch here.now)) body.now)) }
{
    if head_fits(names, here, value, cases, other, body.len()) {
        let inside = here.in_switch();
        statements_fit(alloc, names, &inside, body)
    } else {
        Ok(false)
    }
}

/// Whether a statement fits where it stands.
#[cycle(statement)]
pub fn stmt_fits(
    alloc: Global,
    names: &Names,
    here: &Place,
    stmt: &Stmt,
) -> Result<bool, AllocError>
    ensures { IfOk result (λ fits. IsTrue fits ↔ StmtFits names.now here.now stmt.now) }
{
    match stmt {
        Stmt::Run { value } => Ok(expr_fits(names, here, value)),
        Stmt::Block { locals, body } => {
            block_fits(alloc, names, here, locals.as_slice(), body.as_slice())
        }
        Stmt::If {
            test,
            then,
            otherwise,
            ..
        } => branches_fit(alloc, names, here, test, then.get(), otherwise.get()),
        Stmt::Loop { body, next, .. } => {
            let inside = here.in_loop();
            let behind = here.behind_body();
            both_fit(alloc, names, &inside, body.get(), &behind, next.get())
        }
        Stmt::BreakUnless { test, .. } => Ok(leaving_fits(names, here, test)),
        Stmt::Break { .. } => Ok(here.may_break()),
        Stmt::Continue { .. } => Ok(here.may_continue()),
        Stmt::Switch {
            value,
            cases,
            other,
            body,
            ..
        } => {
            let cases = cases.as_slice();
            switch_fits(alloc, names, here, value, cases, *other, body.as_slice())
        }
        Stmt::Return { value, .. } => Ok(optional_fits(names, here, value)),
    }
}
