//! Blocks: their scopes and their locals (C11 6.8.2).

ghost use Rattle.std.specs.Prelude.{◌≡◌, ◌<◌, [], suc, length, reverse, IfOk, OnOk};
ghost use Rattle.c_expr_rules.specs.Views.{seen_state, Grows};
ghost use Rattle.c_names.specs.Blocks.{AddsTo};
ghost use Rattle.c_file_rules.specs.Naming.{in_scope, out_of_scope};
ghost use Rattle.c_file_rules.specs.Statements.{with_locals, with_switch_local};
ghost use Rattle.c_statements.specs.Waiting.{block_left, statement_block};

use c_expr_rules::State;
use c_names::{behind, enter, leave};
use c_tree::{LocalDef, Stmt};
use sqlite_items::Items;
use std::alloc::{AllocError, Global};
use std::mem;

/// Opens a block. Gives the locals of the block round it so far.
pub fn enter_block(alloc: Global, state: &mut State) -> Result<Vec<LocalDef>, AllocError>
    ensures state { OnOk result
        (seen_state state.new ≡ in_scope (with_locals [] (seen_state state.old))) }
    ensures outer { IfOk result (λ outer. outer ≡ state.old.locals) }
    ensures depth { OnOk result (length state.new.scopes.ordinary
        ≡ suc (length state.old.scopes.ordinary)) }
    ensures inside { OnOk result (1 < length state.new.scopes.ordinary) }
    ensures lists { OnOk result (AddsTo state.old state.new) }
{
    let outer = mem::replace(&mut state.locals, Vec::new(alloc));
    enter(state)?;
    Ok(outer)
}

/// Closes a block, which has its locals in their order and these statements.
pub fn leave_block(state: &mut State, outer: Vec<LocalDef>, body: Items<Stmt>) -> Stmt
    requires { 1 < length state.old.scopes.ordinary }
    ensures state { seen_state state.new
        ≡ with_locals (reverse outer.items) (out_of_scope (seen_state state.old)) }
    ensures made { result ≡ block_left (seen_state state.old) body }
    ensures depth { length state.old.scopes.ordinary
        ≡ suc (length state.new.scopes.ordinary) }
    ensures lists { AddsTo state.old state.new }
{
    let locals = Items::from_vec(mem::replace(&mut state.locals, outer));
    leave(state);
    Stmt::Block { locals, body }
}

/// The local of a switch's value, which is the next one.
pub fn take_switch_local(state: &mut State) -> Result<u32, AllocError>
    ensures local { IfOk result (λ local. local ≡ state.old.next_local) }
    ensures state { OnOk result
        (seen_state state.new ≡ with_switch_local (seen_state state.old)) }
    ensures grows { OnOk result (Grows state.old state.new) }
{
    let local = state.next_local;
    state.next_local = behind(local)?;
    Ok(local)
}

/// A block without locals.
pub fn plain_block(alloc: Global, body: Items<Stmt>) -> Stmt
    ensures { result ≡ statement_block body }
{
    Stmt::Block {
        locals: Items::new(alloc),
        body,
    }
}

/// A statement that does nothing.
pub fn nothing_done(alloc: Global) -> Stmt
    ensures { result ≡ statement_block [] }
{
    plain_block(alloc, Items::new(alloc))
}
