//! Names in a state: what they stand for, and what a declaration makes them stand for (C11 6.2.1, 6.7p3).

ghost use Rattle.std.specs.Prelude.{◌≡◌, ◌+◌, ◌<◌, suc, length, IfOk, OnOk};
ghost use Rattle.c_expr_rules.specs.Views.{seen_state, Grows};
ghost use Rattle.c_scope.specs.Again.{has_linkage, is_linked};
ghost use Rattle.c_names.specs.Blocks.{AddsTo};
ghost use Rattle.c_file_rules.specs.Naming as naming;
ghost use Rattle.c_file_rules.specs.Naming.{in_scope, out_of_scope, with_names};
ghost use Rattle.c_scope.specs.Scopes.{with_scope};
ghost use Rattle.c_names.specs.Named.{tag_seen, tag_in_block, ordinary_in_block, linked_to, followed, is_stated_again, is_stated_again_by_any_type, stated};
ghost use Rattle.c_file_rules.specs.Specifiers as specifiers;

use c_expr_rules::State;
use c_scope::{DeclareFault, Scope, Space, declaration, space_of};
use c_tree::{Declared, DeclaredFunction, DeclaredObject, Linkage};
use std::alloc::AllocError;

/// Whether declarations of this linkage are of one thing.
pub fn is_linked(linkage: Linkage) -> bool
    ensures { result ≡ is_linked linkage }
{
    match linkage {
        Linkage::NoLinkage => false,
        Linkage::Internal | Linkage::External | Linkage::Prior => true,
    }
}

/// Whether a declaration is one of several of one thing.
pub fn has_linkage(what: Declared) -> bool
    ensures { result ≡ has_linkage what }
{
    match what {
        Declared::Object(object) => is_linked(object.linkage),
        Declared::Function(function) => is_linked(function.linkage),
        Declared::Typedef(_) | Declared::Constant(_) | Declared::Tag(_) => false,
    }
}

/// What a tag of these letters stands for.
pub fn look_up_tag(state: &State, letters: &[u8]) -> Option<Declared>
    ensures { result ≡ tag_seen letters.now (seen_state state.now) }
{
    match state.scopes.look_up(Space::Tag, letters) {
        Ok(declared) => Some(*declared),
        Err(_) => None,
    }
}

/// What a tag of these letters stands for, where the innermost block declares it.
pub fn look_up_tag_here(state: &State, letters: &[u8]) -> Option<Declared>
    ensures { result ≡ tag_in_block letters.now (seen_state state.now) }
{
    state.scopes.look_up_here(Space::Tag, letters).copied()
}

/// What a name that is no tag stands for, where the innermost block declares it.
fn look_up_here(state: &State, letters: &[u8]) -> Option<Declared>
    ensures { result ≡ ordinary_in_block letters.now (seen_state state.now) }
{
    state.scopes.look_up_here(Space::Ordinary, letters).copied()
}

/// What the declarations of a name with linkage have declared so far.
pub fn look_up_linked(state: &State, letters: &[u8]) -> Option<Declared>
    ensures { result ≡ linked_to letters.now (seen_state state.now) }
{
    state.scopes.look_up_linked(letters).copied()
}

/// Whether a name would be declared again.
pub fn is_again(state: &State, letters: &[u8], what: Declared) -> bool
    ensures { result ≡ is_stated_again letters.now what (seen_state state.now) }
{
    let here = state.scopes.look_up_here(space_of(what), letters).copied();
    let linked = look_up_linked(state, letters);
    declaration(here, linked, what).is_none()
}

/// What a declaration follows: with linkage, what the name stands for with linkage, and else what its block has.
fn earlier(state: &State, letters: &[u8], what: Declared) -> Option<Declared>
    ensures { result ≡ followed letters.now what (seen_state state.now) }
{
    if has_linkage(what) {
        look_up_linked(state, letters)
    } else {
        look_up_here(state, letters)
    }
}

/// A declaration with the type that what it follows has, where that is of its kind.
fn typed_as(before: Option<Declared>, what: Declared) -> Declared
    ensures { result ≡ naming.typed_as before what }
{
    match (before, what) {
        (Some(Declared::Object(before)), Declared::Object(object)) => {
            Declared::Object(DeclaredObject {
                ty: before.ty,
                ..object
            })
        }
        (Some(Declared::Function(before)), Declared::Function(function)) => {
            Declared::Function(DeclaredFunction {
                ty: before.ty,
                ..function
            })
        }
        (Some(Declared::Typedef(before)), Declared::Typedef(_)) => Declared::Typedef(before),
        _ => what,
    }
}

/// Whether a name would be declared again whatever type it has: not even the earlier one's would do.
pub fn is_again_by_any_type(state: &State, letters: &[u8], what: Declared) -> bool
    ensures { result ≡ is_stated_again_by_any_type letters.now what (seen_state state.now) }
{
    let before = earlier(state, letters, what);
    is_again(state, letters, typed_as(before, what))
}

/// Declares a name, unless it is declared again. Gives whether it is.
pub fn declare(state: &mut State, letters: &[u8], what: Declared) -> Result<bool, AllocError>
    ensures again { IfOk result (λ is_again.
        is_again ≡ is_stated_again letters.now what (seen_state state.old)) }
    ensures state { OnOk result
        (seen_state state.new ≡ stated letters.now what (seen_state state.old)) }
    ensures grows { OnOk result (Grows state.old state.new) }
{
    match state.scopes.declare(space_of(what), letters, what) {
        Ok(()) => Ok(false),
        Err(DeclareFault::Again) => Ok(true),
        Err(DeclareFault::NoMemory) => Err(AllocError),
    }
}

/// How many names this scope has, a tag's as often as it is named in a new way.
pub fn names_here(state: &State) -> Result<usize, AllocError>
    ensures { IfOk result (λ count. count ≡ specifiers.names_here (seen_state state.now)) }
{
    let ordinary = state.scopes.count_here(Space::Ordinary);
    let tags = state.scopes.count_here(Space::Tag);
    ordinary.checked_add(tags).ok_or(AllocError)
}

/// Opens a scope.
pub fn enter(state: &mut State) -> Result<(), AllocError>
    ensures state { OnOk result (seen_state state.new ≡ in_scope (seen_state state.old)) }
    ensures depth { OnOk result (length state.new.scopes.ordinary
        ≡ suc (length state.old.scopes.ordinary)) }
    ensures inside { OnOk result (1 < length state.new.scopes.ordinary) }
    ensures lists { OnOk result (AddsTo state.old state.new) }
{
    state.scopes.enter()
}

/// Opens a scope that declares what this one declares.
pub fn enter_with(state: &mut State, scope: &Scope) -> Result<(), AllocError>
    ensures state { let s = seen_state state.old in OnOk result
        (seen_state state.new ≡ with_names (with_scope scope.now s.above.names) s) }
    ensures inside { OnOk result (1 < length state.new.scopes.ordinary) }
{
    state.scopes.enter_with(scope)
}

/// Closes the innermost scope.
pub fn leave(state: &mut State)
    requires { 1 < length state.old.scopes.ordinary }
    ensures state { seen_state state.new ≡ out_of_scope (seen_state state.old) }
    ensures depth { length state.old.scopes.ordinary ≡ suc (length state.new.scopes.ordinary) }
    ensures lists { AddsTo state.old state.new }
{
    state.scopes.leave();
}
