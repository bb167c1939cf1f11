//! Directives of conditional groups: `if` and its kin, `elif`, `else` and `endif`.

ghost use Rattle.std.specs.Prelude.{◌≡◌, ◌∷◌, OnOk, Ok, reverse};
ghost use Rattle.c_preproc.specs.Expansion.{after_group, bare, condition_of, else_if, else_of, end_if, group_if, is_active, open_by_name, open_if, with_groups};
ghost use Rattle.c_preproc.specs.Outcomes.{Gives, and_then};
ghost use Rattle.c_preproc.specs.Code.Seen.{seen};

use crate::condition::condition_of;
use crate::fault::PreFault;
use crate::names::only_name;
use crate::state::{Group, State};
use c_lexer::Token;
use std::alloc::{AllocError, Global};

/// Whether what stands behind these open `if`s is in an active group.
pub fn is_active(groups: &[Group]) -> bool
    ensures { result ≡ is_active (reverse groups.now) }
{
    match groups.last() {
        None => true,
        Some(group) => matches!(*group, Group::Active),
    }
}

/// The group that a condition chooses.
fn group_if(holds: bool) -> Group
    ensures { result ≡ group_if holds }
{
    if holds { Group::Active } else { Group::Waiting }
}

/// The group behind this one, if no condition is evaluated.
fn after_group(group: Group) -> Group
    ensures { result ≡ after_group group }
{
    match group {
        Group::Outside => Group::Outside,
        Group::Waiting => Group::Active,
        Group::Active | Group::Past => Group::Past,
    }
}

/// Opens an `if`.
pub fn open_group(state: &mut State, group: Group) -> Result<(), AllocError>
    ensures { let old = seen state.old in
        OnOk result (seen state.new ≡ with_groups old (group ∷ old.groups)) }
{
    state.groups.push(group)?;
    Ok(())
}

/// `if` in an active group.
pub fn open_if(
    alloc: Global,
    state: &mut State,
    line: u32,
    tokens: &[Token],
) -> Result<(), PreFault>
    ensures { let old = seen state.old in
        Gives (and_then (condition_of old.definitions line tokens.now)
        (λ holds. Ok (open_if old holds)))
        (λ _. seen state.new) result }
{
    let holds = condition_of(alloc, &mut state.macros, line, tokens)?;
    open_group(state, group_if(holds))?;
    Ok(())
}

/// `ifdef` and `ifndef`.
pub fn open_by_name(
    wanted: bool,
    state: &mut State,
    line: u32,
    tokens: &[Token],
) -> Result<(), PreFault>
    ensures { Gives (open_by_name wanted line (seen state.old) tokens.now)
        (λ _. seen state.new) result }
{
    let Some(name) = only_name(tokens) else {
        return Err(PreFault::Directive(line));
    };
    let holds = state.macros.is_defined(name) == wanted;
    open_group(state, group_if(holds))?;
    Ok(())
}

/// `elif`, which is not evaluated after an active group, and not looked at where its `if` isn't.
pub fn else_if(
    alloc: Global,
    state: &mut State,
    line: u32,
    tokens: &[Token],
) -> Result<(), PreFault>
    ensures { let old = seen state.old in
        Gives (else_if line old tokens.now old.groups) (λ _. seen state.new) result }
{
    let Some(group) = state.groups.pop() else {
        return Ok(());
    };
    let next = match group {
        Group::Waiting => group_if(condition_of(alloc, &mut state.macros, line, tokens)?),
        _ => after_group(group),
    };
    state.groups.push(next)?;
    Ok(())
}

/// A word with nothing behind it, which isn't looked at where its `if` isn't.
fn bare(line: u32, group: Group, tokens: &[Token]) -> Result<(), PreFault>
    ensures { Gives (bare line group tokens.now) (λ _. group) result }
{
    if matches!(group, Group::Outside) || tokens.is_empty() {
        Ok(())
    } else {
        Err(PreFault::Directive(line))
    }
}

/// `else`.
pub fn else_of(state: &mut State, line: u32, tokens: &[Token]) -> Result<(), PreFault>
    ensures { let old = seen state.old in
        Gives (else_of line old tokens.now old.groups) (λ _. seen state.new) result }
{
    let Some(group) = state.groups.pop() else {
        return Ok(());
    };
    bare(line, group, tokens)?;
    state.groups.push(after_group(group))?;
    Ok(())
}

/// `endif`.
pub fn end_if(state: &mut State, line: u32, tokens: &[Token]) -> Result<(), PreFault>
    ensures { let old = seen state.old in
        Gives (end_if line old tokens.now old.groups) (λ _. seen state.new) result }
{
    let Some(group) = state.groups.pop() else {
        return Ok(());
    };
    bare(line, group, tokens)
}
