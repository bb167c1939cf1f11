//! How many elements an array has whose size only its initialiser says (C11 6.7.9p22).

ghost use Rattle.std.specs.Prelude.{◌≡◌, ◌==◌, ◌&&◌, true, length, IfOk};
ghost use Rattle.c_expr_rules.specs.IntegerTypes.{integer_kind};
ghost use Rattle.c_expr_rules.specs.TypedExpressions.{type_at};
ghost use Rattle.c_declarators.specs.Outermost.{ends_open};
ghost use Rattle.c_expr_rules.specs.Views.{seen_state};
ghost use Rattle.c_file_rules.specs.Declaring.{sized_by, are_characters, count_said, is_too_large, sizing_of, sized, sized_before, count_declared, items_type};
ghost use Rattle.c_file_rules.specs.Initialising.{characters_in, elements_in, is_character};
ghost use Rattle.c_names.specs.Code.{here_at};
ghost use Rattle.c_initialisers.specs.Sized.{elements_of_list, seen_sizing};

use crate::initialising::one_text;
use c_check_expr::is_text;
use c_declarators::{complete_outermost, ends_open};
use c_expr_rules::{State, Surroundings, integer_kind, type_at};
use c_file_rules::{characters_of, is_character};
use c_names::{Scene, counted, derived, is_linked, look_up_linked, may_derive, type_rule};
use c_syntax::{Expr, Initialiser};
use c_tree::{Declared, Linkage};
use c_types::{CType, Derivation, ElementCount, Part};
use std::alloc::{AllocError, Global};

/// An array that takes its size from an initialiser, which says none or one that is not too large.
#[derive(Clone, Copy, Debug, PartialEq, Eq)]
pub struct Sizing {
    pub count: Option<ElementCount>,
    pub is_too_large: bool,
}

/// The derivations, of which the outermost array has so many elements where a count is there.
fn sized_by(
    alloc: Global,
    derivations: &[Derivation],
    count: Option<ElementCount>,
) -> Result<Vec<Derivation>, AllocError>
    ensures { IfOk result (λ ds. ds.items ≡ sized_by derivations.now count) }
{
    let mut sized = Vec::from_slice(alloc, derivations)?;
    if let Some(count) = count {
        complete_outermost(&mut sized, count);
    }
    Ok(sized)
}

/// Whether the elements of an array of a size that isn't said are characters, where it has one
/// element. Derivations that break a rule make nothing, and any other one but the array itself
/// makes a type that is no character.
#[tactic(auto, using(crate::proofs::Characters::characters_alone, crate::proofs::Characters::characters_before))]
fn are_characters(
    alloc: Global,
    state: &State,
    base: Part,
    derivations: &[Derivation],
) -> Result<bool, AllocError>
    requires { ends_open derivations.now ≡ true }
    ensures { IfOk result (λ are. are
        ≡ are_characters (seen_state state.now) base derivations.now) }
{
    let one = sized_by(alloc, derivations, counted(1))?;
    if may_derive(&state.types, base, one.as_slice()) {
        Ok(is_character_alone(state, base, derivations))
    } else {
        Ok(characters_of(state, type_at(state, base.number)).is_some())
    }
}

/// Whether there is one derivation alone, and its base is a character.
fn is_character_alone(state: &State, base: Part, derivations: &[Derivation]) -> bool
    ensures { let ty = type_at (seen_state state.now) base.number in
        result ≡ (length derivations.now == 1 && is_character (integer_kind ty)) }
{
    let ty = type_at(state, base.number);
    derivations.len() == 1 && is_character(integer_kind(ty))
}

/// Whether so many elements make a type too large, but one alone does not.
fn is_too_large(
    alloc: Global,
    state: &State,
    base: Part,
    derivations: &[Derivation],
    count: Option<ElementCount>,
) -> Result<bool, AllocError>
    ensures { IfOk result (λ is. is
        ≡ is_too_large (seen_state state.now) base derivations.now count) }
{
    if count.is_none() {
        return Ok(false);
    }
    let all = sized_by(alloc, derivations, count)?;
    let one = sized_by(alloc, derivations, counted(1))?;
    let all_break = type_rule(&state.types, base, all.as_slice()).is_some();
    let one_breaks = type_rule(&state.types, base, one.as_slice()).is_some();
    Ok(all_break && !one_breaks)
}

/// What stands open still has the size that the initialiser says, and any where it says none,
/// since it is refused then.
pub fn sized(
    alloc: Global,
    derivations: &[Derivation],
    count: Option<ElementCount>,
) -> Result<Vec<Derivation>, AllocError>
    ensures { IfOk result (λ ds. ds.items ≡ sized derivations.now count) }
{
    if !ends_open(derivations) {
        return Vec::from_slice(alloc, derivations);
    }
    match count {
        Some(_) => sized_by(alloc, derivations, count),
        None => sized_by(alloc, derivations, counted(1)),
    }
}

/// In its initialiser's items an array has the size that they say, if they say one.
pub fn items_type(
    alloc: Global,
    state: &mut State,
    base: Part,
    derivations: &[Derivation],
    count: Option<ElementCount>,
    part: Part,
) -> Result<Part, AllocError>
    ensures { IfOk result (λ items. (seen_state state.new, items)
        ≡ items_type (seen_state state.old) base derivations.now count part) }
{
    if count.is_none() {
        return Ok(part);
    }
    let whole = sized_by(alloc, derivations, count)?;
    let items = derived(&mut state.types, base, whole.as_slice())?;
    Ok(items)
}

/// How many elements an array has that is declared, or 0 where it is none.
fn count_declared(state: &State, declared: Option<Declared>) -> u64
    ensures { result ≡ count_declared (seen_state state.now) declared }
{
    let Some(Declared::Object(object)) = declared else {
        return 0;
    };
    match type_at(state, object.ty.number) {
        CType::ArrayOf(array) => array.count,
        CType::Void
        | CType::Integer(_)
        | CType::Enumeration(_)
        | CType::Pointer(_)
        | CType::Function(_)
        | CType::Structure(..)
        | CType::Union(..) => 0,
    }
}

/// How many characters a text has with its zero.
fn characters_in<S: Surroundings>(scene: &Scene<'_, S>, expr: &Expr) -> Result<u64, AllocError>
    ensures { IfOk result (λ count.
        count ≡ characters_in (S.told scene.now.around.now) expr.now) }
{
    let bytes = scene
        .around
        .text(scene.facts.alloc, expr.span.first, expr.span.last)?;
    (bytes.len() as u64).checked_add(1).ok_or(AllocError)
}

/// How many elements a list in braces says.
fn elements_of_list<S: Surroundings>(
    scene: &Scene<'_, S>,
    are_characters: bool,
    items: &[Initialiser],
) -> Result<u64, AllocError>
    ensures { IfOk result (λ count. count
        ≡ elements_of_list (S.told scene.now.around.now) are_characters items.now) }
{
    if are_characters && let Some(text) = one_text(items) {
        return characters_in(scene, text);
    }
    Ok(items.len() as u64)
}

/// How many elements an initialiser says. An expression that is no text says none.
fn elements_in<S: Surroundings>(
    scene: &Scene<'_, S>,
    are_characters: bool,
    initialiser: &Initialiser,
) -> Result<Option<u64>, AllocError>
    ensures { IfOk result (λ count. count
        ≡ elements_in (S.told scene.now.around.now) are_characters initialiser.now) }
{
    match initialiser {
        Initialiser::Expression(expr) => {
            if are_characters && is_text(expr) {
                Ok(Some(characters_in(scene, expr)?))
            } else {
                Ok(None)
            }
        }
        Initialiser::List { list, .. } => {
            Ok(Some(elements_of_list(scene, are_characters, list.as_slice())?))
        }
    }
}

/// The count that the initialiser of an array without a size says.
fn count_said<S: Surroundings>(
    scene: &Scene<'_, S>,
    state: &State,
    base: Part,
    derivations: &[Derivation],
    initialiser: &Initialiser,
) -> Result<Option<ElementCount>, AllocError>
    ensures { let here = here_at scene.now.facts.now (S.told scene.now.around.now) in
        IfOk result (λ count. count ≡ count_said here (seen_state state.now) base
        derivations.now initialiser.now) }
{
    if !ends_open(derivations) {
        return Ok(None);
    }
    let are_characters = are_characters(scene.facts.alloc, state, base, derivations)?;
    match elements_in(scene, are_characters, initialiser)? {
        Some(count) => Ok(counted(count)),
        None => Ok(None),
    }
}

/// The size that an array takes from its initialiser.
pub fn sizing_of<S: Surroundings>(
    scene: &Scene<'_, S>,
    state: &State,
    base: Part,
    derivations: &[Derivation],
    initialiser: &Initialiser,
) -> Result<Sizing, AllocError>
    ensures { let here = here_at scene.now.facts.now (S.told scene.now.around.now) in
        let s = seen_state state.now in IfOk result (λ sizing. seen_sizing sizing
        ≡ sizing_of s base derivations.now
        (count_said here s base derivations.now initialiser.now)) }
{
    let count = count_said(scene, state, base, derivations, initialiser)?;
    let is_too_large = is_too_large(scene.facts.alloc, state, base, derivations, count)?;
    if is_too_large {
        Ok(Sizing {
            count: None,
            is_too_large,
        })
    } else {
        Ok(Sizing {
            count,
            is_too_large,
        })
    }
}

/// A declarator's derivations, with the size that an earlier declaration of an array with linkage
/// says.
pub fn sized_before<S: Surroundings>(
    scene: &Scene<'_, S>,
    state: &State,
    linkage: Linkage,
    name: u32,
    derivations: &[Derivation],
) -> Result<Vec<Derivation>, AllocError>
    ensures { let here = here_at scene.now.facts.now (S.told scene.now.around.now) in
        IfOk result (λ ds. ds.items ≡ sized_before here linkage name (seen_state state.now)
        derivations.now) }
{
    let alloc = scene.facts.alloc;
    if !is_linked(linkage) {
        return Vec::from_slice(alloc, derivations);
    }
    let before = look_up_linked(state, scene.around.spelling(name));
    sized_by(alloc, derivations, counted(count_declared(state, before)))
}
