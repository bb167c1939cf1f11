//! The derivations that a declarator is.

ghost use Rattle.std.specs.Prelude.{◌≡◌, ◌++◌, map, reverse, IfOk, OnOk};
ghost use Rattle.std.specs.BTreeMap.{get};
ghost use Rattle.std.specs.Ordering.{nat_cmp};
ghost use Rattle.c_declarators.specs.Declarators.{array_of, function_of, kind_derivation, suffix_derivation, pointer_derivation, own_derivations, derivations_of};

use crate::known::Known;
use c_specifiers::qualifiers_of;
use c_syntax::{Core, Declarator, Pointer, Suffix, SuffixKind};
use c_types::{Derivation, TypeRule};
use std::alloc::{AllocError, Global};

/// The derivation that a suffix is.
fn suffix_derivation(known: &Known, suffix: &Suffix) -> Derivation
    ensures { result ≡ suffix_derivation known.now suffix.now }
{
    match &suffix.kind {
        SuffixKind::Array(None) => Derivation::OpenArray,
        SuffixKind::Array(Some(_)) => match known.sizes.get(&suffix.span.first).copied() {
            None => Derivation::BadArray,
            Some(count) => Derivation::Array(count),
        },
        SuffixKind::Function { .. } => match known.parameters.get(&suffix.span.first).copied() {
            None => Derivation::BadFunction(TypeRule::BadFunction),
            Some(Ok(parameters)) => Derivation::Function {
                parameters,
                more: false,
            },
            Some(Err(broken)) => Derivation::BadFunction(broken),
        },
    }
}

/// The derivation that a pointer is.
pub fn pointer_derivation(pointer: &Pointer) -> Derivation
    ensures { result ≡ pointer_derivation pointer.now }
{
    Derivation::Pointer(qualifiers_of(pointer.qualifiers.as_slice()))
}

/// Appends the derivations of pointers, from left to right.
fn append_pointers(
    pointers: &[Pointer],
    derivations: &mut Vec<Derivation>,
) -> Result<(), AllocError>
    ensures { OnOk result (derivations.new.items
        ≡ derivations.old.items ++ map pointer_derivation pointers.now) }
{
    for pointer in pointers {
        derivations.push(pointer_derivation(pointer))?;
    }
    Ok(())
}

/// Appends the derivations of suffixes, from right to left.
fn append_suffixes(
    known: &Known,
    suffixes: &[Suffix],
    derivations: &mut Vec<Derivation>,
) -> Result<(), AllocError>
    ensures { OnOk result (derivations.new.items
        ≡ derivations.old.items ++ reverse (map (suffix_derivation known.now) suffixes.now)) }
{
    for index in (0..suffixes.len()).rev() {
        derivations.push(suffix_derivation(known, &suffixes[index]))?;
    }
    Ok(())
}

/// Appends all derivations of a declarator. It recurses by the parentheses round the name, which nest as deep as
/// a file may.
fn append_all(
    known: &Known,
    declarator: &Declarator,
    derivations: &mut Vec<Derivation>,
) -> Result<(), AllocError>
    ensures { OnOk result (derivations.new.items
        ≡ derivations.old.items ++ derivations_of known.now declarator.now) }
{
    append_pointers(declarator.pointers.as_slice(), derivations)?;
    append_suffixes(known, declarator.suffixes.as_slice(), derivations)?;
    match &declarator.core {
        Core::Name { .. } | Core::Nothing => Ok(()),
        Core::Parens(inner) => append_all(known, inner.get(), derivations),
    }
}

/// The derivations of a declarator, in the order in which they are applied to the base type.
pub fn derivations_of(
    alloc: Global,
    known: &Known,
    declarator: &Declarator,
) -> Result<Vec<Derivation>, AllocError>
    ensures { IfOk result (λ ds. ds.items ≡ derivations_of known.now declarator.now) }
{
    let mut derivations = Vec::new(alloc);
    append_all(known, declarator, &mut derivations)?;
    Ok(derivations)
}
