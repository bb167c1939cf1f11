//! The types that declarations make, each by one call on the table of types.
//!
//! What is no part of the table makes nothing. No caller has such a part; the tests are there so that each call has a result
//! for every argument, as the definition has.

ghost use Rattle.std.specs.Prelude.{◌≡◌, None, All, IfOk, OnOk};
ghost use Rattle.c_types.specs.Declarators.{shape_at};
ghost use Rattle.c_types.specs.Derivations.{shape_in, lowest_rule};
ghost use Rattle.c_types.specs.Whole.{IsPart, DerivationFits};
ghost use Rattle.c_declarations.specs.Declarations.{known_rule};
ghost use Rattle.c_expr_rules.specs.Views.{seen_state};
ghost use Rattle.c_types.specs.Extensions.{with_type, may_derive, derived, parameter_list, adjusted, qualified, new_tag_type, completed, count_of, is_open};
ghost use Rattle.c_file_rules.specs.Files as files;
ghost use Rattle.c_names.specs.Plain.{IsPlainType};
ghost use Rattle.c_file_rules.specs.Declarators.{type_rule};

use c_declarations::rule_of;
use c_expr_rules::State;
use c_file_rules::part_of;
use c_rules::Rule;
use c_type_rules::{qualify, type_of};
use c_types::{
    CType, Derivation, ElementCount, Extent, Part, Qualifiers, Shape, Tag, TypeRule, Types,
    lowest_rule_of,
};
use filc_num::CIntType;
use std::alloc::{AllocError, Global};

/// A type that is made of nothing: void or an integer type.
pub fn with_type(types: &mut Types, ty: CType) -> Result<Part, AllocError>
    requires { IsPlainType ty }
    ensures grown { OnOk result (types.new ≡ (with_type types.old ty).0) }
    ensures gives { IfOk result (λ part. part ≡ (with_type types.old ty).1) }
{
    match ty {
        CType::Void => Ok(part_of(types.void_type()?)),
        CType::Integer(kind) => Ok(part_of(types.integer_type(kind)?)),
        CType::Enumeration(_)
        | CType::Pointer(_)
        | CType::ArrayOf(_)
        | CType::Function(_)
        | CType::Structure(..)
        | CType::Union(..) => unreachable!(),
    }
}

/// What derivations make of a base, or the base where they break a rule.
pub fn derived(
    types: &mut Types,
    base: Part,
    derivations: &[Derivation],
) -> Result<Part, AllocError>
    ensures grown { OnOk result (types.new ≡ (derived types.old base derivations.now).0) }
    ensures gives { IfOk result (λ made. made ≡ (derived types.old base derivations.now).1) }
{
    if types.is_part(base) {
        derived_part(types, base, derivations)
    } else {
        Ok(base)
    }
}

/// The same of a part of the table.
fn derived_part(
    types: &mut Types,
    base: Part,
    derivations: &[Derivation],
) -> Result<Part, AllocError>
    requires { IsPart types.old base }
    ensures grown { OnOk result (types.new ≡ (derived types.old base derivations.now).0) }
    ensures gives { IfOk result (λ made. made ≡ (derived types.old base derivations.now).1) }
{
    if types.knows_lists_of(derivations) {
        derived_by(types, base, derivations)
    } else {
        Ok(base)
    }
}

/// The same where the derivations' lists of parameters are of the table too.
fn derived_by(types: &mut Types, base: Part, derivations: &[Derivation]) -> Result<Part, AllocError>
    requires part { IsPart types.old base }
    requires lists { All (DerivationFits types.old) derivations.now }
    ensures grown { OnOk result (types.new ≡ (derived types.old base derivations.now).0) }
    ensures gives { IfOk result (λ made. made ≡ (derived types.old base derivations.now).1) }
{
    if type_rule(types, base, derivations).is_some() {
        return Ok(base);
    }
    match types.derive_all(base, derivations) {
        Ok(made) => Ok(made),
        Err(_) => Err(AllocError),
    }
}

/// Whether derivations make a type of a base.
pub fn may_derive(types: &Types, base: Part, derivations: &[Derivation]) -> bool
    ensures { result ≡ may_derive types.now base derivations.now }
{
    types.is_part(base)
        && types.knows_lists_of(derivations)
        && type_rule(types, base, derivations).is_none()
}

/// The number of a list of parameters of these types.
pub fn parameter_list(types: &mut Types, parameters: &[u32]) -> Result<u32, AllocError>
    ensures grown { OnOk result (types.new ≡ (parameter_list types.old parameters.now).0) }
    ensures gives { IfOk result (λ list. list ≡ (parameter_list types.old parameters.now).1) }
{
    if types.are_types(parameters) {
        types.parameter_list(parameters)
    } else {
        types.parameter_list(&[])
    }
}

/// A parameter's type after its adjustment (C11 6.7.6.3p7, p8).
pub fn adjusted(types: &mut Types, parameter: Part) -> Result<Part, AllocError>
    ensures grown { OnOk result (types.new ≡ (adjusted types.old parameter).0) }
    ensures gives { IfOk result (λ made. made ≡ (adjusted types.old parameter).1) }
{
    if types.is_part(parameter) {
        types.adjust(parameter)
    } else {
        Ok(parameter)
    }
}

/// A type with further qualifiers.
pub fn qualified(
    alloc: Global,
    types: &mut Types,
    part: Part,
    set: Qualifiers,
) -> Result<Part, AllocError>
    ensures grown { OnOk result (types.new ≡ (qualified types.old part set.0).0) }
    ensures gives { IfOk result (λ made. made ≡ (qualified types.old part set.0).1) }
{
    if types.is_part(part) {
        qualify(alloc, types, part, set)
    } else {
        Ok(part)
    }
}

/// A new structure, union or enumeration without contents.
pub fn new_type(types: &mut Types, tag: Tag) -> Result<u32, AllocError>
    ensures grown { OnOk result (types.new ≡ (new_tag_type types.old tag).0) }
    ensures gives { IfOk result (λ number. number ≡ (new_tag_type types.old tag).1) }
{
    types.declare(tag)
}

/// Whether a structure or union has no contents yet.
fn is_open(types: &Types, tag: Tag, number: u32) -> bool
    ensures { result ≡ is_open types.now tag number }
{
    match (tag, type_of(types, number)) {
        (Tag::Structure, Some(CType::Structure(own, None)))
        | (Tag::Union, Some(CType::Union(own, None)))
        | (Tag::Enumeration, Some(CType::Enumeration(own))) => own == number,
        _ => false,
    }
}

/// Gives a structure or union the extent of its contents, where it has none yet.
pub fn complete_once(types: &mut Types, tag: Tag, number: u32, extent: Extent)
    ensures { types.new ≡ completed types.old tag number extent.size extent.align }
{
    if is_open(types, tag, number) {
        types.complete(tag, number, extent);
    }
}

/// A count of elements, which is 1 at least.
pub fn counted(count: u64) -> Option<ElementCount>
    ensures { result ≡ count_of count }
{
    if count == 0 {
        return None;
    }
    Some(ElementCount { value: count })
}

/// The number of the type of an array of so many char.
pub fn char_array(types: &mut Types, count: u64) -> Result<u32, AllocError>
    ensures { IfOk result (λ number.
        (types.new, number) ≡ files.char_array types.old (count_of count)) }
{
    let Some(count) = counted(count) else {
        return Ok(0);
    };
    let char = with_type(types, CType::Integer(CIntType::Char))?;
    let made = derived(types, char, &[Derivation::Array(count)])?;
    Ok(made.number)
}

/// What decides of the type of this number whether a derivation may follow it.
fn shape_of(types: &Types, number: u32) -> Shape
    ensures { shape_in result ≡ shape_at types.now number }
{
    match type_of(types, number) {
        Some(ty) => Shape::of(&ty),
        None => Shape::of_nothing(),
    }
}

/// The first of the rules that derivations break over a base.
pub fn type_rule(types: &Types, base: Part, derivations: &[Derivation]) -> Option<TypeRule>
    ensures { result ≡ lowest_rule (shape_at types.now base.number) None derivations.now }
{
    lowest_rule_of(shape_of(types, base.number), derivations)
}

/// The rule of the checker that derivations break over a base.
pub fn rule_of_derivations(state: &State, base: Part, derivations: &[Derivation]) -> Option<Rule>
    ensures { result ≡ known_rule (type_rule (seen_state state.now) base derivations.now) }
{
    match type_rule(&state.types, base, derivations) {
        None => None,
        Some(broken) => Some(rule_of(broken)),
    }
}
