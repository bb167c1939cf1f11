//! The recursion over type names, specifiers and declarators, with all that stands in them.
//!
//! It goes as deep as they nest, and no deeper: specifiers, members, suffixes and parameters are
//! loops. `specs/Lists.antt` of `c_type_parts` says what a loop over such a list gives. Expressions
//! in them are checked by the crate below, which comes back to type names only by what is round
//! expressions.

ghost use Rattle.std.specs.Prelude.{◌≡◌, [], IfOk, OnOk};
ghost use Rattle.c_expr_rules.specs.Views.{seen_state, Passes, Grows};
ghost use Rattle.c_names.specs.Code.{here_at};
ghost use Rattle.c_type_parts.specs.Lists.{seen_follows, member_list, member_declarator_list, suffix_list, suffix_made, parameter_list};
ghost use Rattle.c_file_rules.specs.Specifiers.{type_said, type_named, specifiers_said, specifier_found, member_found, formed, core_formed};
ghost use Rattle.c_file_rules.specs.Tags.{no_members};

use crate::enumerations::enumeration;
use crate::expressions::assertion_value;
use crate::sizes::size_formed;
use c_expr_rules::{Fault, State, Surroundings};
use c_file_rules::{
    Formed, Listed, MemberList, MembersSeen, Parts, Said, Suffixed, joined, no_parts, plain,
    with_declared, with_suffix,
};
use c_names::{Scene, enter, names_here};
use c_specifiers::Standing;
use c_syntax::{
    Core, Declarator, Member, Parameter, SpecifierKind, Specifiers, Suffix, SuffixKind, TypeName,
};
use c_type_parts::{
    Place, also_declares, atomic_found, declare_member, declared_type, function_suffix,
    is_tag_alone, obey_member, parameter_found, place_of, record_found, specified, tag_alone,
    tag_of, type_to_list, typedef_named,
};
use c_types::{Derivation, Part};
use sqlite_items::Items;
use std::alloc::AllocError;

/// A number of 32 bits for an index.
fn index_of(length: usize) -> Result<u32, AllocError>
    ensures { IfOk result (λ index. index ≡ length) }
{
    u32::try_from(length).map_err(|_| AllocError)
}

/// What a type name says: its type, and whether it declares something.
#[cycle(specifiers)]
fn type_said<S: Surroundings>(
    scene: &Scene<'_, S>,
    state: &mut State,
    name: &TypeName,
) -> Result<Said, Fault>
    requires { S.fit scene.now.around.now }
    ensures found { let here = here_at scene.now.facts.now (S.told scene.now.around.now) in
        Passes (seen_state state.new) result
        (type_said here (seen_state state.old) name.now) }
    ensures grows { OnOk result (Grows state.old state.new) }
{
    let place = place_of(Standing::TypeName);
    let said = specifiers_said(scene, state, place, &name.specifiers)?;
    let formed = formed(scene, state, &name.declarator)?;
    let line = name.declarator.span.line;
    let derivations = formed.derivations.as_slice();
    let ty = declared_type(state, line, false, said.ty, derivations)?;
    Ok(Said { ty, ..said })
}

/// What specifiers say, each looked at where it stands.
#[cycle(specifiers)]
pub fn specifiers_said<S: Surroundings>(
    scene: &Scene<'_, S>,
    state: &mut State,
    place: Place<'_>,
    specifiers: &Specifiers,
) -> Result<Said, Fault>
    requires { S.fit scene.now.around.now }
    ensures found { let here = here_at scene.now.facts.now (S.told scene.now.around.now) in
        Passes (seen_state state.new) result (specifiers_said here place.entry.standing
        (seen_follows place.entry.follows) (seen_state state.old) specifiers.now) }
    ensures grows { OnOk result (Grows state.old state.new) }
{
    let list = specifiers.list.as_slice();
    let is_alone = is_tag_alone(place.follows, list);
    let before = names_here(state)?;
    let mut parts = no_parts();
    'specifiers: for specifier in list {
        parts = specifier_found(scene, state, is_alone, parts, &specifier.kind)?;
    }
    let parts = with_declared(before, names_here(state)?, parts);
    let line = specifiers.span.line;
    specified(scene.facts.alloc, state, line, place, list, parts)
}

/// A specifier behind others.
#[cycle(specifiers)]
fn specifier_found<S: Surroundings>(
    scene: &Scene<'_, S>,
    state: &mut State,
    is_alone: bool,
    parts: Parts,
    kind: &SpecifierKind,
) -> Result<Parts, Fault>
    requires { S.fit scene.now.around.now }
    ensures found { let here = here_at scene.now.facts.now (S.told scene.now.around.now) in
        Passes (seen_state state.new) result
        (specifier_found here is_alone (seen_state state.old) parts kind.now) }
    ensures grows { OnOk result (Grows state.old state.new) }
{
    match kind {
        SpecifierKind::Storage(_)
        | SpecifierKind::Function(_)
        | SpecifierKind::Qualifier(_)
        | SpecifierKind::Basic(_) => Ok(parts),
        SpecifierKind::Atomic(name) => {
            let said = type_said(scene, state, name.get())?;
            Ok(atomic_found(state, said, parts))
        }
        SpecifierKind::TypedefName(name) => Ok(typedef_named(scene, state, *name, parts)),
        SpecifierKind::Record { kind, tag, members } => match members {
            None => Ok(tag_alone(scene, state, is_alone, tag_of(*kind), *tag, parts)?),
            Some(members) => {
                let number = type_to_list(scene, state, tag_of(*kind), *tag)?;
                let seen = members_found(scene, state, members.as_slice())?;
                record_found(scene, state, *kind, *tag, number, parts, seen)
            }
        },
        SpecifierKind::Enum { tag, constants } => {
            enumeration(scene, state, *tag, constants, parts)
        }
    }
}

/// The members of a structure or union.
#[cycle(specifiers)]
fn members_found<S: Surroundings>(
    scene: &Scene<'_, S>,
    state: &mut State,
    members: &[Member],
) -> Result<MembersSeen, Fault>
    requires { S.fit scene.now.around.now }
    ensures found { let here = here_at scene.now.facts.now (S.told scene.now.around.now) in
        Passes (seen_state state.new) result
        (member_list here (seen_state state.old) no_members members.now) }
    ensures grows { OnOk result (Grows state.old state.new) }
{
    let mut seen = MembersSeen {
        members: MemberList::new(scene.facts.alloc),
        declares: false,
    };
    'members: for member in members {
        seen = member_found(scene, state, seen, member)?;
    }
    Ok(seen)
}

/// What stands in the braces of a structure or union, behind others.
#[cycle(specifiers)]
fn member_found<S: Surroundings>(
    scene: &Scene<'_, S>,
    state: &mut State,
    seen: MembersSeen,
    member: &Member,
) -> Result<MembersSeen, Fault>
    requires { S.fit scene.now.around.now }
    ensures found { let here = here_at scene.now.facts.now (S.told scene.now.around.now) in
        Passes (seen_state state.new) result
        (member_found here (seen_state state.old) seen member.now) }
    ensures grows { OnOk result (Grows state.old state.new) }
{
    match member {
        Member::Declares {
            specifiers,
            declarators,
            ..
        } => {
            let place = place_of(Standing::Member);
            let said = specifiers_said(scene, state, place, specifiers)?;
            let seen = also_declares(seen, said.declares);
            member_declarators(scene, state, said.ty, seen, declarators.as_slice())
        }
        Member::Asserts(assertion) => {
            let _ = assertion_value(scene, state, &assertion.condition)?;
            Ok(seen)
        }
    }
}

/// The members that declarators declare over one base.
#[cycle(specifiers)]
fn member_declarators<S: Surroundings>(
    scene: &Scene<'_, S>,
    state: &mut State,
    base: Part,
    seen: MembersSeen,
    declarators: &[Declarator],
) -> Result<MembersSeen, Fault>
    requires { S.fit scene.now.around.now }
    ensures found { let here = here_at scene.now.facts.now (S.told scene.now.around.now) in
        Passes (seen_state state.new) result (member_declarator_list here
        (seen_state state.old) base seen declarators.now) }
    ensures grows { OnOk result (Grows state.old state.new) }
{
    let mut seen = seen;
    'declarators: for declarator in declarators {
        let formed = formed(scene, state, declarator)?;
        let line = declarator.span.line;
        let part = declared_type(state, line, false, base, formed.derivations.as_slice())?;
        let part = obey_member(state, line, declarator.name, &seen.members, part)?;
        seen = declare_member(seen, declarator.name, part)?;
    }
    Ok(seen)
}

/// A declarator: what stands in its parentheses first, and then its suffixes.
#[cycle(specifiers)]
pub fn formed<S: Surroundings>(
    scene: &Scene<'_, S>,
    state: &mut State,
    declarator: &Declarator,
) -> Result<Formed, Fault>
    requires { S.fit scene.now.around.now }
    ensures found { let here = here_at scene.now.facts.now (S.told scene.now.around.now) in
        Passes (seen_state state.new) result
        (formed here (seen_state state.old) declarator.now) }
    ensures grows { OnOk result (Grows state.old state.new) }
{
    let inside = core_formed(scene, state, &declarator.core)?;
    let own = suffixes_formed(scene, state, declarator.suffixes.as_slice())?;
    Ok(joined(
        scene.facts.alloc,
        declarator.pointers.as_slice(),
        own,
        inside,
    )?)
}

/// Suffixes, from left to right. The first of them stands nearest to the name.
#[cycle(specifiers)]
fn suffixes_formed<S: Surroundings>(
    scene: &Scene<'_, S>,
    state: &mut State,
    suffixes: &[Suffix],
) -> Result<Formed, Fault>
    requires { S.fit scene.now.around.now }
    ensures found { let here = here_at scene.now.facts.now (S.told scene.now.around.now) in
        Passes (seen_state state.new) result
        (suffix_list here (seen_state state.old) suffixes.now) }
    ensures grows { OnOk result (Grows state.old state.new) }
{
    let mut own = plain(scene.facts.alloc);
    'suffixes: for suffix in suffixes {
        let one = suffix_formed(scene, state, &suffix.kind)?;
        own = with_suffix(own, one)?;
    }
    Ok(own)
}

/// What stands in a declarator's parentheses.
#[cycle(specifiers)]
fn core_formed<S: Surroundings>(
    scene: &Scene<'_, S>,
    state: &mut State,
    core: &Core,
) -> Result<Formed, Fault>
    requires { S.fit scene.now.around.now }
    ensures found { let here = here_at scene.now.facts.now (S.told scene.now.around.now) in
        Passes (seen_state state.new) result
        (core_formed here (seen_state state.old) core.now) }
    ensures grows { OnOk result (Grows state.old state.new) }
{
    match core {
        Core::Parens(inner) => formed(scene, state, inner.get()),
        Core::Name { .. } | Core::Nothing => Ok(plain(scene.facts.alloc)),
    }
}

/// A suffix.
#[cycle(specifiers)]
fn suffix_formed<S: Surroundings>(
    scene: &Scene<'_, S>,
    state: &mut State,
    kind: &SuffixKind,
) -> Result<Suffixed, Fault>
    requires { S.fit scene.now.around.now }
    ensures found { let here = here_at scene.now.facts.now (S.told scene.now.around.now) in
        Passes (seen_state state.new) result
        (suffix_made here (seen_state state.old) kind.now) }
    ensures grows { OnOk result (Grows state.old state.new) }
{
    let alloc = scene.facts.alloc;
    match kind {
        SuffixKind::Array(size) => match size {
            None => Ok(Suffixed {
                derivation: Derivation::OpenArray,
                prototype: None,
            }),
            Some(size) => Ok(Suffixed {
                derivation: size_formed(scene, state, size)?,
                prototype: None,
            }),
        },
        SuffixKind::Function { parameters, .. } => {
            enter(state)?;
            let listed = parameters_found(scene, state, parameters.as_slice())?;
            let scope = state.scopes.leave_with(alloc)?;
            Ok(function_suffix(alloc, state, scope, listed)?)
        }
    }
}

/// The parameters of a list, each declared where it stands.
#[cycle(specifiers)]
fn parameters_found<S: Surroundings>(
    scene: &Scene<'_, S>,
    state: &mut State,
    parameters: &[Parameter],
) -> Result<Items<Listed>, Fault>
    requires { S.fit scene.now.around.now }
    ensures found { let here = here_at scene.now.facts.now (S.told scene.now.around.now) in
        Passes (seen_state state.new) result
        (parameter_list here (seen_state state.old) [] parameters.now) }
    ensures grows { OnOk result (Grows state.old state.new) }
{
    let mut listed = Items::new(scene.facts.alloc);
    'parameters: for parameter in parameters {
        let place = place_of(Standing::Parameter);
        let said = specifiers_said(scene, state, place, &parameter.specifiers)?;
        let formed = formed(scene, state, &parameter.declarator)?;
        let index = index_of(listed.len())?;
        let declarator = &parameter.declarator;
        let one = parameter_found(scene, state, declarator, index, said, formed)?;
        listed.push(one)?;
    }
    Ok(listed)
}

/// The type that a type name names.
pub fn type_named<S: Surroundings>(
    scene: &Scene<'_, S>,
    state: &mut State,
    name: &TypeName,
) -> Result<Part, Fault>
    requires { S.fit scene.now.around.now }
    ensures found { let here = here_at scene.now.facts.now (S.told scene.now.around.now) in
        Passes (seen_state state.new) result
        (type_named here (seen_state state.old) name.now) }
    ensures grows { OnOk result (Grows state.old state.new) }
{
    Ok(type_said(scene, state, name)?.ty)
}
