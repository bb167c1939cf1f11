//! The members of a structure or union (C11 6.7.2.1).

ghost use Rattle.std.specs.Prelude.{◌≡◌, ◌<◌, ◌||◌, length, map, is_some, Some, Ok, Err, IfOk, OnOk};
ghost use Rattle.std.specs.List.{list_any};
ghost use Rattle.c_expr_rules.specs.Operators.{has_const, contents_of};
ghost use Rattle.c_expr_rules.specs.TypedExpressions.{record_number};
ghost use Rattle.c_expr_rules.specs.Views.{seen_state, Passes, Grows};
ghost use Rattle.c_names.specs.Code.{here_at};
ghost use Rattle.c_type_parts.specs.Laid.{plain_layout, seen_layout, no_contents, element_in, is_const_part};
ghost use Rattle.c_file_rules.specs.Declarators.{size_number};
ghost use Rattle.c_file_rules.specs.Tags.{kind_of_word, is_const_member, are_placed, contents_with, with_contents, member_rules, members_layout, layout_rule, laid_out, record_rule, part_or, record_found, with_member, named_member};
ghost use Rattle.c_expr_rules.specs.Outcomes.{by_rules};

use crate::tags::{declare_tag, form_of, tag_declared, tag_of, tag_rule};
use c_expr_rules::{
    Contents, Fault, MemberPlace, State, Surroundings, is_const, record_number, type_at,
};
use c_file_rules::{
    MemberList, MemberSeen, MembersSeen, Parts, lowest, obey_rule, part_or, when, with_part,
};
use c_names::{Scene, complete_once};
use c_rules::Rule;
use c_syntax::RecordKind;
use c_type_rules::{layout_of_members, rule_of_member};
use c_types::{CType, Layout, LayoutFault, Part, Tag, TypeFault};
use sqlite_items::Items;
use std::alloc::{AllocError, Global};

/// Whether an aggregate has a const member.
fn has_const(state: &State, ty: CType) -> bool
    ensures { let s = seen_state state.now in
        result ≡ has_const (contents_of s (record_number ty)) }
{
    match record_number(ty) {
        None => false,
        Some(number) => match state.contents.get(&number) {
            None => false,
            Some(contents) => contents.has_const,
        },
    }
}

/// The elements of an array.
fn element_of(ty: CType) -> Option<Part>
    ensures { result ≡ element_in ty }
{
    match ty {
        CType::ArrayOf(array) => Some(array.element),
        CType::Void
        | CType::Integer(_)
        | CType::Enumeration(_)
        | CType::Pointer(_)
        | CType::Function(_)
        | CType::Structure(..)
        | CType::Union(..) => None,
    }
}

/// The elements of a member that is an array, or of the array that these are, and so on. There are
/// no more such arrays than types.
fn innermost_elements(state: &State, member: Part) -> Part
    ensures { let s = seen_state state.now in is_const_part s result ≡ is_const_member s member }
{
    let mut part = member;
    'arrays: for _turn in 0..state.types.len() {
        match element_of(type_at(state, part.number)) {
            Some(element) => part = element,
            None => return part,
        }
    }
    part
}

/// Whether a type is const, or an aggregate with a const member.
fn is_const_part(state: &State, part: Part) -> bool
    ensures { result ≡ is_const_part (seen_state state.now) part }
{
    is_const(part.qualifiers) || has_const(state, type_at(state, part.number))
}

/// Whether a member is const, an array of const elements, or an aggregate with such a member.
fn is_const_member(state: &State, member: Part) -> bool
    ensures { result ≡ is_const_member (seen_state state.now) member }
{
    is_const_part(state, innermost_elements(state, member))
}

/// The rules that a member's declarator breaks by its type and its name.
pub fn member_rule(
    state: &State,
    name: Option<u32>,
    members: &MemberList,
    part: Part,
) -> Option<Rule>
    ensures { member_rules name members.now (seen_state state.now) part
        ≡ size_number result }
{
    let is_again = match name {
        None => false,
        Some(name) => members.has(name),
    };
    lowest(
        rule_of_member(type_at(state, part.number)),
        when(is_again, Rule::BadMember),
    )
}

/// The types of members.
fn parts_of(alloc: Global, members: &[MemberSeen]) -> Result<Vec<Part>, AllocError>
    ensures { IfOk result (λ parts. parts.items ≡ map (λ m. m.part) members.now) }
{
    members.iter().map(|member| member.part).collect(alloc)
}

/// The layout of members, of which there is one at least.
fn members_layout(
    alloc: Global,
    state: &State,
    word: RecordKind,
    members: &[MemberSeen],
) -> Result<Result<Layout, TypeFault>, AllocError>
    requires { 0 < length members.now }
    ensures { IfOk result (λ laid.
        seen_layout laid ≡ members_layout (seen_state state.now) word members.now) }
{
    let parts = parts_of(alloc, members)?;
    match layout_of_members(alloc, &state.types, form_of(word), parts.as_slice()) {
        Ok(layout) => Ok(Ok(layout)),
        Err(LayoutFault::Incomplete) => Ok(Err(TypeFault::Incomplete)),
        Err(LayoutFault::TooLarge) => Ok(Err(TypeFault::TooLarge)),
        Err(LayoutFault::NoMemory) => Err(AllocError),
    }
}

/// The rule that members break which have no layout.
fn rule_of_fault(fault: TypeFault) -> Rule
    ensures { Some result ≡ layout_rule (Err fault) }
{
    match fault {
        TypeFault::Incomplete => Rule::IncompleteType,
        TypeFault::TooLarge => Rule::ObjectTooLarge,
    }
}

/// Members at their offsets.
fn placed_members(
    alloc: Global,
    members: &[MemberSeen],
    offsets: &[u64],
) -> Result<Items<MemberPlace>, AllocError>
    ensures { IfOk result (λ placed. placed ≡ are_placed members.now offsets.now) }
{
    let mut placed = Items::new(alloc);
    let count = members.len().min(offsets.len());
    for index in 0..count {
        let member = members[index];
        placed.push(MemberPlace {
            name: member.name,
            part: member.part,
            offset: offsets[index],
        })?;
    }
    Ok(placed)
}

/// Whether one of these members is const.
fn is_any_const(state: &State, members: &[MemberSeen]) -> bool
    ensures { let s = seen_state state.now in
        result ≡ list_any (λ m. is_const_member s m.part) members.now }
{
    members
        .iter()
        .any(|member| is_const_member(state, member.part))
}

/// What a structure or union has, by its members and their offsets.
fn contents_with(
    alloc: Global,
    state: &State,
    members: &[MemberSeen],
    offsets: &[u64],
) -> Result<Contents, AllocError>
    ensures { IfOk result (λ contents.
        contents ≡ contents_with (seen_state state.now) members.now offsets.now) }
{
    let has_const = is_any_const(state, members);
    let members = placed_members(alloc, members, offsets)?;
    Ok(Contents { members, has_const })
}

/// Lays a structure or union out.
fn lay_out(
    alloc: Global,
    state: &mut State,
    kind: Tag,
    number: u32,
    members: &[MemberSeen],
    layout: &Layout,
) -> Result<(), AllocError>
    ensures state { OnOk result (seen_state state.new ≡ laid_out kind number
        (seen_state state.old) members.now (Ok (plain_layout layout.now))) }
    ensures grows { OnOk result (Grows state.old state.new) }
{
    let contents = contents_with(alloc, state, members, layout.offsets.as_slice())?;
    state.contents.insert(number, contents)?;
    complete_once(&mut state.types, kind, number, layout.extent());
    Ok(())
}

/// A structure or union with an empty list has no member and no extent.
fn lay_out_nothing(alloc: Global, state: &mut State, number: u32) -> Result<(), AllocError>
    ensures state { OnOk result (seen_state state.new
        ≡ with_contents number no_contents (seen_state state.old)) }
    ensures grows { OnOk result (Grows state.old state.new) }
{
    let contents = Contents {
        members: Items::new(alloc),
        has_const: false,
    };
    state.contents.insert(number, contents)?;
    Ok(())
}

/// Lays a structure or union out. Gives its type, or the rule that its list of members breaks: its
/// tag is declared again or of another kind, the whole is too large, or there is no member.
fn laid_type<S: Surroundings>(
    scene: &Scene<'_, S>,
    state: &mut State,
    word: RecordKind,
    tag: Option<u32>,
    number: u32,
    members: &[MemberSeen],
) -> Result<Result<Part, Rule>, AllocError>
    ensures state { let s = seen_state state.old in OnOk result (seen_state state.new
        ≡ laid_out (kind_of_word word) number s members.now
        (members_layout s word members.now)) }
    ensures found { let here = here_at scene.now.facts.now (S.told scene.now.around.now) in
        IfOk result (λ found. found ≡ part_or
        (record_rule here (seen_state state.old) word tag members.now) number) }
    ensures grows { OnOk result (Grows state.old state.new) }
{
    let alloc = scene.facts.alloc;
    let own = tag_rule(scene, state, tag_of(word), tag);
    if members.is_empty() {
        lay_out_nothing(alloc, state, number)?;
        return Ok(part_or(lowest(own, Some(Rule::BadMember)), number));
    }
    let laid = members_layout(alloc, state, word, members)?;
    match laid {
        Ok(layout) => {
            lay_out(alloc, state, tag_of(word), number, members, &layout)?;
            Ok(part_or(lowest(own, None), number))
        }
        Err(fault) => Ok(part_or(lowest(own, Some(rule_of_fault(fault))), number)),
    }
}

/// Whether a structure or union declares something: its tag, or what its members declare.
fn has_tag_or(tag: Option<u32>, declares: bool) -> bool
    ensures { result ≡ (is_some tag || declares) }
{
    tag.is_some() || declares
}

/// A structure or union at the end of its list of members.
pub fn record_found<S: Surroundings>(
    scene: &Scene<'_, S>,
    state: &mut State,
    word: RecordKind,
    tag: Option<u32>,
    number: u32,
    parts: Parts,
    seen: MembersSeen,
) -> Result<Parts, Fault>
    ensures found { let here = here_at scene.now.facts.now (S.told scene.now.around.now) in
        Passes (seen_state state.new) result
        (record_found here word tag number parts (seen_state state.old) seen) }
    ensures grows { OnOk result (Grows state.old state.new) }
{
    let found = laid_type(scene, state, word, tag, number, seen.members.as_slice())?;
    declare_tag(scene, state, tag, tag_declared(tag_of(word), number, true))?;
    Ok(with_part(has_tag_or(tag, seen.declares), found, parts))
}

/// A member's declarator, which breaks no rule by its type and its name.
pub fn obey_member(
    state: &State,
    line: u32,
    name: Option<u32>,
    members: &MemberList,
    part: Part,
) -> Result<Part, Fault>
    ensures { let s = seen_state state.now in Passes s result
        (by_rules line (member_rules name members.now s part) s part) }
{
    obey_rule(line, member_rule(state, name, members, part), part)
}

/// Members with whether a tag or a constant is declared beside them.
pub fn also_declares(seen: MembersSeen, declares: bool) -> MembersSeen
    ensures { result ≡ record seen { declares = seen.declares || declares } }
{
    MembersSeen {
        members: seen.members,
        declares: seen.declares || declares,
    }
}

/// Members with one more, where it has a name.
pub fn declare_member(
    seen: MembersSeen,
    name: Option<u32>,
    part: Part,
) -> Result<MembersSeen, AllocError>
    ensures { IfOk result (λ more. more ≡ with_member (named_member name part) seen) }
{
    let MembersSeen {
        mut members,
        declares,
    } = seen;
    match name {
        None => Ok(MembersSeen { members, declares }),
        Some(name) => {
            members.push(MemberSeen { name, part })?;
            Ok(MembersSeen { members, declares })
        }
    }
}
