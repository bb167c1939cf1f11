//! What is filled by an initialiser, and the parts of a type that a list in braces fills (C11 6.7.9).

ghost use Rattle.std.specs.Prelude.{◌≡◌, map, take, length, IfOk};
ghost use Rattle.c_expr_rules.specs.Views.{seen_state};
ghost use Rattle.c_file_rules.specs.Filling as filling;
ghost use Rattle.c_file_rules.specs.Initialising as initialising;
ghost use Rattle.c_file_rules.specs.Initialising.{nothing_given, parts_of, part_target, fill_of, is_constant, no_value, is_character, characters_of};

use c_expr_rules::{
    Fill, Known, MemberPlace, State, Typed, integer_kind, is_array, is_record, size_or_zero,
    type_at,
};
use c_tree::{DeclaredObject, Stmt};
use c_types::{CType, Part};
use filc_num::{CIntType, StaticHalf};
use sqlite_items::Items;
use std::alloc::{AllocError, Global};

/// What is filled: an object, or a part of it that lies so many bytes behind its first.
#[derive(Clone, Copy, Debug, PartialEq, Eq)]
pub struct Target {
    pub object: DeclaredObject,
    pub is_static: bool,
    pub is_whole: bool,
    pub offset: u64,
    pub part: Part,
}

/// What an initialiser does: statements for a local, and the first contents of a static object.
#[derive(Drop)]
pub struct Given {
    pub stores: Items<Stmt>,
    pub fills: Items<Fill>,
}

/// A part of a type: where it lies in it, and its own type.
#[derive(Clone, Copy, Debug, PartialEq, Eq)]
pub struct PartAt {
    pub offset: u64,
    pub part: Part,
}

/// An initialiser that does nothing.
pub fn nothing_given(alloc: Global) -> Given
    ensures { result ≡ nothing_given }
{
    Given {
        stores: Items::new(alloc),
        fills: Items::new(alloc),
    }
}

fn member_part_at(member: MemberPlace) -> PartAt
    ensures { result ≡ initialising.member_part_at member }
{
    PartAt {
        offset: member.offset,
        part: member.part,
    }
}

/// The members of a structure or union.
fn members_of(state: &State, tag: u32) -> &[MemberPlace]
    ensures { map initialising.member_part_at result.now
        ≡ initialising.members_in ((seen_state state.now).contents tag) }
{
    match state.contents.get(&tag) {
        None => &[],
        Some(contents) => contents.members.as_slice(),
    }
}

/// How many parts a type has that a list in braces fills.
#[tactic(auto, using(crate::proofs::PartLists::length_of_elements, crate::proofs::PartLists::length_of_first))]
pub fn part_count(state: &State, ty: CType) -> u64
    ensures { let s = seen_state state.now in result ≡ length (parts_of s ty) }
{
    match ty {
        CType::ArrayOf(array) => array.count,
        CType::Structure(tag, _) => members_of(state, tag).len() as u64,
        CType::Union(tag, _) => members_of(state, tag).len().min(1) as u64,
        CType::Void
        | CType::Integer(_)
        | CType::Enumeration(_)
        | CType::Pointer(_)
        | CType::Function(_) => 0,
    }
}

/// The first parts of an array.
#[tactic(auto, using(crate::proofs::PartLists::element_more, crate::proofs::PartLists::no_element))]
fn elements(alloc: Global, bytes: u64, element: Part, count: u64) -> Result<Vec<PartAt>, AllocError>
    ensures { IfOk result (λ parts. parts.items
        ≡ initialising.elements_from count 0 bytes element) }
{
    let mut parts = Vec::new(alloc);
    let mut offset = 0u64;
    'elements: for _index in 0..count {
        parts.push(PartAt {
            offset,
            part: element,
        })?;
        offset = offset.checked_add(bytes).ok_or(AllocError)?;
    }
    Ok(parts)
}

/// The parts that members are.
fn parts_of_members(alloc: Global, members: &[MemberPlace]) -> Result<Vec<PartAt>, AllocError>
    ensures { IfOk result (λ parts. parts.items
        ≡ map initialising.member_part_at members.now) }
{
    members
        .iter()
        .map(|member| member_part_at(*member))
        .collect(alloc)
}

/// The first of the members of a structure or union, so many at most.
#[tactic(auto, using(crate::proofs::PartLists::members_taken))]
fn first_members(
    alloc: Global,
    state: &State,
    tag: u32,
    most: usize,
) -> Result<Vec<PartAt>, AllocError>
    ensures { IfOk result (λ parts. parts.items
        ≡ take most (initialising.members_in ((seen_state state.now).contents tag))) }
{
    let members = members_of(state, tag);
    let count = members.len().min(most);
    parts_of_members(alloc, &members[..count])
}

/// The first parts of a type that a list in braces fills, so many at most.
#[tactic(auto, using(crate::proofs::PartLists::elements_taken, crate::proofs::PartLists::first_taken))]
pub fn first_parts(
    alloc: Global,
    state: &State,
    ty: CType,
    most: usize,
) -> Result<Vec<PartAt>, AllocError>
    ensures { let s = seen_state state.now in
        IfOk result (λ parts. parts.items ≡ take most (parts_of s ty)) }
{
    match ty {
        CType::ArrayOf(array) => {
            let bytes = size_or_zero(type_at(state, array.element.number));
            elements(alloc, bytes, array.element, array.count.min(most as u64))
        }
        CType::Structure(tag, _) => first_members(alloc, state, tag, most),
        CType::Union(tag, _) => first_members(alloc, state, tag, most.min(1)),
        CType::Void
        | CType::Integer(_)
        | CType::Enumeration(_)
        | CType::Pointer(_)
        | CType::Function(_) => Ok(Vec::new(alloc)),
    }
}

/// A part of what is filled. An object has 131,072 bytes at most, so no offset is greater.
pub fn part_target(target: Target, part: PartAt) -> Result<Target, AllocError>
    ensures { IfOk result (λ t. t ≡ part_target target part) }
{
    let offset = target.offset.checked_add(part.offset).ok_or(AllocError)?;
    Ok(Target {
        is_whole: false,
        offset,
        part: part.part,
        ..target
    })
}

/// Whether an integer type is one of characters.
pub fn is_character(kind: Option<CIntType>) -> bool
    ensures { result ≡ is_character kind }
{
    matches!(
        kind,
        Some(CIntType::Char | CIntType::SignedChar | CIntType::UnsignedChar)
    )
}

/// The kind of an array's characters, and how many it has.
pub fn characters_of(state: &State, ty: CType) -> Option<(CIntType, u64)>
    ensures { result ≡ characters_of (seen_state state.now) ty }
{
    let CType::ArrayOf(array) = ty else {
        return None;
    };
    let kind = integer_kind(type_at(state, array.element.number))?;
    if is_character(Some(kind)) {
        Some((kind, array.count))
    } else {
        None
    }
}

/// What a known value gives a scalar of a static object.
pub fn fill_of(target: &Target, bytes: u64, known: Known) -> Option<Fill>
    ensures { filling.fills_in result ≡ fill_of target.now bytes known }
{
    let (value, half) = match known {
        Known::Integer(value) => (value, StaticHalf::None),
        Known::Address(half, offset) => (offset, half),
        Known::Nothing | Known::Fault => return None,
    };
    Some(Fill {
        offset: target.offset,
        bytes,
        value,
        half,
    })
}

/// Whether it is an integer constant or an address constant (C11 6.6p7).
pub fn is_constant(known: Known) -> bool
    ensures { result ≡ is_constant known }
{
    matches!(known, Known::Integer(_) | Known::Address(..))
}

/// Whether no single value gives an object of this type its own.
pub fn has_no_value(ty: CType, value: &Typed) -> bool
    ensures { result ≡ no_value ty value.now }
{
    is_array(ty) || (is_record(ty) && !is_record(value.ty))
}
