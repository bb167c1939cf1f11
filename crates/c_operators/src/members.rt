//! Members (C11 6.5.2.3), what pointers point to (6.5.3.2), and `a[i]` (6.5.2.1).

ghost use Rattle.std.specs.Prelude.{◌≡◌, OnOk, IfOk};
ghost use Rattle.c_expr_rules.specs.Expressions.{member_among, member_of, place_of_part, member_part, part_at, member_value, member, arrow, pointed_typed, index, has_address, number_of_place, address, dereference};
ghost use Rattle.c_expr_rules.specs.Views.{seen_state, checked, Grows};

use crate::binary_operators::sum;
use crate::operands::takes;
use bitflags::Flags;
use c_expr_rules::{
    Found, Known, MemberPlace, Place, State, Surroundings, Typed, behind, by_rules, forward,
    is_array, is_pointer, is_record, pointed_part, record_number, then_do, type_at, value,
};
use c_rules::Rule;
use c_tree::Operation;
use c_types::{CType, Part, Qualifiers};
use filc_num::BinOp;
use std::alloc::{AllocError, Global};

/// The member of this name.
fn member_among(name: u32, members: &[MemberPlace]) -> Option<MemberPlace>
    ensures { result ≡ member_among name members.now }
{
    for member in members {
        if name == member.name {
            return Some(*member);
        }
    }
    None
}

/// The member of this name that a type has.
fn member_of(state: &State, name: u32, ty: CType) -> Option<MemberPlace>
    ensures { result ≡ member_of (seen_state state.now) name ty }
{
    let number = record_number(ty)?;
    let contents = state.contents.get(&number)?;
    member_among(name, contents.members.as_slice())
}

/// What a part of a place or of a value names.
fn place_of_part(of_register: bool, place: Place, number: u32) -> Place
    ensures { result ≡ place_of_part of_register place number }
{
    match place {
        Place::InMemory { is_register, .. } | Place::InLocal { is_register, .. } => {
            Place::InMemory {
                number,
                is_register,
            }
        }
        Place::Value => Place::InValue {
            number,
            is_register: of_register,
        },
        Place::InValue { is_register, .. } => Place::InValue {
            number,
            is_register,
        },
        Place::VoidAt(_) | Place::Designator { .. } => Place::InValue {
            number,
            is_register: false,
        },
    }
}

/// A member's type with the qualifiers of both (C11 6.5.2.3p3). Those of an array are its elements' (6.7.3p9).
fn member_part<S: Surroundings>(
    alloc: Global,
    around: &S,
    state: &mut State,
    quals: Qualifiers,
    part: Part,
) -> Result<Part, AllocError>
    ensures part { IfOk result (λ made. (state.new.types, made)
        ≡ member_part (S.told around.now) (seen_state state.old) quals.0 part) }
    ensures rest { state.new ≡ record state.old { types = state.new.types } }
{
    if is_array(type_at(state, part.number)) {
        return around.qualified_array(alloc, &mut state.types, part, quals);
    }
    Ok(Part {
        number: part.number,
        qualifiers: quals.union(part.qualifiers),
    })
}

/// The member of a value or a place that lies at this offset.
pub fn part_at(
    alloc: Global,
    state: &State,
    line: u32,
    whole: Typed,
    offset: u64,
    part: Part,
) -> Result<Typed, AllocError>
    ensures { IfOk result (λ t. t
        ≡ part_at line (seen_state state.now) whole offset part) }
{
    let place = place_of_part(whole.of_register, whole.place, part.number);
    let known = forward(offset, whole.known, Known::Integer(1));
    let made = then_do(alloc, line, Operation::Offset(offset), whole.made)?;
    Ok(Typed {
        ty: type_at(state, part.number),
        quals: part.qualifiers,
        place,
        line,
        made,
        known,
        is_null: false,
        of_register: false,
    })
}

/// A member, where it is one.
fn member_value<S: Surroundings>(
    alloc: Global,
    around: &S,
    state: &mut State,
    line: u32,
    whole: Typed,
    member: Option<MemberPlace>,
) -> Result<Typed, AllocError>
    ensures value { IfOk result (λ t. (seen_state state.new, t)
        ≡ member_value (S.told around.now) line (seen_state state.old) whole
        member) }
    ensures grows { OnOk result (Grows state.old state.new) }
{
    let Some(member) = member else {
        return Ok(whole);
    };
    let part = member_part(alloc, around, state, whole.quals, member.part)?;
    part_at(alloc, state, line, whole, member.offset, part)
}

/// `.`
pub fn member<S: Surroundings>(
    alloc: Global,
    around: &S,
    state: &mut State,
    line: u32,
    name: u32,
    whole: Typed,
) -> Result<Found<Typed>, AllocError>
    ensures found { IfOk result (λ found. checked (seen_state state.new) found
        ≡ member (S.told around.now) line name (seen_state state.old) whole) }
    ensures grows { OnOk result (Grows state.old state.new) }
{
    let place = member_of(state, name, whole.ty);
    let is_whole = is_record(whole.ty);
    let rules = [
        (Rule::UnknownMember, is_whole && place.is_none()),
        (Rule::NotAStructure, !is_whole),
    ];
    let found = member_value(alloc, around, state, line, whole, place)?;
    Ok(by_rules(line, &rules, found))
}

/// What a pointer's value points to.
fn pointed_typed(state: &State, line: u32, pointer: Typed) -> Typed
    ensures { result ≡ pointed_typed line (seen_state state.now) pointer }
{
    match pointed_part(pointer.ty) {
        None => pointer,
        Some(to) => behind(state, line, pointer, to),
    }
}

/// `->`
pub fn arrow<S: Surroundings>(
    alloc: Global,
    around: &S,
    state: &mut State,
    line: u32,
    name: u32,
    pointer: Typed,
) -> Result<Found<Typed>, AllocError>
    ensures found { IfOk result (λ found. checked (seen_state state.new) found
        ≡ arrow (S.told around.now) line name (seen_state state.old) pointer) }
    ensures grows { OnOk result (Grows state.old state.new) }
{
    let is_behind = is_pointer(pointer.ty);
    let whole = pointed_typed(state, line, pointer);
    let place = member_of(state, name, whole.ty);
    let is_whole = is_record(whole.ty);
    let rules = [
        (
            Rule::UnknownMember,
            is_behind && is_whole && place.is_none(),
        ),
        (Rule::NotAPointer, !is_behind),
        (Rule::NotAStructure, !is_whole),
    ];
    let found = member_value(alloc, around, state, line, whole, place)?;
    Ok(by_rules(line, &rules, found))
}

/// `x[y]` is `*(x+y)`.
pub fn index(
    alloc: Global,
    state: &State,
    line: u32,
    x: Typed,
    y: Typed,
) -> Result<Found<Typed>, AllocError>
    ensures { IfOk result (λ found. let s = seen_state state.now in
        checked s found ≡ index line x s y) }
{
    let rules = [
        (Rule::NotAPointer, !(is_pointer(x.ty) || is_pointer(y.ty))),
        (Rule::BadOperand, !takes(state, BinOp::Add, &x, &y)),
    ];
    let pointer = sum(alloc, state, line, x, y)?;
    Ok(by_rules(line, &rules, pointed_typed(state, line, pointer)))
}

/// `*`
pub fn dereference(state: &State, line: u32, pointer: Typed) -> Found<Typed>
    ensures { let s = seen_state state.now in
        checked s result ≡ dereference line s pointer }
{
    let rules = [(Rule::NotAPointer, !is_pointer(pointer.ty))];
    by_rules(line, &rules, pointed_typed(state, line, pointer))
}

/// Whether `&` takes a place: no register object, and no value.
fn has_address(place: Place) -> bool
    ensures { result ≡ has_address place }
{
    match place {
        Place::Designator { .. } | Place::VoidAt(_) => true,
        Place::InMemory { is_register, .. } | Place::InLocal { is_register, .. } => !is_register,
        Place::Value | Place::InValue { .. } => false,
    }
}

/// The number of the type of what has a place, or 0 where nothing has.
fn number_of_place(place: Place) -> u32
    ensures { result ≡ number_of_place place }
{
    match place {
        Place::Designator { number, .. }
        | Place::InMemory { number, .. }
        | Place::InLocal { number, .. }
        | Place::InValue { number, .. }
        | Place::VoidAt(number) => number,
        Place::Value => 0,
    }
}

/// `&`, of a local where one is named.
pub fn address(
    state: &mut State,
    line: u32,
    local: Option<u32>,
    typed: Typed,
) -> Result<Found<Typed>, AllocError>
    ensures found { IfOk result (λ found. checked (seen_state state.new) found
        ≡ address line local (seen_state state.old) typed) }
    ensures grows { OnOk result (Grows state.old state.new) }
{
    state.take_address(local)?;
    let rules = [(Rule::BadAddress, !has_address(typed.place))];
    let pointer = CType::Pointer(Part {
        number: number_of_place(typed.place),
        qualifiers: typed.quals,
    });
    let known = typed.known;
    Ok(by_rules(line, &rules, value(pointer, line, typed.made, known)))
}
