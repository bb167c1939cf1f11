//! The members of structures and unions, by their types.

ghost use Rattle.std.specs.Prelude.{◌≡◌, ◌<◌, length, IfOk, MatchResult};
ghost use Rattle.c_types.specs.Sizes.{room_of};
ghost use Rattle.c_types.specs.Layouts.{layout_of};
ghost use Rattle.c_types.specs.LayoutResults.{IsLaidOut, HasFault};
ghost use Rattle.c_type_rules.specs.Members.{rule_of_room, rule_of_member, member_type, member_types};

use crate::atomic::type_of;
use c_rules::Rule;
use c_types::{
    CType, Form, Layout, LayoutFault, Part, TypeFault, Types, extent_of, layout, union_layout,
};
use std::alloc::{AllocError, Global};

/// The rule that a type breaks which is to have a size.
fn rule_of_size(ty: CType) -> Option<Rule>
    ensures { result ≡ rule_of_room (room_of ty) }
{
    match extent_of(&ty) {
        Ok(_) => None,
        Err(TypeFault::Incomplete) => Some(Rule::IncompleteType),
        Err(TypeFault::TooLarge) => Some(Rule::ObjectTooLarge),
    }
}

/// The rule that a member of this type breaks.
pub fn rule_of_member(ty: CType) -> Option<Rule>
    ensures { result ≡ rule_of_member ty }
{
    match ty {
        CType::Function(_) => Some(Rule::BadMember),
        CType::Void
        | CType::Integer(_)
        | CType::Enumeration(_)
        | CType::Pointer(_)
        | CType::ArrayOf(_)
        | CType::Structure(..)
        | CType::Union(..) => rule_of_size(ty),
    }
}

fn member_type(types: &Types, member: Part) -> CType
    ensures { result ≡ member_type types.now member }
{
    match type_of(types, member.number) {
        None => CType::Void,
        Some(ty) => ty,
    }
}

fn member_types(alloc: Global, types: &Types, members: &[Part]) -> Result<Vec<CType>, AllocError>
    ensures { IfOk result (λ v. v.items ≡ member_types types.now members.now) }
{
    members
        .iter()
        .map(|member| member_type(types, *member))
        .collect(alloc)
}

/// Lays out members of these types.
fn layout_of_types(alloc: Global, form: Form, members: &[CType]) -> Result<Layout, LayoutFault>
    requires { 0 < length members.now }
    ensures { MatchResult result (IsLaidOut (layout_of form members.now))
        (HasFault (layout_of form members.now)) }
{
    match form {
        Form::Structure => layout(alloc, members),
        Form::Union => union_layout(alloc, members),
    }
}

/// Lays out the members of a structure or union, by the parts that they are.
pub fn layout_of_members(
    alloc: Global,
    types: &Types,
    form: Form,
    members: &[Part],
) -> Result<Layout, LayoutFault>
    requires { 0 < length members.now }
    ensures { MatchResult result (IsLaidOut (layout_of form (member_types types.now members.now)))
        (HasFault (layout_of form (member_types types.now members.now))) }
{
    let Ok(list) = member_types(alloc, types, members) else {
        return Err(LayoutFault::NoMemory);
    };
    layout_of_types(alloc, form, list.as_slice())
}
