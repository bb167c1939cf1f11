//! Conversion as by assignment (C11 6.5.16.1) and by casts (6.5.4).

ghost use Rattle.std.specs.Prelude.{◌≡◌, ◌&&◌, ◌||◌, not, IfOk};
ghost use Rattle.c_expr_rules.specs.IntegerTypes.{integer_kind};
ghost use Rattle.c_expr_rules.specs.TypedExpressions.{is_integer, is_pointer};
ghost use Rattle.c_expr_rules.specs.Constants.{is_zero};
ghost use Rattle.c_expr_rules.specs.Converting.{type_index, same_int, integer_as, is_bool, is_null_constant, may_become, point_alike, as_pointer, pointer_as, to_pointer, conversion, is_none, or_itself, is_cast, cast_to_integer, is_plain_void_pointer, cast_to};
ghost use Rattle.c_expr_rules.specs.Views.{seen_state};

use crate::arithmetic::{as_address, is_zero};
use crate::folding::convert_known;
use crate::known::Known;
use crate::made::then_do;
use crate::state::State;
use crate::typed::{Typed, part_value, value};
use crate::types::{
    integer_kind, is_integer, is_pointer, is_same_record, is_scalar, is_void, type_at,
};
use bitflags::Flags;
use c_tree::Operation;
use c_types::{CType, Part};
use filc_num::{CIntType, IntType};
use std::alloc::{AllocError, Global};

/// The index of a type among all.
fn type_index(ty: IntType) -> u32
    ensures { result ≡ type_index ty }
{
    match ty {
        IntType::Bool => 0,
        IntType::I8 => 1,
        IntType::U8 => 2,
        IntType::I16 => 3,
        IntType::U16 => 4,
        IntType::I32 => 5,
        IntType::U32 => 6,
        IntType::I64 => 7,
        IntType::U64 => 8,
    }
}

/// Whether values of two types are computed and kept in the same way.
fn is_same_int(a: IntType, b: IntType) -> bool
    ensures { result ≡ same_int a b }
{
    type_index(a) == type_index(b)
}

/// An integer of one kind as one of another, of this type of C.
pub fn integer_as(
    alloc: Global,
    ty: CType,
    to: CIntType,
    from: CIntType,
    typed: Typed,
) -> Result<Typed, AllocError>
    ensures { IfOk result (λ t. t ≡ integer_as ty to from typed) }
{
    let line = typed.line;
    let known = convert_known(to.int_type(), typed.known);
    if is_same_int(to.int_type(), from.int_type()) {
        return Ok(value(ty, line, typed.made, known));
    }
    let made = then_do(alloc, line, Operation::Convert(to.int_type()), typed.made)?;
    Ok(value(ty, line, made, known))
}

fn is_bool(kind: CIntType) -> bool
    ensures { result ≡ is_bool kind }
{
    is_same_int(kind.int_type(), IntType::Bool)
}

/// Whether it is an integer constant 0, or one cast to `void *`.
pub fn is_null_constant(typed: &Typed) -> bool
    ensures { result ≡ is_null_constant typed.now }
{
    typed.is_null || (is_integer(typed.ty) && is_zero(typed.known))
}

/// Whether pointers to these parts point to one type, or one of them to void.
pub fn point_alike(state: &State, one: Part, other: Part) -> bool
    ensures { result ≡ point_alike (seen_state state.now) one other }
{
    one.is_same_unqualified(other)
        || is_void(type_at(state, one.number))
        || is_void(type_at(state, other.number))
}

/// Whether a pointer to the second part becomes one to the first, which has all its qualifiers.
fn may_become(state: &State, to: Part, from: Part) -> bool
    ensures { result ≡ may_become (seen_state state.now) to from }
{
    point_alike(state, to, from) && to.keeps_qualifiers_of(from)
}

/// An integer as a pointer without a capability; a pointer is one, and points to what it did.
pub fn as_pointer(alloc: Global, ty: CType, typed: Typed) -> Result<Typed, AllocError>
    ensures { IfOk result (λ t. t ≡ as_pointer ty typed) }
{
    let line = typed.line;
    if is_integer(typed.ty) {
        let known = as_address(typed.known);
        let made = then_do(alloc, line, Operation::ToPointer, typed.made)?;
        return Ok(value(ty, line, made, known));
    }
    let known = typed.known;
    let of_register = typed.of_register;
    Ok(part_value(ty, line, typed.made, known, of_register))
}

/// A pointer as an integer, or whether it isn't null.
fn pointer_as(alloc: Global, ty: CType, kind: CIntType, typed: Typed) -> Result<Typed, AllocError>
    ensures { IfOk result (λ t. t ≡ pointer_as ty kind typed) }
{
    let line = typed.line;
    let made = then_do(
        alloc,
        line,
        Operation::ToInteger(kind.int_type()),
        typed.made,
    )?;
    Ok(value(ty, line, made, Known::Nothing))
}

/// Whether a value becomes an integer of this kind: an integer does, and a pointer a `_Bool`.
fn becomes_integer(kind: CIntType, typed: &Typed) -> bool
    ensures { result ≡ (is_integer typed.now.ty || (is_bool kind && is_pointer typed.now.ty)) }
{
    is_integer(typed.ty) || (is_bool(kind) && is_pointer(typed.ty))
}

/// Whether a value becomes a pointer to this part.
fn becomes_pointer(state: &State, to: Part, typed: &Typed) -> bool
    ensures { result ≡ not (is_none (to_pointer (seen_state state.now) to typed.now.ty
        typed.now)) }
{
    if is_null_constant(typed) {
        return true;
    }
    match typed.ty {
        CType::Pointer(from) => may_become(state, to, from),
        CType::Void
        | CType::Integer(_)
        | CType::Enumeration(_)
        | CType::ArrayOf(_)
        | CType::Function(_)
        | CType::Structure(..)
        | CType::Union(..) => false,
    }
}

/// Whether a value converts to a type as by assignment.
pub fn converts(state: &State, to: CType, typed: &Typed) -> bool
    ensures { result ≡ not (is_none (conversion (seen_state state.now) to typed.now)) }
{
    match to {
        CType::Integer(kind) => becomes_integer(kind, typed),
        CType::Enumeration(_) => becomes_integer(CIntType::Int, typed),
        CType::Pointer(part) => becomes_pointer(state, part, typed),
        CType::Structure(..) | CType::Union(..) => is_same_record(to, typed.ty),
        CType::Void | CType::ArrayOf(_) | CType::Function(_) => false,
    }
}

/// Whether a value doesn't convert to a type as by assignment.
pub fn is_refused(state: &State, to: CType, typed: &Typed) -> bool
    ensures { result ≡ is_none (conversion (seen_state state.now) to typed.now) }
{
    !converts(state, to, typed)
}

/// An integer or a pointer as an integer of this kind.
fn cast_to_integer(
    alloc: Global,
    ty: CType,
    kind: CIntType,
    typed: Typed,
) -> Result<Typed, AllocError>
    ensures { IfOk result (λ t. t
        ≡ cast_to_integer ty kind (integer_kind typed.ty) typed) }
{
    match integer_kind(typed.ty) {
        Some(from) => integer_as(alloc, ty, kind, from, typed),
        None => pointer_as(alloc, ty, kind, typed),
    }
}

/// A value as by assignment to a type, or itself where it doesn't convert.
pub fn convert_value(
    alloc: Global,
    state: &State,
    to: CType,
    typed: Typed,
) -> Result<Typed, AllocError>
    ensures { IfOk result (λ t. t
        ≡ or_itself typed (conversion (seen_state state.now) to typed)) }
{
    if is_refused(state, to, &typed) {
        return Ok(typed);
    }
    match to {
        CType::Integer(kind) => cast_to_integer(alloc, to, kind, typed),
        CType::Enumeration(_) => cast_to_integer(alloc, to, CIntType::Int, typed),
        CType::Pointer(_) => as_pointer(alloc, to, typed),
        CType::Structure(..)
        | CType::Union(..)
        | CType::Void
        | CType::ArrayOf(_)
        | CType::Function(_) => Ok(typed),
    }
}

/// Whether a cast is one between scalars, or to void.
pub fn is_cast(to: CType, from: CType) -> bool
    ensures { result ≡ is_cast to from }
{
    is_void(to) || (is_scalar(to) && is_scalar(from))
}

/// A value as a pointer by a cast: the constant 0 as a plain `void *` is a null constant.
fn cast_to_pointer(
    alloc: Global,
    state: &State,
    ty: CType,
    to: Part,
    typed: Typed,
) -> Result<Typed, AllocError>
    ensures { IfOk result (λ t. t ≡ record (as_pointer ty typed) {
      is_null = is_plain_void_pointer (seen_state state.now) to
          && (is_integer typed.ty && is_zero typed.known);
    }) }
{
    let is_zero_constant = is_integer(typed.ty) && is_zero(typed.known);
    let is_plain_void = is_void(type_at(state, to.number)) && to.qualifiers.bits() == 0;
    let mut pointer = as_pointer(alloc, ty, typed)?;
    pointer.is_null = is_plain_void && is_zero_constant;
    Ok(pointer)
}

/// A value as a cast converts it.
pub fn cast_value(
    alloc: Global,
    state: &State,
    to: CType,
    typed: Typed,
) -> Result<Typed, AllocError>
    ensures { IfOk result (λ t. t ≡ cast_to (seen_state state.now) to typed) }
{
    match to {
        CType::Integer(kind) => cast_to_integer(alloc, to, kind, typed),
        CType::Enumeration(_) => cast_to_integer(alloc, to, CIntType::Int, typed),
        CType::Pointer(part) => cast_to_pointer(alloc, state, to, part, typed),
        CType::Void
        | CType::ArrayOf(_)
        | CType::Function(_)
        | CType::Structure(..)
        | CType::Union(..) => {
            let line = typed.line;
            Ok(value(to, line, typed.made, Known::Nothing))
        }
    }
}
