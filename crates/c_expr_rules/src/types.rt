//! What an expression's type is: its kind of value, its size where it has one, and what it points to.

ghost use Rattle.std.specs.Prelude.{◌≡◌};
ghost use Rattle.c_expr_rules.specs.IntegerTypes.{integer_kind};
ghost use Rattle.c_expr_rules.specs.TypedExpressions.{type_at, is_void, is_integer, is_pointer, is_scalar, is_array, record_number, is_record, same_record, size_of, or_zero, is_complete, pointed_part, element_size, is_const, is_atomic, access_of, always_has_home, unit_of};
ghost use Rattle.c_expr_rules.specs.Operators.{room_align, kind_in, copy_of};
ghost use Rattle.c_types.specs.Sizes.{room_of};
ghost use Rattle.c_expr_rules.specs.Views.{seen_state};

use crate::state::State;
use crate::typed::Typed;
use bitflags::Flags;
use c_tree::{Access, Operation, Unit};
use c_types::{CType, Entry, Part, Qualifiers, extent_of};
use filc_num::CIntType;

/// The type of this number, or void where it is that of none.
pub fn type_at(state: &State, number: u32) -> CType
    ensures { result ≡ type_at (seen_state state.now) number }
{
    match state.types.get(number) {
        Some(Entry::OfType(ty)) => ty,
        Some(Entry::NoParameters | Entry::Parameters(..)) | None => CType::Void,
    }
}

/// The integer type that a type is; an enumeration is an int.
pub fn integer_kind(ty: CType) -> Option<CIntType>
    ensures { result ≡ integer_kind ty }
{
    match ty {
        CType::Integer(kind) => Some(kind),
        CType::Enumeration(_) => Some(CIntType::Int),
        CType::Void
        | CType::Pointer(_)
        | CType::ArrayOf(_)
        | CType::Function(_)
        | CType::Structure(..)
        | CType::Union(..) => None,
    }
}

/// The integer type of a value, or int where it is none.
pub fn kind_of_value(typed: &Typed) -> CIntType
    ensures { result ≡ kind_in typed.now }
{
    match integer_kind(typed.ty) {
        Some(kind) => kind,
        None => CIntType::Int,
    }
}

pub fn is_void(ty: CType) -> bool
    ensures { result ≡ is_void ty }
{
    match ty {
        CType::Void => true,
        CType::Integer(_)
        | CType::Enumeration(_)
        | CType::Pointer(_)
        | CType::ArrayOf(_)
        | CType::Function(_)
        | CType::Structure(..)
        | CType::Union(..) => false,
    }
}

pub fn is_integer(ty: CType) -> bool
    ensures { result ≡ is_integer ty }
{
    match integer_kind(ty) {
        Some(_) => true,
        None => false,
    }
}

/// What a pointer points to.
pub fn pointed_part(ty: CType) -> Option<Part>
    ensures { result ≡ pointed_part ty }
{
    match ty {
        CType::Pointer(to) => Some(to),
        CType::Void
        | CType::Integer(_)
        | CType::Enumeration(_)
        | CType::ArrayOf(_)
        | CType::Function(_)
        | CType::Structure(..)
        | CType::Union(..) => None,
    }
}

pub fn is_pointer(ty: CType) -> bool
    ensures { result ≡ is_pointer ty }
{
    match ty {
        CType::Pointer(_) => true,
        CType::Void
        | CType::Integer(_)
        | CType::Enumeration(_)
        | CType::ArrayOf(_)
        | CType::Function(_)
        | CType::Structure(..)
        | CType::Union(..) => false,
    }
}

/// Whether it is an integer or a pointer (C11 6.2.5p21).
pub fn is_scalar(ty: CType) -> bool
    ensures { result ≡ is_scalar ty }
{
    is_integer(ty) || is_pointer(ty)
}

pub fn is_array(ty: CType) -> bool
    ensures { result ≡ is_array ty }
{
    match ty {
        CType::ArrayOf(_) => true,
        CType::Void
        | CType::Integer(_)
        | CType::Enumeration(_)
        | CType::Pointer(_)
        | CType::Function(_)
        | CType::Structure(..)
        | CType::Union(..) => false,
    }
}

/// The number of a structure's or union's type.
pub fn record_number(ty: CType) -> Option<u32>
    ensures { result ≡ record_number ty }
{
    match ty {
        CType::Structure(tag, _) | CType::Union(tag, _) => Some(tag),
        CType::Void
        | CType::Integer(_)
        | CType::Enumeration(_)
        | CType::Pointer(_)
        | CType::ArrayOf(_)
        | CType::Function(_) => None,
    }
}

/// Whether it is a structure or union.
pub fn is_record(ty: CType) -> bool
    ensures { result ≡ is_record ty }
{
    match record_number(ty) {
        Some(_) => true,
        None => false,
    }
}

/// Whether both are one structure or union.
pub fn is_same_record(a: CType, b: CType) -> bool
    ensures { result ≡ same_record a b }
{
    match (record_number(a), record_number(b)) {
        (Some(one), Some(other)) => one == other,
        _ => false,
    }
}

/// The size of a complete type.
pub fn complete_size(ty: CType) -> Option<u64>
    ensures { result ≡ size_of ty }
{
    match extent_of(&ty) {
        Ok(extent) => Some(extent.size),
        Err(_) => None,
    }
}

/// The size of a type, or 0 where it has none.
pub fn size_or_zero(ty: CType) -> u64
    ensures { result ≡ or_zero (size_of ty) }
{
    match complete_size(ty) {
        Some(size) => size,
        None => 0,
    }
}

pub fn is_complete(ty: CType) -> bool
    ensures { result ≡ is_complete ty }
{
    match complete_size(ty) {
        Some(_) => true,
        None => false,
    }
}

/// The alignment of a type, or 1 where it has none.
pub fn align_or_one(ty: CType) -> u64
    ensures { result ≡ room_align (room_of ty) }
{
    match extent_of(&ty) {
        Ok(extent) => extent.align,
        Err(_) => 1,
    }
}

/// The size of what a pointer points to, where that is complete.
pub fn element_size(state: &State, ty: CType) -> Option<u64>
    ensures { result ≡ element_size (seen_state state.now) ty }
{
    match pointed_part(ty) {
        Some(to) => complete_size(type_at(state, to.number)),
        None => None,
    }
}

/// The size of what a pointer points to, or 0 where that has none.
pub fn element_bytes(state: &State, ty: CType) -> u64
    ensures { result ≡ or_zero (element_size (seen_state state.now) ty) }
{
    match element_size(state, ty) {
        Some(size) => size,
        None => 0,
    }
}

pub fn is_const(quals: Qualifiers) -> bool
    ensures { result ≡ is_const quals.0 }
{
    quals.bits() & 1 == 1
}

pub fn is_atomic(quals: Qualifiers) -> bool
    ensures { result ≡ is_atomic quals.0 }
{
    quals.bits() & 8 == 8
}

/// How a scalar lies in memory.
pub fn access_of(ty: CType, quals: Qualifiers) -> Access
    ensures { result ≡ access_of ty quals.0 }
{
    match integer_kind(ty) {
        Some(kind) => Access::Integer(kind.int_type()),
        None if is_atomic(quals) => Access::Box,
        None => Access::Pointer,
    }
}

/// Whether an object of the type has a home in any case.
pub fn always_has_home(ty: CType, quals: Qualifiers) -> bool
    ensures { result ≡ always_has_home ty quals.0 }
{
    is_array(ty) || is_record(ty) || is_atomic(quals)
}

/// What a structure of this alignment is copied by.
pub fn unit_of(align: u64) -> Unit
    ensures { result ≡ unit_of align }
{
    match align {
        1 => Unit::Byte,
        2 => Unit::TwoBytes,
        4 => Unit::FourBytes,
        _ => Unit::Pointer,
    }
}

/// A structure is copied, unit by unit.
pub fn copy_of(ty: CType) -> Operation
    ensures { result ≡ copy_of ty }
{
    match extent_of(&ty) {
        Ok(extent) => Operation::Copy(unit_of(extent.align), extent.size / extent.align),
        Err(_) => Operation::Copy(Unit::Byte, 0),
    }
}
