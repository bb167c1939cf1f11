//! Values of places, and addresses (C11 6.3.2.1).

ghost use Rattle.std.specs.Prelude.{◌≡◌, [], IfOk};
ghost use Rattle.c_tree.specs.declared.operation.Operation.TheVariants as op;
ghost use Rattle.c_expr_rules.specs.declared.known.Known.TheVariants as known;
ghost use Rattle.c_expr_rules.specs.TypedExpressions.{value, with_operation, access_of, type_at};
ghost use Rattle.c_expr_rules.specs.Outcomes as o;
ghost use Rattle.c_expr_rules.specs.Reading.{is_register, record_value, memory_value, read, read_found, is_lvalue, target, target_found, behind};
ghost use Rattle.c_expr_rules.specs.Behind.{place_behind, quals_behind};
ghost use Rattle.c_expr_rules.specs.Views.{seen_state, checked};

use crate::found::{Found, by_rules};
use crate::known::Known;
use crate::made::then_do;
use crate::state::State;
use crate::typed::{Place, Typed, part_value, value};
use crate::types::{access_of, is_complete, is_record, type_at};
use bitflags::Flags;
use c_rules::Rule;
use c_tree::Operation;
use c_types::{CType, Part, Qualifiers};
use std::alloc::{AllocError, Global};

pub fn is_register(place: Place) -> bool
    ensures { result ≡ is_register place }
{
    match place {
        Place::InLocal { is_register, .. }
        | Place::InMemory { is_register, .. }
        | Place::InValue { is_register, .. } => is_register,
        Place::Value | Place::VoidAt(_) | Place::Designator { .. } => false,
    }
}

/// Whether a place may stand left of an assignment, as far as only the place matters.
pub fn is_lvalue(place: Place) -> bool
    ensures { result ≡ is_lvalue place }
{
    match place {
        Place::InLocal { .. } | Place::InMemory { .. } => true,
        Place::Value | Place::InValue { .. } | Place::VoidAt(_) | Place::Designator { .. } => false,
    }
}

/// A structure's value, if it is complete: its address. It is a part of the object that it comes from.
fn record_value(typed: Typed, ty: CType) -> Found<Typed>
    ensures { (s : o.State) → checked s result ≡ record_value s typed ty }
{
    let line = typed.line;
    let of_register = is_register(typed.place);
    let found = part_value(ty, line, typed.made, Known::Nothing, of_register);
    by_rules(line, &[(Rule::IncompleteType, !is_complete(ty))], found)
}

/// A scalar in memory is loaded.
fn load(alloc: Global, typed: Typed, ty: CType) -> Result<Typed, AllocError>
    ensures { IfOk result (λ t. t ≡ value ty typed.line
        (with_operation typed.line (op.Load (access_of ty typed.quals.0)) [] typed.made)
        known.Nothing) }
{
    let line = typed.line;
    let access = access_of(ty, typed.quals);
    let made = then_do(alloc, line, Operation::Load(access), typed.made)?;
    Ok(value(ty, line, made, Known::Nothing))
}

/// The value that lies in memory. An array is a pointer to its first element.
fn memory_value(alloc: Global, typed: Typed, ty: CType) -> Result<Found<Typed>, AllocError>
    ensures { IfOk result (λ found. (s : o.State) → checked s found
        ≡ memory_value s typed ty) }
{
    match ty {
        CType::ArrayOf(array) => {
            let (line, known) = (typed.line, typed.known);
            let of_register = is_register(typed.place);
            let pointer = CType::Pointer(array.element);
            let found = part_value(pointer, line, typed.made, known, of_register);
            Ok(Found::Fine(found))
        }
        CType::Structure(..) | CType::Union(..) => Ok(record_value(typed, ty)),
        CType::Void | CType::Function(_) => {
            let line = typed.line;
            let found = value(CType::Void, line, typed.made, Known::Nothing);
            Ok(Found::Fine(found))
        }
        CType::Integer(_) | CType::Enumeration(_) | CType::Pointer(_) => {
            Ok(Found::Fine(load(alloc, typed, ty)?))
        }
    }
}

/// The value of an expression: what its place has, and of a function a pointer to it.
pub fn read(alloc: Global, typed: Typed) -> Result<Found<Typed>, AllocError>
    ensures { IfOk result (λ found. (s : o.State) → checked s found ≡ read s typed) }
{
    match typed.place {
        Place::Value => Ok(Found::Fine(typed)),
        Place::InLocal { .. } => {
            let (ty, line) = (typed.ty, typed.line);
            Ok(Found::Fine(value(ty, line, typed.made, Known::Nothing)))
        }
        Place::InMemory { .. } | Place::InValue { .. } => {
            let ty = typed.ty;
            memory_value(alloc, typed, ty)
        }
        Place::VoidAt(_) => {
            let line = typed.line;
            let found = value(CType::Void, line, typed.made, Known::Nothing);
            Ok(Found::Fine(found))
        }
        Place::Designator { number, .. } => {
            let (line, known) = (typed.line, typed.known);
            let qualifiers = Qualifiers::empty();
            let pointer = CType::Pointer(Part { number, qualifiers });
            Ok(Found::Fine(value(pointer, line, typed.made, known)))
        }
    }
}

/// An expression that is found, as a value.
pub fn read_found(alloc: Global, found: Found<Typed>) -> Result<Found<Typed>, AllocError>
    ensures { IfOk result (λ value. (s : o.State) → checked s value
        ≡ read_found (checked s found)) }
{
    match found {
        Found::Fine(typed) => read(alloc, typed),
        Found::Breaks(broken, known) => Ok(Found::Breaks(broken, known)),
    }
}

/// What an assignment changes: an object with a size. Nothing else is looked at before its right side is.
fn target(typed: Typed) -> Found<Typed>
    ensures { (s : o.State) → checked s result ≡ target s typed }
{
    let is_broken = is_lvalue(typed.place) && is_record(typed.ty) && !is_complete(typed.ty);
    let line = typed.line;
    by_rules(line, &[(Rule::IncompleteType, is_broken)], typed)
}

/// An expression that is found, as what an assignment changes.
pub fn target_found(found: Found<Typed>) -> Found<Typed>
    ensures { (s : o.State) → checked s result ≡ target_found (checked s found) }
{
    match found {
        Found::Fine(typed) => target(typed),
        Found::Breaks(broken, known) => Found::Breaks(broken, known),
    }
}

/// What a pointer to a type names: void is no place, and an element of a register array is a part of it.
fn place_behind(number: u32, of_register: bool, ty: CType) -> Place
    ensures { result ≡ place_behind number of_register ty }
{
    match ty {
        CType::Void => Place::VoidAt(number),
        CType::Function(_) => Place::Designator {
            function: None,
            number,
        },
        CType::Integer(_)
        | CType::Enumeration(_)
        | CType::Pointer(_)
        | CType::ArrayOf(_)
        | CType::Structure(..)
        | CType::Union(..) => Place::InMemory {
            number,
            is_register: of_register,
        },
    }
}

/// The qualifiers of what a pointer points to: a function has none.
fn quals_behind(quals: Qualifiers, ty: CType) -> Qualifiers
    ensures { result ≡ quals_behind quals ty }
{
    match ty {
        CType::Function(_) => Qualifiers::empty(),
        CType::Void
        | CType::Integer(_)
        | CType::Enumeration(_)
        | CType::Pointer(_)
        | CType::ArrayOf(_)
        | CType::Structure(..)
        | CType::Union(..) => quals,
    }
}

/// What a pointer's value points to, of this type.
pub fn behind(state: &State, line: u32, pointer: Typed, to: Part) -> Typed
    ensures { let s = seen_state state.now in result
        ≡ behind s line pointer to.number to.qualifiers (type_at s to.number) }
{
    let ty = type_at(state, to.number);
    Typed {
        ty,
        quals: quals_behind(to.qualifiers, ty),
        place: place_behind(to.number, pointer.of_register, ty),
        line,
        made: pointer.made,
        known: pointer.known,
        is_null: false,
        of_register: false,
    }
}
