//! Names (C11 6.5.1p2), texts (6.4.5), and sizes (6.5.3.4).

ghost use Rattle.std.specs.Prelude.{◌≡◌, OnOk, IfOk};
ghost use Rattle.c_expr_rules.specs.Outcomes as o;
ghost use Rattle.c_expr_rules.specs.Expressions.{in_memory, local_typed, object_typed, function_typed, unknown_name, name_typed, is_too_long, text_typed, size_value, size_typed, align_typed};
ghost use Rattle.c_expr_rules.specs.Views.{seen_state, checked, Grows};

use bitflags::Flags;
use c_expr_rules::{
    Found, Known, Place, State, Surroundings, Typed, align_or_one, always_has_home, by_rules,
    constant, is_complete, leaf, size_or_zero, type_at,
};
use c_rules::Rule;
use c_tree::{Declared, DeclaredFunction, DeclaredObject, ObjectNumber, Operation};
use c_types::{CType, Part, Qualifiers};
use filc_num::{CIntType, StaticHalf};
use sqlite_items::Items;
use std::alloc::{AllocError, Global};

/// The most bytes of a text, the zero behind it among them.
const MOST_TEXT_BYTES: usize = 131_072;

/// An object in memory, whose address an operation gives.
fn in_memory(
    alloc: Global,
    state: &State,
    line: u32,
    part: Part,
    is_register: bool,
    op: Operation,
    known: Known,
) -> Typed
    ensures { result
        ≡ in_memory (seen_state state.now) line part is_register op known }
{
    Typed {
        ty: type_at(state, part.number),
        quals: part.qualifiers,
        place: Place::InMemory {
            number: part.number,
            is_register,
        },
        line,
        made: leaf(alloc, line, op),
        known,
        is_null: false,
        of_register: false,
    }
}

/// A local. With a home it is in memory, and any other is its value.
fn local_typed<S: Surroundings>(
    alloc: Global,
    around: &S,
    state: &State,
    line: u32,
    object: DeclaredObject,
    local: u32,
) -> Typed
    ensures { result
        ≡ local_typed (S.told around.now) (seen_state state.now) line object local }
{
    let part = object.ty;
    let is_register = object.is_register;
    let op = Operation::Local(local);
    let mut typed = in_memory(alloc, state, line, part, is_register, op, Known::Nothing);
    if always_has_home(typed.ty, part.qualifiers) || around.has_home(local) {
        return typed;
    }
    typed.place = Place::InLocal {
        local,
        number: part.number,
        is_register,
    };
    typed
}

/// An object that is named.
pub fn object_typed<S: Surroundings>(
    alloc: Global,
    around: &S,
    state: &State,
    line: u32,
    object: DeclaredObject,
) -> Typed
    ensures { result
        ≡ object_typed (S.told around.now) (seen_state state.now) line object object.number }
{
    match object.number {
        ObjectNumber::Static(number) => {
            let op = Operation::Static(number);
            let known = Known::Address(StaticHalf::Object(number), 0);
            in_memory(alloc, state, line, object.ty, object.is_register, op, known)
        }
        ObjectNumber::Local(local) => local_typed(alloc, around, state, line, object, local),
    }
}

/// A function that is named.
fn function_typed(alloc: Global, state: &State, line: u32, function: DeclaredFunction) -> Typed
    ensures { result ≡ function_typed (seen_state state.now) line function }
{
    Typed {
        ty: type_at(state, function.ty),
        quals: Qualifiers::empty(),
        place: Place::Designator {
            function: Some(function.number),
            number: function.ty,
        },
        line,
        made: leaf(alloc, line, Operation::Function(function.number)),
        known: Known::Address(StaticHalf::Function(function.number), 0),
        is_null: false,
        of_register: false,
    }
}

/// A name that stands for nothing that is an expression.
fn unknown_name(alloc: Global, line: u32) -> Found<Typed>
    ensures { (s : o.State) → checked s result ≡ unknown_name line s }
{
    let zero = constant(alloc, CIntType::Int, line, 0);
    by_rules(line, &[(Rule::UnknownName, true)], zero)
}

/// A name. An object or a function is used by it.
pub fn name_typed<S: Surroundings>(
    alloc: Global,
    around: &S,
    state: &mut State,
    line: u32,
    name: u32,
) -> Result<Found<Typed>, AllocError>
    ensures found { IfOk result (λ found. let s = seen_state state.old in
        checked (seen_state state.new) found
        ≡ name_typed (S.told around.now) line s
        (s.visible ((S.told around.now).spelling name))) }
    ensures grows { OnOk result (Grows state.old state.new) }
{
    match state.look_up(around.spelling(name)) {
        Some(Declared::Object(object)) => {
            let typed = object_typed(alloc, around, state, line, object);
            state.use_declared(Declared::Object(object))?;
            Ok(Found::Fine(typed))
        }
        Some(Declared::Function(function)) => {
            let typed = function_typed(alloc, state, line, function);
            state.use_declared(Declared::Function(function))?;
            Ok(Found::Fine(typed))
        }
        Some(Declared::Constant(number)) => {
            Ok(Found::Fine(constant(alloc, CIntType::Int, line, number)))
        }
        Some(Declared::Typedef(_) | Declared::Tag(_)) | None => Ok(unknown_name(alloc, line)),
    }
}

/// Whether a text has too many bytes.
pub fn is_too_long(bytes: &Items<u8>) -> bool
    ensures { result ≡ is_too_long bytes.now }
{
    MOST_TEXT_BYTES <= bytes.len()
}

/// A text: an array of char, which is a static object of its own.
pub fn text_typed<S: Surroundings>(
    alloc: Global,
    around: &S,
    state: &mut State,
    line: u32,
    bytes: Items<u8>,
) -> Result<Found<Typed>, AllocError>
    ensures found { IfOk result (λ found. checked (seen_state state.new) found
        ≡ text_typed (S.told around.now) line bytes (seen_state state.old)) }
    ensures grows { OnOk result (Grows state.old state.new) }
{
    let rules = [(Rule::ObjectTooLarge, is_too_long(&bytes))];
    let Some(count) = bytes.len().checked_add(1) else {
        return Err(AllocError);
    };
    let number = around.char_array(alloc, &mut state.types, count as u64)?;
    let object = state.next_static;
    state.add_literal(bytes)?;
    let part = Part {
        number,
        qualifiers: Qualifiers::empty(),
    };
    let op = Operation::Static(object);
    let known = Known::Address(StaticHalf::Object(object), 0);
    let typed = in_memory(alloc, state, line, part, false, op, known);
    Ok(by_rules(line, &rules, typed))
}

/// The size of a type, as an unsigned long.
pub fn size_value(alloc: Global, line: u32, ty: CType) -> Typed
    ensures { result ≡ size_value line ty }
{
    constant(alloc, CIntType::UnsignedLong, line, size_or_zero(ty))
}

/// `sizeof` of a type that is named.
pub fn size_typed(alloc: Global, line: u32, ty: CType) -> Found<Typed>
    ensures { (s : o.State) → checked s result ≡ size_typed line ty s }
{
    let size = size_value(alloc, line, ty);
    by_rules(line, &[(Rule::IncompleteType, !is_complete(ty))], size)
}

/// `_Alignof` of a type.
pub fn align_typed(alloc: Global, line: u32, ty: CType) -> Found<Typed>
    ensures { (s : o.State) → checked s result ≡ align_typed line ty s }
{
    let align = constant(alloc, CIntType::UnsignedLong, line, align_or_one(ty));
    by_rules(line, &[(Rule::IncompleteType, !is_complete(ty))], align)
}
