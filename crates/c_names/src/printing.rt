//! What `printf` stands for: the output's lock and three functions with bodies, once the file has declared them.

ghost use Rattle.std.specs.Prelude.{◌≡◌, slice_get};
ghost use Rattle.c_expr_rules.specs.Views.{seen_state};
ghost use Rattle.c_names.specs.Named.{linked_to};
ghost use Rattle.c_file_rules.specs.Printing as printing;
ghost use Rattle.c_file_rules.specs.Printing.{takes_so_many, has_parameters, body_taking, static_in, printer_in};

use crate::naming::look_up_linked;
use crate::operations::takes_nothing;
use c_expr_rules::{Printer, State, type_at};
use c_tree::{Declared, ObjectNumber};
use c_types::{CType, Entry};

/// Whether the list of parameters of this number has one.
fn takes_one(state: &State, list: u32) -> bool
    ensures { let s = seen_state state.now in result ≡ takes_so_many 1 s (slice_get s.table list) }
{
    match state.types.get(list) {
        Some(Entry::Parameters(_, others)) => takes_nothing(state, others),
        _ => false,
    }
}

/// Whether the list of parameters of this number has two.
fn takes_two(state: &State, list: u32) -> bool
    ensures { let s = seen_state state.now in result ≡ takes_so_many 2 s (slice_get s.table list) }
{
    match state.types.get(list) {
        Some(Entry::Parameters(_, others)) => takes_one(state, others),
        _ => false,
    }
}

/// Whether a type is that of a function with one parameter.
fn has_one_parameter(state: &State, ty: CType) -> bool
    ensures { result ≡ has_parameters 1 (seen_state state.now) ty }
{
    match ty {
        CType::Function(signature) => takes_one(state, signature.parameters),
        _ => false,
    }
}

/// Whether a type is that of a function with two parameters.
fn has_two_parameters(state: &State, ty: CType) -> bool
    ensures { result ≡ has_parameters 2 (seen_state state.now) ty }
{
    match ty {
        CType::Function(signature) => takes_two(state, signature.parameters),
        _ => false,
    }
}

/// The number of a function with one parameter, where so many functions have bodies and it is one of them.
fn body_with_one(state: &State, bodies: u32, declared: Option<Declared>) -> Option<u32>
    ensures { result ≡ body_taking bodies 1 (seen_state state.now) declared }
{
    match declared {
        Some(Declared::Function(function)) => {
            if function.number < bodies && has_one_parameter(state, type_at(state, function.ty)) {
                Some(function.number)
            } else {
                None
            }
        }
        _ => None,
    }
}

/// The number of a function with two parameters, where so many functions have bodies and it is one of them.
fn body_with_two(state: &State, bodies: u32, declared: Option<Declared>) -> Option<u32>
    ensures { result ≡ body_taking bodies 2 (seen_state state.now) declared }
{
    match declared {
        Some(Declared::Function(function)) => {
            if function.number < bodies && has_two_parameters(state, type_at(state, function.ty)) {
                Some(function.number)
            } else {
                None
            }
        }
        _ => None,
    }
}

/// The number of a static object.
fn static_in(declared: Option<Declared>) -> Option<u32>
    ensures { result ≡ static_in declared }
{
    match declared {
        Some(Declared::Object(object)) => match object.number {
            ObjectNumber::Static(number) => Some(number),
            ObjectNumber::Local(_) => None,
        },
        _ => None,
    }
}

/// What `printf` stands for, where so many functions have bodies.
pub fn printer_in(state: &State, bodies: u32) -> Option<Printer>
    ensures { result ≡ printer_in bodies (seen_state state.now) }
{
    let lock = static_in(look_up_linked(state, b"__filc_out_lock"))?;
    let text = body_with_one(state, bodies, look_up_linked(state, b"__filc_put"))?;
    let unsigned = body_with_two(state, bodies, look_up_linked(state, b"__filc_put_unsigned"))?;
    let signed = body_with_one(state, bodies, look_up_linked(state, b"__filc_put_signed"))?;
    Some(Printer {
        lock,
        text,
        unsigned,
        signed,
    })
}
