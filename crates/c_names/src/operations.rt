//! The functions that are one operation each, and the numbers of functions without a body.

ghost use Rattle.std.specs.Prelude.{◌≡◌, [], ◌∷◌, ◌++◌, map, slice_get, IfOk};
ghost use Rattle.c_tree.specs.declared.operation.Operation.TheVariants as op;
ghost use Rattle.c_expr_rules.specs.Views.{seen_state};
ghost use Rattle.c_names.specs.Begun.{seen_intrinsic, seen_written};
ghost use Rattle.c_file_rules.specs.Operations.{intrinsic, intrinsics, operation_at, bodiless_number, is_int, takes_nothing, takes_int, is_int_to_int};

use c_expr_rules::{State, type_at};
use c_tree::Operation;
use c_types::{CType, Entry};
use filc_num::CIntType;
use std::alloc::AllocError;

/// How many functions are one operation, without `putchar`.
pub const OPERATION_COUNT: u32 = 11;

/// A type of these functions, as it is written.
#[derive(Clone, Copy, Debug, PartialEq, Eq)]
pub enum Written {
    Void,
    Kind(CIntType),
    /// `void *`
    Object,
    /// `_Atomic int *`
    Lock,
    /// `int (*)(void *)`
    Thread,
}

/// A function that is one operation.
#[derive(Clone, Copy, Debug, PartialEq, Eq)]
pub struct Intrinsic {
    pub operation: Operation,
    pub name: &'static [u8],
    pub gives: Written,
    pub takes: &'static [Written],
}

const INT: Written = Written::Kind(CIntType::Int);

const LONG: Written = Written::Kind(CIntType::Long);

const SIZE: Written = Written::Kind(CIntType::UnsignedLong);

/// A row of the table.
fn row(
    operation: Operation,
    name: &'static [u8],
    gives: Written,
    takes: &'static [Written],
) -> Intrinsic
    ensures { seen_intrinsic result
        ≡ intrinsic operation name.now (seen_written gives) (map seen_written takes.now) }
{
    Intrinsic {
        operation,
        name,
        gives,
        takes,
    }
}

/// These functions, in the order of their numbers.
pub fn intrinsics() -> [Intrinsic; 11]
    ensures { map seen_intrinsic result ≡ intrinsics }
{
    let void = Written::Void;
    [
        row(Operation::New, b"__filc_new", Written::Object, &[SIZE]),
        row(Operation::Free, b"__filc_free", void, &[Written::Object]),
        row(Operation::Size, b"__filc_size", SIZE, &[Written::Object]),
        row(Operation::Lock, b"__filc_lock", void, &[Written::Lock]),
        row(Operation::Out, b"__filc_out", void, &[INT]),
        row(Operation::Input, b"__filc_in", INT, &[]),
        row(
            Operation::Spawn,
            b"__filc_spawn",
            LONG,
            &[Written::Thread, Written::Object],
        ),
        row(Operation::Join, b"__filc_join", LONG, &[SIZE]),
        row(Operation::SelfId, b"__filc_self", SIZE, &[]),
        row(Operation::Exit, b"__filc_exit", void, &[INT]),
        row(Operation::Abort, b"__filc_abort", void, &[]),
    ]
}

/// Of these functions the operations, and behind them that of `putchar`, which puts out a byte.
fn operations() -> [Operation; 12]
    ensures { result ≡ map (λ i. i.operation) intrinsics ++ op.Out ∷ [] }
{
    [
        Operation::New,
        Operation::Free,
        Operation::Size,
        Operation::Lock,
        Operation::Out,
        Operation::Input,
        Operation::Spawn,
        Operation::Join,
        Operation::SelfId,
        Operation::Exit,
        Operation::Abort,
        Operation::Out,
    ]
}

/// The operation that a function of this number is, where so many functions have bodies.
pub fn operation_at(bodies: u32, number: u32) -> Option<Operation>
    ensures { result ≡ operation_at bodies number }
{
    if number < bodies {
        return None;
    }
    let operations = operations();
    match operations.get((number - bodies) as usize) {
        None => None,
        Some(operation) => Some(*operation),
    }
}

/// The number of a function without a body, by its name, and by whether it is from int to int.
pub fn bodiless_number(
    bodies: u32,
    spelling: &[u8],
    takes_and_gives_int: bool,
    name: u32,
) -> Result<u32, AllocError>
    ensures { IfOk result (λ number.
        number ≡ bodiless_number bodies spelling.now takes_and_gives_int name) }
{
    let behind = bodies.checked_add(OPERATION_COUNT).ok_or(AllocError)?;
    if takes_and_gives_int && spelling == b"putchar".as_slice() {
        return Ok(behind);
    }
    let place = name.checked_add(1).ok_or(AllocError)?;
    behind.checked_add(place).ok_or(AllocError)
}

/// Whether a type is `int`.
pub fn is_int(ty: CType) -> bool
    ensures { result ≡ is_int ty }
{
    matches!(ty, CType::Integer(CIntType::Int))
}

/// Whether the list of parameters of this number is empty.
pub fn takes_nothing(state: &State, list: u32) -> bool
    ensures { result ≡ takes_nothing (slice_get (seen_state state.now).table list) }
{
    matches!(state.types.get(list), Some(Entry::NoParameters))
}

/// Whether the list of parameters of this number is one int.
fn takes_int(state: &State, list: u32) -> bool
    ensures { let s = seen_state state.now in result ≡ takes_int s (slice_get s.table list) }
{
    match state.types.get(list) {
        Some(Entry::Parameters(first, others)) => {
            is_int(type_at(state, first)) && takes_nothing(state, others)
        }
        _ => false,
    }
}

/// Whether a type is that of a function from int to int.
pub fn is_int_to_int(state: &State, ty: CType) -> bool
    ensures { result ≡ is_int_to_int (seen_state state.now) ty }
{
    match ty {
        CType::Function(signature) => {
            is_int(type_at(state, signature.result)) && takes_int(state, signature.parameters)
        }
        _ => false,
    }
}
