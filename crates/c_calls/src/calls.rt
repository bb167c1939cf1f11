//! Arguments and calls (C11 6.5.2.2).

ghost use Rattle.std.specs.Prelude.{◌≡◌, IfOk};
ghost use Rattle.c_expr_rules.specs.Outcomes.{outcome_with};
ghost use Rattle.c_expr_rules.specs.TypedExpressions.{type_at};
ghost use Rattle.c_expr_rules.specs.Converting.{conversion, is_none, or_itself};
ghost use Rattle.c_expr_rules.specs.Calls.{wanted_type, following, are_all, argument_to, trees_of, signature_of, wanted_by, is_callable, result_in, number_in, direct_call, call_made, call};
ghost use Rattle.c_expr_rules.specs.Views.{seen_state, checked, found_has};

use c_expr_rules::{
    Arguments, Found, Known, Made, Place, State, Surroundings, Typed, Wanted, also, by_rules,
    convert_value, first_first, is_refused, made_of, pointed_part, tree_of, type_at, value,
    with_operation,
};
use c_rules::Rule;
use c_tree::{Expr, Operation};
use c_types::{CType, Entry, Part, Signature};
use sqlite_items::Items;
use std::alloc::{AllocError, Global};

/// The type to which the next argument is converted.
pub fn wanted_type(state: &State, wanted: Wanted) -> Option<u32>
    ensures { result ≡ wanted_type (seen_state state.now) wanted }
{
    match wanted {
        Wanted::Anything | Wanted::Past => None,
        Wanted::Listed(parameters) => match state.types.get(parameters) {
            Some(Entry::Parameters(first, _)) => Some(first),
            Some(Entry::NoParameters | Entry::OfType(_)) | None => None,
        },
    }
}

/// What is wanted behind the next argument.
pub fn following(state: &State, wanted: Wanted) -> Wanted
    ensures { result ≡ following (seen_state state.now) wanted }
{
    match wanted {
        Wanted::Anything => Wanted::Anything,
        Wanted::Past => Wanted::Past,
        Wanted::Listed(parameters) => match state.types.get(parameters) {
            Some(Entry::Parameters(_, others)) => Wanted::Listed(others),
            Some(Entry::NoParameters | Entry::OfType(_)) | None => Wanted::Past,
        },
    }
}

/// After all arguments, whether they are as many as the parameters.
fn are_all(state: &State, wanted: Wanted) -> bool
    ensures { result ≡ are_all (seen_state state.now) wanted }
{
    match wanted {
        Wanted::Anything => true,
        Wanted::Past => false,
        Wanted::Listed(parameters) => match state.types.get(parameters) {
            Some(Entry::NoParameters) => true,
            Some(Entry::Parameters(..) | Entry::OfType(_)) | None => false,
        },
    }
}

/// Whether what is known of an expression doesn't convert to the type of this number as by assignment.
pub fn is_unconvertible(state: &State, number: u32, found: &Found<Typed>) -> bool
    ensures { let s = seen_state state.now in
        result ≡ found_has (λ t. is_none (conversion s (type_at s number) t)) found.now }
{
    let to = type_at(state, number);
    match found {
        Found::Fine(typed) => is_refused(state, to, typed),
        Found::Breaks(_, Some(typed)) => is_refused(state, to, typed),
        Found::Breaks(_, None) => false,
    }
}

/// What is found, as by assignment to the type of this number.
pub fn convert_found(
    alloc: Global,
    state: &State,
    number: u32,
    found: Found<Typed>,
) -> Result<Found<Typed>, AllocError>
    ensures { IfOk result (λ value. checked (seen_state state.now) value
        ≡ outcome_with (λ s x. or_itself x (conversion s (type_at s number) x))
        (checked (seen_state state.now) found)) }
{
    let to = type_at(state, number);
    match found {
        Found::Fine(typed) => Ok(Found::Fine(convert_value(alloc, state, to, typed)?)),
        Found::Breaks(broken, Some(typed)) => {
            let known = convert_value(alloc, state, to, typed)?;
            Ok(Found::Breaks(broken, Some(known)))
        }
        Found::Breaks(broken, None) => Ok(Found::Breaks(broken, None)),
    }
}

/// An argument, converted where it stands to the type that is wanted.
pub fn argument(
    alloc: Global,
    state: &State,
    line: u32,
    wanted: Option<u32>,
    found: Found<Typed>,
) -> Result<Found<Typed>, AllocError>
    ensures { IfOk result (λ value. checked (seen_state state.now) value
        ≡ argument_to line wanted (checked (seen_state state.now) found)) }
{
    let Some(number) = wanted else {
        return Ok(found);
    };
    let is_broken = is_unconvertible(state, number, &found);
    let found = also(line, Rule::BadConversion, is_broken, found);
    convert_found(alloc, state, number, found)
}

/// The trees of values.
fn trees_of(alloc: Global, values: Items<Typed>) -> Result<Items<Expr>, AllocError>
    ensures { IfOk result (λ trees. trees ≡ trees_of values) }
{
    let mut trees = Items::new(alloc);
    for typed in first_first(alloc, values)? {
        trees.push(tree_of(alloc, typed.made)?)?;
    }
    Ok(trees)
}

/// The function type that a value points to.
fn signature_of(state: &State, typed: &Typed) -> Option<Signature>
    ensures { result ≡ signature_of (seen_state state.now) typed.now }
{
    let to = pointed_part(typed.ty)?;
    match type_at(state, to.number) {
        CType::Function(signature) => Some(signature),
        CType::Void
        | CType::Integer(_)
        | CType::Enumeration(_)
        | CType::Pointer(_)
        | CType::ArrayOf(_)
        | CType::Structure(..)
        | CType::Union(..) => None,
    }
}

/// What the arguments of a call of this value are converted to.
pub fn wanted_of(state: &State, function: &Typed) -> Wanted
    ensures { result
        ≡ wanted_by (signature_of (seen_state state.now) function.now) }
{
    match signature_of(state, function) {
        None => Wanted::Anything,
        Some(signature) => Wanted::Listed(signature.parameters),
    }
}

fn is_callable(signature: Option<Signature>) -> bool
    ensures { result ≡ is_callable signature }
{
    match signature {
        None => false,
        Some(_) => true,
    }
}

fn result_in(state: &State, signature: Option<Signature>) -> CType
    ensures { result ≡ result_in (seen_state state.now) signature }
{
    match signature {
        None => CType::Void,
        Some(signature) => type_at(state, signature.result),
    }
}

fn number_in(part: Option<Part>) -> u32
    ensures { result ≡ number_in part }
{
    match part {
        None => 0,
        Some(to) => to.number,
    }
}

/// The operation that calls a function that is named.
fn direct_call(intrinsic: Option<Operation>, number: u32) -> Operation
    ensures { result ≡ direct_call intrinsic number }
{
    match intrinsic {
        None => Operation::Call(number),
        Some(operation) => operation,
    }
}

/// The tree of a call: a function that is named is called directly, any other through its pointer.
fn call_made<S: Surroundings>(
    alloc: Global,
    around: &S,
    line: u32,
    place: Place,
    function: Typed,
    operands: Items<Expr>,
) -> Result<Made, AllocError>
    ensures { IfOk result (λ m. m
        ≡ call_made (S.told around.now).intrinsic (S.told around.now).kind_of line
        place function operands) }
{
    if let Place::Designator {
        function: Some(number),
        ..
    } = place
    {
        let op = direct_call(around.intrinsic(number), number);
        return Ok(made_of(alloc, line, Expr::Apply { line, op, operands }));
    }
    let kind = around.kind_of(number_in(pointed_part(function.ty)));
    let op = Operation::CallPointer(kind);
    with_operation(alloc, line, op, operands, function.made)
}

/// A call of a function with these arguments. `place` is what the function's expression names.
pub fn call<S: Surroundings>(
    alloc: Global,
    around: &S,
    state: &State,
    line: u32,
    place: Place,
    function: Typed,
    arguments: Arguments,
) -> Result<Found<Typed>, AllocError>
    ensures { IfOk result (λ found. let s = seen_state state.now in checked s found
        ≡ call (S.told around.now).intrinsic (S.told around.now).kind_of line place
        function s arguments) }
{
    let Arguments { values, wanted } = arguments;
    let signature = signature_of(state, &function);
    let rules = [
        (Rule::NotCallable, !is_callable(signature)),
        (Rule::ArgumentCount, !are_all(state, wanted)),
    ];
    let operands = trees_of(alloc, values)?;
    let made = call_made(alloc, around, line, place, function, operands)?;
    let ty = result_in(state, signature);
    Ok(by_rules(line, &rules, value(ty, line, made, Known::Nothing)))
}
