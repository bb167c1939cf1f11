//! Atomic calls (C11 7.17.7): each fault of their operands is one rule.

ghost use Rattle.std.specs.Prelude.{◌≡◌, ℕ, [], ◌∷◌, IfOk, MatchOption};
ghost use Rattle.c_expr_rules.specs.TypedExpressions.{pointed_part, value, with_operation};
ghost use Rattle.c_expr_rules.specs.Calls.{atomic_part, are_orders, waits_for, may_follow, points_to_plain, desired_tree, atomic_result, atomic_call};
ghost use Rattle.c_expr_rules.specs.AtomicParts.{may_replace, may_compare, replacing, type_of_result, replace_tree, compare_tree, atomic_tree};
ghost use Rattle.c_expr_rules.specs.Views.{seen_state, checked};
ghost use Rattle.c_expr_rules.specs.declared.known.Known.TheVariants as known;

use bitflags::Flags;
use c_expr_rules::{
    Arguments, AtomicCall, Found, Known, Made, State, Typed, access_of, by_rules, convert_value,
    converts, first_first, integer_kind, is_atomic, is_integer, leaf, operand_of, pointed_part,
    promote, then_do, tree_of, type_at, value, with_operand, with_operation,
};
use c_rules::Rule;
use c_tree::Operation;
use c_types::{CType, Part, Qualifiers};
use filc_num::CIntType;
use sqlite_items::Items;
use std::alloc::{AllocError, Global};

/// What a value points to, where that is atomic.
fn atomic_part(ty: CType) -> Option<Part>
    ensures { result ≡ atomic_part (pointed_part ty) }
{
    match pointed_part(ty) {
        Some(to) if is_atomic(to.qualifiers) => Some(to),
        _ => None,
    }
}

/// Whether further operands are integers.
fn are_orders(orders: &[Typed]) -> bool
    ensures { result ≡ are_orders orders.now }
{
    for order in orders {
        if !is_integer(order.ty) {
            return false;
        }
    }
    true
}

/// Whether these are one further operand at most, and an integer.
fn may_follow(orders: &[Typed]) -> bool
    ensures { result ≡ may_follow orders.now }
{
    orders.len() <= 1 && are_orders(orders)
}

/// Whether the expected operand of an exchange points to the plain type.
fn points_to_plain(number: u32, expected: &Typed) -> bool
    ensures { result ≡ points_to_plain number (pointed_part expected.now.ty) }
{
    match pointed_part(expected.ty) {
        None => false,
        Some(to) => to.number == number && to.qualifiers.bits() == 0,
    }
}

/// Whether a call that replaces what an atomic object of this type has takes these operands behind that.
fn may_replace(state: &State, ty: CType, operands: &[Typed]) -> bool
    ensures { result ≡ may_replace (seen_state state.now) ty operands.now }
{
    match operands {
        [desired, orders @ ..] => converts(state, ty, desired) && may_follow(orders),
        [] => false,
    }
}

/// Whether an exchange by comparison takes these operands behind the atomic object.
fn may_compare(state: &State, number: u32, ty: CType, operands: &[Typed]) -> bool
    ensures { result ≡ may_compare (seen_state state.now) number ty operands.now }
{
    match operands {
        [expected, desired, orders @ ..] => {
            points_to_plain(number, expected)
                && converts(state, ty, desired)
                && (orders.is_empty() || orders.len() == 2)
                && are_orders(orders)
        }
        [] | [_] => false,
    }
}

/// Whether an atomic call takes these operands.
fn takes_operands(state: &State, what: AtomicCall, operands: &[Typed]) -> bool
    ensures { (line : ℕ) → result ≡ (atomic_result (seen_state state.now) line what
        operands.now).is_good }
{
    let [object, rest @ ..] = operands else {
        return false;
    };
    let Some(to) = atomic_part(object.ty) else {
        return false;
    };
    let ty = type_at(state, to.number);
    match what {
        AtomicCall::Load => may_follow(rest),
        AtomicCall::Store | AtomicCall::Exchange => may_replace(state, ty, rest),
        AtomicCall::CompareExchange => may_compare(state, to.number, ty, rest),
        AtomicCall::Fetch(_) => is_integer(ty) && may_replace(state, ty, rest),
    }
}

/// The first of a list of values, which is taken from it.
fn take_first(values: &mut Vec<Typed>) -> Option<Typed>
    ensures { MatchOption result (values.old.items ≡ [])
        (λ first. values.old.items ≡ first ∷ values.new.items) }
{
    if values.is_empty() {
        None
    } else {
        Some(values.remove(0))
    }
}

/// A value waits while further operands are evaluated and dropped.
fn waits_for(alloc: Global, orders: Vec<Typed>, made: Made) -> Result<Made, AllocError>
    ensures { IfOk result (λ m. m ≡ waits_for orders.items made) }
{
    let mut waiting = made;
    for order in orders {
        let line = waiting.line;
        waiting = with_operand(alloc, line, Operation::Advance(0), waiting, order.made)?;
    }
    Ok(waiting)
}

/// The desired value of an atomic object of this type.
fn desired_tree(
    alloc: Global,
    state: &State,
    ty: CType,
    desired: Typed,
    orders: Vec<Typed>,
) -> Result<Made, AllocError>
    ensures { IfOk result (λ m. m
        ≡ desired_tree (seen_state state.now) ty desired orders.items) }
{
    let converted = convert_value(alloc, state, ty, desired)?;
    waits_for(alloc, orders, converted.made)
}

/// The operation of a call that replaces what an atomic object of this type has by what is desired.
fn replacing(what: AtomicCall, ty: CType) -> Operation
    ensures { result ≡ replacing what ty }
{
    let access = access_of(ty, Qualifiers::ATOMIC);
    let kind = match integer_kind(ty) {
        Some(kind) => kind,
        None => CIntType::Int,
    };
    match what {
        AtomicCall::Load => Operation::Load(access),
        AtomicCall::Store => Operation::Store(access),
        AtomicCall::Exchange => Operation::Swap(access),
        AtomicCall::CompareExchange => Operation::Cas(access),
        AtomicCall::Fetch(operator) => {
            Operation::Fetch(kind.int_type(), operator, promote(kind).int_type())
        }
    }
}

/// The type of what an atomic call gives.
fn type_of_result(what: AtomicCall, ty: CType) -> CType
    ensures { result ≡ type_of_result what ty }
{
    match what {
        AtomicCall::Load | AtomicCall::Exchange | AtomicCall::Fetch(_) => ty,
        AtomicCall::Store => CType::Void,
        AtomicCall::CompareExchange => CType::Integer(CIntType::Bool),
    }
}

/// The tree of a load.
fn load_tree(
    alloc: Global,
    line: u32,
    op: Operation,
    object: Made,
    orders: Vec<Typed>,
) -> Result<Made, AllocError>
    ensures { IfOk result (λ m. m
        ≡ with_operation line op [] (waits_for orders.items object)) }
{
    let waiting = waits_for(alloc, orders, object)?;
    then_do(alloc, line, op, waiting)
}

/// The tree of a call that replaces what an object has, where a desired value is there.
fn replace_tree(
    alloc: Global,
    state: &State,
    line: u32,
    op: Operation,
    ty: CType,
    object: Made,
    mut rest: Vec<Typed>,
) -> Result<Option<Made>, AllocError>
    ensures { IfOk result (λ m. m ≡ replace_tree (seen_state state.now) line op ty
        object rest.items) }
{
    let Some(desired) = take_first(&mut rest) else {
        return Ok(None);
    };
    let desired = desired_tree(alloc, state, ty, desired, rest)?;
    Ok(Some(with_operand(alloc, line, op, object, desired)?))
}

/// The tree of an exchange by comparison, where an expected and a desired value are there.
fn compare_tree(
    alloc: Global,
    state: &State,
    line: u32,
    op: Operation,
    ty: CType,
    object: Made,
    mut rest: Vec<Typed>,
) -> Result<Option<Made>, AllocError>
    ensures { IfOk result (λ m. m ≡ compare_tree (seen_state state.now) line op ty
        object rest.items) }
{
    let Some(expected) = take_first(&mut rest) else {
        return Ok(None);
    };
    let Some(desired) = take_first(&mut rest) else {
        return Ok(None);
    };
    let desired = desired_tree(alloc, state, ty, desired, rest)?;
    let mut operands = operand_of(alloc, expected.made)?;
    operands.push(tree_of(alloc, desired)?)?;
    Ok(Some(with_operation(alloc, line, op, operands, object)?))
}

/// The tree of an atomic call on an object of this type, with the operands behind that, where they are there.
fn atomic_tree(
    alloc: Global,
    state: &State,
    line: u32,
    what: AtomicCall,
    ty: CType,
    object: Made,
    rest: Vec<Typed>,
) -> Result<Option<Made>, AllocError>
    ensures { IfOk result (λ m. m ≡ atomic_tree (seen_state state.now) line
        what ty object rest.items) }
{
    let op = replacing(what, ty);
    match what {
        AtomicCall::Load => Ok(Some(load_tree(alloc, line, op, object, rest)?)),
        AtomicCall::Store | AtomicCall::Exchange | AtomicCall::Fetch(_) => {
            replace_tree(alloc, state, line, op, ty, object, rest)
        }
        AtomicCall::CompareExchange => compare_tree(alloc, state, line, op, ty, object, rest),
    }
}

/// What an atomic call gives that takes its operands.
fn atomic_value(
    alloc: Global,
    state: &State,
    line: u32,
    what: AtomicCall,
    values: Items<Typed>,
) -> Result<Typed, AllocError>
    ensures { IfOk result (λ t. let r = atomic_result (seen_state state.now) line what
        values in t ≡ value r.ty line r.made known.Nothing) }
{
    let none = leaf(alloc, line, Operation::Abort);
    let no_value = value(CType::Void, line, none, Known::Nothing);
    let mut rest = first_first(alloc, values)?;
    let Some(object) = take_first(&mut rest) else {
        return Ok(no_value);
    };
    let Some(to) = atomic_part(object.ty) else {
        return Ok(no_value);
    };
    let ty = type_at(state, to.number);
    match atomic_tree(alloc, state, line, what, ty, object.made, rest)? {
        None => Ok(no_value),
        Some(made) => Ok(value(type_of_result(what, ty), line, made, Known::Nothing)),
    }
}

/// An atomic call with these operands.
pub fn atomic_call(
    alloc: Global,
    state: &State,
    line: u32,
    what: AtomicCall,
    arguments: Arguments,
) -> Result<Found<Typed>, AllocError>
    ensures { IfOk result (λ found. let s = seen_state state.now in checked s found
        ≡ atomic_call line what s arguments) }
{
    let Arguments { values, .. } = arguments;
    let are_taken = takes_operands(state, what, values.as_slice());
    let found = atomic_value(alloc, state, line, what, values)?;
    Ok(by_rules(line, &[(Rule::BadAtomic, !are_taken)], found))
}
