//! Assignment (C11 6.5.16), and `++` and `--` (6.5.2.4, 6.5.3.1).

ghost use Rattle.std.specs.Prelude.{◌≡◌, if◌then◌else◌, IfOk};
ghost use Rattle.filc_num.specs.CIntTypes.{int_type_of};
ghost use Rattle.c_tree.specs.declared.operation.Operation.TheVariants as op;
ghost use Rattle.c_expr_rules.specs.TypedExpressions.{is_record, is_atomic, access_of};
ghost use Rattle.c_expr_rules.specs.Operators.{kind_in, copy_of, has_const, contents_of, change_rules, is_modifiable, store, assigned_value, assignment, moves_pointer, family_of, takes_compound, computed_for, change_of, update_tree, step_tree, compound, one_at, step};
ghost use Rattle.c_expr_rules.specs.Views.{seen_state, seen_rules, checked};

use crate::binary_operators::computed_in;
use crate::operands::{are_integers, points_to_complete};
use c_expr_rules::{
    Found, Known, Made, Place, State, Typed, access_of, by_rules, constant, convert_value, copy_of,
    element_bytes, is_array, is_atomic, is_const, is_integer, is_lvalue, is_record, is_refused,
    is_register, kind_of_value, part_value, record_number, then_do, value, with_operand,
};
use c_rules::Rule;
use c_tree::{Change, Operation};
use filc_num::{BinOp, CIntType, IntType};
use std::alloc::{AllocError, Global};

/// Whether a structure's or union's members are const, in part at least.
fn has_const(state: &State, number: Option<u32>) -> bool
    ensures { result ≡ has_const (contents_of (seen_state state.now) number) }
{
    let Some(number) = number else {
        return false;
    };
    match state.contents.get(&number) {
        Some(contents) => contents.has_const,
        None => false,
    }
}

/// Whether what a place has may be assigned: const, an array, or a structure with a const member may not (C11 6.3.2.1p1).
fn is_modifiable(state: &State, typed: &Typed) -> bool
    ensures { result ≡ is_modifiable (seen_state state.now) typed.now }
{
    !(is_const(typed.quals) || is_array(typed.ty) || has_const(state, record_number(typed.ty)))
}

/// What stores a value of this place's type.
fn store_operation(target: &Typed) -> Operation
    ensures { let t = target.now in result
        ≡ (if is_record t.ty then copy_of t.ty else op.Store (access_of t.ty t.quals.0)) }
{
    if is_record(target.ty) {
        copy_of(target.ty)
    } else {
        Operation::Store(access_of(target.ty, target.quals))
    }
}

/// The tree that stores a value.
fn store(alloc: Global, line: u32, target: Typed, made: Made) -> Result<Made, AllocError>
    ensures { IfOk result (λ m. m
        ≡ store line target made target.place) }
{
    match target.place {
        Place::InLocal { local, .. } => { then_do(alloc, line, Operation::SetLocal(local), made) }
        Place::Value
        | Place::InMemory { .. }
        | Place::InValue { .. }
        | Place::VoidAt(_)
        | Place::Designator { .. } => {
            let op = store_operation(&target);
            with_operand(alloc, line, op, target.made, made)
        }
    }
}

/// The value of an assignment: the one that is stored (C11 6.5.16p3), and of a structure the left side's object.
pub fn assigned_value(
    alloc: Global,
    line: u32,
    target: Typed,
    stored: Typed,
) -> Result<Typed, AllocError>
    ensures { IfOk result (λ t. t ≡ assigned_value line target stored) }
{
    let ty = target.ty;
    let of_register = is_record(ty) && is_register(target.place);
    let made = store(alloc, line, target, stored.made)?;
    Ok(part_value(ty, line, made, Known::Nothing, of_register))
}

/// `=`
pub fn assignment(
    alloc: Global,
    state: &State,
    line: u32,
    target: Typed,
    right: Typed,
) -> Result<Found<Typed>, AllocError>
    ensures { IfOk result (λ found. let s = seen_state state.now in
        checked s found ≡ assignment line target s right) }
{
    let rules = [
        (Rule::NotAnLvalue, !is_lvalue(target.place)),
        (Rule::NotModifiable, !is_modifiable(state, &target)),
        (Rule::BadConversion, is_refused(state, target.ty, &right)),
    ];
    let stored = convert_value(alloc, state, target.ty, right)?;
    let found = assigned_value(alloc, line, target, stored)?;
    Ok(by_rules(line, &rules, found))
}

/// Whether a compound assignment moves a pointer. An atomic one isn't moved.
fn moves_pointer(state: &State, operator: BinOp, target: &Typed, right: &Typed) -> bool
    ensures { result ≡ moves_pointer (family_of operator) (seen_state state.now) target.now
        right.now }
{
    match operator {
        BinOp::Add | BinOp::Sub => {
            points_to_complete(state, target) && is_integer(right.ty) && !is_atomic(target.quals)
        }
        BinOp::Mul
        | BinOp::Div
        | BinOp::Rem
        | BinOp::And
        | BinOp::Or
        | BinOp::Xor
        | BinOp::Shl
        | BinOp::Shr
        | BinOp::Lt
        | BinOp::Le
        | BinOp::Gt
        | BinOp::Ge
        | BinOp::Eq
        | BinOp::Ne => false,
    }
}

/// Whether a compound assignment takes two operands (C11 6.5.16.2p1).
fn takes_compound(state: &State, operator: BinOp, target: &Typed, right: &Typed) -> bool
    ensures { result ≡ takes_compound operator (seen_state state.now) target.now
        right.now }
{
    are_integers(target, right) || moves_pointer(state, operator, target, right)
}

/// The type in which a compound assignment is computed.
fn computed_for(operator: BinOp, target: &Typed, right: &Typed) -> IntType
    ensures { result ≡ computed_for operator target.now right.now }
{
    computed_in(operator, kind_of_value(target), kind_of_value(right)).int_type()
}

/// How a compound assignment makes the new value.
fn change_of(state: &State, operator: BinOp, target: &Typed, right: &Typed) -> Change
    ensures { result ≡ change_of operator (seen_state state.now) target.now
        right.now }
{
    if is_integer(target.ty) {
        let computed = computed_for(operator, target, right);
        return Change::Integer(operator, computed, kind_of_value(target).int_type());
    }
    let bytes = element_bytes(state, target.ty);
    match operator {
        BinOp::Sub => Change::Retreat(bytes),
        _ => Change::Advance(bytes),
    }
}

/// The operation that gives a place in memory a new value, and gives that. At an atomic integer it is one event.
fn update_operation(state: &State, operator: BinOp, target: &Typed, right: &Typed) -> Operation
    ensures { let s = seen_state state.now in let t = target.now in let v = right.now in
        result ≡ (if is_atomic t.quals.0
        then op.Combine (int_type_of (kind_in t)) operator (computed_for operator t v)
        else op.Update (access_of t.ty t.quals.0) (change_of operator s t v)) }
{
    if is_atomic(target.quals) {
        let object = kind_of_value(target).int_type();
        return Operation::Combine(object, operator, computed_for(operator, target, right));
    }
    let access = access_of(target.ty, target.quals);
    Operation::Update(access, change_of(state, operator, target, right))
}

/// The same, but it gives the old value.
fn step_operation(state: &State, operator: BinOp, target: &Typed, right: &Typed) -> Operation
    ensures { let s = seen_state state.now in let t = target.now in let v = right.now in
        result ≡ (if is_atomic t.quals.0
        then op.Fetch (int_type_of (kind_in t)) operator (computed_for operator t v)
        else op.Step (access_of t.ty t.quals.0) (change_of operator s t v)) }
{
    if is_atomic(target.quals) {
        let object = kind_of_value(target).int_type();
        return Operation::Fetch(object, operator, computed_for(operator, target, right));
    }
    let access = access_of(target.ty, target.quals);
    Operation::Step(access, change_of(state, operator, target, right))
}

/// The tree that changes a place and gives its new value.
fn update_tree(
    alloc: Global,
    state: &State,
    line: u32,
    operator: BinOp,
    target: Typed,
    right: Typed,
) -> Result<Made, AllocError>
    ensures { IfOk result (λ m. m ≡ update_tree line operator (seen_state state.now)
        target right target.place) }
{
    match target.place {
        Place::InLocal { local, .. } => {
            let change = change_of(state, operator, &target, &right);
            then_do(
                alloc,
                line,
                Operation::UpdateLocal(local, change),
                right.made,
            )
        }
        Place::Value
        | Place::InMemory { .. }
        | Place::InValue { .. }
        | Place::VoidAt(_)
        | Place::Designator { .. } => {
            let op = update_operation(state, operator, &target, &right);
            with_operand(alloc, line, op, target.made, right.made)
        }
    }
}

/// The tree that changes a place and gives its old value.
fn step_tree(
    alloc: Global,
    state: &State,
    line: u32,
    operator: BinOp,
    target: Typed,
    right: Typed,
) -> Result<Made, AllocError>
    ensures { IfOk result (λ m. m ≡ step_tree line operator (seen_state state.now)
        target right target.place) }
{
    match target.place {
        Place::InLocal { local, .. } => {
            let change = change_of(state, operator, &target, &right);
            then_do(alloc, line, Operation::StepLocal(local, change), right.made)
        }
        Place::Value
        | Place::InMemory { .. }
        | Place::InValue { .. }
        | Place::VoidAt(_)
        | Place::Designator { .. } => {
            let op = step_operation(state, operator, &target, &right);
            with_operand(alloc, line, op, target.made, right.made)
        }
    }
}

/// The rules that a change of a place can break, and whether it does.
fn change_rules(state: &State, operator: BinOp, target: &Typed, right: &Typed) -> [(Rule, bool); 3]
    ensures { seen_rules result ≡ change_rules operator target.now (seen_state state.now)
        right.now }
{
    [
        (Rule::NotAnLvalue, !is_lvalue(target.place)),
        (Rule::NotModifiable, !is_modifiable(state, target)),
        (
            Rule::BadOperand,
            !takes_compound(state, operator, target, right),
        ),
    ]
}

/// A compound assignment.
pub fn compound(
    alloc: Global,
    state: &State,
    line: u32,
    operator: BinOp,
    target: Typed,
    right: Typed,
) -> Result<Found<Typed>, AllocError>
    ensures { IfOk result (λ found. let s = seen_state state.now in
        checked s found ≡ compound line operator target s right) }
{
    let rules = change_rules(state, operator, &target, &right);
    let ty = target.ty;
    let made = update_tree(alloc, state, line, operator, target, right)?;
    Ok(by_rules(line, &rules, value(ty, line, made, Known::Nothing)))
}

/// The 1 of `++` and `--`.
fn one_at(alloc: Global, line: u32) -> Typed
    ensures { result ≡ one_at line }
{
    constant(alloc, CIntType::Int, line, 1)
}

/// `++` and `--` before an operand.
pub fn step_before(
    alloc: Global,
    state: &State,
    line: u32,
    operator: BinOp,
    target: Typed,
) -> Result<Found<Typed>, AllocError>
    ensures { IfOk result (λ found. let s = seen_state state.now in
        checked s found ≡ compound line operator target s (one_at line)) }
{
    compound(alloc, state, line, operator, target, one_at(alloc, line))
}

/// `++` and `--` behind an operand.
pub fn step_behind(
    alloc: Global,
    state: &State,
    line: u32,
    operator: BinOp,
    target: Typed,
) -> Result<Found<Typed>, AllocError>
    ensures { IfOk result (λ found. let s = seen_state state.now in
        checked s found ≡ step line operator s target) }
{
    let one = one_at(alloc, line);
    let rules = change_rules(state, operator, &target, &one);
    let ty = target.ty;
    let made = step_tree(alloc, state, line, operator, target, one)?;
    Ok(by_rules(line, &rules, value(ty, line, made, Known::Nothing)))
}
