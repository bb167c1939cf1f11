//! What one construct makes of what is found of its parts: operators before an operand, casts, operators of one level,
//! and names through parentheses.

ghost use Rattle.std.specs.Prelude.{◌≡◌, not, ◌&&◌, [], ◌∷◌, IfOk, OnOk};
ghost use Rattle.c_expr_rules.specs.Outcomes as o;
ghost use Rattle.c_expr_rules.specs.Outcomes.{◌breaks◌, outcome_with};
ghost use Rattle.c_expr_rules.specs.TypedExpressions.{is_scalar, is_complete};
ghost use Rattle.c_expr_rules.specs.Operators as operators;
ghost use Rattle.c_expr_rules.specs.Expressions.{on_integer, prefixed, cast, linked_value, logic, assigned_with, name_in, special_named, local_of, local_named, stands_for_operation, names_operation, is_text};
ghost use Rattle.c_check_expr.specs.Lists.{seen_level, level_list, call_first, behind_first};
ghost use Rattle.c_expr_rules.specs.Views.{seen_state, checked, found_has, Gives, Grows};

use c_expr_rules::{
    Fault, Found, Special, State, Surroundings, Tests, Typed, by_rules, cast_value, is_cast,
    is_complete, is_integer, is_scalar, read_found, special_of, target_found,
};
use c_operators::{
    address, assignment, binary, complement, compound, dereference, logic, negation, negative,
    plus, step_before,
};
use c_rules::Rule;
use c_syntax::{Expr, ExprKind, Link, Operator, Postfix, PostfixKind, Prefix};
use c_tree::{Declared, ObjectNumber};
use c_types::CType;
use filc_num::BinOp;
use std::alloc::{AllocError, Global};

/// `+`
fn positive_found(alloc: Global, line: u32, typed: Typed) -> Result<Found<Typed>, AllocError>
    ensures { IfOk result (λ found. (s : o.State) → checked s found
        ≡ on_integer line s typed (operators.plus line typed)) }
{
    let rules = [(Rule::BadOperand, !is_integer(typed.ty))];
    let found = plus(alloc, line, typed)?;
    Ok(by_rules(line, &rules, found))
}

/// `-`
fn negative_found(alloc: Global, line: u32, typed: Typed) -> Result<Found<Typed>, AllocError>
    ensures { IfOk result (λ found. (s : o.State) → checked s found
        ≡ on_integer line s typed (operators.negative line typed)) }
{
    let rules = [(Rule::BadOperand, !is_integer(typed.ty))];
    let found = negative(alloc, line, typed)?;
    Ok(by_rules(line, &rules, found))
}

/// `~`
fn complement_found(alloc: Global, line: u32, typed: Typed) -> Result<Found<Typed>, AllocError>
    ensures { IfOk result (λ found. (s : o.State) → checked s found
        ≡ on_integer line s typed (operators.complement line typed)) }
{
    let rules = [(Rule::BadOperand, !is_integer(typed.ty))];
    let found = complement(alloc, line, typed)?;
    Ok(by_rules(line, &rules, found))
}

/// `!`
fn negation_found(alloc: Global, line: u32, typed: Typed) -> Result<Found<Typed>, AllocError>
    ensures { IfOk result (λ found. (s : o.State) → checked s found
        ≡ o.by_rules line (17 breaks not (is_scalar typed.ty) ∷ []) s
        (operators.negation line typed)) }
{
    let rules = [(Rule::BadOperand, !is_scalar(typed.ty))];
    let found = negation(alloc, line, typed)?;
    Ok(by_rules(line, &rules, found))
}

/// An operator before an operand, of which this is found. `local` is the local that the operand names.
pub fn prefixed(
    alloc: Global,
    state: &mut State,
    line: u32,
    local: Option<u32>,
    operator: Prefix,
    found: Found<Typed>,
) -> Result<Found<Typed>, Fault>
    ensures found { Gives (seen_state state.new) result
        (prefixed line local operator (checked (seen_state state.old) found)) }
    ensures grows { OnOk result (Grows state.old state.new) }
{
    match operator {
        Prefix::Increment => {
            let target = target_found(found).passed()?;
            Ok(step_before(alloc, state, line, BinOp::Add, target)?)
        }
        Prefix::Decrement => {
            let target = target_found(found).passed()?;
            Ok(step_before(alloc, state, line, BinOp::Sub, target)?)
        }
        Prefix::AddressOf => Ok(address(state, line, local, found.passed()?)?),
        Prefix::Dereference => {
            let pointer = read_found(alloc, found)?.passed()?;
            Ok(dereference(state, line, pointer))
        }
        Prefix::Plus => Ok(positive_found(alloc, line, read_found(alloc, found)?.passed()?)?),
        Prefix::Minus => Ok(negative_found(alloc, line, read_found(alloc, found)?.passed()?)?),
        Prefix::Complement => {
            let operand = read_found(alloc, found)?.passed()?;
            Ok(complement_found(alloc, line, operand)?)
        }
        Prefix::Not => Ok(negation_found(alloc, line, read_found(alloc, found)?.passed()?)?),
    }
}

/// A cast to a type.
pub fn cast(
    alloc: Global,
    state: &State,
    line: u32,
    ty: CType,
    mut typed: Typed,
) -> Result<Found<Typed>, AllocError>
    ensures { IfOk result (λ found. let s = seen_state state.now in
        checked s found ≡ cast line ty s typed) }
{
    let rules = [(Rule::BadCast, !is_cast(ty, typed.ty))];
    typed.line = line;
    let found = cast_value(alloc, state, ty, typed)?;
    Ok(by_rules(line, &rules, found))
}

/// What is found in parentheses: a rule that it breaks is an earlier construct's.
pub fn inner_found(found: Found<Typed>) -> Result<Found<Typed>, Fault>
    ensures { (s : o.State) → Gives s result (o.inner (checked s found)) }
{
    Ok(Found::Fine(found.passed()?))
}

/// Whether what is known of an operand of `sizeof` has no size.
pub fn is_incomplete(found: &Found<Typed>) -> bool
    ensures { result ≡ found_has (λ t. not (is_complete t.ty)) found.now }
{
    match found {
        Found::Fine(typed) => !is_complete(typed.ty),
        Found::Breaks(_, Some(typed)) => !is_complete(typed.ty),
        Found::Breaks(_, None) => false,
    }
}

/// Whether operators of one level are `&&` (`true`) or `||` (`false`), if they are either.
pub fn logical_level(links: &[Link]) -> Option<bool>
    ensures { seen_level result ≡ level_list links.now }
{
    let [first, ..] = links else {
        return None;
    };
    match first.operator {
        Operator::Binary(_) => None,
        Operator::LogicalAnd => Some(true),
        Operator::LogicalOr => Some(false),
    }
}

/// All but the first operator.
pub fn behind_first(operators: &[Postfix]) -> &[Postfix]
    ensures { result.now ≡ behind_first operators.now }
{
    match operators {
        [] => operators,
        [_, rest @ ..] => rest,
    }
}

/// An operator of a level between two values.
pub fn linked_value(
    alloc: Global,
    state: &State,
    line: u32,
    operator: Operator,
    x: Typed,
    y: Typed,
) -> Result<Found<Typed>, AllocError>
    ensures { IfOk result (λ found. let s = seen_state state.now in
        checked s found ≡ linked_value line operator x s y) }
{
    match operator {
        Operator::Binary(op) => binary(alloc, state, line, op, x, y),
        Operator::LogicalAnd | Operator::LogicalOr => Ok(Found::Fine(x)),
    }
}

/// What all operands of `&&` (`all`) or `||` together give.
pub fn logic_found(alloc: Global, line: u32, all: bool, found: Found<Tests>) -> Found<Typed>
    ensures { (s : o.State) → checked s result
        ≡ outcome_with (logic line all) (checked s found) }
{
    match found {
        Found::Fine(tests) => Found::Fine(logic(alloc, line, all, tests)),
        Found::Breaks(broken, Some(tests)) => {
            Found::Breaks(broken, Some(logic(alloc, line, all, tests)))
        }
        Found::Breaks(broken, None) => Found::Breaks(broken, None),
    }
}

/// `=`, or with an operator.
pub fn assigned_with(
    alloc: Global,
    state: &State,
    line: u32,
    operator: Option<BinOp>,
    target: Typed,
    right: Typed,
) -> Result<Found<Typed>, AllocError>
    ensures { IfOk result (λ found. let s = seen_state state.now in
        checked s found ≡ assigned_with line operator target s right) }
{
    match operator {
        None => assignment(alloc, state, line, target, right),
        Some(op) => compound(alloc, state, line, op, target, right),
    }
}

/// The name that an expression is, through parentheses.
fn name_in(expr: &Expr) -> Option<u32>
    ensures { result ≡ name_in expr.now.kind }
{
    match &expr.kind {
        ExprKind::Name(name) => Some(*name),
        ExprKind::Parens(inner) => name_in(inner.get()),
        ExprKind::Number
        | ExprKind::Character
        | ExprKind::Text
        | ExprKind::Postfix { .. }
        | ExprKind::Prefix { .. }
        | ExprKind::SizeofExpr(_)
        | ExprKind::SizeofType(_)
        | ExprKind::AlignofType(_)
        | ExprKind::Cast { .. }
        | ExprKind::Chain { .. }
        | ExprKind::Conditional { .. }
        | ExprKind::Assign { .. }
        | ExprKind::Comma { .. } => None,
    }
}

/// What an expression calls that is a name which is declared nowhere.
pub fn special_named<S: Surroundings>(around: &S, state: &State, expr: &Expr) -> Option<Special>
    ensures { result
        ≡ special_named (S.told around.now) (seen_state state.now) (name_in expr.now.kind) }
{
    let letters = around.spelling(name_in(expr)?);
    match state.look_up(letters) {
        None => special_of(around.printer(), letters),
        Some(_) => None,
    }
}

fn local_of(declared: Option<Declared>) -> Option<u32>
    ensures { result ≡ local_of declared }
{
    match declared {
        Some(Declared::Object(object)) => match object.number {
            ObjectNumber::Local(local) => Some(local),
            ObjectNumber::Static(_) => None,
        },
        Some(
            Declared::Function(_) | Declared::Typedef(_) | Declared::Constant(_) | Declared::Tag(_),
        )
        | None => None,
    }
}

/// The local that an expression names.
pub fn local_named<S: Surroundings>(around: &S, state: &State, expr: &Expr) -> Option<u32>
    ensures { result
        ≡ local_named (S.told around.now) (seen_state state.now) (name_in expr.now.kind) }
{
    local_of(state.look_up(around.spelling(name_in(expr)?)))
}

/// Whether a name stands for a function that is one operation.
fn stands_for_operation<S: Surroundings>(around: &S, declared: Option<Declared>) -> bool
    ensures { result ≡ stands_for_operation (S.told around.now) declared }
{
    match declared {
        Some(Declared::Function(function)) => around.intrinsic(function.number).is_some(),
        Some(Declared::Object(_) | Declared::Typedef(_) | Declared::Constant(_) | Declared::Tag(_))
        | None => false,
    }
}

/// Whether an expression names a function that is one operation.
fn names_operation<S: Surroundings>(around: &S, state: &State, expr: &Expr) -> bool
    ensures { result
        ≡ names_operation (S.told around.now) (seen_state state.now) (name_in expr.now.kind) }
{
    match name_in(expr) {
        None => false,
        Some(name) => stands_for_operation(around, state.look_up(around.spelling(name))),
    }
}

/// Whether the first of these operators is a call.
fn call_first(operators: &[Postfix]) -> bool
    ensures { result ≡ call_first operators.now }
{
    let [first, ..] = operators else {
        return false;
    };
    match &first.kind {
        PostfixKind::Call(_) => true,
        PostfixKind::Index(_)
        | PostfixKind::Member(_)
        | PostfixKind::Arrow(_)
        | PostfixKind::Increment
        | PostfixKind::Decrement => false,
    }
}

/// Whether an operand of these operators is a function that is one operation, and is called.
pub fn calls_operation<S: Surroundings>(
    around: &S,
    state: &State,
    expr: &Expr,
    operators: &[Postfix],
) -> bool
    ensures { result ≡ (call_first operators.now && names_operation (S.told around.now)
        (seen_state state.now) (name_in expr.now.kind)) }
{
    call_first(operators) && names_operation(around, state, expr)
}

/// Whether an expression is a text itself, without parentheses.
pub fn is_text(expr: &Expr) -> bool
    ensures { result ≡ is_text expr.now.kind }
{
    match &expr.kind {
        ExprKind::Text => true,
        ExprKind::Name(_)
        | ExprKind::Number
        | ExprKind::Character
        | ExprKind::Parens(_)
        | ExprKind::Postfix { .. }
        | ExprKind::Prefix { .. }
        | ExprKind::SizeofExpr(_)
        | ExprKind::SizeofType(_)
        | ExprKind::AlignofType(_)
        | ExprKind::Cast { .. }
        | ExprKind::Chain { .. }
        | ExprKind::Conditional { .. }
        | ExprKind::Assign { .. }
        | ExprKind::Comma { .. } => false,
    }
}
