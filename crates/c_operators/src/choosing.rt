//! `?:` (C11 6.5.15).

ghost use Rattle.std.specs.Prelude.{◌≡◌, IfOk};
ghost use Rattle.c_expr_rules.specs.Operators.{are_choices, part_of_both, type_of_parts, chosen_pointer, chosen_type, chosen_as, choice_of, choice};
ghost use Rattle.c_expr_rules.specs.Views.{seen_state, checked};

use crate::operands::{are_comparable, are_integers};
use crate::unary::{known_test, test_tree};
use bitflags::Flags;
use c_expr_rules::{
    Found, State, Typed, as_pointer, by_rules, common_kind, folding, integer_as, is_null_constant,
    is_pointer, is_record, is_same_record, is_scalar, is_void, kind_of_value, made_of, part_value,
    pointed_part, tree_of, type_at,
};
use c_rules::Rule;
use c_tree::Expr;
use c_types::{CType, Part};
use sqlite_items::Boxed;
use std::alloc::{AllocError, Global};

fn are_choices(state: &State, x: &Typed, y: &Typed) -> bool
    ensures { result ≡ are_choices (seen_state state.now) x.now y.now }
{
    are_integers(x, y)
        || is_same_record(x.ty, y.ty)
        || (is_void(x.ty) && is_void(y.ty))
        || are_comparable(state, x, y)
}

/// What two pointers together point to: void where one does, with the qualifiers of both.
fn part_of_both(state: &State, one: Part, other: Part) -> Part
    ensures { result ≡ part_of_both (seen_state state.now) one other }
{
    let qualifiers = one.qualifiers.union(other.qualifiers);
    if is_void(type_at(state, other.number)) {
        return Part {
            number: other.number,
            qualifiers,
        };
    }
    Part {
        number: one.number,
        qualifiers,
    }
}

fn type_of_parts(state: &State, one: Option<Part>, other: Option<Part>) -> CType
    ensures { result ≡ type_of_parts (seen_state state.now) one other }
{
    match (one, other) {
        (Some(one), Some(other)) => CType::Pointer(part_of_both(state, one, other)),
        (Some(part), None) | (None, Some(part)) => CType::Pointer(part),
        (None, None) => CType::Void,
    }
}

/// The type of two operands of which one is a pointer. A null constant has no say (C11 6.5.15p6).
fn chosen_pointer(state: &State, x: &Typed, y: &Typed) -> CType
    ensures { result ≡ chosen_pointer (seen_state state.now) x.now y.now }
{
    if is_null_constant(x) && is_pointer(y.ty) {
        y.ty
    } else if is_null_constant(y) && is_pointer(x.ty) {
        x.ty
    } else {
        type_of_parts(state, pointed_part(x.ty), pointed_part(y.ty))
    }
}

fn chosen_type(state: &State, x: &Typed, y: &Typed) -> CType
    ensures { result ≡ chosen_type (seen_state state.now) x.now y.now }
{
    if are_integers(x, y) {
        CType::Integer(common_kind(kind_of_value(x), kind_of_value(y)))
    } else if is_record(x.ty) {
        x.ty
    } else if is_void(x.ty) && is_void(y.ty) {
        CType::Void
    } else {
        chosen_pointer(state, x, y)
    }
}

/// An operand as a value of the chosen type.
fn chosen_as(alloc: Global, ty: CType, typed: Typed) -> Result<Typed, AllocError>
    ensures { IfOk result (λ t. t ≡ chosen_as ty typed) }
{
    match ty {
        CType::Integer(kind) => {
            let from = kind_of_value(&typed);
            integer_as(alloc, ty, kind, from, typed)
        }
        CType::Pointer(_) => as_pointer(alloc, ty, typed),
        CType::Void
        | CType::Enumeration(_)
        | CType::ArrayOf(_)
        | CType::Function(_)
        | CType::Structure(..)
        | CType::Union(..) => Ok(typed),
    }
}

/// The chosen one of two values, as one of this type.
fn choice_of(
    alloc: Global,
    ty: CType,
    line: u32,
    test: Typed,
    x: Typed,
    y: Typed,
) -> Result<Typed, AllocError>
    ensures { IfOk result (λ t. t ≡ choice_of ty line test x y) }
{
    let known_of_test = known_test(&test);
    let one = chosen_as(alloc, ty, x)?;
    let other = chosen_as(alloc, ty, y)?;
    let known = folding::choice(known_of_test, one.known, other.known);
    let of_register = one.of_register || other.of_register;
    let test = test_tree(alloc, test)?;
    let tree = Expr::Choose {
        line,
        test: Boxed::new(alloc, tree_of(alloc, test)?)?,
        then: Boxed::new(alloc, tree_of(alloc, one.made)?)?,
        otherwise: Boxed::new(alloc, tree_of(alloc, other.made)?)?,
    };
    let made = made_of(alloc, line, tree);
    Ok(part_value(ty, line, made, known, of_register))
}

/// `test ? x : y`, or that one of them is of no type that it takes.
pub fn choice(
    alloc: Global,
    state: &State,
    line: u32,
    test: Typed,
    x: Typed,
    y: Typed,
) -> Result<Found<Typed>, AllocError>
    ensures { IfOk result (λ found. let s = seen_state state.now in
        checked s found ≡ choice line test x s y) }
{
    let are_taken = are_choices(state, &x, &y);
    let is_test = is_scalar(test.ty);
    let ty = chosen_type(state, &x, &y);
    let found = choice_of(alloc, ty, line, test, x, y)?;
    let rules = [(Rule::BadOperand, !are_taken), (Rule::NotAScalar, !is_test)];
    Ok(by_rules(line, &rules, found))
}
