//! Which operands an operator takes (C11 6.5.5 to 6.5.12). Qualifiers of what is pointed to don't matter here.

ghost use Rattle.std.specs.Prelude.{◌≡◌};
ghost use Rattle.c_expr_rules.specs.Operators.{family_of, are_integers, points_to_complete, point_to_one, parts_alike, are_comparable, takes, Sum, Difference};
ghost use Rattle.c_expr_rules.specs.Views.{seen_state};

use c_expr_rules::{
    State, Typed, element_size, is_integer, is_null_constant, is_pointer, point_alike, pointed_part,
};
use c_types::Part;
use filc_num::BinOp;

pub fn are_integers(x: &Typed, y: &Typed) -> bool
    ensures { result ≡ are_integers x.now y.now }
{
    is_integer(x.ty) && is_integer(y.ty)
}

/// Whether it is a pointer to a complete type.
pub fn points_to_complete(state: &State, x: &Typed) -> bool
    ensures { result ≡ points_to_complete (seen_state state.now) x.now }
{
    match element_size(state, x.ty) {
        Some(_) => true,
        None => false,
    }
}

/// Whether both point to one type.
fn point_to_one(x: &Typed, y: &Typed) -> bool
    ensures { result ≡ point_to_one x.now y.now }
{
    match (pointed_part(x.ty), pointed_part(y.ty)) {
        (Some(one), Some(other)) => one.is_same_unqualified(other),
        _ => false,
    }
}

/// Whether both point to one type, or one of them to void.
fn are_alike(state: &State, one: Option<Part>, other: Option<Part>) -> bool
    ensures { result ≡ parts_alike (seen_state state.now) one other }
{
    match (one, other) {
        (Some(one), Some(other)) => point_alike(state, one, other),
        _ => false,
    }
}

/// What equality takes of pointers: those to one type, and beside any a null constant or a pointer to void.
pub fn are_comparable(state: &State, x: &Typed, y: &Typed) -> bool
    ensures { result ≡ are_comparable (seen_state state.now) x.now y.now }
{
    are_alike(state, pointed_part(x.ty), pointed_part(y.ty))
        || (is_pointer(x.ty) && is_null_constant(y))
        || (is_null_constant(x) && is_pointer(y.ty))
}

fn takes_sum(state: &State, x: &Typed, y: &Typed) -> bool
    ensures { result ≡ takes Sum (seen_state state.now) x.now y.now }
{
    are_integers(x, y)
        || (points_to_complete(state, x) && is_integer(y.ty))
        || (is_integer(x.ty) && points_to_complete(state, y))
}

fn takes_difference(state: &State, x: &Typed, y: &Typed) -> bool
    ensures { result ≡ takes Difference (seen_state state.now) x.now y.now }
{
    are_integers(x, y) || (points_to_complete(state, x) && (is_integer(y.ty) || point_to_one(x, y)))
}

/// Whether an operator takes two values.
pub fn takes(state: &State, op: BinOp, x: &Typed, y: &Typed) -> bool
    ensures { result ≡ takes (family_of op) (seen_state state.now) x.now y.now }
{
    match op {
        BinOp::Mul
        | BinOp::Div
        | BinOp::Rem
        | BinOp::And
        | BinOp::Or
        | BinOp::Xor
        | BinOp::Shl
        | BinOp::Shr => are_integers(x, y),
        BinOp::Add => takes_sum(state, x, y),
        BinOp::Sub => takes_difference(state, x, y),
        BinOp::Lt | BinOp::Le | BinOp::Gt | BinOp::Ge => {
            are_integers(x, y) || point_to_one(x, y)
        }
        BinOp::Eq | BinOp::Ne => are_integers(x, y) || are_comparable(state, x, y),
    }
}
