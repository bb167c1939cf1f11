//! The sizes of arrays, with their expressions.

ghost use Rattle.std.specs.Prelude.{◌≡◌, OnOk};
ghost use Rattle.c_expr_rules.specs.Contexts.{constant_in};
ghost use Rattle.c_expr_rules.specs.Views.{seen_state, Passes, Grows};
ghost use Rattle.c_names.specs.Code.{here_at};
ghost use Rattle.c_file_rules.specs.Declarators.{is_positive, size_derivation};
ghost use Rattle.c_type_parts.specs.Lists.{size_formed};

use crate::expressions::size_value;
use c_check_expr::constant_in;
use c_expr_rules::{Fault, State, Surroundings, Typed, is_integer, kind_of_value};
use c_names::{Scene, counted};
use c_syntax::Expr;
use c_types::Derivation;

/// Whether an array's size is 1 at least.
fn is_positive(typed: &Typed, value: u64) -> bool
    ensures { result ≡ is_positive typed.now value }
{
    if value == 0 {
        return false;
    }
    !kind_of_value(typed).int_type().is_signed() || 0 <= value.cast_signed()
}

/// An array whose size is this value.
fn size_derivation(typed: &Typed) -> Derivation
    ensures { result ≡ size_derivation typed.now (constant_in typed.now.known) }
{
    let Some(value) = constant_in(typed.known) else {
        return Derivation::BadArray;
    };
    if !is_integer(typed.ty) {
        return Derivation::BadArray;
    }
    if !is_positive(typed, value) {
        return Derivation::BadArray;
    }
    match counted(value) {
        None => Derivation::BadArray,
        Some(count) => Derivation::Array(count),
    }
}

/// An array by the expression of its size.
pub fn size_formed<S: Surroundings>(
    scene: &Scene<'_, S>,
    state: &mut State,
    size: &Expr,
) -> Result<Derivation, Fault>
    requires { S.fit scene.now.around.now }
    ensures found { let here = here_at scene.now.facts.now (S.told scene.now.around.now) in
        Passes (seen_state state.new) result
        (size_formed here (seen_state state.old) size.now) }
    ensures grows { OnOk result (Grows state.old state.new) }
{
    let typed = size_value(scene, state, size)?;
    Ok(size_derivation(&typed))
}
