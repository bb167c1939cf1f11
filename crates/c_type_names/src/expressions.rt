//! Expressions in declarations, each as the construct that breaks its rules.

ghost use Rattle.std.specs.Prelude.{◌≡◌, OnOk};
ghost use Rattle.c_expr_rules.specs.Contexts.{enumeration_constant, assertion_constant, without_fault};
ghost use Rattle.c_expr_rules.specs.Views.{seen_state, Passes, Grows};

use c_check_expr::Checker;
use c_expr_rules::{Fault, State, Surroundings, Typed};
use c_names::Scene;
use c_syntax::Expr;

/// What checks expressions here.
pub fn checker<'a, S: Surroundings>(scene: &Scene<'a, S>) -> Checker<'a, S>
    ensures { result.around.now ≡ scene.now.around.now }
{
    Checker {
        alloc: scene.facts.alloc,
        around: scene.around,
    }
}

/// The value of an enumeration constant.
pub fn constant_value<S: Surroundings>(
    scene: &Scene<'_, S>,
    state: &mut State,
    value: &Expr,
) -> Result<Typed, Fault>
    requires { S.fit scene.now.around.now }
    ensures found { let around = S.told scene.now.around.now in
        Passes (seen_state state.new) result
        (enumeration_constant around (seen_state state.old) value.now) }
    ensures grows { OnOk result (Grows state.old state.new) }
{
    let found = checker(scene).enumeration_constant(state, value)?;
    found.passed()
}

/// The size of an array.
pub fn size_value<S: Surroundings>(
    scene: &Scene<'_, S>,
    state: &mut State,
    size: &Expr,
) -> Result<Typed, Fault>
    requires { S.fit scene.now.around.now }
    ensures found { let around = S.told scene.now.around.now in
        Passes (seen_state state.new) result
        (without_fault around (seen_state state.old) size.now) }
    ensures grows { OnOk result (Grows state.old state.new) }
{
    let found = checker(scene).without_fault(state, size)?;
    found.passed()
}

/// The constant of a static assertion, which isn't 0.
pub fn assertion_value<S: Surroundings>(
    scene: &Scene<'_, S>,
    state: &mut State,
    condition: &Expr,
) -> Result<Typed, Fault>
    requires { S.fit scene.now.around.now }
    ensures found { let around = S.told scene.now.around.now in
        Passes (seen_state state.new) result
        (assertion_constant around (seen_state state.old) condition.now) }
    ensures grows { OnOk result (Grows state.old state.new) }
{
    let found = checker(scene).assertion_constant(state, condition)?;
    found.passed()
}
