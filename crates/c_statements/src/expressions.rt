//! Expressions in statements, each by what stands round it, where it breaks no rule (C11 6.6, 6.7.10, 6.8).

ghost use Rattle.std.specs.Prelude.{◌≡◌, OnOk};
ghost use Rattle.c_expr_rules.specs.Contexts as contexts;
ghost use Rattle.c_expr_rules.specs.Contexts.{condition, switch_value, case_constant, assertion_constant};
ghost use Rattle.c_expr_rules.specs.Expressions.{typed_value};
ghost use Rattle.c_expr_rules.specs.Views.{seen_state, Passes, Grows};

use c_expr_rules::{Fault, State, Surroundings, Typed};
use c_names::Scene;
use c_syntax::Expr;
use c_type_names::checker;
use filc_num::CIntType;

/// A value.
pub fn value_typed<S: Surroundings>(
    scene: &Scene<'_, S>,
    state: &mut State,
    expr: &Expr,
) -> Result<Typed, Fault>
    requires { S.fit scene.now.around.now }
    ensures found { Passes (seen_state state.new) result
        (typed_value (S.told scene.now.around.now) (seen_state state.old) expr.now) }
    ensures grows { OnOk result (Grows state.old state.new) }
{
    checker(scene).value(state, expr)
}

/// A condition.
pub fn condition_typed<S: Surroundings>(
    scene: &Scene<'_, S>,
    state: &mut State,
    expr: &Expr,
) -> Result<Typed, Fault>
    requires { S.fit scene.now.around.now }
    ensures found { Passes (seen_state state.new) result
        (condition (S.told scene.now.around.now) (seen_state state.old) expr.now) }
    ensures grows { OnOk result (Grows state.old state.new) }
{
    let found = checker(scene).condition(state, expr)?;
    found.passed()
}

/// The value of a `switch`.
pub fn switch_typed<S: Surroundings>(
    scene: &Scene<'_, S>,
    state: &mut State,
    expr: &Expr,
) -> Result<Typed, Fault>
    requires { S.fit scene.now.around.now }
    ensures found { Passes (seen_state state.new) result
        (switch_value (S.told scene.now.around.now) (seen_state state.old) expr.now) }
    ensures grows { OnOk result (Grows state.old state.new) }
{
    let found = checker(scene).switch_value(state, expr)?;
    found.passed()
}

/// The value of a `return`, by the number of the result's type.
pub fn result_typed<S: Surroundings>(
    scene: &Scene<'_, S>,
    state: &mut State,
    ty: u32,
    expr: &Expr,
) -> Result<Typed, Fault>
    requires { S.fit scene.now.around.now }
    ensures found { Passes (seen_state state.new) result
        (contexts.result (S.told scene.now.around.now) (seen_state state.old) ty expr.now) }
    ensures grows { OnOk result (Grows state.old state.new) }
{
    let found = checker(scene).result_value(state, ty, expr)?;
    found.passed()
}

/// The constant of a case of a switch on a value of this kind.
pub fn case_typed<S: Surroundings>(
    scene: &Scene<'_, S>,
    state: &mut State,
    kind: CIntType,
    expr: &Expr,
) -> Result<Typed, Fault>
    requires { S.fit scene.now.around.now }
    ensures found { Passes (seen_state state.new) result
        (case_constant (S.told scene.now.around.now) (seen_state state.old) kind expr.now) }
    ensures grows { OnOk result (Grows state.old state.new) }
{
    let found = checker(scene).case_constant(state, kind, expr)?;
    found.passed()
}

/// The constant of a static assertion.
pub fn assertion_typed<S: Surroundings>(
    scene: &Scene<'_, S>,
    state: &mut State,
    expr: &Expr,
) -> Result<Typed, Fault>
    requires { S.fit scene.now.around.now }
    ensures found { Passes (seen_state state.new) result
        (assertion_constant (S.told scene.now.around.now) (seen_state state.old) expr.now) }
    ensures grows { OnOk result (Grows state.old state.new) }
{
    let found = checker(scene).assertion_constant(state, expr)?;
    found.passed()
}
