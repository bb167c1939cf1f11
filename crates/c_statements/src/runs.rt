//! Statements that nothing stands under: expressions, conditions, assertions and results (C11 6.8.3, 6.8.5, 6.7.10, 6.8.6.4).

ghost use Rattle.std.specs.Prelude.{◌≡◌, is_some, Option, OnOk};
ghost use Rattle.std.specs.Option.{option_copied};
ghost use Rattle.c_tree.specs.declared.expr.Expr.{Expr as Tree};
ghost use Rattle.c_expr_rules.specs.Views.{seen_state, Passes, Grows};
ghost use Rattle.c_names.specs.Code.{here_at};
ghost use Rattle.c_statements.specs.Returning.{return_checked};
ghost use Rattle.c_file_rules.specs.Statements.{run_value, optional_run, tested, optionally_tested, asserted, start_done, optional_result, is_bad_return};
ghost use Rattle.c_statements.specs.Waiting.{test_of, unless_of, nothing_asserted};

use crate::declarations::declaration_made;
use crate::expressions::{assertion_typed, condition_typed, result_typed, value_typed};
use c_expr_rules::{Fault, State, Surroundings, is_void, tree_of, type_at};
use c_file_rules::{Inside, obey};
use c_names::Scene;
use c_rules::Rule;
use c_specifiers::Standing;
use c_syntax::{Assertion, Expr, ForStart};
use c_tree::{Expr as Tree, Stmt};
use sqlite_items::Items;

/// Whether there is a value in a function that gives none, or none in another.
fn is_bad_return(state: &State, ty: u32, has_value: bool) -> bool
    ensures { (value : Option Tree) → has_value ≡ is_some value
        → result ≡ is_bad_return (seen_state state.now) ty value }
{
    if is_void(type_at(state, ty)) {
        has_value
    } else {
        !has_value
    }
}

/// An expression as a statement.
pub fn run_value<S: Surroundings>(
    scene: &Scene<'_, S>,
    state: &mut State,
    expr: &Expr,
) -> Result<Stmt, Fault>
    requires { S.fit scene.now.around.now }
    ensures found { let here = here_at scene.now.facts.now (S.told scene.now.around.now) in
        Passes (seen_state state.new) result
        (run_value here (seen_state state.old) expr.now) }
    ensures grows { OnOk result (Grows state.old state.new) }
{
    let typed = value_typed(scene, state, expr)?;
    let value = tree_of(scene.facts.alloc, typed.made)?;
    Ok(Stmt::Run { value })
}

/// An expression as statements, where there is one.
pub fn optional_run<S: Surroundings>(
    scene: &Scene<'_, S>,
    state: &mut State,
    expr: Option<&Expr>,
) -> Result<Items<Stmt>, Fault>
    requires { S.fit scene.now.around.now }
    ensures found { let here = here_at scene.now.facts.now (S.told scene.now.around.now) in
        Passes (seen_state state.new) result
        (optional_run here (seen_state state.old) (option_copied expr.entry)) }
    ensures grows { OnOk result (Grows state.old state.new) }
{
    let mut statements = Items::new(scene.facts.alloc);
    match expr {
        None => Ok(statements),
        Some(expr) => {
            let done = run_value(scene, state, expr)?;
            statements.push(done)?;
            Ok(statements)
        }
    }
}

/// A condition's tree.
pub fn test_tree<S: Surroundings>(
    scene: &Scene<'_, S>,
    state: &mut State,
    condition: &Expr,
) -> Result<Tree, Fault>
    requires { S.fit scene.now.around.now }
    ensures found { let here = here_at scene.now.facts.now (S.told scene.now.around.now) in
        Passes (seen_state state.new) result
        (test_of here (seen_state state.old) condition.now) }
    ensures grows { OnOk result (Grows state.old state.new) }
{
    let typed = condition_typed(scene, state, condition)?;
    let test = tree_of(scene.facts.alloc, typed.made)?;
    Ok(test)
}

/// A loop's condition, which leaves it where it is zero.
pub fn break_unless<S: Surroundings>(
    scene: &Scene<'_, S>,
    state: &mut State,
    condition: &Expr,
) -> Result<Stmt, Fault>
    requires { S.fit scene.now.around.now }
    ensures found { let here = here_at scene.now.facts.now (S.told scene.now.around.now) in
        Passes (seen_state state.new) result
        (unless_of here (seen_state state.old) condition.now) }
    ensures grows { OnOk result (Grows state.old state.new) }
{
    let test = test_tree(scene, state, condition)?;
    let line = condition.span.line;
    Ok(Stmt::BreakUnless { line, test })
}

/// A loop's condition, as statements before its body.
pub fn tested<S: Surroundings>(
    scene: &Scene<'_, S>,
    state: &mut State,
    condition: &Expr,
) -> Result<Items<Stmt>, Fault>
    requires { S.fit scene.now.around.now }
    ensures found { let here = here_at scene.now.facts.now (S.told scene.now.around.now) in
        Passes (seen_state state.new) result
        (tested here (seen_state state.old) condition.now) }
    ensures grows { OnOk result (Grows state.old state.new) }
{
    let mut statements = Items::new(scene.facts.alloc);
    let test = break_unless(scene, state, condition)?;
    statements.push(test)?;
    Ok(statements)
}

/// The same, where there is a condition.
pub fn optionally_tested<S: Surroundings>(
    scene: &Scene<'_, S>,
    state: &mut State,
    condition: Option<&Expr>,
) -> Result<Items<Stmt>, Fault>
    requires { S.fit scene.now.around.now }
    ensures found { let here = here_at scene.now.facts.now (S.told scene.now.around.now) in
        Passes (seen_state state.new) result (optionally_tested here
        (seen_state state.old) (option_copied condition.entry)) }
    ensures grows { OnOk result (Grows state.old state.new) }
{
    match condition {
        None => Ok(Items::new(scene.facts.alloc)),
        Some(condition) => tested(scene, state, condition),
    }
}

/// A static assertion (C11 6.7.10).
pub fn asserted<S: Surroundings>(
    scene: &Scene<'_, S>,
    state: &mut State,
    assertion: &Assertion,
) -> Result<(), Fault>
    requires { S.fit scene.now.around.now }
    ensures found { let here = here_at scene.now.facts.now (S.told scene.now.around.now) in
        Passes (seen_state state.new) (nothing_asserted result)
        (asserted here (seen_state state.old) assertion.now) }
    ensures grows { OnOk result (Grows state.old state.new) }
{
    let _ = assertion_typed(scene, state, &assertion.condition)?;
    Ok(())
}

/// What a `for` begins with.
pub fn start_done<S: Surroundings>(
    scene: &Scene<'_, S>,
    state: &mut State,
    start: &ForStart,
) -> Result<Items<Stmt>, Fault>
    requires { S.fit scene.now.around.now }
    ensures found { let here = here_at scene.now.facts.now (S.told scene.now.around.now) in
        Passes (seen_state state.new) result
        (start_done here (seen_state state.old) start.now) }
    ensures grows { OnOk result (Grows state.old state.new) }
{
    match start {
        ForStart::Declaration(declaration) => {
            declaration_made(scene, state, Standing::ForStart, declaration)
        }
        ForStart::Expression(expr) => optional_run(scene, state, expr.as_ref()),
    }
}

/// The value of a `return`, converted to the result's type.
fn optional_result<S: Surroundings>(
    scene: &Scene<'_, S>,
    state: &mut State,
    ty: u32,
    value: Option<&Expr>,
) -> Result<Option<Tree>, Fault>
    requires { S.fit scene.now.around.now }
    ensures found { let here = here_at scene.now.facts.now (S.told scene.now.around.now) in
        Passes (seen_state state.new) result (optional_result here (seen_state state.old)
        ty (option_copied value.entry)) }
    ensures grows { OnOk result (Grows state.old state.new) }
{
    let Some(value) = value else {
        return Ok(None);
    };
    let typed = result_typed(scene, state, ty, value)?;
    let tree = tree_of(scene.facts.alloc, typed.made)?;
    Ok(Some(tree))
}

/// `return` (C11 6.8.6.4).
pub fn return_at<S: Surroundings>(
    scene: &Scene<'_, S>,
    state: &mut State,
    inside: Inside,
    line: u32,
    value: Option<&Expr>,
) -> Result<Stmt, Fault>
    requires { S.fit scene.now.around.now }
    ensures found { let here = here_at scene.now.facts.now (S.told scene.now.around.now) in
        Passes (seen_state state.new) result (return_checked here inside
        (seen_state state.old) line (option_copied value.entry)) }
    ensures grows { OnOk result (Grows state.old state.new) }
{
    let value = optional_result(scene, state, inside.result, value)?;
    let is_bad = is_bad_return(state, inside.result, value.is_some());
    obey(
        line,
        &[(Rule::BadReturn, is_bad)],
        Stmt::Return { line, value },
    )
}
