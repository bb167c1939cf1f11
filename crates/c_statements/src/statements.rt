//! The recursion over statements (C11 6.8): each part of a statement where it stands, and the statement last.
//!
//! It goes as deep as statements nest. Items of blocks and of switches are loops; `specs/StatementLists.antt` says what a loop
//! over such a list gives.

ghost use Rattle.std.specs.Prelude.{◌≡◌, [], ◌∷◌, ◌++◌, IfOk, OnOk};
ghost use Rattle.c_expr_rules.specs.TypedExpressions.{tree_of};
ghost use Rattle.c_expr_rules.specs.Views.{seen_state, Passes, Grows};
ghost use Rattle.c_names.specs.Code.{here_at};
ghost use Rattle.c_file_rules.specs.Statements.{nothing_switched, switched, item_checked, set_local};
ghost use Rattle.c_file_rules.specs.Switching.{told_switch, switch_statement};
ghost use Rattle.c_statements.specs.StatementLists.{one_statement, item_list, switch_list, statement_under, kind_of, items_in, IsChoice, IsWhile, IsDo, IsFor, IsSwitch};
ghost use Rattle.c_statements.specs.Waiting.{statement_block, statement_loop};

use crate::blocks::{enter_block, leave_block, nothing_done, plain_block, take_switch_local};
use crate::declarations::declaration_made;
use crate::expressions::{case_typed, switch_typed};
use crate::runs::{
    asserted, break_unless, optional_run, optionally_tested, return_at, run_value, start_done,
    test_tree, tested,
};
use c_check_expr::constant_in;
use c_expr_rules::{Fault, State, Surroundings, Typed, kind_of_value, tree_of};
use c_file_rules::{Inside, Switched, in_loop, in_switch, nothing_switched, set_local};
use c_names::{Scene, enter, leave};
use c_specifiers::Standing;
use c_syntax::{BlockItem, Statement, StatementKind, SwitchItem};
use c_tree::Stmt;
use filc_num::CIntType;
use sqlite_items::{Boxed, Items};
use std::alloc::{AllocError, Global};

/// A statement.
#[cycle(statements)]
fn statement_made<S: Surroundings>(
    scene: &Scene<'_, S>,
    state: &mut State,
    inside: Inside,
    statement: &Statement,
) -> Result<Stmt, Fault>
    requires { S.fit scene.now.around.now }
    ensures found { let here = here_at scene.now.facts.now (S.told scene.now.around.now) in
        Passes (seen_state state.new) result
        (one_statement here inside (seen_state state.old) statement.now) }
    ensures grows { OnOk result (Grows state.old state.new) }
{
    let line = statement.span.line;
    match &statement.kind {
        StatementKind::Block(block) => {
            let list = block.items.as_slice();
            let outer = enter_block(scene.facts.alloc, state)?;
            let done = block_items(scene, state, inside, list)?;
            Ok(leave_block(state, outer, done))
        }
        StatementKind::Empty => Ok(nothing_done(scene.facts.alloc)),
        StatementKind::Expression(expr) => run_value(scene, state, expr),
        StatementKind::If { .. } => choice_made(scene, state, inside, statement),
        StatementKind::While { .. } => while_made(scene, state, inside, statement),
        StatementKind::Do { .. } => do_made(scene, state, inside, statement),
        StatementKind::For { .. } => for_made(scene, state, inside, statement),
        StatementKind::Switch { .. } => switch_made(scene, state, inside, statement),
        StatementKind::Break => inside.break_at(line),
        StatementKind::Continue => inside.continue_at(line),
        StatementKind::Return(value) => return_at(scene, state, inside, line, value.as_ref()),
    }
}

/// A statement under another, which is a scope.
#[cycle(statements)]
fn statement_under<S: Surroundings>(
    scene: &Scene<'_, S>,
    state: &mut State,
    inside: Inside,
    statement: &Statement,
) -> Result<Boxed<Stmt>, Fault>
    requires { S.fit scene.now.around.now }
    ensures found { let here = here_at scene.now.facts.now (S.told scene.now.around.now) in
        Passes (seen_state state.new) result
        (statement_under here inside (seen_state state.old) statement.now) }
    ensures grows { OnOk result (Grows state.old state.new) }
{
    enter(state)?;
    let done = statement_made(scene, state, inside, statement)?;
    leave(state);
    Ok(Boxed::new(scene.facts.alloc, done)?)
}

/// `if`, with its `else` where it has one (C11 6.8.4.1).
#[cycle(statements)]
fn choice_made<S: Surroundings>(
    scene: &Scene<'_, S>,
    state: &mut State,
    inside: Inside,
    statement: &Statement,
) -> Result<Stmt, Fault>
    requires fit { S.fit scene.now.around.now }
    requires kind { IsChoice (kind_of statement.now) }
    ensures found { let here = here_at scene.now.facts.now (S.told scene.now.around.now) in
        Passes (seen_state state.new) result
        (one_statement here inside (seen_state state.old) statement.now) }
    ensures grows { OnOk result (Grows state.old state.new) }
{
    let StatementKind::If {
        condition,
        then,
        otherwise,
    } = &statement.kind
    else {
        unreachable!()
    };
    let (alloc, line) = (scene.facts.alloc, statement.span.line);
    let one = then.get();
    enter(state)?;
    let test = test_tree(scene, state, condition)?;
    let then = statement_under(scene, state, inside, one)?;
    match otherwise {
        None => {
            leave(state);
            let nothing = nothing_done(alloc);
            let otherwise = Boxed::new(alloc, nothing)?;
            Ok(Stmt::If {
                line,
                test,
                then,
                otherwise,
            })
        }
        Some(otherwise) => {
            let other = otherwise.get();
            let otherwise = statement_under(scene, state, inside, other)?;
            leave(state);
            Ok(Stmt::If {
                line,
                test,
                then,
                otherwise,
            })
        }
    }
}

/// A loop that does all of a turn, of which this stands before a body, and then what comes next.
fn loop_of(
    alloc: Global,
    line: u32,
    turn: Items<Stmt>,
    done: Boxed<Stmt>,
    next: Items<Stmt>,
) -> Result<Stmt, AllocError>
    ensures { IfOk result (λ made. made ≡ statement_loop line turn done next) }
{
    let mut turn = turn;
    turn.push(done.into_inner())?;
    let body = Boxed::new(alloc, plain_block(alloc, turn))?;
    let next = Boxed::new(alloc, plain_block(alloc, next))?;
    Ok(Stmt::Loop { line, body, next })
}

/// A statement behind others.
fn behind_all(first: Items<Stmt>, last: Stmt) -> Result<Items<Stmt>, AllocError>
    ensures { IfOk result (λ all. all ≡ first ++ last ∷ []) }
{
    let mut all = first;
    all.push(last)?;
    Ok(all)
}

/// `while` (C11 6.8.5.1).
#[cycle(statements)]
fn while_made<S: Surroundings>(
    scene: &Scene<'_, S>,
    state: &mut State,
    inside: Inside,
    statement: &Statement,
) -> Result<Stmt, Fault>
    requires fit { S.fit scene.now.around.now }
    requires kind { IsWhile (kind_of statement.now) }
    ensures found { let here = here_at scene.now.facts.now (S.told scene.now.around.now) in
        Passes (seen_state state.new) result
        (one_statement here inside (seen_state state.old) statement.now) }
    ensures grows { OnOk result (Grows state.old state.new) }
{
    let StatementKind::While { condition, body } = &statement.kind else {
        unreachable!()
    };
    let (alloc, line) = (scene.facts.alloc, statement.span.line);
    let under = body.get();
    let within = in_loop(inside);
    enter(state)?;
    let turn = tested(scene, state, condition)?;
    let done = statement_under(scene, state, within, under)?;
    leave(state);
    let nothing = Items::new(alloc);
    let made = loop_of(alloc, line, turn, done, nothing)?;
    Ok(made)
}

/// `do` (C11 6.8.5.2).
#[cycle(statements)]
fn do_made<S: Surroundings>(
    scene: &Scene<'_, S>,
    state: &mut State,
    inside: Inside,
    statement: &Statement,
) -> Result<Stmt, Fault>
    requires fit { S.fit scene.now.around.now }
    requires kind { IsDo (kind_of statement.now) }
    ensures found { let here = here_at scene.now.facts.now (S.told scene.now.around.now) in
        Passes (seen_state state.new) result
        (one_statement here inside (seen_state state.old) statement.now) }
    ensures grows { OnOk result (Grows state.old state.new) }
{
    let StatementKind::Do { body, condition } = &statement.kind else {
        unreachable!()
    };
    let (alloc, line) = (scene.facts.alloc, statement.span.line);
    let under = body.get();
    let within = in_loop(inside);
    enter(state)?;
    let body = statement_under(scene, state, within, under)?;
    let test = break_unless(scene, state, condition)?;
    leave(state);
    let next = Boxed::new(alloc, test)?;
    Ok(Stmt::Loop { line, body, next })
}

/// `for`, which is a block with the locals that it begins with (C11 6.8.5.3).
#[cycle(statements)]
fn for_made<S: Surroundings>(
    scene: &Scene<'_, S>,
    state: &mut State,
    inside: Inside,
    statement: &Statement,
) -> Result<Stmt, Fault>
    requires fit { S.fit scene.now.around.now }
    requires kind { IsFor (kind_of statement.now) }
    ensures found { let here = here_at scene.now.facts.now (S.told scene.now.around.now) in
        Passes (seen_state state.new) result
        (one_statement here inside (seen_state state.old) statement.now) }
    ensures grows { OnOk result (Grows state.old state.new) }
{
    let StatementKind::For {
        start,
        condition,
        step,
        body,
    } = &statement.kind
    else {
        unreachable!()
    };
    let (alloc, line) = (scene.facts.alloc, statement.span.line);
    let under = body.get();
    let within = in_loop(inside);
    let (condition, step) = (condition.as_ref(), step.as_ref());
    let outer = enter_block(alloc, state)?;
    let first = start_done(scene, state, start)?;
    let turn = optionally_tested(scene, state, condition)?;
    let next = optional_run(scene, state, step)?;
    let done = statement_under(scene, state, within, under)?;
    let made = loop_of(alloc, line, turn, done, next)?;
    let body = behind_all(first, made)?;
    Ok(leave_block(state, outer, body))
}

/// `switch` (C11 6.8.4.2): its value stands in a local of its own, which has no home and no name.
#[cycle(statements)]
fn switch_made<S: Surroundings>(
    scene: &Scene<'_, S>,
    state: &mut State,
    inside: Inside,
    statement: &Statement,
) -> Result<Stmt, Fault>
    requires fit { S.fit scene.now.around.now }
    requires kind { IsSwitch (kind_of statement.now) }
    ensures found { let here = here_at scene.now.facts.now (S.told scene.now.around.now) in
        Passes (seen_state state.new) result
        (one_statement here inside (seen_state state.old) statement.now) }
    ensures grows { OnOk result (Grows state.old state.new) }
{
    let StatementKind::Switch { value, items } = &statement.kind else {
        unreachable!()
    };
    let (alloc, line) = (scene.facts.alloc, statement.span.line);
    let _ = items;
    let within = in_switch(inside);
    enter(state)?;
    let typed = switch_typed(scene, state, value)?;
    let kind = kind_of_value(&typed);
    let local = take_switch_local(state)?;
    let outer = enter_block(alloc, state)?;
    let body = switch_body(scene, state, within, kind, statement)?;
    let done = goes_by(alloc, line, local, kind, body)?;
    let block = leave_block(state, outer, done);
    leave(state);
    let both = with_value(alloc, value.span.line, local, typed, block)?;
    Ok(both)
}

/// What stands in a switch.
#[cycle(statements)]
fn switch_body<S: Surroundings>(
    scene: &Scene<'_, S>,
    state: &mut State,
    inside: Inside,
    kind: CIntType,
    statement: &Statement,
) -> Result<Switched, Fault>
    requires fit { S.fit scene.now.around.now }
    requires kind { IsSwitch (kind_of statement.now) }
    ensures found { let here = here_at scene.now.facts.now (S.told scene.now.around.now) in
        Passes (seen_state state.new) result (switch_list here inside kind
        (seen_state state.old) nothing_switched (items_in (kind_of statement.now))) }
    ensures grows { OnOk result (Grows state.old state.new) }
{
    let StatementKind::Switch { value, items } = &statement.kind else {
        unreachable!()
    };
    let _ = value;
    let list = items.as_slice();
    switch_items(scene, state, inside, kind, list)
}

/// What a switch on a local of this kind does, as the one statement of a block.
fn goes_by(
    alloc: Global,
    line: u32,
    local: u32,
    kind: CIntType,
    body: Switched,
) -> Result<Items<Stmt>, AllocError>
    ensures { IfOk result (λ done. done ≡ switch_statement line local kind body ∷ []) }
{
    let statement = body.into_statement(alloc, line, local, kind)?;
    let mut done = Items::new(alloc);
    done.push(statement)?;
    Ok(done)
}

/// A switch's value in its local.
fn value_set(alloc: Global, line: u32, local: u32, value: Typed) -> Result<Stmt, AllocError>
    ensures { IfOk result (λ done. done ≡ set_local line local (tree_of value.made)) }
{
    let tree = tree_of(alloc, value.made)?;
    set_local(alloc, line, local, tree)
}

/// Two statements.
fn both_of(alloc: Global, first: Stmt, second: Stmt) -> Result<Items<Stmt>, AllocError>
    ensures { IfOk result (λ both. both ≡ first ∷ second ∷ []) }
{
    let mut one = Items::new(alloc);
    one.push(first)?;
    behind_all(one, second)
}

/// A switch's value in its local, and the block that goes by it.
fn with_value(
    alloc: Global,
    line: u32,
    local: u32,
    value: Typed,
    block: Stmt,
) -> Result<Stmt, AllocError>
    ensures { IfOk result (λ done. done ≡ statement_block
        (set_local line local (tree_of value.made) ∷ block ∷ [])) }
{
    let first = value_set(alloc, line, local, value)?;
    let both = both_of(alloc, first, block)?;
    Ok(plain_block(alloc, both))
}

/// What stands in a switch on a value of this kind.
#[cycle(statements)]
fn switch_items<S: Surroundings>(
    scene: &Scene<'_, S>,
    state: &mut State,
    inside: Inside,
    kind: CIntType,
    items: &[SwitchItem],
) -> Result<Switched, Fault>
    requires { S.fit scene.now.around.now }
    ensures found { let here = here_at scene.now.facts.now (S.told scene.now.around.now) in
        Passes (seen_state state.new) result (switch_list here inside kind
        (seen_state state.old) nothing_switched items.now) }
    ensures grows { OnOk result (Grows state.old state.new) }
{
    let mut switched = nothing_switched(scene.facts.alloc);
    'items: for item in items {
        switch_item(scene, state, inside, kind, &mut switched, item)?;
    }
    Ok(switched)
}

/// One of the things that stand in a switch.
#[cycle(statements)]
fn switch_item<S: Surroundings>(
    scene: &Scene<'_, S>,
    state: &mut State,
    inside: Inside,
    kind: CIntType,
    so_far: &mut Switched,
    item: &SwitchItem,
) -> Result<(), Fault>
    requires { S.fit scene.now.around.now }
    ensures found { let here = here_at scene.now.facts.now (S.told scene.now.around.now) in
        Passes (seen_state state.new) (told_switch so_far.new result) (switched here inside
        kind (seen_state state.old) so_far.old item.now) }
    ensures grows { OnOk result (Grows state.old state.new) }
{
    match item {
        SwitchItem::Case { span, value } => {
            let typed = case_typed(scene, state, kind, value)?;
            so_far.add_case(span.line, constant_in(typed.known))
        }
        SwitchItem::Default(span) => so_far.add_default(span.line),
        SwitchItem::Declaration(declaration) => {
            let done = declaration_made(scene, state, Standing::Block, declaration)?;
            so_far.add_statements(done)?;
            Ok(())
        }
        SwitchItem::Assertion(assertion) => asserted(scene, state, assertion),
        SwitchItem::Statement(statement) => {
            let done = statement_made(scene, state, inside, statement)?;
            so_far.add_statement(done)?;
            Ok(())
        }
    }
}

/// What stands in a block.
#[cycle(statements)]
pub fn block_items<S: Surroundings>(
    scene: &Scene<'_, S>,
    state: &mut State,
    inside: Inside,
    items: &[BlockItem],
) -> Result<Items<Stmt>, Fault>
    requires { S.fit scene.now.around.now }
    ensures found { let here = here_at scene.now.facts.now (S.told scene.now.around.now) in
        Passes (seen_state state.new) result
        (item_list here inside (seen_state state.old) items.now) }
    ensures grows { OnOk result (Grows state.old state.new) }
{
    let mut statements = Items::new(scene.facts.alloc);
    'items: for item in items {
        let done = block_item(scene, state, inside, item)?;
        statements.append(done)?;
    }
    Ok(statements)
}

/// One of the things that stand in a block.
#[cycle(statements)]
fn block_item<S: Surroundings>(
    scene: &Scene<'_, S>,
    state: &mut State,
    inside: Inside,
    item: &BlockItem,
) -> Result<Items<Stmt>, Fault>
    requires { S.fit scene.now.around.now }
    ensures found { let here = here_at scene.now.facts.now (S.told scene.now.around.now) in
        Passes (seen_state state.new) result
        (item_checked here inside (seen_state state.old) item.now) }
    ensures grows { OnOk result (Grows state.old state.new) }
{
    let mut statements = Items::new(scene.facts.alloc);
    match item {
        BlockItem::Declaration(declaration) => {
            declaration_made(scene, state, Standing::Block, declaration)
        }
        BlockItem::Assertion(assertion) => {
            asserted(scene, state, assertion)?;
            Ok(statements)
        }
        BlockItem::Statement(statement) => {
            let done = statement_made(scene, state, inside, statement)?;
            statements.push(done)?;
            Ok(statements)
        }
    }
}
