//! How many temporaries a function's expressions need, by its text: the greatest need of all expressions in its
//! specifiers, its declarator and its body.

ghost use Rattle.std.specs.Prelude.{◌≡◌, ◌^◌, ◌<◌, ◌≤◌, MatchResult};
ghost use Rattle.c_temporaries.specs.TemporaryLists.{as_u64};
ghost use Rattle.c_temporaries.specs.Needs.{statement_temporaries, otherwise_temporaries};
ghost use Rattle.c_file_rules.specs.Values.{initialiser_temporaries, init_temporaries, declaration_temporaries, start_temporaries, item_temporaries, switch_item_temporaries, function_temporaries, greatest};

use crate::temporaries::{
    declarator_temporaries, optional_temporaries, specifiers_temporaries, temporaries_of,
};
use c_syntax::{
    BlockItem, Declaration, ForStart, Function, InitDeclarator, Initialiser, Statement,
    StatementKind, SwitchItem,
};
use sqlite_items::Boxed;
use std::alloc::AllocError;

#[cycle(initialisers)]
fn in_initialiser(initialiser: &Initialiser) -> u64
    ensures { result ≡ as_u64 (initialiser_temporaries initialiser.now) }
{
    match initialiser {
        Initialiser::Expression(expr) => temporaries_of(expr),
        Initialiser::List { list, .. } => in_initialisers(list.as_slice()),
    }
}

#[cycle(initialisers)]
fn in_initialisers(items: &[Initialiser]) -> u64
    ensures { result ≡ as_u64 (greatest initialiser_temporaries items.now) }
{
    let mut most = 0;
    'items: for item in items {
        most = in_initialiser(item).max(most);
    }
    most
}

fn in_init(init: &InitDeclarator) -> u64
    ensures { result ≡ as_u64 (init_temporaries init.now) }
{
    let declared = declarator_temporaries(&init.declarator);
    match &init.initialiser {
        None => declared,
        Some(initialiser) => declared.max(in_initialiser(initialiser)),
    }
}

fn in_inits(inits: &[InitDeclarator]) -> u64
    ensures { result ≡ as_u64 (greatest init_temporaries inits.now) }
{
    let mut most = 0;
    for init in inits {
        most = in_init(init).max(most);
    }
    most
}

fn in_declaration(declaration: &Declaration) -> u64
    ensures { result ≡ as_u64 (declaration_temporaries declaration.now) }
{
    let specified = specifiers_temporaries(&declaration.specifiers);
    specified.max(in_inits(declaration.declarators.as_slice()))
}

fn in_start(start: &ForStart) -> u64
    ensures { result ≡ as_u64 (start_temporaries start.now) }
{
    match start {
        ForStart::Declaration(declaration) => in_declaration(declaration),
        ForStart::Expression(expr) => optional_temporaries(expr),
    }
}

#[cycle(needs)]
fn in_statement(statement: &Statement) -> u64
    ensures { result ≡ as_u64 (statement_temporaries statement.now) }
{
    match &statement.kind {
        StatementKind::Block(block) => temporaries_in(block.items.as_slice()),
        StatementKind::Empty | StatementKind::Break | StatementKind::Continue => 0,
        StatementKind::Expression(expr) => temporaries_of(expr),
        StatementKind::If {
            condition,
            then,
            otherwise,
        } => {
            let one = in_statement(then.get());
            let other = in_otherwise(otherwise);
            temporaries_of(condition).max(one.max(other))
        }
        StatementKind::While { condition, body } => {
            temporaries_of(condition).max(in_statement(body.get()))
        }
        StatementKind::Do { body, condition } => {
            temporaries_of(condition).max(in_statement(body.get()))
        }
        StatementKind::For {
            start,
            condition,
            step,
            body,
        } => {
            let turn = optional_temporaries(step).max(in_statement(body.get()));
            let tested = optional_temporaries(condition).max(turn);
            in_start(start).max(tested)
        }
        StatementKind::Switch { value, items } => {
            temporaries_of(value).max(in_switch(items.as_slice()))
        }
        StatementKind::Return(value) => optional_temporaries(value),
    }
}

#[cycle(needs)]
fn in_otherwise(statement: &Option<Boxed<Statement>>) -> u64
    ensures { result ≡ as_u64 (otherwise_temporaries statement.now) }
{
    match statement {
        None => 0,
        Some(statement) => in_statement(statement.get()),
    }
}

#[cycle(needs)]
fn in_item(item: &BlockItem) -> u64
    ensures { result ≡ as_u64 (item_temporaries item.now) }
{
    match item {
        BlockItem::Declaration(declaration) => in_declaration(declaration),
        BlockItem::Assertion(assertion) => temporaries_of(&assertion.condition),
        BlockItem::Statement(statement) => in_statement(statement),
    }
}

#[cycle(needs)]
fn in_switch_item(item: &SwitchItem) -> u64
    ensures { result ≡ as_u64 (switch_item_temporaries item.now) }
{
    match item {
        SwitchItem::Case { value, .. } => temporaries_of(value),
        SwitchItem::Default(_) => 0,
        SwitchItem::Declaration(declaration) => in_declaration(declaration),
        SwitchItem::Assertion(assertion) => temporaries_of(&assertion.condition),
        SwitchItem::Statement(statement) => in_statement(statement),
    }
}

#[cycle(needs)]
fn in_switch(items: &[SwitchItem]) -> u64
    ensures { result ≡ as_u64 (greatest switch_item_temporaries items.now) }
{
    let mut most = 0;
    'items: for item in items {
        most = in_switch_item(item).max(most);
    }
    most
}

/// How many temporaries the expressions of what stands in a block need.
#[cycle(needs)]
fn temporaries_in(items: &[BlockItem]) -> u64
    ensures { result ≡ as_u64 (greatest item_temporaries items.now) }
{
    let mut most = 0;
    'items: for item in items {
        most = in_item(item).max(most);
    }
    most
}

/// The count as a u32: one that a u32 doesn't hold is too much memory.
fn in_32_bits(count: u64) -> Result<u32, AllocError>
    ensures { MatchResult result (λ n. (n ≡ count) × (n < 2 ^ 32)) (λ _. 2 ^ 32 ≤ count) }
{
    u32::try_from(count).map_err(|_| AllocError)
}

/// How many temporaries the expressions of a function need, or that a u32 doesn't hold so many.
pub fn function_temporaries(function: &Function) -> Result<u32, AllocError>
    ensures { let needed = function_temporaries function.now in
        MatchResult result (λ n. n ≡ needed) (λ _. 2 ^ 32 ≤ needed) }
{
    let specified = specifiers_temporaries(&function.specifiers);
    let declared = declarator_temporaries(&function.declarator);
    let body = temporaries_in(function.body.items.as_slice());
    in_32_bits(specified.max(declared.max(body)))
}
