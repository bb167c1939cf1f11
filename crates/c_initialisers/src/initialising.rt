//! The recursion over initialisers (C11 6.7.9): what stands in braces fills the parts of an array
//! or a structure, in order.
//!
//! It goes as deep as braces nest. The items of a list are a loop, each with its part by its index,
//! so a list takes time linear in its items.

ghost use Rattle.std.specs.Prelude.{◌≡◌, OnOk};
ghost use Rattle.std.specs.Option.{option_copied};
ghost use Rattle.c_expr_rules.specs.Outcomes.{by_rules};
ghost use Rattle.c_expr_rules.specs.Views.{seen_state, checked, Gives, Passes, Grows};
ghost use Rattle.c_file_rules.specs.Filling as filling;
ghost use Rattle.c_file_rules.specs.Filling.{is_text_among, look_list, fill_list, told_with, done_with, giving, nothing_by};
ghost use Rattle.c_file_rules.specs.Initialising.{looked_at, filled};
ghost use Rattle.c_initialisers.specs.Listed.{list_filled, count_rules, item_filled};

use crate::fills::expression_filled;
use c_check_expr::{Checker, is_text};
use c_expr_rules::{Fault, Found, State, Surroundings, by_rules, type_at};
use c_file_rules::{Given, PartAt, Target, characters_of, first_parts, part_count, part_target};
use c_rules::Rule;
use c_syntax::{Expr, Initialiser, Span};
use c_types::CType;
use sqlite_items::at;

/// The one item of a list, where it is a text.
pub fn one_text(items: &[Initialiser]) -> Option<&Expr>
    ensures { option_copied result ≡ filling.one_text items.now }
{
    match items {
        [Initialiser::Expression(expr)] if is_text(expr) => Some(expr),
        _ => None,
    }
}

/// Whether a list is a text alone in braces, for an array of characters (p14).
fn is_text_list(state: &State, ty: CType, items: &[Initialiser]) -> bool
    ensures { result ≡ is_text_among (seen_state state.now) ty items.now }
{
    characters_of(state, ty).is_some() && one_text(items).is_some()
}

/// An initialiser without anything to fill, which is looked at all the same.
#[cycle(look)]
pub fn look_at<S: Surroundings>(
    checker: &Checker<'_, S>,
    state: &mut State,
    initialiser: &Initialiser,
) -> Result<(), Fault>
    requires { S.fit checker.now.around.now }
    ensures found { Passes (seen_state state.new) (nothing_by result)
        (looked_at (S.told checker.now.around.now) (seen_state state.old) initialiser.now) }
    ensures grows { OnOk result (Grows state.old state.new) }
{
    match initialiser {
        Initialiser::Expression(expr) => {
            let _ = checker.value(state, expr)?;
            Ok(())
        }
        Initialiser::List { list, .. } => look_at_all(checker, state, list.as_slice()),
    }
}

/// Initialisers without anything to fill, one after the other.
#[cycle(look)]
fn look_at_all<S: Surroundings>(
    checker: &Checker<'_, S>,
    state: &mut State,
    items: &[Initialiser],
) -> Result<(), Fault>
    requires { S.fit checker.now.around.now }
    ensures found { Passes (seen_state state.new) (nothing_by result)
        (look_list (S.told checker.now.around.now) (seen_state state.old) items.now) }
    ensures grows { OnOk result (Grows state.old state.new) }
{
    'items: for item in items {
        look_at(checker, state, item)?;
    }
    Ok(())
}

/// What an initialiser gives.
#[cycle(initialiser)]
pub fn initialiser_filled<S: Surroundings>(
    checker: &Checker<'_, S>,
    state: &mut State,
    target: &Target,
    initialiser: &Initialiser,
    given: &mut Given,
) -> Result<Found<()>, Fault>
    requires { S.fit checker.now.around.now }
    ensures found { Gives (seen_state state.new) (told_with given.new result)
        (giving given.old target.now (filled (S.told checker.now.around.now) target.now
        (seen_state state.old) initialiser.now)) }
    ensures grows { OnOk result (Grows state.old state.new) }
{
    match initialiser {
        Initialiser::Expression(expr) => expression_filled(checker, state, target, expr, given),
        Initialiser::List { span, list } => {
            list_filled(checker, state, target, *span, list.as_slice(), given)
        }
    }
}

/// What a list in braces gives: a text alone in it is the text, and other items fill the parts of
/// the type.
#[cycle(initialiser)]
fn list_filled<S: Surroundings>(
    checker: &Checker<'_, S>,
    state: &mut State,
    target: &Target,
    span: Span,
    items: &[Initialiser],
    given: &mut Given,
) -> Result<Found<()>, Fault>
    requires { S.fit checker.now.around.now }
    ensures found { Gives (seen_state state.new) (told_with given.new result)
        (giving given.old target.now (list_filled (S.told checker.now.around.now) target.now
        (seen_state state.old) span items.now)) }
    ensures grows { OnOk result (Grows state.old state.new) }
{
    let ty = type_at(state, target.part.number);
    if is_text_list(state, ty, items) {
        let parts = [PartAt {
            offset: 0,
            part: target.part,
        }];
        items_filled(checker, state, target, &parts, items, given)?;
        return Ok(Found::Fine(()));
    }
    let count = items.len();
    let parts = first_parts(checker.alloc, state, ty, count)?;
    items_filled(checker, state, target, parts.as_slice(), items, given)?;
    Ok(with_count(state, target, span, count as u64))
}

/// Whether a list in braces has more items than its type has parts.
fn with_count(state: &State, target: &Target, span: Span, items: u64) -> Found<()>
    ensures { let s = seen_state state.now in checked s result
        ≡ by_rules span.line (count_rules target.now s items) s tt }
{
    let ty = type_at(state, target.part.number);
    let has_too_many = part_count(state, ty) < items;
    let rules = [(Rule::BadInitialiser, has_too_many)];
    by_rules(span.line, &rules, ())
}

/// What items give, each to the next of these parts. An item without a part is looked at.
#[cycle(initialiser)]
fn items_filled<S: Surroundings>(
    checker: &Checker<'_, S>,
    state: &mut State,
    target: &Target,
    parts: &[PartAt],
    items: &[Initialiser],
    given: &mut Given,
) -> Result<(), Fault>
    requires { S.fit checker.now.around.now }
    ensures found { Passes (seen_state state.new) (done_with given.new result)
        (giving given.old target.now (fill_list (S.told checker.now.around.now) target.now
        (seen_state state.old) parts.now items.now)) }
    ensures grows { OnOk result (Grows state.old state.new) }
{
    let mut index = 0usize;
    'items: for item in items {
        let part = at(parts, index).copied();
        item_filled(checker, state, target, part, item, given)?;
        index += 1;
    }
    Ok(())
}

/// What an item gives a part, if there is one.
#[cycle(initialiser)]
fn item_filled<S: Surroundings>(
    checker: &Checker<'_, S>,
    state: &mut State,
    target: &Target,
    part: Option<PartAt>,
    item: &Initialiser,
    given: &mut Given,
) -> Result<(), Fault>
    requires { S.fit checker.now.around.now }
    ensures found { Passes (seen_state state.new) (done_with given.new result)
        (giving given.old target.now (item_filled (S.told checker.now.around.now) target.now
        (seen_state state.old) part item.now)) }
    ensures grows { OnOk result (Grows state.old state.new) }
{
    match part {
        None => look_at(checker, state, item),
        Some(part) => {
            let inner = part_target(*target, part)?;
            let found = initialiser_filled(checker, state, &inner, item, given)?;
            found.passed()
        }
    }
}
