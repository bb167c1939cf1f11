//! What one value, or one text, gives what is filled (C11 6.7.9).

ghost use Rattle.std.specs.Prelude.{◌≡◌, ◌&&◌, ◌||◌, not, nat_lt, length, [], ◌∷◌, IfOk, OnOk};
ghost use Rattle.c_expr_rules.specs.Converting.{conversion, or_itself};
ghost use Rattle.c_expr_rules.specs.Contexts.{without_fault};
ghost use Rattle.c_expr_rules.specs.Outcomes as o;
ghost use Rattle.c_expr_rules.specs.Outcomes.{by_rules, ◌breaks◌};
ghost use Rattle.c_expr_rules.specs.Expressions.{is_too_long};
ghost use Rattle.c_expr_rules.specs.Views.{seen_state, checked, Gives, Passes, Grows};
ghost use Rattle.c_file_rules.specs.Filling as filling;
ghost use Rattle.c_file_rules.specs.Filling.{with_fill, store_of, value_kept, told_with, giving};
ghost use Rattle.c_initialisers.specs.Texts.{text_given};
ghost use Rattle.c_file_rules.specs.Initialising.{then_given, target_place, is_constant, value_rules, value_given, value_filled, text_filled, expression_filled};

use c_calls::{is_too_long, object_typed};
use c_check_expr::{Checker, is_text};
use c_expr_rules::{
    Fault, Found, Known, State, Surroundings, Typed, by_rules, constant, convert_value, is_refused,
    size_or_zero, tree_of, type_at,
};
use c_file_rules::{
    Given, Target, characters_of, fill_of, first_parts, has_no_value, is_constant, part_target,
};
use c_operators::{assigned_value, part_at};
use c_rules::Rule;
use c_syntax::{Expr, Span};
use c_tree::Stmt;
use c_types::CType;
use filc_num::{CIntType, convert};
use sqlite_items::Items;
use std::alloc::AllocError;

/// The place that is filled.
fn target_place<S: Surroundings>(
    checker: &Checker<'_, S>,
    line: u32,
    state: &State,
    target: &Target,
) -> Result<Typed, AllocError>
    ensures { IfOk result (λ t. t ≡ target_place (S.told checker.now.around.now) line
        (seen_state state.now) target.now) }
{
    let alloc = checker.alloc;
    let object = object_typed(alloc, checker.around, state, line, target.object);
    if target.is_whole {
        Ok(object)
    } else {
        part_at(alloc, state, line, object, target.offset, target.part)
    }
}

/// What a static object gets of a known value.
fn give_fill(
    state: &State,
    target: &Target,
    known: Known,
    given: &mut Given,
) -> Result<(), AllocError>
    ensures { OnOk result
        (given.new ≡ with_fill (seen_state state.now) target.now known given.old) }
{
    let bytes = size_or_zero(type_at(state, target.part.number));
    match fill_of(target, bytes, known) {
        Some(fill) => given.fills.push(fill),
        None => Ok(()),
    }
}

/// The statement that stores a value in what is filled.
fn store_of<S: Surroundings>(
    checker: &Checker<'_, S>,
    line: u32,
    state: &State,
    target: &Target,
    value: Typed,
) -> Result<Stmt, AllocError>
    ensures { IfOk result (λ x. x ≡ store_of (S.told checker.now.around.now) line
        (seen_state state.now) target.now value) }
{
    let alloc = checker.alloc;
    let place = target_place(checker, line, state, target)?;
    let assigned = assigned_value(alloc, line, place, value)?;
    let value = tree_of(alloc, assigned.made)?;
    Ok(Stmt::Run { value })
}

/// Gives what is filled a value that was converted to its type.
#[tactic(auto, using(crate::proofs::Kept::fill_kept, crate::proofs::Kept::store_kept))]
fn give_value<S: Surroundings>(
    checker: &Checker<'_, S>,
    line: u32,
    state: &State,
    target: &Target,
    value: Typed,
    given: &mut Given,
) -> Result<(), AllocError>
    ensures { OnOk result (given.new ≡ then_given given.old
        (value_kept (S.told checker.now.around.now) line (seen_state state.now) target.now
        value)) }
{
    if target.is_static {
        return give_fill(state, target, value.known, given);
    }
    let store = store_of(checker, line, state, target, value)?;
    given.stores.push(store)
}

/// What a static object gets: a constant, which has no fault in it.
fn static_value<S: Surroundings>(
    checker: &Checker<'_, S>,
    state: &mut State,
    expr: &Expr,
) -> Result<Typed, Fault>
    requires { S.fit checker.now.around.now }
    ensures found { Passes (seen_state state.new) result (without_fault
        (S.told checker.now.around.now) (seen_state state.old) expr.now) }
    ensures grows { OnOk result (Grows state.old state.new) }
{
    let found = checker.without_fault(state, expr)?;
    found.passed()
}

/// An expression's value, which of a static object is a constant.
fn initial_value<S: Surroundings>(
    checker: &Checker<'_, S>,
    state: &mut State,
    is_static: bool,
    expr: &Expr,
) -> Result<Typed, Fault>
    requires { S.fit checker.now.around.now }
    ensures found { Passes (seen_state state.new) result (filling.initial_value_in
        (S.told checker.now.around.now) is_static (seen_state state.old) expr.now) }
    ensures grows { OnOk result (Grows state.old state.new) }
{
    if is_static {
        static_value(checker, state, expr)
    } else {
        checker.value(state, expr)
    }
}

/// Whether nothing has a value, or a static object has one that is no constant.
fn is_bad(has_none: bool, is_static: bool, known: Known) -> bool
    ensures { result ≡ (has_none || (is_static && not (is_constant known))) }
{
    has_none || (is_static && !is_constant(known))
}

/// The first rule that a value breaks, which is bad, or doesn't convert.
fn value_found(line: u32, is_bad: bool, is_refused: bool) -> Found<()>
    ensures { (s : o.State) → checked s result
        ≡ by_rules line (11 breaks is_bad ∷ 18 breaks is_refused ∷ []) s tt }
{
    let rules = [
        (Rule::BadInitialiser, is_bad),
        (Rule::BadConversion, is_refused),
    ];
    by_rules(line, &rules, ())
}

/// What a value gives a scalar or a structure, which it is converted to.
fn value_given<S: Surroundings>(
    checker: &Checker<'_, S>,
    line: u32,
    state: &State,
    target: &Target,
    ty: CType,
    value: Typed,
    given: &mut Given,
) -> Result<Found<()>, Fault>
    ensures { let s = seen_state state.now in
        Gives s (told_with given.new result)
        (giving given.old target.now (by_rules line (value_rules target.now s ty value) s
        (value_given (S.told checker.now.around.now) line s target.now
        (or_itself value (conversion s ty value))))) }
{
    let has_none = has_no_value(ty, &value);
    let is_refused = is_refused(state, ty, &value);
    let value = convert_value(checker.alloc, state, ty, value)?;
    let is_bad = is_bad(has_none, target.is_static, value.known);
    match value_found(line, is_bad, is_refused) {
        Found::Fine(()) => {
            give_value(checker, line, state, target, value, given)?;
            Ok(Found::Fine(()))
        }
        Found::Breaks(broken, known) => Ok(Found::Breaks(broken, known)),
    }
}

/// An expression that gives a scalar or a structure its value.
fn value_filled<S: Surroundings>(
    checker: &Checker<'_, S>,
    state: &mut State,
    target: &Target,
    expr: &Expr,
    given: &mut Given,
) -> Result<Found<()>, Fault>
    requires { S.fit checker.now.around.now }
    ensures found { Gives (seen_state state.new) (told_with given.new result)
        (giving given.old target.now (value_filled (S.told checker.now.around.now) target.now
        (seen_state state.old) expr.now)) }
    ensures grows { OnOk result (Grows state.old state.new) }
{
    let ty = type_at(state, target.part.number);
    let value = initial_value(checker, state, target.is_static, expr)?;
    value_given(checker, expr.span.line, state, target, ty, value, given)
}

/// Gives the characters of an array these bytes.
fn give_bytes<S: Surroundings>(
    checker: &Checker<'_, S>,
    line: u32,
    state: &State,
    target: &Target,
    kind: CIntType,
    bytes: &[u8],
    given: &mut Given,
) -> Result<(), AllocError>
    ensures { OnOk result (given.new ≡ then_given given.old
        (filling.bytes_kept (S.told checker.now.around.now) line (seen_state state.now)
        target.now kind bytes.now)) }
{
    let alloc = checker.alloc;
    let ty = type_at(state, target.part.number);
    let parts = first_parts(alloc, state, ty, bytes.len())?;
    let count = parts.len().min(bytes.len());
    'bytes: for index in 0..count {
        let part = part_target(*target, parts[index])?;
        let number = convert(u64::from(bytes[index]), kind.int_type());
        let value = constant(alloc, kind, line, number);
        give_value(checker, line, state, &part, value, given)?;
    }
    Ok(())
}

/// The first rule that a text breaks, of which so many characters fit.
fn text_found(line: u32, bytes: &Items<u8>, most: u64) -> Found<()>
    ensures { (s : o.State) → checked s result ≡ by_rules line (5 breaks is_too_long bytes.now
        ∷ 11 breaks nat_lt most (length bytes.now) ∷ []) s tt }
{
    let rules = [
        (Rule::ObjectTooLarge, is_too_long(bytes)),
        (Rule::BadInitialiser, most < bytes.len() as u64),
    ];
    by_rules(line, &rules, ())
}

/// The bytes of a text that give an array its characters, where they break no rule.
fn text_given<S: Surroundings>(
    checker: &Checker<'_, S>,
    line: u32,
    state: &State,
    target: &Target,
    characters: (CIntType, u64),
    bytes: &Items<u8>,
    given: &mut Given,
) -> Result<Found<()>, Fault>
    ensures { Gives (seen_state state.now) (told_with given.new result)
        (giving given.old target.now (text_given (S.told checker.now.around.now) target.now
        (seen_state state.now) line characters bytes.now)) }
{
    match text_found(line, bytes, characters.1) {
        Found::Fine(()) => {
            let bytes = bytes.as_slice();
            give_bytes(checker, line, state, target, characters.0, bytes, given)?;
            Ok(Found::Fine(()))
        }
        Found::Breaks(broken, known) => Ok(Found::Breaks(broken, known)),
    }
}

/// A text that gives an array its characters (C11 6.7.9p14): all but its zero fits.
fn text_filled<S: Surroundings>(
    checker: &Checker<'_, S>,
    state: &State,
    target: &Target,
    span: Span,
    characters: (CIntType, u64),
    given: &mut Given,
) -> Result<Found<()>, Fault>
    ensures { Gives (seen_state state.now) (told_with given.new result)
        (giving given.old target.now (text_filled (S.told checker.now.around.now) target.now
        (seen_state state.now) span characters)) }
{
    let bytes = checker.around.text(checker.alloc, span.first, span.last)?;
    text_given(checker, span.line, state, target, characters, &bytes, given)
}

/// An expression, which may be a text for an array of characters.
pub fn expression_filled<S: Surroundings>(
    checker: &Checker<'_, S>,
    state: &mut State,
    target: &Target,
    expr: &Expr,
    given: &mut Given,
) -> Result<Found<()>, Fault>
    requires { S.fit checker.now.around.now }
    ensures found { Gives (seen_state state.new) (told_with given.new result)
        (giving given.old target.now (expression_filled (S.told checker.now.around.now)
        target.now (seen_state state.old) expr.now)) }
    ensures grows { OnOk result (Grows state.old state.new) }
{
    let ty = type_at(state, target.part.number);
    let Some(characters) = characters_of(state, ty) else {
        return value_filled(checker, state, target, expr, given);
    };
    if is_text(expr) {
        text_filled(checker, state, target, expr.span, characters, given)
    } else {
        value_filled(checker, state, target, expr, given)
    }
}
