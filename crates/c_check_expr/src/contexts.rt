//! What stands round an expression and asks something of it: conditions, the value of a `switch` or of a `return`, and
//! constants (C11 6.6, 6.7.10, 6.8).
//!
//! The expression itself is the construct that breaks the rule, so of the rules that it breaks by itself and this one the
//! lower decides.

ghost use Rattle.std.specs.Prelude.{◌≡◌, ◌&&◌, not, OnOk, IfOk};
ghost use Rattle.c_expr_rules.specs.Outcomes as o;
ghost use Rattle.c_expr_rules.specs.Outcomes.{outcome_with};
ghost use Rattle.c_expr_rules.specs.TypedExpressions.{is_integer, is_scalar, type_at};
ghost use Rattle.filc_num.specs.CIntTypes.{int_type_of};
ghost use Rattle.c_types.specs.declared.ctype.CType.TheVariants.{Integer};
ghost use Rattle.c_expr_rules.specs.Constants.{known_as};
ghost use Rattle.c_expr_rules.specs.Operators.{test_tree};
ghost use Rattle.c_expr_rules.specs.Contexts as contexts;
ghost use Rattle.c_expr_rules.specs.Contexts.{as_test, condition, promoted_value, switch_value, is_bad_result, constant_in, is_integer_constant, integer_constant, fits_int, enumeration_constant, is_zero_constant, assertion_constant, as_case, case_constant, is_fault, without_fault};
ghost use Rattle.c_expr_rules.specs.Expressions.{typed_value};
ghost use Rattle.c_expr_rules.specs.Views.{seen_state, checked, found_has, Gives, Grows};

use crate::parts::Checker;
use c_calls::convert_found;
use c_expr_rules::{
    Fault, Found, Known, State, Surroundings, Typed, also, also_if_broken, convert_known,
    integer_as, is_integer, is_refused, is_scalar, is_void, kind_of_value, promote, read_found,
    type_at,
};
use c_operators::test_tree;
use c_rules::Rule;
use c_syntax::Expr;
use c_types::CType;
use filc_num::CIntType;
use std::alloc::{AllocError, Global};

/// A value as a condition.
fn as_test(alloc: Global, typed: Typed) -> Result<Typed, AllocError>
    ensures { IfOk result (λ t. t ≡ record typed { made = test_tree typed }) }
{
    let (ty, quals, place, line) = (typed.ty, typed.quals, typed.place, typed.line);
    let (known, is_null, of_register) = (typed.known, typed.is_null, typed.of_register);
    let made = test_tree(alloc, typed)?;
    Ok(Typed {
        ty,
        quals,
        place,
        line,
        made,
        known,
        is_null,
        of_register,
    })
}

/// A value, promoted.
fn promoted_value(alloc: Global, typed: Typed) -> Result<Typed, AllocError>
    ensures { IfOk result (λ t. t ≡ promoted_value typed) }
{
    let from = kind_of_value(&typed);
    let kind = promote(from);
    integer_as(alloc, CType::Integer(kind), kind, from, typed)
}

/// Whether what is known of an expression is no scalar.
fn is_no_scalar(found: &Found<Typed>) -> bool
    ensures { result ≡ found_has (λ t. not (is_scalar t.ty)) found.now }
{
    match found {
        Found::Fine(typed) => !is_scalar(typed.ty),
        Found::Breaks(_, Some(typed)) => !is_scalar(typed.ty),
        Found::Breaks(_, None) => false,
    }
}

/// Whether what is known of an expression is no integer.
fn is_no_integer(found: &Found<Typed>) -> bool
    ensures { result ≡ found_has (λ t. not (is_integer t.ty)) found.now }
{
    match found {
        Found::Fine(typed) => !is_integer(typed.ty),
        Found::Breaks(_, Some(typed)) => !is_integer(typed.ty),
        Found::Breaks(_, None) => false,
    }
}

/// Whether a value doesn't convert to the type of a function's result.
fn is_bad_value(state: &State, ty: CType, typed: &Typed) -> bool
    ensures { result ≡ is_bad_result (seen_state state.now) ty typed.now }
{
    !is_void(ty) && is_refused(state, ty, typed)
}

/// Whether what is known of an expression doesn't convert to the type of a function's result, by its number.
fn is_bad_result(state: &State, number: u32, found: &Found<Typed>) -> bool
    ensures { let s = seen_state state.now in result ≡ found_has
        (λ t. is_bad_result s (type_at s number) t) found.now }
{
    let ty = type_at(state, number);
    match found {
        Found::Fine(typed) => is_bad_value(state, ty, typed),
        Found::Breaks(_, Some(typed)) => is_bad_value(state, ty, typed),
        Found::Breaks(_, None) => false,
    }
}

/// The value of an integer constant.
pub fn constant_in(known: Known) -> Option<u64>
    ensures { result ≡ constant_in known }
{
    match known {
        Known::Integer(value) => Some(value),
        Known::Nothing | Known::Fault | Known::Address(..) => None,
    }
}

fn is_integer_constant(typed: &Typed) -> bool
    ensures { result ≡ is_integer_constant typed.now }
{
    is_integer(typed.ty) && constant_in(typed.known).is_some()
}

/// Whether an int holds a constant (C11 6.7.2.2p2).
fn fits_int(typed: &Typed, constant: Option<u64>) -> bool
    ensures { result ≡ fits_int typed.now constant }
{
    let Some(value) = constant else {
        return false;
    };
    if kind_of_value(typed).int_type().is_signed() {
        let number = value.cast_signed();
        -2_147_483_648 <= number && number <= 2_147_483_647
    } else {
        value <= 2_147_483_647
    }
}

/// Whether it is an integer constant that an int holds.
fn is_int_constant(typed: &Typed) -> bool
    ensures { result ≡ (is_integer_constant typed.now
        && fits_int typed.now (constant_in typed.now.known)) }
{
    is_integer_constant(typed) && fits_int(typed, constant_in(typed.known))
}

/// Whether a constant is 0.
fn is_zero(constant: Option<u64>) -> bool
    ensures { result ≡ is_zero_constant constant }
{
    match constant {
        None => false,
        Some(value) => value == 0,
    }
}

/// Whether an expression that is a constant in form has a fault.
fn is_fault(known: Known) -> bool
    ensures { result ≡ is_fault known }
{
    match known {
        Known::Fault => true,
        Known::Integer(_) | Known::Nothing | Known::Address(..) => false,
    }
}

/// Whether an expression isn't known to be an integer constant.
fn is_no_constant(found: &Found<Typed>) -> bool
    ensures { result ≡ found_has (λ t. not (is_integer_constant t)) found.now }
{
    match found {
        Found::Fine(typed) => !is_integer_constant(typed),
        Found::Breaks(_, Some(typed)) => !is_integer_constant(typed),
        Found::Breaks(_, None) => false,
    }
}

/// Whether an expression isn't known to be a constant that an int holds.
fn is_no_int(found: &Found<Typed>) -> bool
    ensures { result ≡ found_has (λ t. not (is_integer_constant t
        && fits_int t (constant_in t.known))) found.now }
{
    match found {
        Found::Fine(typed) => !is_int_constant(typed),
        Found::Breaks(_, Some(typed)) => !is_int_constant(typed),
        Found::Breaks(_, None) => false,
    }
}

/// Whether what is known of an expression is the constant 0.
fn is_zero_constant(found: &Found<Typed>) -> bool
    ensures { result ≡ found_has (λ t. is_zero_constant (constant_in t.known)) found.now }
{
    match found {
        Found::Fine(typed) => is_zero(constant_in(typed.known)),
        Found::Breaks(_, Some(typed)) => is_zero(constant_in(typed.known)),
        Found::Breaks(_, None) => false,
    }
}

/// Whether what is known of an expression is a constant in form that has a fault.
fn is_faulty(found: &Found<Typed>) -> bool
    ensures { result ≡ found_has (λ t. is_fault t.known) found.now }
{
    match found {
        Found::Fine(typed) => is_fault(typed.known),
        Found::Breaks(_, Some(typed)) => is_fault(typed.known),
        Found::Breaks(_, None) => false,
    }
}

/// What is found, as a condition.
fn test_found(alloc: Global, found: Found<Typed>) -> Result<Found<Typed>, AllocError>
    ensures { IfOk result (λ test. (s : o.State) → checked s test
        ≡ outcome_with as_test (checked s found)) }
{
    match found {
        Found::Fine(typed) => Ok(Found::Fine(as_test(alloc, typed)?)),
        Found::Breaks(broken, Some(typed)) => {
            let known = as_test(alloc, typed)?;
            Ok(Found::Breaks(broken, Some(known)))
        }
        Found::Breaks(broken, None) => Ok(Found::Breaks(broken, None)),
    }
}

/// What is found, promoted.
fn promoted_found(alloc: Global, found: Found<Typed>) -> Result<Found<Typed>, AllocError>
    ensures { IfOk result (λ value. (s : o.State) → checked s value
        ≡ outcome_with (λ s t. promoted_value t) (checked s found)) }
{
    match found {
        Found::Fine(typed) => Ok(Found::Fine(promoted_value(alloc, typed)?)),
        Found::Breaks(broken, Some(typed)) => {
            let known = promoted_value(alloc, typed)?;
            Ok(Found::Breaks(broken, Some(known)))
        }
        Found::Breaks(broken, None) => Ok(Found::Breaks(broken, None)),
    }
}

/// A constant as a value of the promoted kind of its switch (C11 6.8.4.2p5).
fn as_case(kind: CIntType, mut typed: Typed) -> Typed
    ensures { result ≡ record typed {
      ty = Integer kind;
      known = known_as (int_type_of kind) typed.known;
    } }
{
    typed.ty = CType::Integer(kind);
    typed.known = convert_known(kind.int_type(), typed.known);
    typed
}

/// What is found, as a value of the promoted kind of its switch.
fn case_found(kind: CIntType, found: Found<Typed>) -> Found<Typed>
    ensures { (s : o.State) → checked s result
        ≡ outcome_with (as_case kind) (checked s found) }
{
    match found {
        Found::Fine(typed) => Found::Fine(as_case(kind, typed)),
        Found::Breaks(broken, Some(typed)) => Found::Breaks(broken, Some(as_case(kind, typed))),
        Found::Breaks(broken, None) => Found::Breaks(broken, None),
    }
}

impl<S: Surroundings> Checker<'_, S> {
    /// An expression's value, which is what is asked for.
    fn whole_value(&self, state: &mut State, expr: &Expr) -> Result<Found<Typed>, Fault>
        requires { S.fit self.now.around.now }
        ensures found { Gives (seen_state state.new) result
            (typed_value (S.told self.now.around.now) (seen_state state.old) expr.now) }
        ensures grows { OnOk result (Grows state.old state.new) }
    {
        let found = self.expression(state, expr)?;
        Ok(read_found(self.alloc, found)?)
    }

    /// The condition of a statement (C11 6.8.4.1, 6.8.5). Of a pointer, whether it isn't null.
    pub fn condition(&self, state: &mut State, expr: &Expr) -> Result<Found<Typed>, Fault>
        requires { S.fit self.now.around.now }
        ensures found { Gives (seen_state state.new) result
            (condition (S.told self.now.around.now) (seen_state state.old) expr.now) }
        ensures grows { OnOk result (Grows state.old state.new) }
    {
        let found = self.whole_value(state, expr)?;
        let is_broken = is_no_scalar(&found);
        let found = also(expr.span.line, Rule::NotAScalar, is_broken, found);
        Ok(test_found(self.alloc, found)?)
    }

    /// The value of a `switch`, promoted (C11 6.8.4.2).
    pub fn switch_value(&self, state: &mut State, expr: &Expr) -> Result<Found<Typed>, Fault>
        requires { S.fit self.now.around.now }
        ensures found { Gives (seen_state state.new) result
            (switch_value (S.told self.now.around.now) (seen_state state.old) expr.now) }
        ensures grows { OnOk result (Grows state.old state.new) }
    {
        let found = self.whole_value(state, expr)?;
        let is_broken = is_no_integer(&found);
        let found = also(expr.span.line, Rule::NotAnInteger, is_broken, found);
        Ok(promoted_found(self.alloc, found)?)
    }

    /// The value of a `return`, by the number of the result's type (C11 6.8.6.4).
    pub fn result_value(
        &self,
        state: &mut State,
        ty: u32,
        expr: &Expr,
    ) -> Result<Found<Typed>, Fault>
        requires { S.fit self.now.around.now }
        ensures found { Gives (seen_state state.new) result
            (contexts.result (S.told self.now.around.now) (seen_state state.old) ty expr.now) }
        ensures grows { OnOk result (Grows state.old state.new) }
    {
        let found = self.whole_value(state, expr)?;
        let is_broken = is_bad_result(state, ty, &found);
        let found = also(expr.span.line, Rule::BadConversion, is_broken, found);
        Ok(convert_found(self.alloc, state, ty, found)?)
    }

    /// An integer constant (C11 6.6p6).
    pub fn integer_constant(&self, state: &mut State, expr: &Expr) -> Result<Found<Typed>, Fault>
        requires { S.fit self.now.around.now }
        ensures found { Gives (seen_state state.new) result
            (integer_constant (S.told self.now.around.now) (seen_state state.old) expr.now) }
        ensures grows { OnOk result (Grows state.old state.new) }
    {
        let found = self.whole_value(state, expr)?;
        let is_broken = is_no_constant(&found);
        Ok(also_if_broken(expr.span.line, Rule::BadConstant, is_broken, found))
    }

    /// The value of an enumeration constant.
    pub fn enumeration_constant(
        &self,
        state: &mut State,
        expr: &Expr,
    ) -> Result<Found<Typed>, Fault>
        requires { S.fit self.now.around.now }
        ensures found { Gives (seen_state state.new) result
            (enumeration_constant (S.told self.now.around.now) (seen_state state.old) expr.now) }
        ensures grows { OnOk result (Grows state.old state.new) }
    {
        let found = self.whole_value(state, expr)?;
        let is_broken = is_no_int(&found);
        Ok(also_if_broken(expr.span.line, Rule::BadConstant, is_broken, found))
    }

    /// A static assertion's constant, which isn't 0 (C11 6.7.10p3).
    pub fn assertion_constant(&self, state: &mut State, expr: &Expr) -> Result<Found<Typed>, Fault>
        requires { S.fit self.now.around.now }
        ensures found { Gives (seen_state state.new) result
            (assertion_constant (S.told self.now.around.now) (seen_state state.old) expr.now) }
        ensures grows { OnOk result (Grows state.old state.new) }
    {
        let found = self.integer_constant(state, expr)?;
        let is_broken = is_zero_constant(&found);
        Ok(also(expr.span.line, Rule::StaticAssertion, is_broken, found))
    }

    /// A case's constant, as a value of the switch's promoted kind.
    pub fn case_constant(
        &self,
        state: &mut State,
        kind: CIntType,
        expr: &Expr,
    ) -> Result<Found<Typed>, Fault>
        requires { S.fit self.now.around.now }
        ensures found { Gives (seen_state state.new) result
            (case_constant (S.told self.now.around.now) (seen_state state.old) kind expr.now) }
        ensures grows { OnOk result (Grows state.old state.new) }
    {
        let found = self.integer_constant(state, expr)?;
        Ok(case_found(kind, found))
    }

    /// A value that has no fault where it is a constant in form.
    pub fn without_fault(&self, state: &mut State, expr: &Expr) -> Result<Found<Typed>, Fault>
        requires { S.fit self.now.around.now }
        ensures found { Gives (seen_state state.new) result
            (without_fault (S.told self.now.around.now) (seen_state state.old) expr.now) }
        ensures grows { OnOk result (Grows state.old state.new) }
    {
        let found = self.whole_value(state, expr)?;
        let is_broken = is_faulty(&found);
        Ok(also(expr.span.line, Rule::BadConstant, is_broken, found))
    }
}
