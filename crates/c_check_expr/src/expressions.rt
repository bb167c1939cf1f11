//! The recursion over an expression: operands from left to right, each with all that is in it, and then the expression
//! itself.
//!
//! It goes as deep as the tree nests, and no deeper: operators of one level, operators behind an operand, arguments and
//! commas are loops. `specs/Lists.antt` says what a loop over such a list gives.

ghost use Rattle.std.specs.Prelude.{OnOk};
ghost use Rattle.c_expr_rules.specs.Expressions.{typed_expression, typed_value, typed_operator};
ghost use Rattle.c_check_expr.specs.Lists.{IsCast, IsConditional, IsAssignment, IsPostfix, IsChain, IsComma, begin_kind, operand_of, called, special_list, print_list, argument_list};
ghost use Rattle.c_expr_rules.specs.Views.{seen_state, checked, Gives, Passes, Grows};

use crate::constructs::{
    assigned_with, behind_first, calls_operation, cast, inner_found, is_text, linked_value,
    local_named, logic_found, logical_level, prefixed, special_named,
};
use crate::parts::Checker;
use c_calls::{
    argument, atomic_call, bad_print, following, name_typed, print_call, wanted_of, wanted_type,
};
use c_expr_rules::{
    Arguments, Fault, Found, Printer, Special, State, Surroundings, Typed, Wanted, read,
    read_found, target_found, type_at,
};
use c_operators::{choice, first_test, index, second, with_test};
use c_syntax::{Expr, ExprKind, Postfix, PostfixKind};
use filc_num::BinOp;
use sqlite_items::Items;

impl<S: Surroundings> Checker<'_, S> {
    /// An expression, as a place or a value.
    #[cycle(typed)]
    pub fn expression(&self, state: &mut State, expr: &Expr) -> Result<Found<Typed>, Fault>
        requires { S.fit self.now.around.now }
        ensures found { Gives (seen_state state.new) result
            (typed_expression (S.told self.now.around.now) (seen_state state.old) expr.now) }
        ensures grows { OnOk result (Grows state.old state.new) }
    {
        let line = expr.span.line;
        match &expr.kind {
            ExprKind::Name(name) => Ok(name_typed(self.alloc, self.around, state, line, *name)?),
            ExprKind::Number => Ok(Found::Fine(self.number(expr.span))),
            ExprKind::Character => Ok(Found::Fine(self.character(expr.span))),
            ExprKind::Text => self.text(state, expr.span),
            ExprKind::Parens(inner) => {
                let inner = inner.get();
                let inside = self.expression(state, inner)?;
                inner_found(inside)
            }
            ExprKind::Postfix { .. } => self.postfix(state, expr),
            ExprKind::Prefix { operator, operand } => {
                let operand = operand.get();
                let local = local_named(self.around, state, operand);
                let found = self.expression(state, operand)?;
                prefixed(self.alloc, state, line, local, *operator, found)
            }
            ExprKind::SizeofExpr(operand) => {
                let whole = operand.get();
                let before = state.mark();
                let of_whole = self.expression(state, whole)?;
                self.measured(state, line, whole.span.line, before, of_whole)
            }
            ExprKind::SizeofType(name) => self.size_of_type(state, line, name.get()),
            ExprKind::AlignofType(name) => self.align_of_type(state, line, name.get()),
            ExprKind::Cast { .. } => self.cast_expression(state, expr),
            ExprKind::Chain { .. } => self.chain(state, expr),
            ExprKind::Conditional { .. } => self.conditional_expression(state, expr),
            ExprKind::Assign { .. } => self.assignment_expression(state, expr),
            ExprKind::Comma { .. } => self.commas(state, expr),
        }
    }

    /// An expression's value, for the next construct.
    #[cycle(typed)]
    pub fn value(&self, state: &mut State, expr: &Expr) -> Result<Typed, Fault>
        requires { S.fit self.now.around.now }
        ensures found { Passes (seen_state state.new) result
            (typed_value (S.told self.now.around.now) (seen_state state.old) expr.now) }
        ensures grows { OnOk result (Grows state.old state.new) }
    {
        let found = self.expression(state, expr)?;
        read_found(self.alloc, found)?.passed()
    }

    /// A cast.
    #[cycle(typed)]
    fn cast_expression(&self, state: &mut State, expr: &Expr) -> Result<Found<Typed>, Fault>
        requires fit { S.fit self.now.around.now }
        requires kind { IsCast expr.now.kind }
        ensures found { Gives (seen_state state.new) result
            (typed_expression (S.told self.now.around.now) (seen_state state.old) expr.now) }
        ensures grows { OnOk result (Grows state.old state.new) }
    {
        let ExprKind::Cast { ty, operand } = &expr.kind else {
            unreachable!()
        };
        let line = expr.span.line;
        let name = ty.get();
        let operand = operand.get();
        let part = self.around.named_type(self.alloc, state, name)?;
        let typed = self.value(state, operand)?;
        let ty = type_at(state, part.number);
        Ok(cast(self.alloc, state, line, ty, typed)?)
    }

    /// A conditional.
    #[cycle(typed)]
    fn conditional_expression(&self, state: &mut State, expr: &Expr) -> Result<Found<Typed>, Fault>
        requires fit { S.fit self.now.around.now }
        requires kind { IsConditional expr.now.kind }
        ensures found { Gives (seen_state state.new) result
            (typed_expression (S.told self.now.around.now) (seen_state state.old) expr.now) }
        ensures grows { OnOk result (Grows state.old state.new) }
    {
        let ExprKind::Conditional {
            condition,
            then,
            otherwise,
        } = &expr.kind
        else {
            unreachable!()
        };
        let line = expr.span.line;
        let condition = condition.get();
        let then = then.get();
        let otherwise = otherwise.get();
        let test = self.value(state, condition)?;
        let one = self.value(state, then)?;
        let other = self.value(state, otherwise)?;
        Ok(choice(self.alloc, state, line, test, one, other)?)
    }

    /// An assignment.
    #[cycle(typed)]
    fn assignment_expression(&self, state: &mut State, expr: &Expr) -> Result<Found<Typed>, Fault>
        requires fit { S.fit self.now.around.now }
        requires kind { IsAssignment expr.now.kind }
        ensures found { Gives (seen_state state.new) result
            (typed_expression (S.told self.now.around.now) (seen_state state.old) expr.now) }
        ensures grows { OnOk result (Grows state.old state.new) }
    {
        let ExprKind::Assign {
            operator,
            target,
            value,
        } = &expr.kind
        else {
            unreachable!()
        };
        let line = expr.span.line;
        let left = target.get();
        let value = value.get();
        let found = self.expression(state, left)?;
        let target = target_found(found).passed()?;
        let right = self.value(state, value)?;
        Ok(assigned_with(self.alloc, state, line, *operator, target, right)?)
    }

    /// An operand with the first operator behind it. The operand may be a name that only a call knows.
    #[cycle(typed)]
    fn first_operator(&self, state: &mut State, expr: &Expr) -> Result<Found<Typed>, Fault>
        requires fit { S.fit self.now.around.now }
        requires kind { IsPostfix expr.now.kind }
        ensures found { Gives (seen_state state.new) result
            (begin_kind (S.told self.now.around.now) expr.now.span
            (seen_state state.old) expr.now.kind) }
        ensures grows { OnOk result (Grows state.old state.new) }
    {
        let ExprKind::Postfix { operand, operators } = &expr.kind else {
            unreachable!()
        };
        let line = expr.span.line;
        let operand = operand.get();
        let operators = operators.as_slice();
        let [first, ..] = operators else {
            return self.expression(state, operand);
        };
        let Some(special) = special_named(self.around, state, operand) else {
            let found = self.operand(state, operand, operators)?;
            return self.operator(&first.kind, state, line, found);
        };
        match &first.kind {
            PostfixKind::Call(arguments) => {
                self.special_call(state, line, special, arguments.as_slice())
            }
            PostfixKind::Index(_)
            | PostfixKind::Member(_)
            | PostfixKind::Arrow(_)
            | PostfixKind::Increment
            | PostfixKind::Decrement => {
                let operand_found = self.operand(state, operand, operators)?;
                inner_found(operand_found)
            }
        }
    }

    /// The operand of these operators. A function that is one operation isn't used by being called.
    #[cycle(typed)]
    fn operand(
        &self,
        state: &mut State,
        operand: &Expr,
        operators: &[Postfix],
    ) -> Result<Found<Typed>, Fault>
        requires { S.fit self.now.around.now }
        ensures found { Gives (seen_state state.new) result
            (operand_of (S.told self.now.around.now) (seen_state state.old)
            operand.now operators.now) }
        ensures grows { OnOk result (Grows state.old state.new) }
    {
        if calls_operation(self.around, state, operand, operators) {
            let mark = state.mark();
            let found = self.expression(state, operand)?;
            return self.unused(state, mark, found);
        }
        self.expression(state, operand)
    }

    /// Operators behind an operand.
    #[cycle(typed)]
    fn postfix(&self, state: &mut State, expr: &Expr) -> Result<Found<Typed>, Fault>
        requires fit { S.fit self.now.around.now }
        requires kind { IsPostfix expr.now.kind }
        ensures found { Gives (seen_state state.new) result
            (typed_expression (S.told self.now.around.now) (seen_state state.old) expr.now) }
        ensures grows { OnOk result (Grows state.old state.new) }
    {
        let ExprKind::Postfix { operators, .. } = &expr.kind else {
            unreachable!()
        };
        let line = expr.span.line;
        let rest = behind_first(operators.as_slice());
        let mut found = self.first_operator(state, expr)?;
        'operators: for operator in rest {
            found = self.operator(&operator.kind, state, line, found)?;
        }
        Ok(found)
    }

    /// An operator behind what is found.
    #[cycle(typed)]
    fn operator(
        &self,
        kind: &PostfixKind,
        state: &mut State,
        line: u32,
        found: Found<Typed>,
    ) -> Result<Found<Typed>, Fault>
        requires { S.fit self.now.around.now }
        ensures found { Gives (seen_state state.new) result
            (typed_operator (S.told self.now.around.now) line
            (checked (seen_state state.old) found) kind.now) }
        ensures grows { OnOk result (Grows state.old state.new) }
    {
        match kind {
            PostfixKind::Index(operand) => {
                let operand = operand.get();
                let x = read_found(self.alloc, found)?.passed()?;
                let y = self.value(state, operand)?;
                Ok(index(self.alloc, state, line, x, y)?)
            }
            PostfixKind::Call(arguments) => self.called(state, line, found, arguments.as_slice()),
            PostfixKind::Member(name) => self.member(state, line, *name, found),
            PostfixKind::Arrow(name) => self.arrow(state, line, *name, found),
            PostfixKind::Increment => self.step(state, line, BinOp::Add, found),
            PostfixKind::Decrement => self.step(state, line, BinOp::Sub, found),
        }
    }

    /// A call of what is found.
    #[cycle(typed)]
    fn called(
        &self,
        state: &mut State,
        line: u32,
        found: Found<Typed>,
        arguments: &[Expr],
    ) -> Result<Found<Typed>, Fault>
        requires { S.fit self.now.around.now }
        ensures found { Gives (seen_state state.new) result
            (called (S.told self.now.around.now) line
            (checked (seen_state state.old) found) arguments.now) }
        ensures grows { OnOk result (Grows state.old state.new) }
    {
        let named = found.passed()?;
        let place = named.place;
        let function = read(self.alloc, named)?.passed()?;
        let wanted = wanted_of(state, &function);
        let arguments = self.arguments(state, wanted, arguments)?;
        self.call(state, line, place, function, arguments)
    }

    /// Arguments, each converted where it stands.
    #[cycle(typed)]
    fn arguments(
        &self,
        state: &mut State,
        wanted: Wanted,
        arguments: &[Expr],
    ) -> Result<Arguments, Fault>
        requires { S.fit self.now.around.now }
        ensures found { Passes (seen_state state.new) result
            (argument_list (S.told self.now.around.now) wanted
            (seen_state state.old) arguments.now) }
        ensures grows { OnOk result (Grows state.old state.new) }
    {
        let mut values = Vec::new(self.alloc);
        let mut wanted = wanted;
        'arguments: for operand in arguments {
            let to = wanted_type(state, wanted);
            let found = self.expression(state, operand)?;
            let value = read_found(self.alloc, found)?;
            let converted = argument(self.alloc, state, operand.span.line, to, value)?;
            values.push(converted.passed()?)?;
            wanted = following(state, wanted);
        }
        let values = Items::from_vec(values);
        Ok(Arguments { values, wanted })
    }

    /// A call of a name that stands for no function. The format of `printf` is a text itself.
    #[cycle(typed)]
    fn special_call(
        &self,
        state: &mut State,
        line: u32,
        special: Special,
        arguments: &[Expr],
    ) -> Result<Found<Typed>, Fault>
        requires { S.fit self.now.around.now }
        ensures found { Gives (seen_state state.new) result
            (special_list (S.told self.now.around.now) line (seen_state state.old)
            special arguments.now) }
        ensures grows { OnOk result (Grows state.old state.new) }
    {
        match special {
            Special::Printing(printer) => self.print(state, line, printer, arguments),
            Special::Atomic(what) => {
                let operands = self.arguments(state, Wanted::Anything, arguments)?;
                Ok(atomic_call(self.alloc, state, line, what, operands)?)
            }
        }
    }

    /// A call of `printf`.
    #[cycle(typed)]
    fn print(
        &self,
        state: &mut State,
        line: u32,
        printer: Printer,
        arguments: &[Expr],
    ) -> Result<Found<Typed>, Fault>
        requires { S.fit self.now.around.now }
        ensures found { Gives (seen_state state.new) result
            (print_list (S.told self.now.around.now) printer line (seen_state state.old)
            arguments.now) }
        ensures grows { OnOk result (Grows state.old state.new) }
    {
        let [format, rest @ ..] = arguments else {
            return Ok(bad_print(self.alloc, line));
        };
        if is_text(format) {
            let bytes = self.format_bytes(format.span)?;
            let operands = self.arguments(state, Wanted::Anything, rest)?;
            return Ok(print_call(self.alloc, state, printer, line, bytes.as_slice(), operands)?);
        }
        let _ = self.value(state, format)?;
        let _ = self.arguments(state, Wanted::Anything, rest)?;
        Ok(bad_print(self.alloc, line))
    }

    /// Operators of one level.
    #[cycle(typed)]
    fn chain(&self, state: &mut State, expr: &Expr) -> Result<Found<Typed>, Fault>
        requires fit { S.fit self.now.around.now }
        requires kind { IsChain expr.now.kind }
        ensures found { Gives (seen_state state.new) result
            (typed_expression (S.told self.now.around.now) (seen_state state.old) expr.now) }
        ensures grows { OnOk result (Grows state.old state.new) }
    {
        let ExprKind::Chain { first, links } = &expr.kind else {
            unreachable!()
        };
        let line = expr.span.line;
        let operators = links.as_slice();
        let found = self.expression(state, first.get())?;
        let first = read_found(self.alloc, found)?;
        let Some(all) = logical_level(operators) else {
            let mut found = first;
            'links: for link in operators {
                let x = found.passed()?;
                let y = self.value(state, &link.operand)?;
                found = linked_value(self.alloc, state, line, link.operator, x, y)?;
            }
            return Ok(found);
        };
        let mut tests = Found::Fine(first_test(self.alloc, first.passed()?)?);
        'tests: for link in operators {
            let before = tests.passed()?;
            let operand = self.value(state, &link.operand)?;
            tests = with_test(self.alloc, line, all, before, operand)?;
        }
        Ok(logic_found(self.alloc, line, all, tests))
    }

    /// Expressions with commas between.
    #[cycle(typed)]
    fn commas(&self, state: &mut State, expr: &Expr) -> Result<Found<Typed>, Fault>
        requires fit { S.fit self.now.around.now }
        requires kind { IsComma expr.now.kind }
        ensures found { Gives (seen_state state.new) result
            (typed_expression (S.told self.now.around.now) (seen_state state.old) expr.now) }
        ensures grows { OnOk result (Grows state.old state.new) }
    {
        let ExprKind::Comma { first, rest } = &expr.kind else {
            unreachable!()
        };
        let line = expr.span.line;
        let others = rest.as_slice();
        let found = self.expression(state, first.get())?;
        let mut value = read_found(self.alloc, found)?;
        'commas: for next in others {
            let x = value.passed()?;
            let y = self.value(state, next)?;
            value = Found::Fine(second(self.alloc, line, x, y)?);
        }
        Ok(value)
    }
}
