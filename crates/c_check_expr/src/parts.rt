//! What a checker makes of tokens, type names, and what is found of an operand.

ghost use Rattle.std.specs.Prelude.{◌≡◌, true, OnOk};
ghost use Rattle.filc_num.specs.declared.c_int_type.CIntType.TheVariants.{Int};
ghost use Rattle.c_expr_rules.specs.declared.state.State.{State};
ghost use Rattle.c_expr_rules.specs.Outcomes as o;
ghost use Rattle.c_expr_rules.specs.Outcomes.{next};
ghost use Rattle.c_expr_rules.specs.Reading.{read_found, target_found};
ghost use Rattle.c_expr_rules.specs.TypedExpressions.{constant, type_at};
ghost use Rattle.c_expr_rules.specs.Operators.{step};
ghost use Rattle.c_expr_rules.specs.Calls.{call};
ghost use Rattle.c_expr_rules.specs.Expressions.{text_typed, size_typed, align_typed, without_use, member, arrow};
ghost use Rattle.c_check_expr.specs.Lists.{measured, format_in};
ghost use Rattle.c_expr_rules.specs.Views.{seen_state, checked, Gives, Passes, IsMarkOf, Grows};

use crate::constructs::is_incomplete;
use c_calls::{align_typed, is_too_long, size_typed, size_value, text_typed};
use c_expr_rules::{
    Arguments, Fault, Found, Mark, Place, State, Surroundings, Typed, also, by_rules, constant,
    read_found, target_found, type_at,
};
use c_operators::{arrow, member, step_behind};
use c_rules::Rule;
use c_syntax::{Span, TypeName};
use filc_num::{BinOp, CIntType};
use sqlite_items::Items;
use std::alloc::Global;

/// What checks the expressions of a file.
#[derive(Drop)]
pub struct Checker<'a, S> {
    pub alloc: Global,
    pub around: &'a S,
}

impl<S: Surroundings> Checker<'_, S> {
    /// A number, by its token.
    pub fn number(&self, span: Span) -> Typed
        ensures { let n = (S.told self.now.around.now).number span.first in
            result ≡ constant n.0 span.line n.1 }
    {
        let (kind, number) = self.around.number(span.first);
        constant(self.alloc, kind, span.line, number)
    }

    /// A character, by its token.
    pub fn character(&self, span: Span) -> Typed
        ensures { result
            ≡ constant Int span.line ((S.told self.now.around.now).character span.first) }
    {
        let number = self.around.character(span.first);
        constant(self.alloc, CIntType::Int, span.line, number)
    }

    /// Texts side by side, by their tokens.
    pub fn text(&self, state: &mut State, span: Span) -> Result<Found<Typed>, Fault>
        ensures found { let around = S.told self.now.around.now in
            Gives (seen_state state.new) result (text_typed around span.line
            (around.text span.first span.last) (seen_state state.old)) }
        ensures grows { OnOk result (Grows state.old state.new) }
    {
        let bytes = self.around.text(self.alloc, span.first, span.last)?;
        Ok(text_typed(self.alloc, self.around, state, span.line, bytes)?)
    }

    /// `sizeof` of a type that is named.
    pub fn size_of_type(
        &self,
        state: &mut State,
        line: u32,
        name: &TypeName,
    ) -> Result<Found<Typed>, Fault>
        requires { S.fit self.now.around.now }
        ensures found { Gives (seen_state state.new) result
            (next ((S.told self.now.around.now).named_type (seen_state state.old) name.now)
            (λ s part. size_typed line (type_at s part.number) s)) }
        ensures grows { OnOk result (Grows state.old state.new) }
    {
        let part = self.around.named_type(self.alloc, state, name)?;
        Ok(size_typed(self.alloc, line, type_at(state, part.number)))
    }

    /// `_Alignof` of a type.
    pub fn align_of_type(
        &self,
        state: &mut State,
        line: u32,
        name: &TypeName,
    ) -> Result<Found<Typed>, Fault>
        requires { S.fit self.now.around.now }
        ensures found { Gives (seen_state state.new) result
            (next ((S.told self.now.around.now).named_type (seen_state state.old) name.now)
            (λ s part. align_typed line (type_at s part.number) s)) }
        ensures grows { OnOk result (Grows state.old state.new) }
    {
        let part = self.around.named_type(self.alloc, state, name)?;
        Ok(align_typed(self.alloc, line, type_at(state, part.number)))
    }

    /// `sizeof` of an operand, which isn't evaluated: what it declares is declared, but nothing is used by it. The mark is
    /// that of the state before the operand.
    pub fn measured(
        &self,
        state: &mut State,
        line: u32,
        operand_line: u32,
        mark: Mark,
        found: Found<Typed>,
    ) -> Result<Found<Typed>, Fault>
        ensures found { (before : State) → IsMarkOf before mark → Grows before state.old
            → Gives (seen_state state.new) result (measured line operand_line
            (seen_state before) (checked (seen_state state.old) found)) }
        ensures grows { (before : State) → IsMarkOf before mark → Grows before state.old
            → OnOk result (Grows before state.new) }
    {
        let is_broken = is_incomplete(&found);
        let found = also(operand_line, Rule::IncompleteType, is_broken, found);
        let ty = found.passed()?.ty;
        state.take_back(mark);
        Ok(Found::Fine(size_value(self.alloc, line, ty)))
    }

    /// What is found of a function's name, which isn't used by it. The state goes back to this mark, before the name.
    pub fn unused(
        &self,
        state: &mut State,
        start: Mark,
        found: Found<Typed>,
    ) -> Result<Found<Typed>, Fault>
        ensures found { (before : State) → IsMarkOf before start → Grows before state.old
            → Gives (seen_state state.new) result (without_use true
            (seen_state before) (checked (seen_state state.old) found)) }
        ensures grows { (before : State) → IsMarkOf before start → Grows before state.old
            → OnOk result (Grows before state.new) }
    {
        let typed = found.passed()?;
        state.take_back(start);
        Ok(Found::Fine(typed))
    }

    /// A member of what is found.
    pub fn member(
        &self,
        state: &mut State,
        line: u32,
        name: u32,
        found: Found<Typed>,
    ) -> Result<Found<Typed>, Fault>
        ensures found { Gives (seen_state state.new) result
            (next (checked (seen_state state.old) found)
            (λ s t. member (S.told self.now.around.now) line name s t)) }
        ensures grows { OnOk result (Grows state.old state.new) }
    {
        let whole = found.passed()?;
        Ok(member(self.alloc, self.around, state, line, name, whole)?)
    }

    /// A member of what the value of what is found points to.
    pub fn arrow(
        &self,
        state: &mut State,
        line: u32,
        name: u32,
        found: Found<Typed>,
    ) -> Result<Found<Typed>, Fault>
        ensures found { Gives (seen_state state.new) result
            (next (read_found (checked (seen_state state.old) found))
            (λ s t. arrow (S.told self.now.around.now) line name s t)) }
        ensures grows { OnOk result (Grows state.old state.new) }
    {
        let pointer = read_found(self.alloc, found)?.passed()?;
        Ok(arrow(self.alloc, self.around, state, line, name, pointer)?)
    }

    /// `++` or `--` behind what is found.
    pub fn step(
        &self,
        state: &State,
        line: u32,
        operator: BinOp,
        found: Found<Typed>,
    ) -> Result<Found<Typed>, Fault>
        ensures { Gives (seen_state state.now) result
            (next (target_found (checked (seen_state state.now) found))
            (λ s t. step line operator s t)) }
    {
        let target = target_found(found).passed()?;
        Ok(step_behind(self.alloc, state, line, operator, target)?)
    }

    /// A call with these arguments.
    pub fn call(
        &self,
        state: &State,
        line: u32,
        place: Place,
        function: Typed,
        arguments: Arguments,
    ) -> Result<Found<Typed>, Fault>
        ensures { let around = S.told self.now.around.now in let s = seen_state state.now in
            Gives s result (call around.intrinsic around.kind_of line place
            function s arguments) }
    {
        let (alloc, around) = (self.alloc, self.around);
        Ok(c_calls::call(alloc, around, state, line, place, function, arguments)?)
    }

    /// The bytes of a format, which are not too many for a text.
    pub fn format_bytes(&self, span: Span) -> Result<Items<u8>, Fault>
        ensures { (s : o.State) → Passes s result
            (format_in (S.told self.now.around.now) span s) }
    {
        let bytes = self.around.text(self.alloc, span.first, span.last)?;
        let rules = [(Rule::ObjectTooLarge, is_too_long(&bytes))];
        by_rules(span.line, &rules, bytes).passed()
    }
}
