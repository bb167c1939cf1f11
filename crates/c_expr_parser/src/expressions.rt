//! Expressions: a recursive descent, which goes on by the next token, and behind a parenthesis by the
//! next two.

ghost use Rattle.c_parts.specs.Production as production;
ghost use Rattle.c_syntax.specs.Grammar as spec;
ghost use Rattle.c_syntax.specs.Grammar.{inner};
ghost use Rattle.c_syntax.specs.Values as values;
ghost use Rattle.c_parts.specs.declared.terminal.Terminal.TheVariants as terminal;
ghost use Rattle.c_expr_parser.specs.Reads.{Reads};
ghost use Rattle.c_expr_parser.specs.Nests.{Nests};

use crate::grammar::Grammar;
use crate::nodes::{assign, chain, comma, conditional, is_unary, list_of, postfix};
use crate::opened::{Opened, What};
use crate::sets::{
    ANY_NAME, ASSIGNING, EXPRESSION_STARTS, POSTFIX_OPERATORS, PRIMARY_STARTS, SPECIFIER_STARTS,
    UNARY_OPERATORS, operators_over,
};
use c_cursor::{Cursor, Fault};
use c_parts::{Span, Terminal};
use c_syntax::{Expr, ExprKind, Link, Postfix, PostfixKind, assigned_of, operator_of, prefix_of};
use sqlite_items::{Boxed, Items};
use std::alloc::Global;

/// Texts side by side.
pub fn texts(cursor: &mut Cursor<'_>) -> Result<(), Fault>
    ensures { Reads spec.texts cursor.old result cursor.new }
{
    cursor.sign(Terminal::Text)?;
    more_texts(cursor)
}

/// Where texts side by side stand.
pub fn text_span(cursor: &mut Cursor<'_>) -> Result<Span, Fault>
    ensures { Reads spec.text_span cursor.old result cursor.new }
{
    let start = cursor.start();
    texts(cursor)?;
    Ok(cursor.span(start))
}

/// Any number of texts.
fn more_texts(cursor: &mut Cursor<'_>) -> Result<(), Fault>
    ensures { Reads (production.made (λ x. tt) (production.many (production.sign terminal.Text)))
        cursor.old result cursor.new }
{
    'texts: for _turn in 0..cursor.remaining() {
        if !cursor.next_is(&[Terminal::Text]) {
            return Ok(());
        }
        cursor.sign(Terminal::Text)?;
    }
    Ok(())
}

impl<F: Fn(Global, &mut Cursor<'_>, u32, What) -> Result<Opened, Fault>> Grammar<F> {
    fn primary_kind(&self, cursor: &mut Cursor<'_>) -> Result<ExprKind, Fault>
        requires { Nests self.now.room (F.pre self.now.inner) (F.post self.now.inner) }
        ensures { Reads (spec.primary_kind (inner self.now.room)) cursor.old result cursor.new }
    {
        if cursor.next_is(&[Terminal::Name]) {
            let name = cursor.take(&[Terminal::Name])?.name;
            return Ok(ExprKind::Name(name));
        }
        if cursor.next_is(&[Terminal::Number]) {
            cursor.take(&[Terminal::Number])?;
            return Ok(ExprKind::Number);
        }
        if cursor.next_is(&[Terminal::Character]) {
            cursor.take(&[Terminal::Character])?;
            return Ok(ExprKind::Character);
        }
        if cursor.next_is(&[Terminal::Text]) {
            texts(cursor)?;
            return Ok(ExprKind::Text);
        }
        let inner = self.parens(cursor)?;
        Ok(ExprKind::Parens(Boxed::new(self.alloc, inner)?))
    }

    fn primary(&self, cursor: &mut Cursor<'_>) -> Result<Expr, Fault>
        requires { Nests self.now.room (F.pre self.now.inner) (F.post self.now.inner) }
        ensures { Reads (spec.primary (inner self.now.room)) cursor.old result cursor.new }
    {
        let start = cursor.start();
        let kind = self.primary_kind(cursor)?;
        let span = cursor.span(start);
        Ok(Expr { span, kind })
    }

    fn postfix_kind(&self, cursor: &mut Cursor<'_>) -> Result<PostfixKind, Fault>
        requires { Nests self.now.room (F.pre self.now.inner) (F.post self.now.inner) }
        ensures { Reads (spec.postfix_kind (inner self.now.room)) cursor.old result cursor.new }
    {
        if cursor.next_is(&[Terminal::LeftBracket]) {
            let index = self.index(cursor)?;
            return Ok(PostfixKind::Index(Boxed::new(self.alloc, index)?));
        }
        if cursor.next_is(&[Terminal::LeftParen]) {
            return Ok(PostfixKind::Call(self.call(cursor)?));
        }
        if cursor.next_is(&[Terminal::Dot]) {
            cursor.sign(Terminal::Dot)?;
            return Ok(PostfixKind::Member(cursor.take(&ANY_NAME)?.name));
        }
        if cursor.next_is(&[Terminal::Arrow]) {
            cursor.sign(Terminal::Arrow)?;
            return Ok(PostfixKind::Arrow(cursor.take(&ANY_NAME)?.name));
        }
        if cursor.next_is(&[Terminal::Increment]) {
            cursor.take(&[Terminal::Increment])?;
            return Ok(PostfixKind::Increment);
        }
        cursor.take(&[Terminal::Decrement])?;
        Ok(PostfixKind::Decrement)
    }

    fn postfix_operator(&self, cursor: &mut Cursor<'_>) -> Result<Postfix, Fault>
        requires { Nests self.now.room (F.pre self.now.inner) (F.post self.now.inner) }
        ensures { Reads (spec.postfix_operator (inner self.now.room)) cursor.old result cursor.new }
    {
        let start = cursor.start();
        let kind = self.postfix_kind(cursor)?;
        let span = cursor.span(start);
        Ok(Postfix { span, kind })
    }

    fn postfix_operators(&self, cursor: &mut Cursor<'_>) -> Result<Items<Postfix>, Fault>
        requires { Nests self.now.room (F.pre self.now.inner) (F.post self.now.inner) }
        ensures { Reads (production.many (spec.postfix_operator (inner self.now.room)))
            cursor.old result cursor.new }
    {
        let mut operators = Items::new(self.alloc);
        'operators: for _turn in 0..cursor.remaining() {
            if !cursor.next_is(&POSTFIX_OPERATORS) {
                return Ok(operators);
            }
            let operator = self.postfix_operator(cursor)?;
            operators.push(operator)?;
        }
        Ok(operators)
    }

    fn postfix_expression(&self, cursor: &mut Cursor<'_>) -> Result<Expr, Fault>
        requires { Nests self.now.room (F.pre self.now.inner) (F.post self.now.inner) }
        ensures { Reads (spec.postfix_expression (inner self.now.room))
            cursor.old result cursor.new }
    {
        let start = cursor.start();
        let operand = self.primary(cursor)?;
        let operators = self.postfix_operators(cursor)?;
        let span = cursor.span(start);
        Ok(postfix(self.alloc, span, operand, operators)?)
    }

    fn unary(&self, cursor: &mut Cursor<'_>) -> Result<Expr, Fault>
        requires { Nests self.now.room (F.pre self.now.inner) (F.post self.now.inner) }
        ensures { Reads (spec.unary (inner self.now.room)) cursor.old result cursor.new }
    {
        if cursor.next_is(&PRIMARY_STARTS) {
            return self.postfix_expression(cursor);
        }
        let start = cursor.start();
        let kind = self.prefix_operand(cursor)?;
        let span = cursor.span(start);
        Ok(Expr { span, kind })
    }

    /// `( type ) operand`
    fn conversion(&self, cursor: &mut Cursor<'_>) -> Result<Expr, Fault>
        requires { Nests self.now.room (F.pre self.now.inner) (F.post self.now.inner) }
        ensures { Reads (spec.conversion (inner self.now.room)) cursor.old result cursor.new }
    {
        let start = cursor.start();
        let ty = Boxed::new(self.alloc, self.type_parens(cursor)?)?;
        let operand = Boxed::new(self.alloc, self.cast_operand(cursor)?)?;
        let span = cursor.span(start);
        let kind = ExprKind::Cast { ty, operand };
        Ok(Expr { span, kind })
    }

    pub fn cast(&self, cursor: &mut Cursor<'_>) -> Result<Expr, Fault>
        requires { Nests self.now.room (F.pre self.now.inner) (F.post self.now.inner) }
        ensures { Reads (spec.cast (inner self.now.room)) cursor.old result cursor.new }
    {
        if cursor.next_two_are(&[Terminal::LeftParen], &SPECIFIER_STARTS) {
            self.conversion(cursor)
        } else {
            self.unary(cursor)
        }
    }

    /// What `sizeof` stands before: a type in parentheses, or a unary.
    fn sizeof_operand(&self, cursor: &mut Cursor<'_>) -> Result<ExprKind, Fault>
        requires { Nests self.now.room (F.pre self.now.inner) (F.post self.now.inner) }
        ensures { Reads (spec.sizeof_operand (inner self.now.room)) cursor.old result cursor.new }
    {
        if cursor.next_two_are(&[Terminal::LeftParen], &SPECIFIER_STARTS) {
            let ty = self.type_parens(cursor)?;
            Ok(ExprKind::SizeofType(Boxed::new(self.alloc, ty)?))
        } else {
            let operand = self.unary(cursor)?;
            Ok(ExprKind::SizeofExpr(Boxed::new(self.alloc, operand)?))
        }
    }

    /// A prefix operator with its operand.
    pub fn prefix_expression(&self, cursor: &mut Cursor<'_>) -> Result<ExprKind, Fault>
        requires { Nests self.now.room (F.pre self.now.inner) (F.post self.now.inner) }
        ensures { Reads (spec.prefixed (inner self.now.room)) cursor.old result cursor.new }
    {
        if cursor.next_is(&[Terminal::Increment, Terminal::Decrement]) {
            let operator = prefix_of(
                cursor
                    .take(&[Terminal::Increment, Terminal::Decrement])?
                    .terminal,
            );
            let operand = Boxed::new(self.alloc, self.unary(cursor)?)?;
            return Ok(ExprKind::Prefix { operator, operand });
        }
        if cursor.next_is(&UNARY_OPERATORS) {
            let operator = prefix_of(cursor.take(&UNARY_OPERATORS)?.terminal);
            let operand = Boxed::new(self.alloc, self.cast(cursor)?)?;
            return Ok(ExprKind::Prefix { operator, operand });
        }
        if cursor.next_is(&[Terminal::Sizeof]) {
            cursor.sign(Terminal::Sizeof)?;
            return self.sizeof_operand(cursor);
        }
        cursor.sign(Terminal::Alignof)?;
        let ty = self.type_parens(cursor)?;
        Ok(ExprKind::AlignofType(Boxed::new(self.alloc, ty)?))
    }

    #[cycle(binary)]
    fn link(&self, cursor: &mut Cursor<'_>, tighter: u32) -> Result<Link, Fault>
        requires { Nests self.now.room (F.pre self.now.inner) (F.post self.now.inner) }
        ensures { Reads (spec.link (spec.operators_over tighter)
            (spec.binary tighter (inner self.now.room)))
            cursor.old result cursor.new }
    {
        let start = cursor.start();
        let operator = operator_of(cursor.take(operators_over(tighter))?.terminal);
        let operand = self.binary(cursor, tighter)?;
        let span = cursor.span(start);
        Ok(Link {
            span,
            operator,
            operand,
        })
    }

    #[cycle(binary)]
    fn links(&self, cursor: &mut Cursor<'_>, tighter: u32) -> Result<Items<Link>, Fault>
        requires { Nests self.now.room (F.pre self.now.inner) (F.post self.now.inner) }
        ensures { Reads (production.many (spec.link (spec.operators_over tighter)
            (spec.binary tighter (inner self.now.room))))
            cursor.old result cursor.new }
    {
        let mut links = Items::new(self.alloc);
        'links: for _turn in 0..cursor.remaining() {
            if !cursor.next_is(operators_over(tighter)) {
                return Ok(links);
            }
            let link = self.link(cursor, tighter)?;
            links.push(link)?;
        }
        Ok(links)
    }

    /// A binary expression of a level and below, from the tightest on; the lowest level is a cast.
    #[cycle(binary)]
    fn binary(&self, cursor: &mut Cursor<'_>, level: u32) -> Result<Expr, Fault>
        requires { Nests self.now.room (F.pre self.now.inner) (F.post self.now.inner) }
        ensures { Reads (spec.binary level (inner self.now.room)) cursor.old result cursor.new }
    {
        let start = cursor.start();
        let mut expr = self.cast(cursor)?;
        'levels: for tighter in 0..level {
            let links = self.links(cursor, tighter)?;
            let span = cursor.span(start);
            expr = chain(self.alloc, span, expr, links)?;
        }
        Ok(expr)
    }

    /// `? expression : conditional`, or nothing.
    fn optional_choice(&self, cursor: &mut Cursor<'_>) -> Result<Option<(Expr, Expr)>, Fault>
        requires { Nests self.now.room (F.pre self.now.inner) (F.post self.now.inner) }
        ensures { Reads (spec.optional_choice (inner self.now.room)) cursor.old result cursor.new }
    {
        if cursor.next_is(&[Terminal::Question]) {
            Ok(Some(self.choice(cursor)?))
        } else {
            Ok(None)
        }
    }

    pub fn conditional(&self, cursor: &mut Cursor<'_>) -> Result<Expr, Fault>
        requires { Nests self.now.room (F.pre self.now.inner) (F.post self.now.inner) }
        ensures { Reads (spec.conditional (inner self.now.room)) cursor.old result cursor.new }
    {
        let start = cursor.start();
        let condition = self.binary(cursor, 10)?;
        let choice = self.optional_choice(cursor)?;
        let span = cursor.span(start);
        Ok(conditional(self.alloc, span, condition, choice)?)
    }

    pub fn assignment(&self, cursor: &mut Cursor<'_>) -> Result<Expr, Fault>
        requires { Nests self.now.room (F.pre self.now.inner) (F.post self.now.inner) }
        ensures { Reads (spec.assignment (inner self.now.room)) cursor.old result cursor.new }
    {
        let target = self.conditional(cursor)?;
        if !is_unary(&target) || !cursor.next_is(&ASSIGNING) {
            return Ok(target);
        }
        let operator = assigned_of(cursor.take(&ASSIGNING)?.terminal);
        let value = self.right(cursor)?;
        Ok(assign(self.alloc, target, operator, value)?)
    }

    fn next_assignment(&self, cursor: &mut Cursor<'_>) -> Result<Expr, Fault>
        requires { Nests self.now.room (F.pre self.now.inner) (F.post self.now.inner) }
        ensures { Reads (spec.comma_and (spec.assignment (inner self.now.room)))
            cursor.old result cursor.new }
    {
        cursor.sign(Terminal::Comma)?;
        self.assignment(cursor)
    }

    fn more_assignments(&self, cursor: &mut Cursor<'_>) -> Result<Items<Expr>, Fault>
        requires { Nests self.now.room (F.pre self.now.inner) (F.post self.now.inner) }
        ensures { Reads (spec.commas (spec.assignment (inner self.now.room)))
            cursor.old result cursor.new }
    {
        let mut more = Items::new(self.alloc);
        'more: for _turn in 0..cursor.remaining() {
            if !cursor.next_is(&[Terminal::Comma]) {
                return Ok(more);
            }
            let expr = self.next_assignment(cursor)?;
            more.push(expr)?;
        }
        Ok(more)
    }

    pub fn expression(&self, cursor: &mut Cursor<'_>) -> Result<Expr, Fault>
        requires { Nests self.now.room (F.pre self.now.inner) (F.post self.now.inner) }
        ensures { Reads (spec.expression (inner self.now.room)) cursor.old result cursor.new }
    {
        let start = cursor.start();
        let first = self.assignment(cursor)?;
        let rest = self.more_assignments(cursor)?;
        let span = cursor.span(start);
        Ok(comma(self.alloc, span, first, rest)?)
    }

    pub fn arguments(&self, cursor: &mut Cursor<'_>) -> Result<Items<Expr>, Fault>
        requires { Nests self.now.room (F.pre self.now.inner) (F.post self.now.inner) }
        ensures { Reads (spec.arguments (inner self.now.room)) cursor.old result cursor.new }
    {
        let first = self.assignment(cursor)?;
        let more = self.more_assignments(cursor)?;
        Ok(list_of(self.alloc, first, more)?)
    }

    /// Arguments, or none.
    pub fn optional_arguments(&self, cursor: &mut Cursor<'_>) -> Result<Items<Expr>, Fault>
        requires { Nests self.now.room (F.pre self.now.inner) (F.post self.now.inner) }
        ensures { Reads (spec.optional_arguments (inner self.now.room))
            cursor.old result cursor.new }
    {
        if cursor.next_is(&EXPRESSION_STARTS) {
            self.arguments(cursor)
        } else {
            Ok(Items::new(self.alloc))
        }
    }
}
