//! Statements, and what stands in a block or a `switch`.

ghost use Rattle.std.specs.Prelude.{[]};
ghost use Rattle.c_parts.specs.Production.{◌&◌, ◌or◌, made, many, optional, scoped, scoped_with, sign};
ghost use Rattle.c_parts.specs.declared.terminal.Terminal.TheVariants as terminal;
ghost use Rattle.c_syntax.specs.declared.file.ForStart.TheVariants as start;
ghost use Rattle.c_syntax.specs.Files as spec;
ghost use Rattle.c_syntax.specs.Files.{bodies};
ghost use Rattle.c_syntax.specs.Grammar as grammar;
ghost use Rattle.c_syntax.specs.Grammar.{inner};
ghost use Rattle.c_syntax.specs.Values as values;
ghost use Rattle.c_expr_parser.specs.Reads.{Reads};
ghost use Rattle.c_file_parser.specs.Constructs as constructs;
ghost use Rattle.c_file_parser.specs.Nests.{Nests};

use crate::constructs::{Compound, Construct, Opened};
use crate::expressions::{assertion, condition, conditional, expression};
use crate::rules::Rules;
use crate::scopes::enter_with;
use crate::sets::{BLOCK_ITEMS, EXPRESSION_STARTS, SPECIFIED, SWITCH_ITEMS};
use c_cursor::{Cursor, Fault};
use c_parts::{Binding, Terminal};
use c_syntax::{Block, BlockItem, Expr, ForStart, Statement, StatementKind, SwitchItem};
use sqlite_items::{Boxed, Items};
use std::alloc::Global;

/// An expression, or nothing.
fn optional_expression(
    alloc: Global,
    cursor: &mut Cursor<'_>,
    room: u32,
) -> Result<Option<Expr>, Fault>
    ensures { Reads (spec.optional_expression (inner room)) cursor.old result cursor.new }
{
    if !cursor.next_is(&EXPRESSION_STARTS) {
        return Ok(None);
    }
    Ok(Some(expression(alloc, cursor, room)?))
}

/// `expression ;` or `;`
fn expression_part(alloc: Global, cursor: &mut Cursor<'_>, room: u32) -> Result<Option<Expr>, Fault>
    ensures { Reads (made spec.first_of (spec.optional_expression (inner room)
        & sign terminal.Semicolon)) cursor.old result cursor.new }
{
    let value = optional_expression(alloc, cursor, room)?;
    cursor.sign(Terminal::Semicolon)?;
    Ok(value)
}

/// `break ;`, `continue ;`, `return expression ;` or `expression ;`
fn simple_statement(
    alloc: Global,
    cursor: &mut Cursor<'_>,
    room: u32,
) -> Result<StatementKind, Fault>
    ensures { Reads (constructs.simple (inner room)) cursor.old result cursor.new }
{
    if cursor.next_is(&[Terminal::Break]) {
        cursor.sign(Terminal::Break)?;
        cursor.sign(Terminal::Semicolon)?;
        return Ok(StatementKind::Break);
    }
    if cursor.next_is(&[Terminal::Continue]) {
        cursor.sign(Terminal::Continue)?;
        cursor.sign(Terminal::Semicolon)?;
        return Ok(StatementKind::Continue);
    }
    if cursor.next_is(&[Terminal::Return]) {
        cursor.sign(Terminal::Return)?;
        let value = optional_expression(alloc, cursor, room)?;
        cursor.sign(Terminal::Semicolon)?;
        return Ok(StatementKind::Return(value));
    }
    let value = expression(alloc, cursor, room)?;
    cursor.sign(Terminal::Semicolon)?;
    Ok(StatementKind::Expression(value))
}

impl<F: Fn(Global, &mut Cursor<'_>, u32, Construct) -> Result<Opened, Fault>> Rules<F> {
    fn block(&self, cursor: &mut Cursor<'_>) -> Result<Block, Fault>
        requires { Nests self.now.room (F.pre self.now.inner) (F.post self.now.inner) }
        ensures { Reads (spec.block (bodies self.now.room)) cursor.old result cursor.new }
    {
        let start = cursor.start();
        let items = self.block_items(cursor)?;
        let span = cursor.span(start);
        Ok(Block { span, items })
    }

    /// `else statement`, or nothing.
    fn optional_else(&self, cursor: &mut Cursor<'_>) -> Result<Option<Boxed<Statement>>, Fault>
        requires { Nests self.now.room (F.pre self.now.inner) (F.post self.now.inner) }
        ensures { Reads (constructs.optional_else (bodies self.now.room))
            cursor.old result cursor.new }
    {
        if !cursor.next_is(&[Terminal::Else]) {
            return Ok(None);
        }
        cursor.sign(Terminal::Else)?;
        let statement = self.under(cursor)?;
        Ok(Some(Boxed::new(self.alloc, statement)?))
    }

    /// `if ( condition ) statement`, and the `else` that belongs to it.
    fn if_statement(&self, cursor: &mut Cursor<'_>) -> Result<StatementKind, Fault>
        requires { Nests self.now.room (F.pre self.now.inner) (F.post self.now.inner) }
        ensures { Reads (constructs.if_part (inner self.now.room) (bodies self.now.room))
            cursor.old result cursor.new }
    {
        cursor.sign(Terminal::If)?;
        let condition = condition(self.alloc, cursor, self.room)?;
        let then = Boxed::new(self.alloc, self.under(cursor)?)?;
        let otherwise = self.optional_else(cursor)?;
        Ok(StatementKind::If {
            condition,
            then,
            otherwise,
        })
    }

    /// `while ( condition ) statement`
    fn while_statement(&self, cursor: &mut Cursor<'_>) -> Result<StatementKind, Fault>
        requires { Nests self.now.room (F.pre self.now.inner) (F.post self.now.inner) }
        ensures { Reads (constructs.while_part (inner self.now.room) (bodies self.now.room))
            cursor.old result cursor.new }
    {
        cursor.sign(Terminal::While)?;
        let condition = condition(self.alloc, cursor, self.room)?;
        let body = Boxed::new(self.alloc, self.under(cursor)?)?;
        Ok(StatementKind::While { condition, body })
    }

    /// `do statement while ( condition ) ;`
    fn do_statement(&self, cursor: &mut Cursor<'_>) -> Result<StatementKind, Fault>
        requires { Nests self.now.room (F.pre self.now.inner) (F.post self.now.inner) }
        ensures { Reads (constructs.do_part (inner self.now.room) (bodies self.now.room))
            cursor.old result cursor.new }
    {
        cursor.sign(Terminal::Do)?;
        let body = Boxed::new(self.alloc, self.under(cursor)?)?;
        cursor.sign(Terminal::While)?;
        let condition = condition(self.alloc, cursor, self.room)?;
        cursor.sign(Terminal::Semicolon)?;
        Ok(StatementKind::Do { body, condition })
    }

    /// `for ( start condition ; step ) statement`
    fn for_statement(&self, cursor: &mut Cursor<'_>) -> Result<StatementKind, Fault>
        requires { Nests self.now.room (F.pre self.now.inner) (F.post self.now.inner) }
        ensures { Reads (constructs.for_part (bodies self.now.room)) cursor.old result cursor.new }
    {
        cursor.sign(Terminal::For)?;
        let (start, (condition, step)) = self.header(cursor)?;
        let body = Boxed::new(self.alloc, self.under(cursor)?)?;
        Ok(StatementKind::For {
            start,
            condition,
            step,
            body,
        })
    }

    /// `switch ( value ) { items }`
    fn switch_statement(&self, cursor: &mut Cursor<'_>) -> Result<StatementKind, Fault>
        requires { Nests self.now.room (F.pre self.now.inner) (F.post self.now.inner) }
        ensures { Reads (constructs.switch_part (inner self.now.room) (bodies self.now.room))
            cursor.old result cursor.new }
    {
        cursor.sign(Terminal::Switch)?;
        let value = condition(self.alloc, cursor, self.room)?;
        let items = self.switch_items(cursor)?;
        Ok(StatementKind::Switch { value, items })
    }

    /// A statement that is a scope, but for its scope.
    fn compound(&self, cursor: &mut Cursor<'_>, what: Compound) -> Result<StatementKind, Fault>
        requires { Nests self.now.room (F.pre self.now.inner) (F.post self.now.inner) }
        ensures { Reads (constructs.compound what (inner self.now.room) (bodies self.now.room))
            cursor.old result cursor.new }
    {
        match what {
            Compound::If => self.if_statement(cursor),
            Compound::While => self.while_statement(cursor),
            Compound::Do => self.do_statement(cursor),
            Compound::For => self.for_statement(cursor),
            Compound::Switch => self.switch_statement(cursor),
        }
    }

    /// A statement that is a scope of its own.
    fn scoped_compound(
        &self,
        cursor: &mut Cursor<'_>,
        what: Compound,
    ) -> Result<StatementKind, Fault>
        requires { Nests self.now.room (F.pre self.now.inner) (F.post self.now.inner) }
        ensures { Reads (scoped
            (constructs.compound what (inner self.now.room) (bodies self.now.room)))
            cursor.old result cursor.new }
    {
        cursor.enter()?;
        let kind = self.compound(cursor, what)?;
        cursor.leave();
        Ok(kind)
    }

    fn statement_kind(&self, cursor: &mut Cursor<'_>) -> Result<StatementKind, Fault>
        requires { Nests self.now.room (F.pre self.now.inner) (F.post self.now.inner) }
        ensures { Reads (spec.statement_kind (inner self.now.room) (bodies self.now.room))
            cursor.old result cursor.new }
    {
        if cursor.next_is(&[Terminal::LeftBrace]) {
            return Ok(StatementKind::Block(self.block(cursor)?));
        }
        if cursor.next_is(&[Terminal::Semicolon]) {
            cursor.sign(Terminal::Semicolon)?;
            return Ok(StatementKind::Empty);
        }
        if cursor.next_is(&[Terminal::If]) {
            return self.scoped_compound(cursor, Compound::If);
        }
        if cursor.next_is(&[Terminal::While]) {
            return self.scoped_compound(cursor, Compound::While);
        }
        if cursor.next_is(&[Terminal::Do]) {
            return self.scoped_compound(cursor, Compound::Do);
        }
        if cursor.next_is(&[Terminal::For]) {
            return self.scoped_compound(cursor, Compound::For);
        }
        if cursor.next_is(&[Terminal::Switch]) {
            return self.scoped_compound(cursor, Compound::Switch);
        }
        simple_statement(self.alloc, cursor, self.room)
    }

    /// A statement (6.8).
    fn statement(&self, cursor: &mut Cursor<'_>) -> Result<Statement, Fault>
        requires { Nests self.now.room (F.pre self.now.inner) (F.post self.now.inner) }
        ensures { Reads (spec.statement (inner self.now.room) (bodies self.now.room))
            cursor.old result cursor.new }
    {
        let start = cursor.start();
        let kind = self.statement_kind(cursor)?;
        let span = cursor.span(start);
        Ok(Statement { span, kind })
    }

    /// A statement that is a scope of its own.
    pub fn scoped_statement(&self, cursor: &mut Cursor<'_>) -> Result<Statement, Fault>
        requires { Nests self.now.room (F.pre self.now.inner) (F.post self.now.inner) }
        ensures { Reads (scoped (spec.statement (inner self.now.room) (bodies self.now.room)))
            cursor.old result cursor.new }
    {
        cursor.enter()?;
        let statement = self.statement(cursor)?;
        cursor.leave();
        Ok(statement)
    }

    fn block_item(&self, cursor: &mut Cursor<'_>) -> Result<BlockItem, Fault>
        requires { Nests self.now.room (F.pre self.now.inner) (F.post self.now.inner) }
        ensures { Reads (spec.block_item (inner self.now.room) (bodies self.now.room))
            cursor.old result cursor.new }
    {
        if cursor.next_is(&SPECIFIED) {
            return Ok(BlockItem::Declaration(self.declaration(cursor)?));
        }
        if cursor.next_is(&[Terminal::StaticAssert]) {
            let assertion = assertion(self.alloc, cursor, self.room)?;
            return Ok(BlockItem::Assertion(assertion));
        }
        Ok(BlockItem::Statement(self.statement(cursor)?))
    }

    /// Any number of a block's items.
    fn many_block_items(&self, cursor: &mut Cursor<'_>) -> Result<Items<BlockItem>, Fault>
        requires { Nests self.now.room (F.pre self.now.inner) (F.post self.now.inner) }
        ensures { Reads (many (spec.block_item (inner self.now.room) (bodies self.now.room)))
            cursor.old result cursor.new }
    {
        let mut items = Items::new(self.alloc);
        'items: for _turn in 0..cursor.remaining() {
            if !cursor.next_is(&BLOCK_ITEMS) {
                return Ok(items);
            }
            let one = self.block_item(cursor)?;
            items.push(one)?;
        }
        Ok(items)
    }

    /// `{ items }`, but for its scope.
    fn block_braces(&self, cursor: &mut Cursor<'_>) -> Result<Items<BlockItem>, Fault>
        requires { Nests self.now.room (F.pre self.now.inner) (F.post self.now.inner) }
        ensures { Reads (constructs.block_braces (inner self.now.room) (bodies self.now.room))
            cursor.old result cursor.new }
    {
        cursor.sign(Terminal::LeftBrace)?;
        let items = self.many_block_items(cursor)?;
        cursor.sign(Terminal::RightBrace)?;
        Ok(items)
    }

    /// `{ items }`, a scope in which so much is declared, the last first.
    pub fn body(
        &self,
        cursor: &mut Cursor<'_>,
        scope: &[Binding],
    ) -> Result<Items<BlockItem>, Fault>
        requires { Nests self.now.room (F.pre self.now.inner) (F.post self.now.inner) }
        ensures { Reads (scoped_with scope.now
            (constructs.block_braces (inner self.now.room) (bodies self.now.room)))
            cursor.old result cursor.new }
    {
        enter_with(cursor, scope)?;
        let items = self.block_braces(cursor)?;
        cursor.leave();
        Ok(items)
    }

    /// `case value :`
    fn case_label(&self, cursor: &mut Cursor<'_>) -> Result<SwitchItem, Fault>
        requires { Nests self.now.room (F.pre self.now.inner) (F.post self.now.inner) }
        ensures { Reads (constructs.case_label (inner self.now.room)) cursor.old result cursor.new }
    {
        let start = cursor.start();
        cursor.sign(Terminal::Case)?;
        let value = conditional(self.alloc, cursor, self.room)?;
        cursor.sign(Terminal::Colon)?;
        let span = cursor.span(start);
        Ok(SwitchItem::Case { span, value })
    }

    fn switch_item(&self, cursor: &mut Cursor<'_>) -> Result<SwitchItem, Fault>
        requires { Nests self.now.room (F.pre self.now.inner) (F.post self.now.inner) }
        ensures { Reads (spec.switch_item (inner self.now.room) (bodies self.now.room))
            cursor.old result cursor.new }
    {
        if cursor.next_is(&[Terminal::Case]) {
            return self.case_label(cursor);
        }
        if cursor.next_is(&[Terminal::Default]) {
            return default_label(cursor);
        }
        if cursor.next_is(&SPECIFIED) {
            return Ok(SwitchItem::Declaration(self.declaration(cursor)?));
        }
        if cursor.next_is(&[Terminal::StaticAssert]) {
            let assertion = assertion(self.alloc, cursor, self.room)?;
            return Ok(SwitchItem::Assertion(assertion));
        }
        Ok(SwitchItem::Statement(self.statement(cursor)?))
    }

    /// Any number of a `switch`'s items.
    fn many_switch_items(&self, cursor: &mut Cursor<'_>) -> Result<Items<SwitchItem>, Fault>
        requires { Nests self.now.room (F.pre self.now.inner) (F.post self.now.inner) }
        ensures { Reads (many (spec.switch_item (inner self.now.room) (bodies self.now.room)))
            cursor.old result cursor.new }
    {
        let mut items = Items::new(self.alloc);
        'items: for _turn in 0..cursor.remaining() {
            if !cursor.next_is(&SWITCH_ITEMS) {
                return Ok(items);
            }
            let one = self.switch_item(cursor)?;
            items.push(one)?;
        }
        Ok(items)
    }

    /// `{ items }` of a `switch`, but for its scope.
    fn switch_braces(&self, cursor: &mut Cursor<'_>) -> Result<Items<SwitchItem>, Fault>
        requires { Nests self.now.room (F.pre self.now.inner) (F.post self.now.inner) }
        ensures { Reads (constructs.switch_braces (inner self.now.room) (bodies self.now.room))
            cursor.old result cursor.new }
    {
        cursor.sign(Terminal::LeftBrace)?;
        let items = self.many_switch_items(cursor)?;
        cursor.sign(Terminal::RightBrace)?;
        Ok(items)
    }

    /// `{ items }` of a `switch`, a scope of its own.
    pub fn switch_body(&self, cursor: &mut Cursor<'_>) -> Result<Items<SwitchItem>, Fault>
        requires { Nests self.now.room (F.pre self.now.inner) (F.post self.now.inner) }
        ensures { Reads (scoped
            (constructs.switch_braces (inner self.now.room) (bodies self.now.room)))
            cursor.old result cursor.new }
    {
        cursor.enter()?;
        let items = self.switch_braces(cursor)?;
        cursor.leave();
        Ok(items)
    }

    /// A declaration, an expression with `;`, or `;`.
    fn for_start(&self, cursor: &mut Cursor<'_>) -> Result<ForStart, Fault>
        requires { Nests self.now.room (F.pre self.now.inner) (F.post self.now.inner) }
        ensures { Reads (spec.for_start (inner self.now.room) (bodies self.now.room))
            cursor.old result cursor.new }
    {
        if cursor.next_is(&SPECIFIED) {
            return Ok(ForStart::Declaration(self.declaration(cursor)?));
        }
        let value = expression_part(self.alloc, cursor, self.room)?;
        Ok(ForStart::Expression(value))
    }

    /// What stands in the parentheses of a `for`.
    pub fn for_parts(
        &self,
        cursor: &mut Cursor<'_>,
    ) -> Result<(ForStart, (Option<Expr>, Option<Expr>)), Fault>
        requires { Nests self.now.room (F.pre self.now.inner) (F.post self.now.inner) }
        ensures { Reads (constructs.for_parts (inner self.now.room) (bodies self.now.room))
            cursor.old result cursor.new }
    {
        let start = self.for_start(cursor)?;
        let condition = expression_part(self.alloc, cursor, self.room)?;
        let step = optional_expression(self.alloc, cursor, self.room)?;
        Ok((start, (condition, step)))
    }
}

/// `default :`
fn default_label(cursor: &mut Cursor<'_>) -> Result<SwitchItem, Fault>
    ensures { Reads constructs.default_label cursor.old result cursor.new }
{
    let start = cursor.start();
    cursor.sign(Terminal::Default)?;
    cursor.sign(Terminal::Colon)?;
    let span = cursor.span(start);
    Ok(SwitchItem::Default(span))
}
