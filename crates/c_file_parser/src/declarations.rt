//! Declarations and initialisers.

ghost use Rattle.c_parts.specs.Production.{◌&◌, made, optional, opened, sign, spanned};
ghost use Rattle.c_parts.specs.declared.terminal.Terminal.TheVariants as terminal;
ghost use Rattle.std.specs.Prelude.{[]};
ghost use Rattle.c_syntax.specs.Files as spec;
ghost use Rattle.c_syntax.specs.Files.{bodies};
ghost use Rattle.c_syntax.specs.Grammar as grammar;
ghost use Rattle.c_syntax.specs.Grammar.{inner};
ghost use Rattle.c_syntax.specs.Values as values;
ghost use Rattle.c_expr_parser.specs.Reads.{Reads};
ghost use Rattle.c_file_parser.specs.Nests.{Nests};

use crate::constructs::{Construct, Opened};
use crate::expressions::{assignment, declarator, specifiers};
use crate::nodes::{keep, list_of};
use crate::rules::Rules;
use crate::scopes::declare_name;
use crate::sets::{DECLARATOR_STARTS, EXPRESSION_STARTS, INITIALISERS};
use c_cursor::{Cursor, Fault};
use c_parts::Terminal;
use c_syntax::{Declaration, Declarator, InitDeclarator, Initialiser, Specifiers};
use sqlite_items::Items;
use std::alloc::Global;

/// A declarator, whose name is in scope after it.
pub fn declarator_in_scope(
    alloc: Global,
    cursor: &mut Cursor<'_>,
    room: u32,
) -> Result<Declarator, Fault>
    ensures { Reads (spec.declared (inner room)) cursor.old result cursor.new }
{
    let declarator = declarator(alloc, cursor, room)?;
    declare_name(cursor, declarator.name)?;
    Ok(declarator)
}

impl<F: Fn(Global, &mut Cursor<'_>, u32, Construct) -> Result<Opened, Fault>> Rules<F> {
    /// Initialisers in braces.
    fn initialiser_list(&self, cursor: &mut Cursor<'_>) -> Result<Initialiser, Fault>
        requires { Nests self.now.room (F.pre self.now.inner) (F.post self.now.inner) }
        ensures { Reads (made spec.braced_of
            (spanned (opened spec.brace [] (bodies self.now.room).initialisers)))
            cursor.old result cursor.new }
    {
        let start = cursor.start();
        let list = self.initialisers(cursor)?;
        let span = cursor.span(start);
        Ok(Initialiser::List { span, list })
    }

    fn initialiser(&self, cursor: &mut Cursor<'_>) -> Result<Initialiser, Fault>
        requires { Nests self.now.room (F.pre self.now.inner) (F.post self.now.inner) }
        ensures { Reads (spec.initialiser_part (inner self.now.room) (bodies self.now.room))
            cursor.old result cursor.new }
    {
        if !cursor.next_is(&EXPRESSION_STARTS) {
            return self.initialiser_list(cursor);
        }
        let value = assignment(self.alloc, cursor, self.room)?;
        Ok(Initialiser::Expression(value))
    }

    /// `= initialiser`, or nothing.
    pub fn optional_initialiser(
        &self,
        cursor: &mut Cursor<'_>,
    ) -> Result<Option<Initialiser>, Fault>
        requires { Nests self.now.room (F.pre self.now.inner) (F.post self.now.inner) }
        ensures { Reads (spec.optional_initialiser (inner self.now.room) (bodies self.now.room))
            cursor.old result cursor.new }
    {
        if !cursor.next_is(&[Terminal::Equal]) {
            return Ok(None);
        }
        cursor.sign(Terminal::Equal)?;
        Ok(Some(self.initialiser(cursor)?))
    }

    /// A declarator with its initialiser.
    fn init(&self, cursor: &mut Cursor<'_>) -> Result<InitDeclarator, Fault>
        requires { Nests self.now.room (F.pre self.now.inner) (F.post self.now.inner) }
        ensures { Reads (spec.init (inner self.now.room) (bodies self.now.room))
            cursor.old result cursor.new }
    {
        let start = cursor.start();
        let declarator = declarator_in_scope(self.alloc, cursor, self.room)?;
        let initialiser = self.optional_initialiser(cursor)?;
        let span = cursor.span(start);
        Ok(InitDeclarator {
            span,
            declarator,
            initialiser,
        })
    }

    fn next_init(&self, cursor: &mut Cursor<'_>) -> Result<InitDeclarator, Fault>
        requires { Nests self.now.room (F.pre self.now.inner) (F.post self.now.inner) }
        ensures { Reads (grammar.comma_and (spec.init (inner self.now.room) (bodies self.now.room)))
            cursor.old result cursor.new }
    {
        cursor.sign(Terminal::Comma)?;
        self.init(cursor)
    }

    /// `, declarator = initialiser`, any number.
    pub fn more_inits(&self, cursor: &mut Cursor<'_>) -> Result<Items<InitDeclarator>, Fault>
        requires { Nests self.now.room (F.pre self.now.inner) (F.post self.now.inner) }
        ensures { Reads (grammar.commas (spec.init (inner self.now.room) (bodies self.now.room)))
            cursor.old result cursor.new }
    {
        let mut more = Items::new(self.alloc);
        'more: for _turn in 0..cursor.remaining() {
            if !cursor.next_is(&[Terminal::Comma]) {
                return Ok(more);
            }
            let one = self.next_init(cursor)?;
            more.push(one)?;
        }
        Ok(more)
    }

    /// The declarators of a declaration, which may be none.
    fn optional_inits(&self, cursor: &mut Cursor<'_>) -> Result<Items<InitDeclarator>, Fault>
        requires { Nests self.now.room (F.pre self.now.inner) (F.post self.now.inner) }
        ensures { Reads (spec.optional_inits (inner self.now.room) (bodies self.now.room))
            cursor.old result cursor.new }
    {
        if !cursor.next_is(&DECLARATOR_STARTS) {
            return Ok(Items::new(self.alloc));
        }
        let first = self.init(cursor)?;
        let more = self.more_inits(cursor)?;
        Ok(list_of(self.alloc, first, more)?)
    }

    fn declaration_parts(
        &self,
        cursor: &mut Cursor<'_>,
    ) -> Result<(Specifiers, (Items<InitDeclarator>, ())), Fault>
        requires { Nests self.now.room (F.pre self.now.inner) (F.post self.now.inner) }
        ensures { Reads (grammar.specifiers (inner self.now.room)
            & (spec.optional_inits (inner self.now.room) (bodies self.now.room)
            & sign terminal.Semicolon)) cursor.old result cursor.new }
    {
        let specifiers = specifiers(self.alloc, cursor, self.room)?;
        let declarators = self.optional_inits(cursor)?;
        cursor.sign(Terminal::Semicolon)?;
        Ok((specifiers, (declarators, ())))
    }

    /// A declaration (6.7).
    pub fn declaration(&self, cursor: &mut Cursor<'_>) -> Result<Declaration, Fault>
        requires { Nests self.now.room (F.pre self.now.inner) (F.post self.now.inner) }
        ensures { Reads (spec.declaration (inner self.now.room) (bodies self.now.room))
            cursor.old result cursor.new }
    {
        let start = cursor.start();
        let before = cursor.begin_specifiers();
        let (specifiers, (declarators, ())) = self.declaration_parts(cursor)?;
        cursor.end_specifiers(before);
        let span = cursor.span(start);
        Ok(Declaration {
            span,
            specifiers,
            declarators,
        })
    }

    /// `, initialiser`, or `,` alone.
    fn next_initialiser(&self, cursor: &mut Cursor<'_>) -> Result<Option<Initialiser>, Fault>
        requires { Nests self.now.room (F.pre self.now.inner) (F.post self.now.inner) }
        ensures { Reads (grammar.comma_and
            (optional (spec.initialiser_part (inner self.now.room) (bodies self.now.room))))
            cursor.old result cursor.new }
    {
        cursor.sign(Terminal::Comma)?;
        if !cursor.next_is(&INITIALISERS) {
            return Ok(None);
        }
        Ok(Some(self.initialiser(cursor)?))
    }

    /// `, initialiser` or `,`, any number; a comma after a comma is none.
    fn more_initialisers(&self, cursor: &mut Cursor<'_>) -> Result<Items<Initialiser>, Fault>
        requires { Nests self.now.room (F.pre self.now.inner) (F.post self.now.inner) }
        ensures { Reads (made values.present (grammar.commas
            (optional (spec.initialiser_part (inner self.now.room) (bodies self.now.room)))))
            cursor.old result cursor.new }
    {
        let mut more = Items::new(self.alloc);
        'more: for _turn in 0..cursor.remaining() {
            if !cursor.next_is(&[Terminal::Comma]) {
                return Ok(more);
            }
            let one = self.next_initialiser(cursor)?;
            keep(&mut more, one)?;
        }
        Ok(more)
    }

    /// Initialisers, at least one.
    pub fn some_initialisers(&self, cursor: &mut Cursor<'_>) -> Result<Items<Initialiser>, Fault>
        requires { Nests self.now.room (F.pre self.now.inner) (F.post self.now.inner) }
        ensures { Reads (made values.listed
            (spec.initialiser_part (inner self.now.room) (bodies self.now.room)
            & made values.present (grammar.commas
            (optional (spec.initialiser_part (inner self.now.room) (bodies self.now.room))))))
            cursor.old result cursor.new }
    {
        let first = self.initialiser(cursor)?;
        let more = self.more_initialisers(cursor)?;
        Ok(list_of(self.alloc, first, more)?)
    }
}
