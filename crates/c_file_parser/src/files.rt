//! Functions, declarations and assertions, which a file consists of.

ghost use Rattle.c_parts.specs.Production.{◌&◌, made, many, sign, spanned, specified};
ghost use Rattle.c_parts.specs.declared.terminal.Terminal.TheVariants as terminal;
ghost use Rattle.c_syntax.specs.Bodies as spec_bodies;
ghost use Rattle.c_syntax.specs.Files as spec;
ghost use Rattle.c_syntax.specs.Files.{bodies};
ghost use Rattle.c_syntax.specs.Grammar as grammar;
ghost use Rattle.c_syntax.specs.Grammar.{inner};
ghost use Rattle.c_expr_parser.specs.Reads.{Reads};

use crate::bodies::body_scope;
use crate::declarations::declarator_in_scope;
use crate::expressions::{assertion, specifiers};
use crate::knot::{construct, function_items};
use crate::nodes::{external_of, init_with, list_of};
use crate::rules::Rules;
use crate::sets::{EXTERNALS, SPECIFIED};
use c_cursor::{Cursor, Fault};
use c_parts::{Binding, Terminal};
use c_syntax::{Block, Declarator, External, File, Specifiers, Tail};
use sqlite_items::Items;
use std::alloc::Global;

/// A function's body, in which so much is declared.
fn function_body(
    alloc: Global,
    cursor: &mut Cursor<'_>,
    room: u32,
    scope: &[Binding],
) -> Result<Block, Fault>
    ensures { Reads (spec.block_with (bodies room) scope.now) cursor.old result cursor.new }
{
    let start = cursor.start();
    let items = function_items(alloc, cursor, room, scope)?;
    let span = cursor.span(start);
    Ok(Block { span, items })
}

/// What stands after the first declarator of a declaration.
fn declaration_tail(
    alloc: Global,
    cursor: &mut Cursor<'_>,
    room: u32,
    declarator: Declarator,
) -> Result<Tail, Fault>
    ensures { Reads (spec.declaration_tail (inner room) (bodies room) declarator)
        cursor.old result cursor.new }
{
    let rules = Rules {
        alloc,
        room,
        inner: construct,
    };
    let initialiser = rules.optional_initialiser(cursor)?;
    let more = rules.more_inits(cursor)?;
    cursor.sign(Terminal::Semicolon)?;
    let first = init_with(declarator, initialiser);
    Ok(Tail::Declaration(list_of(alloc, first, more)?))
}

/// A function's body, in which its parameters are in scope.
fn function_tail(
    alloc: Global,
    cursor: &mut Cursor<'_>,
    room: u32,
    declarator: Declarator,
) -> Result<Tail, Fault>
    ensures { Reads (spec.function_tail (bodies room) declarator) cursor.old result cursor.new }
{
    let body = function_body(alloc, cursor, room, body_scope(&declarator))?;
    Ok(Tail::Function { declarator, body })
}

/// What stands after the first declarator of a function or a declaration.
fn behind_declarator(
    alloc: Global,
    cursor: &mut Cursor<'_>,
    room: u32,
    declarator: Declarator,
) -> Result<Tail, Fault>
    ensures { Reads (spec.behind_declarator (inner room) (bodies room) declarator)
        cursor.old result cursor.new }
{
    if cursor.next_is(&[Terminal::LeftBrace]) {
        function_tail(alloc, cursor, room, declarator)
    } else {
        declaration_tail(alloc, cursor, room, declarator)
    }
}

/// What stands after the specifiers of a function or a declaration.
fn tail(alloc: Global, cursor: &mut Cursor<'_>, room: u32) -> Result<Tail, Fault>
    ensures { Reads (spec.tail_part (inner room) (bodies room)) cursor.old result cursor.new }
{
    if cursor.next_is(&[Terminal::Semicolon]) {
        cursor.sign(Terminal::Semicolon)?;
        return Ok(Tail::Declaration(Items::new(alloc)));
    }
    let declarator = declarator_in_scope(alloc, cursor, room)?;
    behind_declarator(alloc, cursor, room, declarator)
}

fn external_parts(
    alloc: Global,
    cursor: &mut Cursor<'_>,
    room: u32,
) -> Result<(Specifiers, Tail), Fault>
    ensures { Reads (grammar.specifiers (inner room) & spec.tail_part (inner room) (bodies room))
        cursor.old result cursor.new }
{
    let specifiers = specifiers(alloc, cursor, room)?;
    let tail = tail(alloc, cursor, room)?;
    Ok((specifiers, tail))
}

/// A function or a declaration.
fn specified_external(alloc: Global, cursor: &mut Cursor<'_>, room: u32) -> Result<External, Fault>
    ensures { Reads (made spec.external_of (spanned (specified (grammar.specifiers (inner room)
        & spec.tail_part (inner room) (bodies room))))) cursor.old result cursor.new }
{
    let start = cursor.start();
    let before = cursor.begin_specifiers();
    let (specifiers, tail) = external_parts(alloc, cursor, room)?;
    cursor.end_specifiers(before);
    let span = cursor.span(start);
    Ok(external_of(span, specifiers, tail))
}

/// A function, a declaration or an assertion.
fn external(alloc: Global, cursor: &mut Cursor<'_>, room: u32) -> Result<External, Fault>
    ensures { Reads (spec.external (inner room) (bodies room)) cursor.old result cursor.new }
{
    if cursor.next_is(&SPECIFIED) {
        return specified_external(alloc, cursor, room);
    }
    Ok(External::Assertion(assertion(alloc, cursor, room)?))
}

/// Any number of them.
fn externals(alloc: Global, cursor: &mut Cursor<'_>, room: u32) -> Result<Items<External>, Fault>
    ensures { Reads (many (spec.external (inner room) (bodies room))) cursor.old result cursor.new }
{
    let mut items = Items::new(alloc);
    'items: for _turn in 0..cursor.remaining() {
        if !cursor.next_is(&EXTERNALS) {
            return Ok(items);
        }
        let one = external(alloc, cursor, room)?;
        items.push(one)?;
    }
    Ok(items)
}

/// A whole file (6.9), with its End.
pub fn whole_file(alloc: Global, cursor: &mut Cursor<'_>, room: u32) -> Result<File, Fault>
    ensures { Reads (spec.file (inner room) (bodies room)) cursor.old result cursor.new }
{
    let items = externals(alloc, cursor, room)?;
    cursor.sign(Terminal::End)?;
    Ok(File { items })
}
