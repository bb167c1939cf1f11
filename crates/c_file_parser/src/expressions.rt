//! What files have of expressions and declarators, as c_expr_parser reads them.

ghost use Rattle.c_cursor.specs.Input.{Gives, answer};
ghost use Rattle.c_syntax.specs.Grammar as spec;
ghost use Rattle.c_syntax.specs.Grammar.{inner};
ghost use Rattle.c_expr_parser.specs.Opened.{opened_read};
ghost use Rattle.c_expr_parser.specs.Reads.{Reads};

use c_cursor::{Cursor, Fault};
use c_expr_parser::{Grammar, Opened, What, construct};
use c_syntax::{Assertion, Declarator, Expr, Specifiers};
use std::alloc::Global;

/// What an expression or a declarator holds that counts as nesting.
fn inside(alloc: Global, cursor: &mut Cursor<'_>, room: u32, what: What) -> Result<Opened, Fault>
    ensures { Gives (answer (opened_read what (inner room)) cursor.old) result cursor.new }
{
    construct(alloc, cursor, room, what)
}

/// `( expression )`
pub fn condition(alloc: Global, cursor: &mut Cursor<'_>, room: u32) -> Result<Expr, Fault>
    ensures { Gives (answer (inner room).parens.read cursor.old) result cursor.new }
{
    Grammar {
        alloc,
        room,
        inner: inside,
    }
    .parens(cursor)
}

/// A conditional expression, which a constant is.
pub fn conditional(alloc: Global, cursor: &mut Cursor<'_>, room: u32) -> Result<Expr, Fault>
    ensures { Reads (spec.conditional (inner room)) cursor.old result cursor.new }
{
    Grammar {
        alloc,
        room,
        inner: inside,
    }
    .conditional(cursor)
}

/// An expression that has no comma.
pub fn assignment(alloc: Global, cursor: &mut Cursor<'_>, room: u32) -> Result<Expr, Fault>
    ensures { Reads (spec.assignment (inner room)) cursor.old result cursor.new }
{
    Grammar {
        alloc,
        room,
        inner: inside,
    }
    .assignment(cursor)
}

/// An expression.
pub fn expression(alloc: Global, cursor: &mut Cursor<'_>, room: u32) -> Result<Expr, Fault>
    ensures { Reads (spec.expression (inner room)) cursor.old result cursor.new }
{
    Grammar {
        alloc,
        room,
        inner: inside,
    }
    .expression(cursor)
}

/// `_Static_assert ( condition , text ) ;`
pub fn assertion(alloc: Global, cursor: &mut Cursor<'_>, room: u32) -> Result<Assertion, Fault>
    ensures { Reads (spec.assertion (inner room)) cursor.old result cursor.new }
{
    Grammar {
        alloc,
        room,
        inner: inside,
    }
    .assertion(cursor)
}

/// Specifiers, at least one.
pub fn specifiers(alloc: Global, cursor: &mut Cursor<'_>, room: u32) -> Result<Specifiers, Fault>
    ensures { Reads (spec.specifiers (inner room)) cursor.old result cursor.new }
{
    Grammar {
        alloc,
        room,
        inner: inside,
    }
    .specifiers(cursor)
}

/// A declarator.
pub fn declarator(alloc: Global, cursor: &mut Cursor<'_>, room: u32) -> Result<Declarator, Fault>
    ensures { Reads (spec.declarator (inner room)) cursor.old result cursor.new }
{
    Grammar {
        alloc,
        room,
        inner: inside,
    }
    .declarator(cursor)
}
