//! Pointers of a declarator, with their qualifiers.

ghost use Rattle.c_parts.specs.Production as production;
ghost use Rattle.c_syntax.specs.Grammar as spec;
ghost use Rattle.c_expr_parser.specs.Reads.{Reads};

use crate::sets::QUALIFIERS;
use c_cursor::{Cursor, Fault};
use c_parts::Terminal;
use c_syntax::{Pointer, Qualifier, qualifier_of};
use sqlite_items::Items;
use std::alloc::Global;

/// A qualifier.
fn qualifier(cursor: &mut Cursor<'_>) -> Result<Qualifier, Fault>
    ensures { Reads spec.qualifier cursor.old result cursor.new }
{
    Ok(qualifier_of(cursor.take(&QUALIFIERS)?.terminal))
}

/// Any number of qualifiers.
fn qualifiers(alloc: Global, cursor: &mut Cursor<'_>) -> Result<Items<Qualifier>, Fault>
    ensures { Reads (production.many spec.qualifier) cursor.old result cursor.new }
{
    let mut qualifiers = Items::new(alloc);
    'qualifiers: for _turn in 0..cursor.remaining() {
        if !cursor.next_is(&QUALIFIERS) {
            return Ok(qualifiers);
        }
        let one = qualifier(cursor)?;
        qualifiers.push(one)?;
    }
    Ok(qualifiers)
}

/// `*` with qualifiers.
pub(crate) fn pointer(alloc: Global, cursor: &mut Cursor<'_>) -> Result<Pointer, Fault>
    ensures { Reads spec.pointer cursor.old result cursor.new }
{
    let start = cursor.start();
    cursor.sign(Terminal::Star)?;
    let qualifiers = qualifiers(alloc, cursor)?;
    let span = cursor.span(start);
    Ok(Pointer { span, qualifiers })
}

/// Any number of pointers.
pub(crate) fn pointers(alloc: Global, cursor: &mut Cursor<'_>) -> Result<Items<Pointer>, Fault>
    ensures { Reads (production.many spec.pointer) cursor.old result cursor.new }
{
    let mut pointers = Items::new(alloc);
    'pointers: for _turn in 0..cursor.remaining() {
        if !cursor.next_is(&[Terminal::Star]) {
            return Ok(pointers);
        }
        let one = pointer(alloc, cursor)?;
        pointers.push(one)?;
    }
    Ok(pointers)
}
