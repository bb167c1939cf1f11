//! A list of tokens that is an expression, read to its End.

ghost use Rattle.std.specs.Prelude.{◌≡◌, ◌^◌, ◌<◌, length, IfOk, IfErr};
ghost use Rattle.c_cursor.specs.Input.{start_of};
ghost use Rattle.c_syntax.specs.Spelling.{Spells, whole_expressions, most_nesting};
ghost use Rattle.c_expr_parser.specs.Reads.{Reads};
ghost use Rattle.c_expr_parser.specs.Nests.{Nests};
ghost use Rattle.c_expr_parser.specs.Refusals.{IsRight};

use crate::grammar::Grammar;
use crate::knot::construct;
use crate::opened::{Opened, What};
use crate::refusal::{Refusal, refusal_at};
use c_cursor::{Cursor, Fault};
use c_parts::{Lexeme, Terminal};
use c_syntax::Expr;
use std::alloc::Global;

/// How many constructs may be open at once.
const MOST_NESTING: u32 = 200;

impl<F: Fn(Global, &mut Cursor<'_>, u32, What) -> Result<Opened, Fault>> Grammar<F> {
    /// An expression and the End behind it.
    fn whole_expression(&self, cursor: &mut Cursor<'_>) -> Result<Expr, Fault>
        requires { Nests self.now.room (F.pre self.now.inner) (F.post self.now.inner) }
        ensures { Reads (whole_expressions self.now.room) cursor.old result cursor.new }
    {
        let expr = self.expression(cursor)?;
        cursor.sign(Terminal::End)?;
        Ok(expr)
    }
}

/// The expression that tokens spell, with the End behind it. Where they spell none, the refused token is
/// the first up to and with which they begin none, or the one that opens more than may be open; the
/// earlier decides, and Syntax where both are one.
pub fn expression(alloc: Global, tokens: &[Lexeme]) -> Result<Expr, Refusal>
    requires { length tokens.now < 2 ^ 32 }
    ensures spelled { IfOk result (λ expr.
        Spells whole_expressions most_nesting (start_of tokens.now) tokens.now expr) }
    ensures refused { IfErr result (IsRight whole_expressions (start_of tokens.now) tokens.now) }
{
    let mut cursor = Cursor::new(alloc, tokens);
    let grammar = Grammar {
        alloc,
        room: MOST_NESTING,
        inner: construct,
    };
    let read = grammar.whole_expression(&mut cursor);
    let remaining = cursor.remaining();
    let place = tokens.len().saturating_sub(remaining);
    match read {
        Ok(expr) => {
            if remaining == 0 {
                Ok(expr)
            } else {
                Err(Refusal::Syntax(place))
            }
        }
        Err(fault) => Err(refusal_at(fault, place)),
    }
}
