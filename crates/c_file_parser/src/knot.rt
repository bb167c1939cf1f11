//! The knot: what may stand inside, where so many more constructs may be open.
//!
//! This is the only recursion of statements and initialisers. It goes as deep as constructs may be open,
//! and no deeper: what is repeated is read by loops.

ghost use Rattle.std.specs.Prelude.{◌≡◌};
ghost use Rattle.c_cursor.specs.Input.{Gives, answer};
ghost use Rattle.c_syntax.specs.Files as spec;
ghost use Rattle.c_syntax.specs.Files.{bodies};
ghost use Rattle.c_syntax.specs.Grammar.{inner};
ghost use Rattle.c_file_parser.specs.Nests.{Nests};
ghost use Rattle.c_file_parser.specs.Constructs as constructs;
ghost use Rattle.c_file_parser.specs.Constructs.{construct_read};

use crate::constructs::{Construct, Opened};
use crate::rules::Rules;
use crate::sets::STATEMENT_STARTS;
use c_cursor::{Cursor, Fault};
use c_parts::{Binding, Terminal};
use c_syntax::{BlockItem, Expr, ForStart, Initialiser};
use sqlite_items::Items;
use std::alloc::Global;

impl<F: Fn(Global, &mut Cursor<'_>, u32, Construct) -> Result<Opened, Fault>> Rules<F> {
    /// `{ initialisers }`
    fn inside_initialisers(&self, cursor: &mut Cursor<'_>) -> Result<Items<Initialiser>, Fault>
        requires { Nests self.now.room (F.pre self.now.inner) (F.post self.now.inner) }
        ensures { Gives (answer (spec.deeper_bodies (inner self.now.room)
            (bodies self.now.room)).initialisers.read cursor.old) result cursor.new }
    {
        cursor.sign(Terminal::LeftBrace)?;
        let inside = self.some_initialisers(cursor)?;
        cursor.sign(Terminal::RightBrace)?;
        Ok(inside)
    }

    /// `( start condition ; step )`
    fn inside_header(
        &self,
        cursor: &mut Cursor<'_>,
    ) -> Result<(ForStart, (Option<Expr>, Option<Expr>)), Fault>
        requires { Nests self.now.room (F.pre self.now.inner) (F.post self.now.inner) }
        ensures { Gives (answer (spec.deeper_bodies (inner self.now.room)
            (bodies self.now.room)).header.read cursor.old) result cursor.new }
    {
        cursor.sign(Terminal::LeftParen)?;
        let inside = self.for_parts(cursor)?;
        cursor.sign(Terminal::RightParen)?;
        Ok(inside)
    }

    /// What a construct is, where these rules' room is what is left after it begins.
    fn inside(&self, cursor: &mut Cursor<'_>, what: Construct) -> Result<Opened, Fault>
        requires { Nests self.now.room (F.pre self.now.inner) (F.post self.now.inner) }
        ensures { Gives (answer (construct_read what
            (spec.deeper_bodies (inner self.now.room) (bodies self.now.room))) cursor.old)
            result cursor.new }
    {
        match what {
            Construct::Initialisers => Ok(Opened::Initialisers(self.inside_initialisers(cursor)?)),
            Construct::Block => Ok(Opened::BlockItems(self.body(cursor, &[])?)),
            Construct::SwitchBody => Ok(Opened::SwitchItems(self.switch_body(cursor)?)),
            Construct::Header => {
                let (start, (condition, step)) = self.inside_header(cursor)?;
                Ok(Opened::Header(start, condition, step))
            }
            Construct::Under => Ok(Opened::Statement(self.scoped_statement(cursor)?)),
        }
    }
}

/// What a construct begins with.
pub fn starts_of(what: Construct) -> &'static [Terminal]
    ensures { result.now ≡ constructs.starts_of what }
{
    match what {
        Construct::Initialisers => &[Terminal::LeftBrace],
        Construct::Block => &[Terminal::LeftBrace],
        Construct::SwitchBody => &[Terminal::LeftBrace],
        Construct::Header => &[Terminal::LeftParen],
        Construct::Under => &STATEMENT_STARTS,
    }
}

/// Reads a construct, where so many may be open. Where none may, its first token is too deep.
#[tactic(auto, using(crate::proofs::Rooms::nothing_opens, crate::proofs::Rooms::one_opens), unfolding(c_syntax::specs::Files::bodies))]
pub fn construct(
    alloc: Global,
    cursor: &mut Cursor<'_>,
    room: u32,
    what: Construct,
) -> Result<Opened, Fault>
    ensures { Gives (answer (construct_read what (bodies room)) cursor.old) result cursor.new }
{
    if room == 0 {
        return Err(cursor.refusal(starts_of(what)));
    }
    Rules {
        alloc,
        room: room - 1,
        inner: construct,
    }
    .inside(cursor, what)
}

/// `{ items }` of a function, where so many constructs may be open, and so much is declared in it.
#[tactic(auto, using(crate::proofs::Rooms::no_body, crate::proofs::Rooms::one_body), unfolding(c_syntax::specs::Files::bodies))]
pub fn function_items(
    alloc: Global,
    cursor: &mut Cursor<'_>,
    room: u32,
    scope: &[Binding],
) -> Result<Items<BlockItem>, Fault>
    ensures { Gives (answer ((bodies room).body scope.now).read cursor.old) result cursor.new }
{
    if room == 0 {
        return Err(cursor.refusal(&[Terminal::LeftBrace]));
    }
    Rules {
        alloc,
        room: room - 1,
        inner: construct,
    }
    .body(cursor, scope)
}
