//! The rules that hold other constructs take what reads those as a parameter, so that each is proved
//! by itself.

ghost use Rattle.std.specs.Prelude.{◌≡◌, []};
ghost use Rattle.c_cursor.specs.Input.{Gives, answer};
ghost use Rattle.c_syntax.specs.Files.{bodies};
ghost use Rattle.c_file_parser.specs.Constructs.{construct_read};
ghost use Rattle.c_file_parser.specs.Nests.{Nests};

use crate::constructs::{Construct, Opened};
use c_cursor::{Cursor, Fault};
use c_syntax::{BlockItem, Expr, ForStart, Initialiser, Statement, SwitchItem};
use sqlite_items::Items;
use std::alloc::Global;

/// What reads the constructs that count as nesting, and how many more of them may be open.
#[derive(Clone, Copy)]
pub struct Rules<F> {
    pub alloc: Global,
    pub room: u32,
    pub inner: F,
}

impl<F: Fn(Global, &mut Cursor<'_>, u32, Construct) -> Result<Opened, Fault>> Rules<F> {
    fn open(&self, cursor: &mut Cursor<'_>, what: Construct) -> Result<Opened, Fault>
        requires { Nests self.now.room (F.pre self.now.inner) (F.post self.now.inner) }
        ensures { Gives (answer (construct_read what (bodies self.now.room)) cursor.old)
            result cursor.new }
    {
        (self.inner)(self.alloc, cursor, self.room, what)
    }

    /// `{ initialisers }`
    pub fn initialisers(&self, cursor: &mut Cursor<'_>) -> Result<Items<Initialiser>, Fault>
        requires { Nests self.now.room (F.pre self.now.inner) (F.post self.now.inner) }
        ensures { Gives (answer (bodies self.now.room).initialisers.read cursor.old)
            result cursor.new }
    {
        match self.open(cursor, Construct::Initialisers)? {
            Opened::Initialisers(opened) => Ok(opened),
            _ => unreachable!(),
        }
    }

    /// `{ items }` of a block
    pub fn block_items(&self, cursor: &mut Cursor<'_>) -> Result<Items<BlockItem>, Fault>
        requires { Nests self.now.room (F.pre self.now.inner) (F.post self.now.inner) }
        ensures { Gives (answer ((bodies self.now.room).body []).read cursor.old)
            result cursor.new }
    {
        match self.open(cursor, Construct::Block)? {
            Opened::BlockItems(opened) => Ok(opened),
            _ => unreachable!(),
        }
    }

    /// `{ items }` of a `switch`
    pub fn switch_items(&self, cursor: &mut Cursor<'_>) -> Result<Items<SwitchItem>, Fault>
        requires { Nests self.now.room (F.pre self.now.inner) (F.post self.now.inner) }
        ensures { Gives (answer (bodies self.now.room).switch_body.read cursor.old)
            result cursor.new }
    {
        match self.open(cursor, Construct::SwitchBody)? {
            Opened::SwitchItems(opened) => Ok(opened),
            _ => unreachable!(),
        }
    }

    /// `( start condition ; step )` of a `for`
    pub fn header(
        &self,
        cursor: &mut Cursor<'_>,
    ) -> Result<(ForStart, (Option<Expr>, Option<Expr>)), Fault>
        requires { Nests self.now.room (F.pre self.now.inner) (F.post self.now.inner) }
        ensures { Gives (answer (bodies self.now.room).header.read cursor.old) result cursor.new }
    {
        match self.open(cursor, Construct::Header)? {
            Opened::Header(start, condition, step) => Ok((start, (condition, step))),
            _ => unreachable!(),
        }
    }

    /// The statement under `if`, `else`, `while`, `do` or `for`.
    pub fn under(&self, cursor: &mut Cursor<'_>) -> Result<Statement, Fault>
        requires { Nests self.now.room (F.pre self.now.inner) (F.post self.now.inner) }
        ensures { Gives (answer (bodies self.now.room).under.read cursor.old) result cursor.new }
    {
        match self.open(cursor, Construct::Under)? {
            Opened::Statement(opened) => Ok(opened),
            _ => unreachable!(),
        }
    }
}
