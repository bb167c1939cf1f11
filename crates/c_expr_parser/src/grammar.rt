//! The rules that hold other constructs take what reads those as a parameter, so that each is proved
//! by itself.

ghost use Rattle.std.specs.Prelude.{◌≡◌};
ghost use Rattle.c_cursor.specs.Input.{Gives, answer};
ghost use Rattle.c_syntax.specs.Grammar as spec;
ghost use Rattle.c_syntax.specs.Grammar.{inner};
ghost use Rattle.c_expr_parser.specs.Nests.{Nests};
ghost use Rattle.c_expr_parser.specs.Opened.{opened_read};

use crate::opened::{Opened, What};
use c_cursor::{Cursor, Fault};
use c_parts::{Binding, Span};
use c_syntax::{Declarator, EnumConstant, Expr, ExprKind, Member, Parameter, TypeName};
use sqlite_items::Items;
use std::alloc::Global;

/// What reads the constructs that count as nesting, and how many more of them may be open.
#[derive(Clone, Copy)]
pub struct Grammar<F> {
    pub alloc: Global,
    pub room: u32,
    pub inner: F,
}

impl<F: Fn(Global, &mut Cursor<'_>, u32, What) -> Result<Opened, Fault>> Grammar<F> {
    fn open(&self, cursor: &mut Cursor<'_>, what: What) -> Result<Opened, Fault>
        requires { Nests self.now.room (F.pre self.now.inner) (F.post self.now.inner) }
        ensures { Gives (answer (opened_read what (inner self.now.room)) cursor.old)
            result cursor.new }
    {
        (self.inner)(self.alloc, cursor, self.room, what)
    }

    /// `( expression )`
    pub fn parens(&self, cursor: &mut Cursor<'_>) -> Result<Expr, Fault>
        requires { Nests self.now.room (F.pre self.now.inner) (F.post self.now.inner) }
        ensures { Gives (answer (inner self.now.room).parens.read cursor.old) result cursor.new }
    {
        match self.open(cursor, What::Parens)? {
            Opened::Expr(opened) => Ok(opened),
            _ => unreachable!(),
        }
    }

    /// `( typename )`
    pub fn type_parens(&self, cursor: &mut Cursor<'_>) -> Result<TypeName, Fault>
        requires { Nests self.now.room (F.pre self.now.inner) (F.post self.now.inner) }
        ensures { Gives (answer (inner self.now.room).type_parens.read cursor.old)
            result cursor.new }
    {
        match self.open(cursor, What::TypeParens)? {
            Opened::TypeName(opened) => Ok(opened),
            _ => unreachable!(),
        }
    }

    /// `( typename )` behind `_Atomic`
    pub fn atomic_parens(&self, cursor: &mut Cursor<'_>) -> Result<TypeName, Fault>
        requires { Nests self.now.room (F.pre self.now.inner) (F.post self.now.inner) }
        ensures { Gives (answer (inner self.now.room).atomic_parens.read cursor.old)
            result cursor.new }
    {
        match self.open(cursor, What::AtomicParens)? {
            Opened::TypeName(opened) => Ok(opened),
            _ => unreachable!(),
        }
    }

    /// `[ expression ]`
    pub fn index(&self, cursor: &mut Cursor<'_>) -> Result<Expr, Fault>
        requires { Nests self.now.room (F.pre self.now.inner) (F.post self.now.inner) }
        ensures { Gives (answer (inner self.now.room).index.read cursor.old) result cursor.new }
    {
        match self.open(cursor, What::Index)? {
            Opened::Expr(opened) => Ok(opened),
            _ => unreachable!(),
        }
    }

    /// `( arguments )`
    pub fn call(&self, cursor: &mut Cursor<'_>) -> Result<Items<Expr>, Fault>
        requires { Nests self.now.room (F.pre self.now.inner) (F.post self.now.inner) }
        ensures { Gives (answer (inner self.now.room).call.read cursor.old) result cursor.new }
    {
        match self.open(cursor, What::Call)? {
            Opened::Exprs(opened) => Ok(opened),
            _ => unreachable!(),
        }
    }

    /// A prefix operator and its operand.
    pub fn prefix_operand(&self, cursor: &mut Cursor<'_>) -> Result<ExprKind, Fault>
        requires { Nests self.now.room (F.pre self.now.inner) (F.post self.now.inner) }
        ensures { Gives (answer (inner self.now.room).prefixed.read cursor.old) result cursor.new }
    {
        match self.open(cursor, What::Prefixed)? {
            Opened::Kind(opened) => Ok(opened),
            _ => unreachable!(),
        }
    }

    /// What a cast converts.
    pub fn cast_operand(&self, cursor: &mut Cursor<'_>) -> Result<Expr, Fault>
        requires { Nests self.now.room (F.pre self.now.inner) (F.post self.now.inner) }
        ensures { Gives (answer (inner self.now.room).converted.read cursor.old) result cursor.new }
    {
        match self.open(cursor, What::Converted)? {
            Opened::Expr(opened) => Ok(opened),
            _ => unreachable!(),
        }
    }

    /// The right side of an assignment.
    pub fn right(&self, cursor: &mut Cursor<'_>) -> Result<Expr, Fault>
        requires { Nests self.now.room (F.pre self.now.inner) (F.post self.now.inner) }
        ensures { Gives (answer (inner self.now.room).right.read cursor.old) result cursor.new }
    {
        match self.open(cursor, What::Right)? {
            Opened::Expr(opened) => Ok(opened),
            _ => unreachable!(),
        }
    }

    /// The members of a structure or union.
    pub fn members(&self, cursor: &mut Cursor<'_>) -> Result<Items<Member>, Fault>
        requires { Nests self.now.room (F.pre self.now.inner) (F.post self.now.inner) }
        ensures { Gives (answer (inner self.now.room).members.read cursor.old) result cursor.new }
    {
        match self.open(cursor, What::Members)? {
            Opened::Members(opened) => Ok(opened),
            _ => unreachable!(),
        }
    }

    /// The constants of an enumeration.
    pub fn constants(&self, cursor: &mut Cursor<'_>) -> Result<Items<EnumConstant>, Fault>
        requires { Nests self.now.room (F.pre self.now.inner) (F.post self.now.inner) }
        ensures { Gives (answer (inner self.now.room).constants.read cursor.old) result cursor.new }
    {
        match self.open(cursor, What::Constants)? {
            Opened::Constants(opened) => Ok(opened),
            _ => unreachable!(),
        }
    }

    /// `( declarator )`
    pub fn declarator_parens(&self, cursor: &mut Cursor<'_>) -> Result<Declarator, Fault>
        requires { Nests self.now.room (F.pre self.now.inner) (F.post self.now.inner) }
        ensures { Gives (answer (inner self.now.room).declarator.read cursor.old)
            result cursor.new }
    {
        match self.open(cursor, What::Declarator)? {
            Opened::Declarator(opened) => Ok(opened),
            _ => unreachable!(),
        }
    }

    /// `( abstract declarator )`
    pub fn abstract_parens(&self, cursor: &mut Cursor<'_>) -> Result<Declarator, Fault>
        requires { Nests self.now.room (F.pre self.now.inner) (F.post self.now.inner) }
        ensures { Gives (answer (inner self.now.room).abstract.read cursor.old) result cursor.new }
    {
        match self.open(cursor, What::Abstract)? {
            Opened::Declarator(opened) => Ok(opened),
            _ => unreachable!(),
        }
    }

    /// `( declarator )` of a parameter, abstract or not.
    pub fn parameter_parens(&self, cursor: &mut Cursor<'_>) -> Result<Declarator, Fault>
        requires { Nests self.now.room (F.pre self.now.inner) (F.post self.now.inner) }
        ensures { Gives (answer (inner self.now.room).parameter.read cursor.old) result cursor.new }
    {
        match self.open(cursor, What::Parameter)? {
            Opened::Declarator(opened) => Ok(opened),
            _ => unreachable!(),
        }
    }

    /// `[ size ]`
    pub fn array(&self, cursor: &mut Cursor<'_>) -> Result<Option<Expr>, Fault>
        requires { Nests self.now.room (F.pre self.now.inner) (F.post self.now.inner) }
        ensures { Gives (answer (inner self.now.room).array.read cursor.old) result cursor.new }
    {
        match self.open(cursor, What::Array)? {
            Opened::Size(opened) => Ok(opened),
            _ => unreachable!(),
        }
    }

    /// `? expression : conditional`
    pub fn choice(&self, cursor: &mut Cursor<'_>) -> Result<(Expr, Expr), Fault>
        requires { Nests self.now.room (F.pre self.now.inner) (F.post self.now.inner) }
        ensures { Gives (answer (inner self.now.room).choice.read cursor.old) result cursor.new }
    {
        match self.open(cursor, What::Choice)? {
            Opened::Choice(first, second) => Ok((first, second)),
            _ => unreachable!(),
        }
    }

    /// `( parameters )`, with what they declare.
    pub fn function(
        &self,
        cursor: &mut Cursor<'_>,
    ) -> Result<(Items<Parameter>, Items<Binding>), Fault>
        requires { Nests self.now.room (F.pre self.now.inner) (F.post self.now.inner) }
        ensures { Gives (answer (inner self.now.room).function.read cursor.old) result cursor.new }
    {
        match self.open(cursor, What::Function)? {
            Opened::Parameters(first, second) => Ok((first, second)),
            _ => unreachable!(),
        }
    }

    /// `( condition , text )`
    pub fn assertion_parts(&self, cursor: &mut Cursor<'_>) -> Result<(Expr, Span), Fault>
        requires { Nests self.now.room (F.pre self.now.inner) (F.post self.now.inner) }
        ensures { Gives (answer (inner self.now.room).asserted.read cursor.old) result cursor.new }
    {
        match self.open(cursor, What::Asserted)? {
            Opened::Asserted(first, second) => Ok((first, second)),
            _ => unreachable!(),
        }
    }
}
