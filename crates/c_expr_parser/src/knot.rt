//! The knot: what may stand inside, where so many more constructs may be open.
//!
//! This is the only recursion of the parser but for the ten levels of binary operators. It goes as
//! deep as constructs may be open, and no deeper: what is repeated is read by loops.

ghost use Rattle.std.specs.Prelude.{◌≡◌};
ghost use Rattle.c_cursor.specs.Input.{Gives, answer};
ghost use Rattle.c_syntax.specs.Grammar as spec;
ghost use Rattle.c_syntax.specs.Grammar.{inner};
ghost use Rattle.c_expr_parser.specs.Nests.{Nests};
ghost use Rattle.c_expr_parser.specs.Opened as spec_starts;
ghost use Rattle.c_expr_parser.specs.Opened.{opened_read};

use crate::expressions::text_span;
use crate::grammar::Grammar;
use crate::nodes::list_of;
use crate::opened::{Opened, What};
use crate::sets::{EXPRESSION_STARTS, PREFIXES};
use c_cursor::{Cursor, Fault};
use c_parts::{Binding, Span, Terminal};
use c_syntax::{Declarator, EnumConstant, Expr, Member, Parameter, TypeName};
use sqlite_items::Items;
use std::alloc::Global;

impl<F: Fn(Global, &mut Cursor<'_>, u32, What) -> Result<Opened, Fault>> Grammar<F> {
    /// `( expression )`
    fn inside_parens(&self, cursor: &mut Cursor<'_>) -> Result<Expr, Fault>
        requires { Nests self.now.room (F.pre self.now.inner) (F.post self.now.inner) }
        ensures { Gives (answer (spec.deeper (inner self.now.room)).parens.read cursor.old)
            result cursor.new }
    {
        cursor.sign(Terminal::LeftParen)?;
        let inside = self.expression(cursor)?;
        cursor.sign(Terminal::RightParen)?;
        Ok(inside)
    }

    /// `( typename )`
    fn inside_type_parens(&self, cursor: &mut Cursor<'_>) -> Result<TypeName, Fault>
        requires { Nests self.now.room (F.pre self.now.inner) (F.post self.now.inner) }
        ensures { Gives (answer (spec.deeper (inner self.now.room)).type_parens.read cursor.old)
            result cursor.new }
    {
        cursor.sign(Terminal::LeftParen)?;
        let inside = self.typename(cursor)?;
        cursor.sign(Terminal::RightParen)?;
        Ok(inside)
    }

    /// `( typename )` behind `_Atomic`
    fn inside_atomic_parens(&self, cursor: &mut Cursor<'_>) -> Result<TypeName, Fault>
        requires { Nests self.now.room (F.pre self.now.inner) (F.post self.now.inner) }
        ensures { Gives (answer (spec.deeper (inner self.now.room)).atomic_parens.read cursor.old)
            result cursor.new }
    {
        cursor.sign(Terminal::AtomicParen)?;
        let inside = self.typename(cursor)?;
        cursor.sign(Terminal::RightParen)?;
        Ok(inside)
    }

    /// `[ expression ]`
    fn inside_index(&self, cursor: &mut Cursor<'_>) -> Result<Expr, Fault>
        requires { Nests self.now.room (F.pre self.now.inner) (F.post self.now.inner) }
        ensures { Gives (answer (spec.deeper (inner self.now.room)).index.read cursor.old)
            result cursor.new }
    {
        cursor.sign(Terminal::LeftBracket)?;
        let inside = self.expression(cursor)?;
        cursor.sign(Terminal::RightBracket)?;
        Ok(inside)
    }

    /// `( arguments )`
    fn inside_call(&self, cursor: &mut Cursor<'_>) -> Result<Items<Expr>, Fault>
        requires { Nests self.now.room (F.pre self.now.inner) (F.post self.now.inner) }
        ensures { Gives (answer (spec.deeper (inner self.now.room)).call.read cursor.old)
            result cursor.new }
    {
        cursor.sign(Terminal::LeftParen)?;
        let inside = self.optional_arguments(cursor)?;
        cursor.sign(Terminal::RightParen)?;
        Ok(inside)
    }

    /// The members of a structure or union.
    fn inside_members(&self, cursor: &mut Cursor<'_>) -> Result<Items<Member>, Fault>
        requires { Nests self.now.room (F.pre self.now.inner) (F.post self.now.inner) }
        ensures { Gives (answer (spec.deeper (inner self.now.room)).members.read cursor.old)
            result cursor.new }
    {
        cursor.sign(Terminal::LeftBrace)?;
        let inside = self.some_members(cursor)?;
        cursor.sign(Terminal::RightBrace)?;
        Ok(inside)
    }

    /// The constants of an enumeration.
    fn inside_constants(&self, cursor: &mut Cursor<'_>) -> Result<Items<EnumConstant>, Fault>
        requires { Nests self.now.room (F.pre self.now.inner) (F.post self.now.inner) }
        ensures { Gives (answer (spec.deeper (inner self.now.room)).constants.read cursor.old)
            result cursor.new }
    {
        cursor.sign(Terminal::LeftBrace)?;
        let inside = self.some_constants(cursor)?;
        cursor.sign(Terminal::RightBrace)?;
        Ok(inside)
    }

    /// `( declarator )`
    fn inside_declarator(&self, cursor: &mut Cursor<'_>) -> Result<Declarator, Fault>
        requires { Nests self.now.room (F.pre self.now.inner) (F.post self.now.inner) }
        ensures { Gives (answer (spec.deeper (inner self.now.room)).declarator.read cursor.old)
            result cursor.new }
    {
        cursor.sign(Terminal::LeftParen)?;
        let inside = self.declarator(cursor)?;
        cursor.sign(Terminal::RightParen)?;
        Ok(inside)
    }

    /// `( abstract )`
    fn inside_abstract(&self, cursor: &mut Cursor<'_>) -> Result<Declarator, Fault>
        requires { Nests self.now.room (F.pre self.now.inner) (F.post self.now.inner) }
        ensures { Gives (answer (spec.deeper (inner self.now.room)).abstract.read cursor.old)
            result cursor.new }
    {
        cursor.sign(Terminal::LeftParen)?;
        let inside = self.some_abstract(cursor)?;
        cursor.sign(Terminal::RightParen)?;
        Ok(inside)
    }

    /// `( declarator or abstract )`
    fn inside_parameter(&self, cursor: &mut Cursor<'_>) -> Result<Declarator, Fault>
        requires { Nests self.now.room (F.pre self.now.inner) (F.post self.now.inner) }
        ensures { Gives (answer (spec.deeper (inner self.now.room)).parameter.read cursor.old)
            result cursor.new }
    {
        cursor.sign(Terminal::LeftParen)?;
        let inside = self.inner_parameter(cursor)?;
        cursor.sign(Terminal::RightParen)?;
        Ok(inside)
    }

    /// `[ size ]`
    fn inside_array(&self, cursor: &mut Cursor<'_>) -> Result<Option<Expr>, Fault>
        requires { Nests self.now.room (F.pre self.now.inner) (F.post self.now.inner) }
        ensures { Gives (answer (spec.deeper (inner self.now.room)).array.read cursor.old)
            result cursor.new }
    {
        cursor.sign(Terminal::LeftBracket)?;
        let inside = self.optional_size(cursor)?;
        cursor.sign(Terminal::RightBracket)?;
        Ok(inside)
    }

    /// `( parameters )`, with what they declare.
    fn inside_function(
        &self,
        cursor: &mut Cursor<'_>,
    ) -> Result<(Items<Parameter>, Items<Binding>), Fault>
        requires { Nests self.now.room (F.pre self.now.inner) (F.post self.now.inner) }
        ensures { Gives (answer (spec.deeper (inner self.now.room)).function.read cursor.old)
            result cursor.new }
    {
        cursor.sign(Terminal::LeftParen)?;
        let inside = self.collected_parameters(cursor)?;
        cursor.sign(Terminal::RightParen)?;
        Ok(inside)
    }

    /// `? expression : conditional`
    fn inside_choice(&self, cursor: &mut Cursor<'_>) -> Result<(Expr, Expr), Fault>
        requires { Nests self.now.room (F.pre self.now.inner) (F.post self.now.inner) }
        ensures { Gives (answer (spec.deeper (inner self.now.room)).choice.read cursor.old)
            result cursor.new }
    {
        cursor.sign(Terminal::Question)?;
        let then = self.expression(cursor)?;
        cursor.sign(Terminal::Colon)?;
        let otherwise = self.conditional(cursor)?;
        Ok((then, otherwise))
    }

    /// `( condition , text )`
    fn inside_assertion(&self, cursor: &mut Cursor<'_>) -> Result<(Expr, Span), Fault>
        requires { Nests self.now.room (F.pre self.now.inner) (F.post self.now.inner) }
        ensures { Gives (answer (spec.deeper (inner self.now.room)).asserted.read cursor.old)
            result cursor.new }
    {
        cursor.sign(Terminal::LeftParen)?;
        let condition = self.conditional(cursor)?;
        cursor.sign(Terminal::Comma)?;
        let text = text_span(cursor)?;
        cursor.sign(Terminal::RightParen)?;
        Ok((condition, text))
    }

    /// What a construct is, where this grammar's room is what is left behind its beginning.
    pub fn inside(&self, cursor: &mut Cursor<'_>, what: What) -> Result<Opened, Fault>
        requires { Nests self.now.room (F.pre self.now.inner) (F.post self.now.inner) }
        ensures { Gives (answer (opened_read what (spec.deeper (inner self.now.room))) cursor.old)
            result cursor.new }
    {
        match what {
            What::Parens => Ok(Opened::Expr(self.inside_parens(cursor)?)),
            What::TypeParens => Ok(Opened::TypeName(self.inside_type_parens(cursor)?)),
            What::AtomicParens => Ok(Opened::TypeName(self.inside_atomic_parens(cursor)?)),
            What::Index => Ok(Opened::Expr(self.inside_index(cursor)?)),
            What::Call => Ok(Opened::Exprs(self.inside_call(cursor)?)),
            What::Prefixed => Ok(Opened::Kind(self.prefix_expression(cursor)?)),
            What::Converted => Ok(Opened::Expr(self.cast(cursor)?)),
            What::Right => Ok(Opened::Expr(self.assignment(cursor)?)),
            What::Choice => {
                let (then, otherwise) = self.inside_choice(cursor)?;
                Ok(Opened::Choice(then, otherwise))
            }
            What::Members => Ok(Opened::Members(self.inside_members(cursor)?)),
            What::Constants => Ok(Opened::Constants(self.inside_constants(cursor)?)),
            What::Declarator => Ok(Opened::Declarator(self.inside_declarator(cursor)?)),
            What::Abstract => Ok(Opened::Declarator(self.inside_abstract(cursor)?)),
            What::Parameter => Ok(Opened::Declarator(self.inside_parameter(cursor)?)),
            What::Array => Ok(Opened::Size(self.inside_array(cursor)?)),
            What::Function => {
                let (parameters, scope) = self.inside_function(cursor)?;
                Ok(Opened::Parameters(parameters, scope))
            }
            What::Asserted => {
                let (condition, text) = self.inside_assertion(cursor)?;
                Ok(Opened::Asserted(condition, text))
            }
        }
    }
}

/// What a construct begins with.
pub fn starts_of(what: What) -> &'static [Terminal]
    ensures { result.now ≡ spec_starts.starts_of what }
{
    match what {
        What::Parens => &[Terminal::LeftParen],
        What::TypeParens => &[Terminal::LeftParen],
        What::AtomicParens => &[Terminal::AtomicParen],
        What::Index => &[Terminal::LeftBracket],
        What::Call => &[Terminal::LeftParen],
        What::Prefixed => &PREFIXES,
        What::Converted => &EXPRESSION_STARTS,
        What::Right => &EXPRESSION_STARTS,
        What::Choice => &[Terminal::Question],
        What::Members => &[Terminal::LeftBrace],
        What::Constants => &[Terminal::LeftBrace],
        What::Declarator => &[Terminal::LeftParen],
        What::Abstract => &[Terminal::LeftParen],
        What::Parameter => &[Terminal::LeftParen],
        What::Array => &[Terminal::LeftBracket],
        What::Function => &[Terminal::LeftParen],
        What::Asserted => &[Terminal::LeftParen],
    }
}

/// Reads a construct, where so many may be open. Where none may, its first token is too deep.
#[tactic(auto, using(crate::proofs::Rooms::nothing_opens, crate::proofs::Rooms::one_opens), unfolding(c_syntax::specs::Grammar::inner))]
pub fn construct(
    alloc: Global,
    cursor: &mut Cursor<'_>,
    room: u32,
    what: What,
) -> Result<Opened, Fault>
    ensures { Gives (answer (opened_read what (spec.inner room)) cursor.old) result cursor.new }
{
    if room == 0 {
        return Err(cursor.refusal(starts_of(what)));
    }
    Grammar {
        alloc,
        room: room - 1,
        inner: construct,
    }
    .inside(cursor, what)
}
