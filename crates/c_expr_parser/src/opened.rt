//! The constructs that count as nesting, and what reading one gives.

use c_parts::{Binding, Span};
use c_syntax::{Declarator, EnumConstant, Expr, ExprKind, Member, Parameter, TypeName};
use sqlite_items::Items;

/// A construct that counts as nesting.
#[derive(Clone, Copy, Debug, PartialEq, Eq)]
pub enum What {
    /// `( expression )`
    Parens,
    /// `( typename )`
    TypeParens,
    /// `( typename )` behind `_Atomic`
    AtomicParens,
    /// `[ expression ]`
    Index,
    /// `( arguments )`
    Call,
    /// A prefix operator and its operand.
    Prefixed,
    /// What a cast converts.
    Converted,
    /// The right side of an assignment.
    Right,
    /// `? expression : conditional`
    Choice,
    /// The members of a structure or union.
    Members,
    /// The constants of an enumeration.
    Constants,
    /// `( declarator )`
    Declarator,
    /// `( abstract declarator )`
    Abstract,
    /// `( declarator )` of a parameter, abstract or not
    Parameter,
    /// `[ size ]`
    Array,
    /// `( parameters )`
    Function,
    /// `( condition , text )`
    Asserted,
}

/// What reading a construct gives.
#[derive(Drop)]
pub enum Opened {
    Expr(Expr),
    TypeName(TypeName),
    Exprs(Items<Expr>),
    Kind(ExprKind),
    Choice(Expr, Expr),
    Members(Items<Member>),
    Constants(Items<EnumConstant>),
    Declarator(Declarator),
    Size(Option<Expr>),
    Parameters(Items<Parameter>, Items<Binding>),
    Asserted(Expr, Span),
}
