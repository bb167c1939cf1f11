//! Expressions, and the type names, specifiers and declarators that stand in them.
//!
//! What is repeated in the grammar is a list here: only what counts as nesting holds itself.

use crate::words::{
    BasicType, FunctionSpecifier, Operator, Prefix, Qualifier, RecordKind, Storage,
};
use c_parts::{Binding, Span};
use filc_num::BinOp;
use sqlite_items::{Boxed, Items};

/// An expression (6.5).
#[cycle(expr)]
#[derive(Drop)]
pub struct Expr {
    pub span: Span,
    pub kind: ExprKind,
}

/// What an expression is. A level of the grammar that adds nothing leaves no trace: each operator's
/// variant has at least one operator.
#[cycle(expr)]
#[derive(Drop)]
pub enum ExprKind {
    /// A name, by its number.
    Name(u32),
    /// A number: the one token of the span.
    Number,
    /// A character: the one token of the span.
    Character,
    /// Texts side by side, which are one: every token of the span.
    Text,
    /// `( inner )`
    Parens(Boxed<Expr>),
    /// An operand and the operators behind it, from left to right.
    Postfix {
        operand: Boxed<Expr>,
        operators: Items<Postfix>,
    },
    Prefix {
        operator: Prefix,
        operand: Boxed<Expr>,
    },
    /// `sizeof operand`
    SizeofExpr(Boxed<Expr>),
    /// `sizeof ( type )`
    SizeofType(Boxed<TypeName>),
    /// `_Alignof ( type )`
    AlignofType(Boxed<TypeName>),
    /// `( type ) operand`
    Cast {
        ty: Boxed<TypeName>,
        operand: Boxed<Expr>,
    },
    /// An operand and links of one level, grouped to the left: each link applies its operator to what
    /// stands before it and to its own operand.
    Chain {
        first: Boxed<Expr>,
        links: Items<Link>,
    },
    /// `condition ? then : otherwise`
    Conditional {
        condition: Boxed<Expr>,
        then: Boxed<Expr>,
        otherwise: Boxed<Expr>,
    },
    /// `target = value`, or with an operator, as `target += value`.
    Assign {
        operator: Option<BinOp>,
        target: Boxed<Expr>,
        value: Boxed<Expr>,
    },
    /// `first , rest ..`
    Comma {
        first: Boxed<Expr>,
        rest: Items<Expr>,
    },
}

/// An operator with its right operand.
#[cycle(expr)]
#[derive(Drop)]
pub struct Link {
    pub span: Span,
    pub operator: Operator,
    pub operand: Expr,
}

/// An operator behind its operand.
#[cycle(expr)]
#[derive(Drop)]
pub struct Postfix {
    pub span: Span,
    pub kind: PostfixKind,
}

/// What an operator behind its operand is. Members are given by the number of their name.
#[cycle(expr)]
#[derive(Drop)]
pub enum PostfixKind {
    Index(Boxed<Expr>),
    Call(Items<Expr>),
    Member(u32),
    Arrow(u32),
    Increment,
    Decrement,
}

/// Specifiers with an abstract declarator (6.7.7).
#[cycle(expr)]
#[derive(Drop)]
pub struct TypeName {
    pub span: Span,
    pub specifiers: Specifiers,
    pub declarator: Declarator,
}

/// Specifiers, at least one (6.7).
#[cycle(expr)]
#[derive(Drop)]
pub struct Specifiers {
    pub span: Span,
    pub list: Items<Specifier>,
}

#[cycle(expr)]
#[derive(Drop)]
pub struct Specifier {
    pub span: Span,
    pub kind: SpecifierKind,
}

/// What a specifier is.
#[cycle(expr)]
#[derive(Drop)]
pub enum SpecifierKind {
    Storage(Storage),
    Function(FunctionSpecifier),
    Qualifier(Qualifier),
    Basic(BasicType),
    /// `_Atomic ( type )`
    Atomic(Boxed<TypeName>),
    /// A structure or a union, with its tag's number, its members, or both (6.7.2.1).
    Record {
        kind: RecordKind,
        tag: Option<u32>,
        members: Option<Items<Member>>,
    },
    /// An enumeration, with its tag's number, its constants, or both (6.7.2.2).
    Enum {
        tag: Option<u32>,
        constants: Option<Items<EnumConstant>>,
    },
    /// A typedef, by the number of its name.
    TypedefName(u32),
}

/// What stands in the braces of a structure or union.
#[cycle(expr)]
#[derive(Drop)]
pub enum Member {
    Declares {
        span: Span,
        specifiers: Specifiers,
        declarators: Items<Declarator>,
    },
    Asserts(Assertion),
}

/// `_Static_assert ( condition , text ) ;` (6.7.10). `text` is every token of the text.
#[cycle(expr)]
#[derive(Drop)]
pub struct Assertion {
    pub span: Span,
    pub condition: Expr,
    pub text: Span,
}

/// A constant of an enumeration, by the number of its name.
#[cycle(expr)]
#[derive(Drop)]
pub struct EnumConstant {
    pub span: Span,
    pub name: u32,
    pub value: Option<Expr>,
}

/// A declarator (6.7.6), which has a name at its core, or an abstract one (6.7.7), which has none.
/// The suffixes come first, from left to right, and then the pointers, from right to left. `name` is
/// the number of the name at its core, through all parentheses.
#[cycle(expr)]
#[derive(Drop)]
pub struct Declarator {
    pub span: Span,
    pub name: Option<u32>,
    pub pointers: Items<Pointer>,
    pub core: Core,
    pub suffixes: Items<Suffix>,
}

/// `*` with qualifiers.
#[derive(Drop)]
pub struct Pointer {
    pub span: Span,
    pub qualifiers: Items<Qualifier>,
}

/// What a declarator's pointers and suffixes stand round.
#[cycle(expr)]
#[derive(Drop)]
pub enum Core {
    /// A name, by its number.
    Name { span: Span, name: u32 },
    /// `( declarator )`
    Parens(Boxed<Declarator>),
    /// Nothing: the declarator is abstract.
    Nothing,
}

#[cycle(expr)]
#[derive(Drop)]
pub struct Suffix {
    pub span: Span,
    pub kind: SuffixKind,
}

/// What a declarator's suffix is.
#[cycle(expr)]
#[derive(Drop)]
pub enum SuffixKind {
    /// `[ size ]`
    Array(Option<Expr>),
    /// `( parameters )`. `scope` has what the list declares, the last first: it is in scope in the
    /// body of the function.
    Function {
        parameters: Items<Parameter>,
        scope: Items<Binding>,
    },
}

#[cycle(expr)]
#[derive(Drop)]
pub struct Parameter {
    pub span: Span,
    pub specifiers: Specifiers,
    pub declarator: Declarator,
}
