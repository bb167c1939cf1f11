//! Declarations, statements and files.
//!
//! Statements are lists in a block, and initialisers are lists in braces: only what counts as nesting
//! holds itself.

use crate::expr::{Assertion, Declarator, Expr, Specifiers};
use c_parts::Span;
use sqlite_items::{Boxed, Items};

/// A file (6.9): what stands before its End.
#[derive(Drop)]
pub struct File {
    pub items: Items<External>,
}

/// What a file consists of.
#[derive(Drop)]
pub enum External {
    Function(Function),
    Declaration(Declaration),
    Assertion(Assertion),
}

/// What stands behind the specifiers of a function or of a declaration that isn't in a block: a
/// declarator and its body, or any number of declarators.
#[derive(Drop)]
pub enum Tail {
    Function { declarator: Declarator, body: Block },
    Declaration(Items<InitDeclarator>),
}

/// A function with its body (6.9.1).
#[derive(Drop)]
pub struct Function {
    pub span: Span,
    pub specifiers: Specifiers,
    pub declarator: Declarator,
    pub body: Block,
}

/// A declaration (6.7). Its declarators may be none.
#[derive(Drop)]
pub struct Declaration {
    pub span: Span,
    pub specifiers: Specifiers,
    pub declarators: Items<InitDeclarator>,
}

/// A declarator, with its initialiser where it has one.
#[derive(Drop)]
pub struct InitDeclarator {
    pub span: Span,
    pub declarator: Declarator,
    pub initialiser: Option<Initialiser>,
}

/// An initialiser (6.7.9): an expression, or several in braces.
#[cycle(initialiser)]
#[derive(Drop)]
pub enum Initialiser {
    Expression(Expr),
    List {
        span: Span,
        list: Items<Initialiser>,
    },
}

/// `{ items }` (6.8.2)
#[cycle(statement)]
#[derive(Drop)]
pub struct Block {
    pub span: Span,
    pub items: Items<BlockItem>,
}

/// What stands in a block.
#[cycle(statement)]
#[derive(Drop)]
pub enum BlockItem {
    Declaration(Declaration),
    Assertion(Assertion),
    Statement(Statement),
}

/// A statement (6.8).
#[cycle(statement)]
#[derive(Drop)]
pub struct Statement {
    pub span: Span,
    pub kind: StatementKind,
}

/// What a statement is.
#[cycle(statement)]
#[derive(Drop)]
pub enum StatementKind {
    Block(Block),
    /// `;`
    Empty,
    Expression(Expr),
    If {
        condition: Expr,
        then: Boxed<Statement>,
        otherwise: Option<Boxed<Statement>>,
    },
    While {
        condition: Expr,
        body: Boxed<Statement>,
    },
    Do {
        body: Boxed<Statement>,
        condition: Expr,
    },
    For {
        start: ForStart,
        condition: Option<Expr>,
        step: Option<Expr>,
        body: Boxed<Statement>,
    },
    Switch {
        value: Expr,
        items: Items<SwitchItem>,
    },
    Break,
    Continue,
    Return(Option<Expr>),
}

/// What a `for` begins with.
#[derive(Drop)]
pub enum ForStart {
    Declaration(Declaration),
    Expression(Option<Expr>),
}

/// What stands in the braces of a `switch`.
#[cycle(statement)]
#[derive(Drop)]
pub enum SwitchItem {
    /// `case value :`
    Case { span: Span, value: Expr },
    /// `default :`
    Default(Span),
    Declaration(Declaration),
    Assertion(Assertion),
    Statement(Statement),
}
