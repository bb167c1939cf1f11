//! Nodes of the tree, made of their parts.

ghost use Rattle.std.specs.Prelude.{◌≡◌, ◌∷◌, ◌++◌, [], IfOk, OnOk};
ghost use Rattle.c_cursor.specs.Input.{declared, in_state};
ghost use Rattle.c_syntax.specs.Grammar as grammar;
ghost use Rattle.c_syntax.specs.Values as values;

use c_cursor::Cursor;
use c_parts::{Binding, Span};
use c_syntax::{
    Core, Declarator, Expr, ExprKind, Link, Pointer, Postfix, SpecifierKind, Storage, Suffix,
};
use filc_num::BinOp;
use sqlite_items::{Boxed, Items};
use std::alloc::{AllocError, Global};

/// One more in front of a list.
pub fn list_of<T: Drop>(alloc: Global, first: T, more: Items<T>) -> Result<Items<T>, AllocError>
    ensures { IfOk result (λ all. all ≡ first ∷ more) }
{
    let mut all = Items::new(alloc);
    all.push(first)?;
    all.append(more)?;
    Ok(all)
}

/// A chain of one level; an operand alone is itself.
pub fn chain(alloc: Global, span: Span, first: Expr, links: Items<Link>) -> Result<Expr, AllocError>
    ensures { IfOk result (λ expr. expr ≡ values.chain span first links) }
{
    if links.is_empty() {
        return Ok(first);
    }
    let kind = ExprKind::Chain {
        first: Boxed::new(alloc, first)?,
        links,
    };
    Ok(Expr { span, kind })
}

/// An operand with the operators behind it; an operand alone is itself.
pub fn postfix(
    alloc: Global,
    span: Span,
    operand: Expr,
    operators: Items<Postfix>,
) -> Result<Expr, AllocError>
    ensures { IfOk result (λ expr. expr ≡ values.postfix span operand operators) }
{
    if operators.is_empty() {
        return Ok(operand);
    }
    let kind = ExprKind::Postfix {
        operand: Boxed::new(alloc, operand)?,
        operators,
    };
    Ok(Expr { span, kind })
}

/// Expressions with commas between; one alone is itself.
pub fn comma(alloc: Global, span: Span, first: Expr, rest: Items<Expr>) -> Result<Expr, AllocError>
    ensures { IfOk result (λ expr. expr ≡ values.comma span first rest) }
{
    if rest.is_empty() {
        return Ok(first);
    }
    let kind = ExprKind::Comma {
        first: Boxed::new(alloc, first)?,
        rest,
    };
    Ok(Expr { span, kind })
}

/// A conditional; a condition alone is itself.
pub fn conditional(
    alloc: Global,
    span: Span,
    condition: Expr,
    choice: Option<(Expr, Expr)>,
) -> Result<Expr, AllocError>
    ensures { IfOk result (λ expr. expr ≡ values.conditional span condition choice) }
{
    match choice {
        None => Ok(condition),
        Some((then, otherwise)) => {
            let kind = ExprKind::Conditional {
                condition: Boxed::new(alloc, condition)?,
                then: Boxed::new(alloc, then)?,
                otherwise: Boxed::new(alloc, otherwise)?,
            };
            Ok(Expr { span, kind })
        }
    }
}

/// An assignment, from the beginning of its left side to the end of its right.
pub fn assign(
    alloc: Global,
    target: Expr,
    operator: Option<BinOp>,
    value: Expr,
) -> Result<Expr, AllocError>
    ensures { IfOk result (λ expr. expr ≡ values.assign_of (target, (operator, value))) }
{
    let span = Span {
        line: target.span.line,
        first: target.span.first,
        last: value.span.last,
    };
    let kind = ExprKind::Assign {
        operator,
        target: Boxed::new(alloc, target)?,
        value: Boxed::new(alloc, value)?,
    };
    Ok(Expr { span, kind })
}

/// Whether a conditional is a unary alone.
pub fn is_unary(expr: &Expr) -> bool
    ensures { result ≡ grammar.is_unary expr.now }
{
    match &expr.kind {
        ExprKind::Cast { .. } => false,
        ExprKind::Chain { .. } => false,
        ExprKind::Conditional { .. } => false,
        ExprKind::Assign { .. } => false,
        ExprKind::Comma { .. } => false,
        ExprKind::Name(_) => true,
        ExprKind::Number => true,
        ExprKind::Character => true,
        ExprKind::Text => true,
        ExprKind::Parens(_) => true,
        ExprKind::Postfix { .. } => true,
        ExprKind::Prefix { .. } => true,
        ExprKind::SizeofExpr(_) => true,
        ExprKind::SizeofType(_) => true,
        ExprKind::AlignofType(_) => true,
    }
}

/// The number of the name at a declarator's core.
fn core_name(core: &Core) -> Option<u32>
    ensures { result ≡ values.core_name core.now }
{
    match core {
        Core::Name { name, .. } => Some(*name),
        Core::Parens(inner) => inner.get().name,
        Core::Nothing => None,
    }
}

/// A declarator.
pub fn declarator(
    span: Span,
    pointers: Items<Pointer>,
    core: Core,
    suffixes: Items<Suffix>,
) -> Declarator
    ensures { result ≡ values.declarator_of (span, (pointers, (core, suffixes))) }
{
    let name = core_name(&core);
    Declarator {
        span,
        name,
        pointers,
        core,
        suffixes,
    }
}

/// Whether a specifier is a type.
pub fn is_type(kind: &SpecifierKind) -> bool
    ensures { result ≡ values.is_type_kind kind.now }
{
    match kind {
        SpecifierKind::Storage(_) => false,
        SpecifierKind::Function(_) => false,
        SpecifierKind::Qualifier(_) => false,
        SpecifierKind::Basic(_) => true,
        SpecifierKind::Atomic(_) => true,
        SpecifierKind::Record { .. } => true,
        SpecifierKind::Enum { .. } => true,
        SpecifierKind::TypedefName(_) => true,
    }
}

/// Whether a specifier is the word `typedef`.
pub fn is_typedef(kind: &SpecifierKind) -> bool
    ensures { result ≡ values.is_typedef_kind kind.now }
{
    match kind {
        SpecifierKind::Storage(Storage::Typedef) => true,
        SpecifierKind::Storage(Storage::Extern) => false,
        SpecifierKind::Storage(Storage::Static) => false,
        SpecifierKind::Storage(Storage::Auto) => false,
        SpecifierKind::Storage(Storage::Register) => false,
        SpecifierKind::Function(_) => false,
        SpecifierKind::Qualifier(_) => false,
        SpecifierKind::Basic(_) => false,
        SpecifierKind::Atomic(_) => false,
        SpecifierKind::Record { .. } => false,
        SpecifierKind::Enum { .. } => false,
        SpecifierKind::TypedefName(_) => false,
    }
}

/// A name is declared, where there is one, as the specifiers before say.
pub fn declare_name(cursor: &mut Cursor<'_>, name: Option<u32>) -> Result<(), AllocError>
    ensures { OnOk result (cursor.new ≡ in_state cursor.old
        (declared (values.named_scope cursor.old.state.typedef name) cursor.old.state)) }
{
    match name {
        None => Ok(()),
        Some(name) => {
            let is_typedef = cursor.is_typedef();
            cursor.declare(Binding { name, is_typedef })
        }
    }
}

/// A value that is there goes to the end of a list.
pub fn keep<T: Drop>(list: &mut Items<T>, one: Option<T>) -> Result<(), AllocError>
    ensures { OnOk result (list.new ≡ list.old ++ values.present (one ∷ [])) }
{
    match one {
        None => Ok(()),
        Some(one) => {
            list.push(one)?;
            Ok(())
        }
    }
}
