//! Nodes of the tree, made of their parts.

ghost use Rattle.std.specs.Prelude.{◌≡◌, ◌∷◌, ◌++◌, [], IfOk, OnOk};
ghost use Rattle.c_syntax.specs.Files as spec;
ghost use Rattle.c_syntax.specs.Values as values;
ghost use Rattle.c_expr_parser.specs.Refusals as refusals;

use c_cursor::Fault;
use c_expr_parser::Refusal;
use c_parts::Span;
use c_syntax::{
    Declaration, Declarator, External, Function, InitDeclarator, Initialiser, Specifiers, Tail,
};
use sqlite_items::Items;
use std::alloc::{AllocError, Global};

/// One more in front of a list.
pub fn list_of<T: Drop>(alloc: Global, first: T, more: Items<T>) -> Result<Items<T>, AllocError>
    ensures { IfOk result (λ all. all ≡ first ∷ more) }
{
    let mut all = Items::new(alloc);
    all.push(first)?;
    all.append(more)?;
    Ok(all)
}

/// A value that is there goes to the end of a list.
pub fn keep<T: Drop>(list: &mut Items<T>, one: Option<T>) -> Result<(), AllocError>
    ensures { OnOk result (list.new ≡ list.old ++ values.present (one ∷ [])) }
{
    match one {
        None => Ok(()),
        Some(one) => {
            list.push(one)?;
            Ok(())
        }
    }
}

fn initialiser_span(initialiser: &Initialiser) -> Span
    ensures { result ≡ spec.initialiser_span initialiser.now }
{
    match initialiser {
        Initialiser::Expression(value) => value.span,
        Initialiser::List { span, .. } => *span,
    }
}

/// A declarator with the initialiser after it, or none.
pub fn init_with(declarator: Declarator, initialiser: Option<Initialiser>) -> InitDeclarator
    ensures { result ≡ spec.init_with declarator initialiser }
{
    let own = declarator.span;
    let span = match &initialiser {
        None => own,
        Some(value) => Span {
            line: own.line,
            first: own.first,
            last: initialiser_span(value).last,
        },
    };
    InitDeclarator {
        span,
        declarator,
        initialiser,
    }
}

/// A function or a declaration, by what stands after its specifiers.
pub fn external_of(span: Span, specifiers: Specifiers, tail: Tail) -> External
    ensures { result ≡ spec.external_of (span, (specifiers, tail)) }
{
    match tail {
        Tail::Function { declarator, body } => External::Function(Function {
            span,
            specifiers,
            declarator,
            body,
        }),
        Tail::Declaration(declarators) => External::Declaration(Declaration {
            span,
            specifiers,
            declarators,
        }),
    }
}

/// The refusal of a fault, at the token of this number.
pub fn refusal_at(fault: Fault, place: usize) -> Refusal
    ensures { result ≡ refusals.refusal_of fault place }
{
    match fault {
        Fault::Syntax => Refusal::Syntax(place),
        Fault::Deep => Refusal::Deep(place),
        Fault::NoMemory => Refusal::NoMemory,
    }
}
