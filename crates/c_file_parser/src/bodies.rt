//! What is in scope in a function's body.

ghost use Rattle.std.specs.Prelude.{◌≡◌, None, Some, MatchOption};
ghost use Rattle.c_syntax.specs.Bodies as spec;
ghost use Rattle.c_file_parser.specs.Nearest as near;

use c_parts::Binding;
use c_syntax::{Core, Declarator, Suffix, SuffixKind};

/// What a suffix puts in scope: what its parameters declare, the last first.
fn suffix_scope(suffix: &Suffix) -> &[Binding]
    ensures { result.now ≡ near.suffix_scope suffix.now }
{
    match &suffix.kind {
        SuffixKind::Array(_) => &[],
        SuffixKind::Function { scope, .. } => scope.as_slice(),
    }
}

/// What a declarator's own pointers and suffixes put in scope; None where it has none.
fn own_scope(declarator: &Declarator) -> Option<&[Binding]>
    ensures { MatchOption result (near.own declarator.now ≡ None)
        (λ scope. near.own declarator.now ≡ Some scope.now) }
{
    match declarator.suffixes.as_slice().first() {
        Some(suffix) => Some(suffix_scope(suffix)),
        None if declarator.pointers.is_empty() => None,
        None => Some(&[]),
    }
}

/// What stands nearest to a declarator's name puts in scope; None where nothing stands there. It recurses by
/// the parentheses round the name, which nest as deep as constructs may.
#[tactic(auto, using(crate::proofs::BodyScopes::nearest_whole, crate::proofs::BodyScopes::nearest_parens))]
fn nearest_scope(declarator: &Declarator) -> Option<&[Binding]>
    ensures { MatchOption result (near.nearest declarator.now ≡ None)
        (λ scope. near.nearest declarator.now ≡ Some scope.now) }
{
    match &declarator.core {
        Core::Name { .. } | Core::Nothing => own_scope(declarator),
        Core::Parens(inner) => match nearest_scope(inner.get()) {
            Some(scope) => Some(scope),
            None => own_scope(declarator),
        },
    }
}

/// What the parameter list nearest to a declarator's name declares, the last first; nothing where
/// something else stands nearest.
#[tactic(auto, using(crate::proofs::BodyScopes::body_scope_nearest))]
pub fn body_scope(declarator: &Declarator) -> &[Binding]
    ensures { result.now ≡ spec.body_scope declarator.now }
{
    match nearest_scope(declarator) {
        Some(scope) => scope,
        None => &[],
    }
}
