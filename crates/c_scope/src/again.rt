//! Which declarations of one name may stand together.

ghost use Rattle.std.specs.Prelude.{◌≡◌, ◌&&◌, not};
ghost use Rattle.c_scope.specs.Again.{same_linkage, linkage_of, has_linkage, is_linked, settled_linkage, with_linkage, is_full, further, is_one_thing, merge, behind, beside, may_be_linked, declared_as, same_part};

use c_tree::{Declared, DeclaredFunction, DeclaredObject, DeclaredTag, Definition, Linkage};
use c_types::Part;

fn is_same_part(a: Part, b: Part) -> bool
    ensures { result ≡ same_part a b }
{
    a.is_same_unqualified(b) && a.qualifiers == b.qualifiers
}

fn is_same_linkage(a: Linkage, b: Linkage) -> bool
    ensures { result ≡ same_linkage a b }
{
    matches!(
        (a, b),
        (Linkage::NoLinkage, Linkage::NoLinkage)
            | (Linkage::Internal, Linkage::Internal)
            | (Linkage::External, Linkage::External)
            | (Linkage::Prior, Linkage::Prior)
    )
}

fn linkage(declared: Declared) -> Linkage
    ensures { result ≡ linkage_of declared }
{
    match declared {
        Declared::Object(object) => object.linkage,
        Declared::Function(function) => function.linkage,
        Declared::Typedef(_) | Declared::Constant(_) | Declared::Tag(_) => Linkage::NoLinkage,
    }
}

/// Whether the declarations of this name with linkage are of one thing.
pub fn has_its_linkage(declared: Declared) -> bool
    ensures { result ≡ has_linkage declared }
{
    match linkage(declared) {
        Linkage::NoLinkage => false,
        Linkage::Internal | Linkage::External | Linkage::Prior => true,
    }
}

/// The linkage of a declaration behind what stood before.
fn linkage_behind(before: Option<Declared>, own: Linkage) -> Linkage
    ensures { result ≡ settled_linkage before own }
{
    match (own, before) {
        (Linkage::Prior, None) => Linkage::External,
        (Linkage::Prior, Some(before)) => linkage(before),
        _ => own,
    }
}

fn with_its_linkage(linkage: Linkage, declared: Declared) -> Declared
    ensures { result ≡ with_linkage linkage declared }
{
    match declared {
        Declared::Object(object) => Declared::Object(DeclaredObject { linkage, ..object }),
        Declared::Function(function) => Declared::Function(DeclaredFunction {
            linkage,
            ..function
        }),
        _ => declared,
    }
}

/// Whether a declaration defines an object by itself.
fn is_full(definition: Definition) -> bool
    ensures { result ≡ is_full definition }
{
    match definition {
        Definition::None | Definition::Tentative => false,
        Definition::Full => true,
    }
}

/// How far two declarations define an object.
fn further(a: Definition, b: Definition) -> Definition
    ensures { result ≡ further a b }
{
    match (a, b) {
        (Definition::None, _) => b,
        (Definition::Tentative, Definition::None) => a,
        (Definition::Tentative, _) => b,
        (Definition::Full, _) => a,
    }
}

/// Whether declarations of one type may be of one thing, by their linkages and whether each defines it.
fn may_merge(before: Linkage, is_defined: bool, linkage: Linkage, defines: bool) -> bool
    ensures { result ≡ (same_linkage before linkage && not (is_defined && defines)) }
{
    is_same_linkage(before, linkage) && !(is_defined && defines)
}

/// What two declarations with linkage declare together.
fn join(before: Declared, what: Declared) -> Option<Declared>
    ensures { result ≡ behind (Some before) what }
{
    match (before, what) {
        (Declared::Object(a), Declared::Object(b))
            if is_same_part(a.ty, b.ty)
                && may_merge(
                    a.linkage,
                    is_full(a.definition),
                    b.linkage,
                    is_full(b.definition),
                ) => {
            Some(Declared::Object(DeclaredObject {
                definition: further(a.definition, b.definition),
                ..a
            }))
        }
        (Declared::Function(a), Declared::Function(b))
            if a.ty == b.ty && may_merge(a.linkage, a.is_defined, b.linkage, b.is_defined) => {
            Some(Declared::Function(DeclaredFunction {
                is_defined: a.is_defined || b.is_defined,
                ..a
            }))
        }
        _ => None,
    }
}

/// What a declaration without linkage declares behind what its block has.
fn redeclare(before: Declared, what: Declared) -> Option<Declared>
    ensures { result ≡ beside (Some before) what }
{
    match (before, what) {
        (Declared::Typedef(a), Declared::Typedef(b)) if is_same_part(a, b) => Some(before),
        (Declared::Tag(a), Declared::Tag(b)) if !(a.is_listed && b.is_listed) => {
            Some(Declared::Tag(DeclaredTag {
                is_listed: a.is_listed || b.is_listed,
                ..a
            }))
        }
        _ => None,
    }
}

/// What a declaration makes its name stand for, or nothing where it is declared again. `here` is what its
/// block has the name stand for, and `entity` what its declarations with linkage have declared.
pub fn declaration(
    here: Option<Declared>,
    entity: Option<Declared>,
    what: Declared,
) -> Option<Declared>
    ensures { result ≡ declared_as here entity what }
{
    if has_its_linkage(what) {
        if let Some(before) = here
            && !has_its_linkage(before)
        {
            return None;
        }
        let own = linkage_behind(entity, linkage(what));
        let what = with_its_linkage(own, what);
        match entity {
            None => Some(what),
            Some(before) => join(before, what),
        }
    } else {
        match here {
            None => Some(what),
            Some(before) => redeclare(before, what),
        }
    }
}
