//! Typedefs' names and tags in specifiers.

ghost use Rattle.std.specs.Prelude.{◌≡◌};
ghost use Rattle.c_scope.specs.Blocks.{visible};
ghost use Rattle.c_scope.specs.Scopes.{blocks_in};
ghost use Rattle.c_specifiers.specs.NamesOfTypes.{typedef_type, tag_type, same_tag};

use c_scope::{Scopes, Space};
use c_tree::Declared;
use c_types::{Part, Tag};

/// Why a name in specifiers stands for no type.
#[derive(Clone, Copy, Debug, PartialEq, Eq)]
pub enum NameFault {
    /// No visible declaration has it.
    Unknown,
    /// It stands for something else than a type.
    NoType,
    /// The tag is of another kind, or an enumeration's that has no names before it.
    WrongTag,
}

/// The type that a typedef's name stands for.
pub fn typedef_type(scopes: &Scopes, name: &[u8]) -> Result<Part, NameFault>
    ensures { result ≡ typedef_type (visible name.now scopes.now.ordinary) }
{
    match scopes.look_up(Space::Ordinary, name) {
        Ok(Declared::Typedef(ty)) => Ok(*ty),
        Ok(_) => Err(NameFault::NoType),
        Err(_) => Err(NameFault::Unknown),
    }
}

/// The number of the type that a tag without a list stands for, or nothing where it is to be declared.
pub fn tag_type(scopes: &Scopes, kind: Tag, name: &[u8]) -> Result<Option<u32>, NameFault>
    ensures { result ≡ tag_type kind (visible name.now scopes.now.tags) }
{
    match scopes.look_up(Space::Tag, name) {
        Ok(Declared::Tag(tag)) if is_same_tag(kind, tag.kind) => Ok(Some(tag.ty)),
        Ok(_) => Err(NameFault::WrongTag),
        Err(_) if matches!(kind, Tag::Enumeration) => Err(NameFault::WrongTag),
        Err(_) => Ok(None),
    }
}

fn is_same_tag(a: Tag, b: Tag) -> bool
    ensures { result ≡ same_tag a b }
{
    matches!(
        (a, b),
        (Tag::Structure, Tag::Structure)
            | (Tag::Union, Tag::Union)
            | (Tag::Enumeration, Tag::Enumeration)
    )
}
