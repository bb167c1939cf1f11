//! Sets of qualifiers, from their words.

ghost use Rattle.std.specs.Prelude.{◌≡◌};
ghost use Rattle.c_specifiers.specs.QualifierSets.{bit_of, with_qualifiers};

use bitflags::Flags;
use c_syntax::Qualifier;
use c_types::Qualifiers;

/// The set of one qualifier.
fn set_of(qualifier: Qualifier) -> Qualifiers
    ensures { result.0 ≡ bit_of qualifier }
{
    match qualifier {
        Qualifier::Const => Qualifiers::CONST,
        Qualifier::Volatile => Qualifiers::VOLATILE,
        Qualifier::Restrict => Qualifiers::RESTRICT,
        Qualifier::Atomic => Qualifiers::ATOMIC,
    }
}

/// The set of these qualifiers.
pub fn qualifiers_of(list: &[Qualifier]) -> Qualifiers
    ensures { result.0 ≡ with_qualifiers 0 list.now }
{
    let mut set = Qualifiers::empty();
    for qualifier in list {
        set = set.union(set_of(*qualifier));
    }
    set
}
