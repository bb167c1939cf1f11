//! What `_Atomic` may stand on.

ghost use Rattle.std.specs.Prelude.{◌≡◌};
ghost use Rattle.c_types.specs.Declarators.{type_in};
ghost use Rattle.c_type_rules.specs.Atomic.{may_be_atomic, rule_of_set, atomic_type};

use bitflags::Flags;
use c_rules::Rule;
use c_types::{CType, Entry, Part, Qualifiers, Types};

/// Whether there is an atomic type of this one: an integer, an enumeration or a pointer.
pub fn may_be_atomic(ty: CType) -> bool
    ensures { result ≡ may_be_atomic ty }
{
    match ty {
        CType::Integer(_) | CType::Enumeration(_) | CType::Pointer(_) => true,
        CType::Void
        | CType::ArrayOf(_)
        | CType::Function(_)
        | CType::Structure(..)
        | CType::Union(..) => false,
    }
}

/// The rule that qualifiers break beside a type.
pub fn rule_of_set(ty: CType, set: Qualifiers) -> Option<Rule>
    ensures { result ≡ rule_of_set ty set }
{
    if set.contains(Qualifiers::ATOMIC) && !may_be_atomic(ty) {
        Some(Rule::BadAtomic)
    } else {
        None
    }
}

/// The type of this number.
pub fn type_of(types: &Types, number: u32) -> Option<CType>
    ensures { result ≡ type_in types.now number }
{
    match types.get(number) {
        Some(Entry::OfType(ty)) => Some(ty),
        Some(Entry::NoParameters | Entry::Parameters(..)) | None => None,
    }
}

/// What `_Atomic` round the name of a type makes of it (C11 6.7.2.4).
pub fn atomic_type(types: &Types, part: Part) -> Result<Part, Rule>
    ensures { result ≡ atomic_type (type_in types.now part.number) part }
{
    match type_of(types, part.number) {
        Some(ty) if may_be_atomic(ty) => Ok(Part {
            number: part.number,
            qualifiers: part.qualifiers.union(Qualifiers::ATOMIC),
        }),
        _ => Err(Rule::BadAtomic),
    }
}
