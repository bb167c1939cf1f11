//! Types with further qualifiers.

ghost use Rattle.std.specs.Prelude.{◌≡◌, length, reverse, Some, None, IfOk, OnOk, IfNone, IfSome};
ghost use Rattle.c_types.specs.declared.ctype.CType.TheVariants.{ArrayOf};
ghost use Rattle.c_types.specs.declared.entry.Entry.TheVariants.{OfType};
ghost use Rattle.c_types.specs.Derivations.{IsCause};
ghost use Rattle.c_types.specs.Declarators.{Keeps, type_in};
ghost use Rattle.c_types.specs.Extensions.{qualified_as, type_of_part};
ghost use Rattle.c_types.specs.Whole.{IsTypeAt, IsPart, EntryFits};
ghost use Rattle.c_type_rules.specs.Qualified.{IsQualified, IsElement, element_with};

use bitflags::Flags;
use c_types::{
    Array, CType, Derivation, DeriveFault, ElementCount, Entry, Part, Qualifiers, Types,
};
use std::alloc::{AllocError, Global};

/// The array of this number, where it is one.
fn array_at(types: &Types, number: u32) -> Option<Array>
    requires { IsTypeAt types.now number }
    ensures there { IfSome result (λ a. type_in types.now number ≡ Some (ArrayOf a)) }
    ensures fits { IfSome result (λ a. EntryFits types.now (OfType (ArrayOf a))) }
    ensures none { IfNone result (IsElement (type_in types.now number)) }
{
    match types.get(number) {
        Some(Entry::OfType(CType::ArrayOf(array))) => Some(array),
        Some(
            Entry::OfType(
                CType::Void
                | CType::Integer(_)
                | CType::Enumeration(_)
                | CType::Pointer(_)
                | CType::Function(_)
                | CType::Structure(..)
                | CType::Union(..),
            ),
        )
        | Some(Entry::NoParameters | Entry::Parameters(..))
        | None => None,
    }
}

/// A part that is no array, with further qualifiers.
fn element_with(types: &Types, part: Part, set: Qualifiers) -> Part
    ensures { result ≡ element_with (type_in types.now part.number) part set }
{
    match types.get(part.number) {
        Some(Entry::OfType(CType::ArrayOf(_) | CType::Function(_))) => part,
        Some(
            Entry::OfType(
                CType::Void
                | CType::Integer(_)
                | CType::Enumeration(_)
                | CType::Pointer(_)
                | CType::Structure(..)
                | CType::Union(..),
            ),
        ) => Part {
            number: part.number,
            qualifiers: part.qualifiers.union(set),
        },
        Some(Entry::NoParameters | Entry::Parameters(..)) | None => part,
    }
}

/// Derivations in the other order.
fn outermost_first(mut derivations: Vec<Derivation>) -> Vec<Derivation>
    ensures { result.items ≡ reverse derivations.items }
{
    derivations.reverse();
    derivations
}

/// The fault where no rule is broken.
fn want_of_memory(fault: DeriveFault) -> AllocError
    requires { IsCause None fault }
{
    match fault {
        DeriveFault::NoMemory => AllocError,
        DeriveFault::Broken(_) => unreachable!(),
    }
}

/// A type with further qualifiers. Those of an array go to its innermost elements, and a function has none. It takes
/// time linear in the arrays, and doesn't recurse.
pub fn qualify(
    alloc: Global,
    types: &mut Types,
    part: Part,
    set: Qualifiers,
) -> Result<Part, AllocError>
    requires { IsPart types.old part }
    ensures qualified { IfOk result (IsQualified types.new part set) }
    ensures gives { IfOk result (λ made. made ≡ (qualified_as (length types.old)
        types.old part set.0 (type_of_part types.old part)).1) }
    ensures grown { OnOk result (types.new ≡ (qualified_as (length types.old)
        types.old part set.0 (type_of_part types.old part)).0) }
    ensures part { IfOk result (IsPart types.new) }
    ensures kept { Keeps types.old types.new }
{
    // The table is whole: an element's number is below its array's.
    let _ = types.len();
    let mut arrays = Vec::new(alloc);
    let mut element = part;
    while let Some(array) = array_at(types, element.number) {
        arrays.push(Derivation::Array(ElementCount { value: array.count }))?;
        element = array.element;
    }
    let outwards = outermost_first(arrays);
    let base = element_with(types, element, set);
    match types.derive_all(base, outwards.as_slice()) {
        Ok(made) => Ok(made),
        Err(fault) => Err(want_of_memory(fault)),
    }
}
