//! The types that declarators make, put into the table one derivation after the other.
//!
//! A declarator may have a hundred thousand derivations, and its type is as many entries of the table: nothing
//! here recurses, and each step searches the table once.

ghost use Rattle.std.specs.Prelude.{◌≡◌};

use crate::ctype::{Array, CType, ElementCount, Extent, Part, Signature};
use crate::derivation::{Derivation, Shape, lowest_rule_of};
use crate::entry::Entry;
use crate::qualifier_set::Qualifiers;
use crate::rule::DeriveFault;
use crate::sizes::extent_of;
use crate::table::Types;
use bitflags::Flags;
use std::alloc::AllocError;

impl Types {
    ghost use Rattle.std.specs.Prelude.{◌≡◌, ◌≢◌, ℕ, Some, None, All, IfOk, IfErr, IsSomeAnd, OnOk, OnErr, slice_get};
    ghost use Rattle.c_types.specs.Derivations.{rule_of, lowest_rule, IsCause};
    ghost use Rattle.c_types.specs.declared.entry.Entry.TheVariants.{OfType};
    ghost use Rattle.c_types.specs.Extensions.{type_of_part, derived_once, derived_each, list_from, adjusted_as};
    ghost use Rattle.c_types.specs.Whole.{IsTypeAt, IsListAt, IsPart, DerivationFits, EntryFits};
    ghost use Rattle.c_types.specs.Declarators.{IsTypeEntry, Keeps, GrowsByOne, Makes, IsDerived, IsParameterList, IsAdjusted, shape_at, type_of_entry};

    /// The type of this number.
    fn type_at(&self, number: u32) -> CType
        requires { IsSomeAnd (slice_get self.now number) IsTypeEntry }
        ensures value { Some result ≡ type_of_entry (slice_get self.now number) }
        ensures fits { EntryFits self.now (OfType result) }
    {
        match self.get(number) {
            Some(Entry::OfType(ty)) => ty,
            Some(Entry::NoParameters | Entry::Parameters(..)) | None => unreachable!(),
        }
    }

    /// The part that a derivation makes of a part. The table grows by one entry at most, and not at all where this
    /// is refused.
    pub fn derive(&mut self, of: Part, derivation: Derivation) -> Result<Part, DeriveFault>
        requires part { IsPart self.old of }
        requires list { DerivationFits self.old derivation }
        ensures made { IfOk result (λ made. Makes self.new of derivation made) }
        ensures gives { IfOk result (λ made. made ≡ (derived_once self.old of derivation).1) }
        ensures grown { OnOk result (self.new ≡ (derived_once self.old of derivation).0) }
        ensures part { IfOk result (IsPart self.new) }
        ensures fine { OnOk result (rule_of (shape_at self.old of.number) derivation ≡ None) }
        ensures fault { IfErr result (IsCause (rule_of (shape_at self.old of.number) derivation)) }
        ensures kept { Keeps self.old self.new }
        ensures table { GrowsByOne self.old self.new }
        ensures err { OnErr result (self.new ≡ self.old) }
    {
        let ty = self.type_at(of.number);
        let shape = Shape::of(&ty);
        if let Some(rule) = shape.rule_of(derivation) {
            return Err(DeriveFault::Broken(rule));
        }
        let (made, qualifiers) = match derivation {
            Derivation::Pointer(qualifiers) => (CType::Pointer(of), qualifiers),
            Derivation::Array(count) => match extent_of(&ty) {
                Ok(extent) => {
                    let array = array_of(of, extent, count);
                    (CType::ArrayOf(array), Qualifiers::empty())
                }
                Err(_) => unreachable!(),
            },
            Derivation::OpenArray | Derivation::BadArray | Derivation::BadFunction(_) => {
                unreachable!()
            },
            Derivation::Function { parameters, more } => {
                let signature = Signature {
                    result: of.number,
                    parameters,
                    more,
                };
                (CType::Function(signature), Qualifiers::empty())
            }
        };
        match self.number_of(Entry::OfType(made)) {
            Ok(number) => Ok(Part { number, qualifiers }),
            Err(_) => Err(DeriveFault::NoMemory),
        }
    }

    /// The part that a declarator's derivations make of a base type, the first of them first. The fault is the
    /// first of all rules that the derivations break. The table may have grown where there is no memory.
    pub fn derive_all(
        &mut self,
        base: Part,
        derivations: &[Derivation],
    ) -> Result<Part, DeriveFault>
        requires part { IsPart self.old base }
        requires lists { All (DerivationFits self.old) derivations.now }
        ensures made { IfOk result (λ made. IsDerived self.new base derivations.now made) }
        ensures gives { IfOk result (λ made.
            made ≡ (derived_each self.old base derivations.now).1) }
        ensures grown { OnOk result
            (self.new ≡ (derived_each self.old base derivations.now).0) }
        ensures part { IfOk result (IsPart self.new) }
        ensures fine { OnOk result
            (lowest_rule (shape_at self.old base.number) None derivations.now ≡ None) }
        ensures fault { IfErr result
            (IsCause (lowest_rule (shape_at self.old base.number) None derivations.now)) }
        ensures kept { Keeps self.old self.new }
    {
        let shape = Shape::of(&self.type_at(base.number));
        if let Some(rule) = lowest_rule_of(shape, derivations) {
            return Err(DeriveFault::Broken(rule));
        }
        let mut part = base;
        for derivation in derivations {
            match self.derive(part, *derivation) {
                Ok(next) => part = next,
                Err(fault) => return Err(fault),
            }
        }
        Ok(part)
    }

    /// The number of a list of parameters, by the numbers of their types.
    pub fn parameter_list(&mut self, types: &[u32]) -> Result<u32, AllocError>
        requires { All (IsTypeAt self.old) types.now }
        ensures list { IfOk result (λ n. IsParameterList self.new types.now n) }
        ensures gives { IfOk result (λ n. n ≡ (list_from self.old types.now).1) }
        ensures grown { OnOk result (self.new ≡ (list_from self.old types.now).0) }
        ensures number { IfOk result (IsListAt self.new) }
        ensures kept { Keeps self.old self.new }
    {
        let mut list = self.number_of(Entry::NoParameters)?;
        for index in (0..types.len()).rev() {
            list = self.number_of(Entry::Parameters(types[index], list))?;
        }
        Ok(list)
    }

    /// What a parameter of this type is: an array is a pointer to its first element, and a function a pointer to
    /// it (C11 6.7.6.3p7).
    pub fn adjust(&mut self, parameter: Part) -> Result<Part, AllocError>
        requires { IsPart self.old parameter }
        ensures adjusted { IfOk result (λ made. IsAdjusted self.old self.new parameter made) }
        ensures gives { IfOk result (λ made. made
            ≡ (adjusted_as self.old parameter (type_of_part self.old parameter)).1) }
        ensures grown { OnOk result (self.new
            ≡ (adjusted_as self.old parameter (type_of_part self.old parameter)).0) }
        ensures part { IfOk result (IsPart self.new) }
        ensures kept { Keeps self.old self.new }
        ensures table { GrowsByOne self.old self.new }
        ensures err { OnErr result (self.new ≡ self.old) }
    {
        let to = match self.type_at(parameter.number) {
            CType::ArrayOf(array) => array.element,
            CType::Function(_) => parameter,
            CType::Void
            | CType::Integer(_)
            | CType::Enumeration(_)
            | CType::Pointer(_)
            | CType::Structure(..)
            | CType::Union(..) => return Ok(parameter),
        };
        let number = self.number_of(Entry::OfType(CType::Pointer(to)))?;
        Ok(Part {
            number,
            qualifiers: Qualifiers::empty(),
        })
    }
}

/// An array of so many of this element, which has this extent.
fn array_of(element: Part, extent: Extent, count: ElementCount) -> Array
    ensures element { result.element ≡ element }
    ensures extent { result.extent ≡ extent }
    ensures count { result.count ≡ count.value }
{
    Array {
        element,
        extent,
        count: count.value,
    }
}
