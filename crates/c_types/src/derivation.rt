//! What a declarator's parts make of a type, and which of them are allowed.

ghost use Rattle.std.specs.Prelude.{◌≡◌, None};
ghost use Rattle.c_types.specs.Declarators.{shape_of_any};
ghost use Rattle.c_types.specs.Sizes.{room_in, room_of};
ghost use Rattle.c_types.specs.Derivations.{shape_in, shape_of, may_be_result, shape_after, rule_of, rule_of_elements, rule_of_result, lowest, lowest_rule, room_of_elements, known_room_in, known_room_of_elements};

use crate::ctype::{CType, ElementCount, Extent, MOST_OBJECT_BYTES, TypeFault};
use crate::qualifier_set::Qualifiers;
use crate::rule::TypeRule;
use crate::sizes::extent_of;

/// What a part of a declarator makes of a type.
#[derive(Clone, Copy, Debug, PartialEq, Eq)]
pub enum Derivation {
    /// `*` with its qualifiers: a pointer to it.
    Pointer(Qualifiers),
    /// `[count]`: an array of so many of it.
    Array(ElementCount),
    /// `[]`: an array of a size that isn't said. There is no such type; only where this comes last may the
    /// size come from elsewhere, or a pointer take the array's place.
    OpenArray,
    /// `[size]` with a size that is no count: there is no such type.
    BadArray,
    /// `(parameters)`: a function that gives it, by the number of its list of parameters.
    Function { parameters: u32, more: bool },
    /// `(parameters)` of which one breaks this rule: there is no such type.
    BadFunction(TypeRule),
}

/// What decides of a type whether a derivation may follow it.
#[derive(Clone, Copy)]
pub struct Shape {
    /// Nothing where it isn't known, since a size in it is bad.
    pub extent: Option<Result<Extent, TypeFault>>,
    pub may_be_result: bool,
}

impl Shape {
    /// The shape of a type.
    pub fn of(ty: &CType) -> Shape
        ensures { shape_in result ≡ shape_of ty.now }
    {
        Shape {
            extent: Some(extent_of(ty)),
            may_be_result: match ty {
                CType::Void | CType::Integer(_) | CType::Enumeration(_) | CType::Pointer(_) => true,
                CType::ArrayOf(_) | CType::Function(_) | CType::Structure(..) | CType::Union(..) =>
                    false,
            },
        }
    }

    /// The shape of what is no type: nothing may follow it but a pointer.
    pub fn of_nothing() -> Shape
        ensures { shape_in result ≡ shape_of_any None }
    {
        Shape {
            extent: Some(Err(TypeFault::Incomplete)),
            may_be_result: false,
        }
    }

    /// The shape of what a derivation makes of a type of this shape.
    pub fn after(self, derivation: Derivation) -> Shape
        ensures { shape_in result ≡ shape_after (shape_in self) derivation }
    {
        match derivation {
            Derivation::Pointer(_) => Shape {
                extent: Some(Ok(Extent { size: 8, align: 8 })),
                may_be_result: true,
            },
            Derivation::Array(count) => Shape {
                extent: known_extent_of_elements(count, self.extent),
                may_be_result: false,
            },
            Derivation::OpenArray | Derivation::BadArray => Shape {
                extent: None,
                may_be_result: false,
            },
            Derivation::Function { .. } | Derivation::BadFunction(_) => Shape {
                extent: Some(Err(TypeFault::Incomplete)),
                may_be_result: false,
            },
        }
    }

    /// The first of the rules that a derivation breaks behind a type of this shape.
    pub fn rule_of(self, derivation: Derivation) -> Option<TypeRule>
        ensures { result ≡ rule_of (shape_in self) derivation }
    {
        match derivation {
            Derivation::Pointer(_) => None,
            Derivation::Array(count) => {
                rule_of_elements(known_extent_of_elements(count, self.extent))
            }
            Derivation::OpenArray | Derivation::BadArray => {
                lowest_of(rule_of_elements(self.extent), Some(TypeRule::BadSize))
            }
            Derivation::Function { .. } => self.rule_of_result(),
            Derivation::BadFunction(broken) => lowest_of(Some(broken), self.rule_of_result()),
        }
    }

    /// The rule that a function breaks that gives a type of this shape.
    fn rule_of_result(self) -> Option<TypeRule>
        ensures { result ≡ rule_of_result self.may_be_result }
    {
        if self.may_be_result {
            None
        } else {
            Some(TypeRule::BadFunction)
        }
    }
}

/// The rule that elements of this extent break.
fn rule_of_elements(extent: Option<Result<Extent, TypeFault>>) -> Option<TypeRule>
    ensures { result ≡ rule_of_elements (known_room_in extent) }
{
    match extent {
        None | Some(Ok(_)) => None,
        Some(Err(TypeFault::Incomplete)) => Some(TypeRule::Incomplete),
        Some(Err(TypeFault::TooLarge)) => Some(TypeRule::TooLarge),
    }
}

/// The extent of so many elements together, where theirs is known.
fn known_extent_of_elements(
    count: ElementCount,
    element: Option<Result<Extent, TypeFault>>,
) -> Option<Result<Extent, TypeFault>>
    ensures { known_room_in result ≡ known_room_of_elements count.value (known_room_in element) }
{
    match element {
        None => None,
        Some(extent) => Some(extent_of_elements(count, extent)),
    }
}

/// The extent of so many elements together.
fn extent_of_elements(
    count: ElementCount,
    element: Result<Extent, TypeFault>,
) -> Result<Extent, TypeFault>
    ensures { room_in result ≡ room_of_elements count.value (room_in element) }
{
    let Extent { size, align } = element?;
    if count.value > MOST_OBJECT_BYTES / size {
        return Err(TypeFault::TooLarge);
    }
    Ok(Extent {
        size: count.value * size,
        align,
    })
}

/// The one of two rules that comes first.
pub fn lowest_of(a: Option<TypeRule>, b: Option<TypeRule>) -> Option<TypeRule>
    ensures { result ≡ lowest a b }
{
    match (a, b) {
        (None, _) => b,
        (Some(_), None) => a,
        (Some(TypeRule::Incomplete), _) | (_, Some(TypeRule::Incomplete)) => {
            Some(TypeRule::Incomplete)
        }
        (Some(TypeRule::TooLarge), _) | (_, Some(TypeRule::TooLarge)) => Some(TypeRule::TooLarge),
        (Some(TypeRule::BadSize), _) | (_, Some(TypeRule::BadSize)) => Some(TypeRule::BadSize),
        (Some(TypeRule::BadFunction), Some(TypeRule::BadFunction)) => Some(TypeRule::BadFunction),
    }
}

/// The first of the rules that derivations break over a type of this shape.
pub fn lowest_rule_of(shape: Shape, derivations: &[Derivation]) -> Option<TypeRule>
    ensures { result ≡ lowest_rule (shape_in shape) None derivations.now }
{
    let mut shape = shape;
    let mut lowest = None;
    for derivation in derivations {
        lowest = lowest_of(lowest, shape.rule_of(*derivation));
        shape = shape.after(*derivation);
    }
    lowest
}
