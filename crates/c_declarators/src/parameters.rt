//! Lists of parameters.

ghost use Rattle.std.specs.Prelude.{◌≡◌, None};
ghost use Rattle.c_types.specs.Declarators.{type_in};
ghost use Rattle.c_declarators.specs.Parameters.{rule_of_type, rule_of_contents, rule_of_parameter, lowest_rule, is_void, is_plain_void, says_none};

use bitflags::Flags;
use c_types::{CType, Entry, Extent, Part, TypeRule, Types, lowest_of};

/// A parameter: its type, or the rule that its declarator breaks, and whether it has a name.
#[derive(Clone, Copy, Debug, PartialEq, Eq)]
pub struct ParameterType {
    pub ty: Result<Part, TypeRule>,
    pub has_name: bool,
}

/// The type of this number.
fn type_of(types: &Types, number: u32) -> Option<CType>
    ensures { result ≡ type_in types.now number }
{
    match types.get(number) {
        Some(Entry::OfType(ty)) => Some(ty),
        Some(Entry::NoParameters | Entry::Parameters(..)) | None => None,
    }
}

fn rule_of_contents(contents: Option<Extent>) -> TypeRule
    ensures { result ≡ rule_of_contents contents }
{
    match contents {
        None => TypeRule::Incomplete,
        Some(_) => TypeRule::BadFunction,
    }
}

fn rule_of_type(ty: Option<CType>) -> Option<TypeRule>
    ensures { result ≡ rule_of_type ty }
{
    match ty {
        Some(CType::Void) => Some(TypeRule::Incomplete),
        Some(CType::Structure(_, contents) | CType::Union(_, contents)) => {
            Some(rule_of_contents(contents))
        }
        _ => None,
    }
}

fn rule_of_parameter(types: &Types, parameter: ParameterType) -> Option<TypeRule>
    ensures { result ≡ rule_of_parameter types.now parameter }
{
    match parameter.ty {
        Ok(part) => rule_of_type(type_of(types, part.number)),
        Err(broken) => Some(broken),
    }
}

/// The first of the rules that parameters break at their function's declarator.
pub fn lowest_rule_of(types: &Types, parameters: &[ParameterType]) -> Option<TypeRule>
    ensures { result ≡ lowest_rule types.now None parameters.now }
{
    let mut lowest = None;
    for parameter in parameters {
        lowest = lowest_of(lowest, rule_of_parameter(types, *parameter));
    }
    lowest
}

fn is_plain_void(types: &Types, ty: Result<Part, TypeRule>) -> bool
    ensures { result ≡ is_plain_void types.now ty }
{
    match ty {
        Err(_) => false,
        Ok(part) => match type_of(types, part.number) {
            Some(CType::Void) => part.qualifiers.bits() == 0,
            _ => false,
        },
    }
}

/// Whether a list of parameters says that there are none.
pub fn says_none(types: &Types, parameters: &[ParameterType]) -> bool
    ensures { result ≡ says_none types.now parameters.now }
{
    match parameters {
        [parameter] => !parameter.has_name && is_plain_void(types, parameter.ty),
        _ => false,
    }
}
