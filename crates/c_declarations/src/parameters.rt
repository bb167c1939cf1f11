//! Lists of parameters as a function's type has them.

ghost use Rattle.std.specs.Prelude.{◌≡◌, ◌↔◌, Some, None, All, Ok, IfOk, IfErr, OnOk, IsOk, IsTrue};
ghost use Rattle.c_types.specs.Declarators.{Keeps};
ghost use Rattle.c_types.specs.Whole.{IsTypeAt, IsListAt};
ghost use Rattle.c_declarators.specs.Parameters.{lowest_rule};
ghost use Rattle.c_declarations.specs.ParameterTypes.{ParameterFits, AreAdjusted, parameters_in, rule_of_list, IsListOf};

use c_declarators::{ParameterType, lowest_rule_of, says_none};
use c_types::{Part, TypeRule, Types};
use std::alloc::{AllocError, Global};

/// The number of a list of parameters, or the first of the rules that they break at their function's declarator.
pub fn parameter_types(
    alloc: Global,
    types: &mut Types,
    parameters: &[ParameterType],
) -> Result<Result<u32, TypeRule>, AllocError>
    requires { All (ParameterFits types.old) parameters.now }
    ensures list { IfOk result (λ r.
        IfOk r (IsListOf types.old types.new (parameters_in types.old parameters.now))) }
    ensures number { IfOk result (λ r. IfOk r (IsListAt types.new)) }
    ensures fine { IfOk result (λ r. OnOk r (rule_of_list types.old parameters.now ≡ None)) }
    ensures broken { IfOk result (λ r.
        IfErr r (λ rule. rule_of_list types.old parameters.now ≡ Some rule)) }
    ensures kept { Keeps types.old types.new }
{
    let there = parameters_in(types, parameters);
    if let Some(rule) = lowest_rule_of(types, there) {
        return Ok(Err(rule));
    }
    let numbers = adjusted_numbers(alloc, types, there)?;
    let list = types.parameter_list(numbers.as_slice())?;
    Ok(Ok(list))
}

/// Whether the types of parameters are of this table.
pub fn knows_parameters(types: &Types, parameters: &[ParameterType]) -> bool
    ensures { IsTrue result ↔ All (ParameterFits types.now) parameters.now }
{
    parameters.iter().all(|p| knows_parameter(types, *p))
}

fn knows_parameter(types: &Types, parameter: ParameterType) -> bool
    ensures { IsTrue result ↔ ParameterFits types.now parameter }
{
    match parameter.ty {
        Ok(part) => types.is_part(part),
        Err(_) => true,
    }
}

/// The parameters that there are.
fn parameters_in<'a>(types: &Types, parameters: &'a [ParameterType]) -> &'a [ParameterType]
    ensures { result.now ≡ parameters_in types.now parameters.now }
{
    if says_none(types, parameters) {
        &parameters[..0]
    } else {
        parameters
    }
}

/// The numbers of the types of parameters that break no rule, each after its adjustment (C11 6.7.6.3p7, p8).
fn adjusted_numbers(
    alloc: Global,
    types: &mut Types,
    parameters: &[ParameterType],
) -> Result<Vec<u32>, AllocError>
    requires fit { All (ParameterFits types.old) parameters.now }
    requires fine { lowest_rule types.old None parameters.now ≡ None }
    ensures adjusted { IfOk result (λ v. AreAdjusted types.old types.new parameters.now v.items) }
    ensures types { IfOk result (λ v. All (IsTypeAt types.new) v.items) }
    ensures kept { Keeps types.old types.new }
{
    let mut numbers = Vec::new(alloc);
    for parameter in parameters {
        let part = type_there(parameter.ty);
        let made = types.adjust(part)?;
        numbers.push(made.number)?;
    }
    Ok(numbers)
}

/// The type of a parameter that has one.
fn type_there(ty: Result<Part, TypeRule>) -> Part
    requires { IsOk ty }
    ensures { ty ≡ Ok result }
{
    match ty {
        Ok(part) => part,
        Err(_) => unreachable!(),
    }
}
