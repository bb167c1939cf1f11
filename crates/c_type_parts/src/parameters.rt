//! Lists of parameters, and the functions that they make (C11 6.7.6.3).

ghost use Rattle.std.specs.Prelude.{◌≡◌, ◌++◌, map, Some, None, IfOk, OnOk};
ghost use Rattle.c_declarations.specs.ParameterTypes.{parameters_in};
ghost use Rattle.c_expr_rules.specs.Views.{seen_state, Passes, Grows};
ghost use Rattle.c_names.specs.Code.{here_at};
ghost use Rattle.c_type_parts.specs.Lists.{function_suffix, parameter_of, type_or_rule};
ghost use Rattle.c_file_rules.specs.Declarators.{parameter_type, adjusted_one, adjusted_types, list_derivation, parameter_object, kept, outermost_pointer, parameter_found};

use crate::declarators::{declared_type, size_rule};
use c_declarators::{ParameterType, complete_outermost, lowest_rule_of, says_none};
use c_expr_rules::{Fault, State, Surroundings};
use c_file_rules::{
    Formed, Listed, Prototype, Said, Suffixed, first_of, is_register_word, obey_rule,
};
use c_names::{Scene, adjusted, declare, derived, is_again, parameter_list, type_rule};
use c_scope::Scope;
use c_syntax::Declarator;
use c_tree::{Declared, DeclaredObject, Definition, Linkage, ObjectNumber};
use c_types::{Derivation, ElementCount, Part, TypeRule, Types};
use sqlite_items::Items;
use std::alloc::{AllocError, Global};

fn parameter_type(parameter: &Listed) -> ParameterType
    ensures { result ≡ parameter_type parameter.now }
{
    ParameterType {
        ty: parameter.ty,
        has_name: parameter.name.is_some(),
    }
}

/// The types of parameters.
fn parameter_types(alloc: Global, listed: &[Listed]) -> Result<Vec<ParameterType>, AllocError>
    ensures { IfOk result (λ types. types.items ≡ map parameter_type listed.now) }
{
    listed
        .iter()
        .map(|parameter| parameter_type(parameter))
        .collect(alloc)
}

/// The parameters that there are.
fn parameters_there<'a>(types: &Types, parameters: &'a [ParameterType]) -> &'a [ParameterType]
    ensures { result.now ≡ parameters_in types.now parameters.now }
{
    if says_none(types, parameters) {
        &parameters[..0]
    } else {
        parameters
    }
}

/// The numbers of the types of parameters, each after its adjustment. One that breaks a rule has
/// none.
fn adjusted_types(
    alloc: Global,
    types: &mut Types,
    parameters: &[ParameterType],
) -> Result<Vec<u32>, AllocError>
    ensures grown { OnOk result (types.new ≡ (adjusted_types types.old parameters.now).0) }
    ensures gives { IfOk result (λ numbers.
        numbers.items ≡ (adjusted_types types.old parameters.now).1) }
{
    let mut numbers = Vec::new(alloc);
    'parameters: for parameter in parameters {
        add_adjusted(types, parameter.ty, &mut numbers)?;
    }
    Ok(numbers)
}

/// Adds the number of a parameter's type after its adjustment, where it has one.
fn add_adjusted(
    types: &mut Types,
    ty: Result<Part, TypeRule>,
    numbers: &mut Vec<u32>,
) -> Result<(), AllocError>
    ensures grown { OnOk result (types.new ≡ (adjusted_one types.old ty).0) }
    ensures gives { OnOk result
        (numbers.new.items ≡ numbers.old.items ++ (adjusted_one types.old ty).1) }
{
    match ty {
        Err(_) => Ok(()),
        Ok(part) => {
            let made = adjusted(types, part)?;
            numbers.push(made.number)?;
            Ok(())
        }
    }
}

fn list_derivation(broken: Option<TypeRule>, parameters: u32) -> Derivation
    ensures { result ≡ list_derivation broken parameters }
{
    match broken {
        None => Derivation::Function {
            parameters,
            more: false,
        },
        Some(broken) => Derivation::BadFunction(broken),
    }
}

/// The parameters that there are: a void alone says that there are none.
fn kept(
    alloc: Global,
    types: &Types,
    listed: Items<Listed>,
    parameters: &[ParameterType],
) -> Items<Listed>
    requires { parameters.now ≡ map parameter_type listed }
    ensures { result ≡ kept types.now listed }
{
    if says_none(types, parameters) {
        Items::new(alloc)
    } else {
        listed
    }
}

/// The function that a list of parameters makes, with what the list declares.
pub fn function_suffix(
    alloc: Global,
    state: &mut State,
    scope: Scope,
    listed: Items<Listed>,
) -> Result<Suffixed, AllocError>
    ensures state { OnOk result (seen_state state.new
        ≡ (function_suffix (seen_state state.old) scope listed).0) }
    ensures found { IfOk result (λ made.
        made ≡ (function_suffix (seen_state state.old) scope listed).1) }
    ensures grows { OnOk result (Grows state.old state.new) }
{
    let parameters = parameter_types(alloc, listed.as_slice())?;
    let there = parameters_there(&state.types, parameters.as_slice());
    let broken = lowest_rule_of(&state.types, there);
    let left = kept(alloc, &state.types, listed, parameters.as_slice());
    let numbers = adjusted_types(alloc, &mut state.types, there)?;
    let list = parameter_list(&mut state.types, numbers.as_slice())?;
    Ok(Suffixed {
        derivation: list_derivation(broken, list),
        prototype: Some(Prototype {
            listed: left,
            scope,
        }),
    })
}

/// Gives an array whose size isn't said one element.
fn complete_with_one(derivations: &mut [Derivation])
    ensures { derivations.new ≡ outermost_pointer derivations.old }
{
    complete_outermost(derivations, ElementCount { value: 1 });
}

/// Derivations of a parameter: an array of a size that isn't said is adjusted to a pointer, so any
/// size does.
fn with_a_size(alloc: Global, derivations: &[Derivation]) -> Result<Vec<Derivation>, AllocError>
    ensures { IfOk result (λ ds. ds.items ≡ outermost_pointer derivations.now) }
{
    let mut list = Vec::from_slice(alloc, derivations)?;
    complete_with_one(&mut list);
    Ok(list)
}

/// What a parameter's name stands for.
fn parameter_object(line: u32, index: u32, is_register: bool, ty: Part) -> Declared
    ensures { result ≡ parameter_object line index is_register ty }
{
    Declared::Object(DeclaredObject {
        line,
        ty,
        number: ObjectNumber::Local(index),
        linkage: Linkage::NoLinkage,
        is_register,
        definition: Definition::Full,
    })
}

/// A type, unless its derivations break a rule.
fn made_or_rule(made: Part, broken: Option<TypeRule>) -> Result<Part, TypeRule>
    ensures { result ≡ type_or_rule made broken }
{
    match broken {
        None => Ok(made),
        Some(broken) => Err(broken),
    }
}

/// A parameter without a name, which may have no type.
fn unnamed_parameter<S: Surroundings>(
    scene: &Scene<'_, S>,
    state: &mut State,
    line: u32,
    said: Said,
    derivations: &[Derivation],
) -> Result<Listed, Fault>
    ensures found { let here = here_at scene.now.facts.now (S.told scene.now.around.now) in
        Passes (seen_state state.new) result (parameter_found here line 0 said
        None (seen_state state.old) derivations.now) }
    ensures grows { OnOk result (Grows state.old state.new) }
{
    let broken = type_rule(&state.types, said.ty, derivations);
    let made = derived(&mut state.types, said.ty, derivations)?;
    Ok(Listed {
        name: None,
        line,
        ty: made_or_rule(made, broken),
    })
}

/// A parameter with a name, which its declarator declares.
fn named_parameter<S: Surroundings>(
    scene: &Scene<'_, S>,
    state: &mut State,
    line: u32,
    index: u32,
    said: Said,
    name: u32,
    derivations: &[Derivation],
) -> Result<Listed, Fault>
    ensures found { let here = here_at scene.now.facts.now (S.told scene.now.around.now) in
        Passes (seen_state state.new) result (parameter_found here line index said
        (Some name) (seen_state state.old) derivations.now) }
    ensures grows { OnOk result (Grows state.old state.new) }
{
    let letters = scene.around.spelling(name);
    let is_register = is_register_word(said.storage);
    let of_base = parameter_object(line, index, is_register, said.ty);
    let again = is_again(state, letters, of_base);
    let part = declared_type(state, line, again, said.ty, derivations)?;
    let made = adjusted(&mut state.types, part)?;
    let size = size_rule(state, made);
    let what = parameter_object(line, index, is_register, made);
    let again = declare(state, letters, what)?;
    let parameter = Listed {
        name: Some(name),
        line,
        ty: Ok(made),
    };
    obey_rule(line, first_of(again, size), parameter)
}

/// A parameter, behind so many others.
pub fn parameter_found<S: Surroundings>(
    scene: &Scene<'_, S>,
    state: &mut State,
    declarator: &Declarator,
    index: u32,
    said: Said,
    formed: Formed,
) -> Result<Listed, Fault>
    ensures found { let here = here_at scene.now.facts.now (S.told scene.now.around.now) in
        Passes (seen_state state.new) result (parameter_of here
        declarator.now index said (seen_state state.old) formed) }
    ensures grows { OnOk result (Grows state.old state.new) }
{
    let line = declarator.span.line;
    let derivations = with_a_size(scene.facts.alloc, formed.derivations.as_slice())?;
    match declarator.name {
        None => unnamed_parameter(scene, state, line, said, derivations.as_slice()),
        Some(name) => {
            named_parameter(
                scene,
                state,
                line,
                index,
                said,
                name,
                derivations.as_slice(),
            )
        }
    }
}
