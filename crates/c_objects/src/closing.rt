//! The rules of a whole file, in the order in which they are looked at behind all of its constructs (C11 6.9).

ghost use Rattle.std.specs.Prelude.{◌≡◌, Some, IfOk, OnOk};
ghost use Rattle.std.specs.List.{filter_map};
ghost use Rattle.c_expr_rules.specs.Views.{seen_state};
ghost use Rattle.c_objects.specs.Closing.{seen_some, least, defined_in, IsWith, AreDefinitions, size_by, closing_by};
ghost use Rattle.c_file_rules.specs.Files.{undefined_function, undefined_object, first_line, linked_in, too_many_values, first_of};

use c_expr_rules::{Broken, State};
use c_file_rules::Made;
use c_rules::Rule;
use c_tree::{Declared, Definition, ObjectNumber};
use std::alloc::{AllocError, Global};
use std::collections::BTreeMap;

/// The greatest number of functions.
const MOST_FUNCTIONS: usize = 4000;
/// The greatest number of words of all static objects.
const MOST_WORDS: u64 = 262_144;
/// The greatest number of a function's values.
const MOST_VALUES: u32 = 256;

/// What is known of a whole file behind its constructs: its functions, how many words its static objects have, and the
/// number of `main`.
#[derive(Clone, Copy)]
pub struct Ending<'a> {
    pub functions: &'a [Made],
    pub words: u64,
    pub main: Option<u32>,
}

/// The lower of two lines.
fn least(line: Option<u32>, before: Option<u32>) -> Option<u32>
    ensures { result ≡ least line before }
{
    match (line, before) {
        (None, _) => before,
        (Some(_), None) => line,
        (Some(line), Some(before)) => Some(line.min(before)),
    }
}

/// The line of a function that has no body, where so many have one.
fn line_without_body(used: Declared, bodies: usize) -> Option<u32>
    ensures { result ≡ undefined_function bodies used }
{
    let Declared::Function(function) = used else {
        return None;
    };
    if (function.number as usize) < bodies {
        None
    } else {
        Some(function.line)
    }
}

/// The first line of a function that is used and has no body (rule 34).
#[tactic(auto, using(crate::proofs::Ends::line_more))]
fn undefined_function(state: &State, bodies: usize) -> Option<u32>
    ensures { let s = seen_state state.now in
        result ≡ first_line (filter_map (undefined_function bodies) s.used) }
{
    let mut first = None;
    'used: for used in &state.used {
        first = least(line_without_body(*used, bodies), first);
    }
    first
}

/// The number of the static object that is declared, where one is.
fn static_in(declared: Declared) -> Option<(u32, Definition)>
    ensures { result ≡ defined_in declared }
{
    let Declared::Object(object) = declared else {
        return None;
    };
    match object.number {
        ObjectNumber::Static(number) => Some((number, object.definition)),
        ObjectNumber::Local(_) => None,
    }
}

/// Adds how far a declaration defines its object.
#[tactic(auto, using(crate::proofs::Ends::with_none, crate::proofs::Ends::with_some))]
fn add_definition(
    definitions: &mut BTreeMap<u32, Definition>,
    declared: Declared,
) -> Result<(), AllocError>
    ensures { OnOk result (IsWith declared definitions.old definitions.new) }
{
    if let Some((number, definition)) = static_in(declared) {
        definitions.insert(number, definition)?;
    }
    Ok(())
}

/// How far each static object is defined by the declarations with linkage: the newest of each number says it.
#[tactic(auto, using(crate::proofs::Ends::definitions_more))]
fn definitions_of(alloc: Global, state: &State) -> Result<BTreeMap<u32, Definition>, AllocError>
    ensures { IfOk result (AreDefinitions (linked_in (seen_state state.now))) }
{
    let mut definitions = BTreeMap::new(alloc);
    'linked: for declaration in state.scopes.linked() {
        add_definition(&mut definitions, declaration.what)?;
    }
    Ok(definitions)
}

/// The line of an object that no declaration defines.
fn undefined_line(
    state: &State,
    definitions: &BTreeMap<u32, Definition>,
    used: Declared,
) -> Option<u32>
    requires { AreDefinitions (linked_in (seen_state state.now)) definitions.now }
    ensures { result ≡ undefined_object (linked_in (seen_state state.now)) used }
{
    let Declared::Object(object) = used else {
        return None;
    };
    let ObjectNumber::Static(number) = object.number else {
        return None;
    };
    match definitions.get(&number) {
        Some(Definition::None) => Some(object.line),
        Some(Definition::Tentative | Definition::Full) | None => None,
    }
}

/// The first line of an object that is used and that no declaration defines (rule 35).
#[tactic(auto, using(crate::proofs::Ends::line_more))]
fn undefined_object(alloc: Global, state: &State) -> Result<Option<u32>, AllocError>
    ensures { let s = seen_state state.now in IfOk result (λ line.
        line ≡ first_line (filter_map (undefined_object (linked_in s)) s.used)) }
{
    let definitions = definitions_of(alloc, state)?;
    let mut first = None;
    'used: for used in &state.used {
        first = least(undefined_line(state, &definitions, *used), first);
    }
    Ok(first)
}

/// The line of a function with too many values.
fn line_of_values(made: &Made) -> Option<u32>
    ensures { result ≡ too_many_values made.now }
{
    if MOST_VALUES < made.function.values {
        Some(made.function.line)
    } else {
        None
    }
}

/// The line of the first function with too many values (rule 36).
fn too_many_values(functions: &[Made]) -> Option<u32>
    ensures { result ≡ first_of (filter_map too_many_values functions.now) }
{
    for made in functions {
        if let Some(line) = line_of_values(made) {
            return Some(line);
        }
    }
    None
}

fn broken_at(rule: Rule, line: u32) -> Option<Broken>
    ensures { result ≡ Some (record { rule = rule; line = line }) }
{
    Some(Broken { rule, line })
}

/// The first of the rules of the whole that is broken behind those of names, with its line.
#[tactic(auto, using(crate::proofs::Ends::at_true, crate::proofs::Ends::at_false, crate::proofs::Ends::at_some, crate::proofs::Ends::last_rule))]
fn rule_of_size(ending: Ending<'_>) -> Option<Broken>
    ensures { seen_some result
        ≡ size_by ending.entry.functions.now ending.entry.words ending.entry.main }
{
    if ending.main.is_none() {
        return broken_at(Rule::NoMain, 1);
    }
    if MOST_FUNCTIONS < ending.functions.len() {
        return broken_at(Rule::TooManyFunctions, 1);
    }
    if MOST_WORDS < ending.words {
        return broken_at(Rule::StaticsTooLarge, 1);
    }
    match too_many_values(ending.functions) {
        Some(line) => broken_at(Rule::TooManyValues, line),
        None => None,
    }
}

/// The first of the rules of the whole that is broken, with its line.
#[tactic(auto, using(crate::proofs::Ends::at_some, crate::proofs::Ends::at_none))]
pub fn closing_rule(
    alloc: Global,
    state: &State,
    ending: Ending<'_>,
) -> Result<Option<Broken>, AllocError>
    ensures { let s = seen_state state.now in IfOk result (λ broken. seen_some broken
        ≡ closing_by s ending.entry.functions.now ending.entry.words ending.entry.main) }
{
    if let Some(line) = undefined_function(state, ending.functions.len()) {
        return Ok(broken_at(Rule::UndefinedFunction, line));
    }
    if let Some(line) = undefined_object(alloc, state)? {
        return Ok(broken_at(Rule::UndefinedObject, line));
    }
    Ok(rule_of_size(ending))
}
