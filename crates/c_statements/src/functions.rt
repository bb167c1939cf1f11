//! Functions with their bodies (C11 6.9.1).

ghost use Rattle.std.specs.Prelude.{◌≡◌, ◌<◌, ◌++◌, [], length, reverse, IfOk, OnOk};
ghost use Rattle.c_expr_rules.specs.Outcomes.{Fine};
ghost use Rattle.c_expr_rules.specs.Views.{seen_state, Passes};
ghost use Rattle.c_names.specs.Around.{with_homes};
ghost use Rattle.c_names.specs.Code.{here_at};
ghost use Rattle.c_file_rules.specs.Functions.{listed_in, is_moved, parameter_homes, inside_function, at_body, values_of, function_of, name_or_zero};
ghost use Rattle.c_file_rules.specs.Statements.{with_locals};
ghost use Rattle.c_statements.specs.Bodied.{entered, home_of, made_with, homes_in, body_of, stated_before_body, function_behind, function_checked_at};
ghost use Rattle.c_statements.specs.Waiting.{block_left};

use crate::declaring::{
    Heading, body_rule, is_bad_main, is_name_again, size_rule_of, what_declared,
};
use crate::statements::block_items;
use c_expr_rules::{Fault, State, Surroundings, access_of, always_has_home, size_or_zero, type_at};
use c_file_rules::{Formed, Homes, Inside, Listed, Made, Prototype, Said, obey_rule};
use c_names::{InFunction, Scene, behind, declare, enter, enter_with, leave};
use c_rules::Rule;
use c_specifiers::Standing;
use c_syntax::{Declarator, Function};
use c_temporaries::function_temporaries;
use c_tree::{FunctionDef, LocalDef, LocalKind, Stmt};
use c_type_names::{formed, specifiers_said};
use c_type_parts::{declared_type, is_function_declared, place_of};
use c_types::{CType, Part};
use sqlite_items::Items;
use std::alloc::{AllocError, Global};
use std::mem;

/// The parameters of a function.
fn listed_in(prototype: &Option<Prototype>) -> &[Listed]
    ensures { result.now ≡ listed_in prototype.now }
{
    match prototype {
        Some(prototype) => prototype.listed.as_slice(),
        None => &[],
    }
}

/// What a body of a function of this type stands in.
fn inside_function(state: &State, part: Part) -> Inside
    ensures { result ≡ inside_function (seen_state state.now) part }
{
    let result = match type_at(state, part.number) {
        CType::Function(signature) => signature.result,
        CType::Void
        | CType::Integer(_)
        | CType::Enumeration(_)
        | CType::Pointer(_)
        | CType::ArrayOf(_)
        | CType::Structure(..)
        | CType::Union(..) => 0,
    };
    Inside {
        may_break: false,
        may_continue: false,
        result,
    }
}

/// Opens the scope of a body, which is that of the function's parameters.
fn enter_body(state: &mut State, prototype: &Option<Prototype>) -> Result<(), AllocError>
    ensures state { OnOk result (seen_state state.new
        ≡ entered prototype.now (seen_state state.old)) }
    ensures inside { OnOk result (1 < length state.new.scopes.ordinary) }
{
    match prototype {
        Some(prototype) => enter_with(state, &prototype.scope),
        None => enter(state),
    }
}

/// Numbers from the last to the first.
fn reversed(alloc: Global, numbers: &[u32]) -> Result<Items<u32>, AllocError>
    ensures { IfOk result (λ list. list ≡ reverse numbers.now) }
{
    let mut list = Vec::from_slice(alloc, numbers)?;
    list.reverse();
    Ok(Items::from_vec(list))
}

/// How many values a function has: its locals, its switches, the greatest need of its expressions, and 8.
fn values_of(state: &State, function: &Function) -> Result<u32, AllocError>
    ensures { IfOk result (λ n. n ≡ values_of (seen_state state.now) function.now) }
{
    let needed = function_temporaries(function)?;
    let values = state.next_local.checked_add(needed).ok_or(AllocError)?;
    values.checked_add(8).ok_or(AllocError)
}

/// Whether a parameter is moved into a home: it has a name, and is atomic or its address is taken.
fn is_moved<S: Surroundings>(
    scene: &Scene<'_, S>,
    state: &State,
    number: u32,
    listed: &Listed,
    part: Part,
) -> bool
    ensures { let here = here_at scene.now.facts.now (S.told scene.now.around.now) in
        result ≡ is_moved here (seen_state state.now) number listed.now part }
{
    let ty = type_at(state, part.number);
    listed.name.is_some() && (always_has_home(ty, part.qualifiers) || scene.around.has_home(number))
}

/// A parameter whose address is taken, or that is atomic, is moved into a home.
fn parameter_home<S: Surroundings>(
    scene: &Scene<'_, S>,
    state: &State,
    number: u32,
    listed: &Listed,
) -> Option<LocalDef>
    ensures { let here = here_at scene.now.facts.now (S.told scene.now.around.now) in
        homes_in result ≡ home_of here (seen_state state.now) number listed.now }
{
    let Ok(part) = listed.ty else {
        return None;
    };
    if !is_moved(scene, state, number, listed, part) {
        return None;
    }
    let ty = type_at(state, part.number);
    Some(LocalDef {
        line: listed.line,
        local: number,
        kind: LocalKind::Moved(size_or_zero(ty), access_of(ty, part.qualifiers)),
    })
}

/// Adds a home, where there is one.
fn add_home(homes: &mut Vec<LocalDef>, home: Option<LocalDef>) -> Result<(), AllocError>
    ensures { OnOk result (homes.new.items ≡ homes.old.items ++ homes_in home) }
{
    if let Some(home) = home {
        homes.push(home)?;
    }
    Ok(())
}

/// The homes of parameters.
fn parameter_homes<S: Surroundings>(
    scene: &Scene<'_, S>,
    state: &State,
    parameters: &[Listed],
) -> Result<Vec<LocalDef>, AllocError>
    ensures { let here = here_at scene.now.facts.now (S.told scene.now.around.now) in
        IfOk result (λ homes. homes.items
        ≡ parameter_homes here (seen_state state.now) 0 parameters.now) }
{
    let mut homes = Vec::new(scene.facts.alloc);
    let mut number = 0u32;
    'parameters: for listed in parameters {
        add_home(&mut homes, parameter_home(scene, state, number, listed))?;
        number = behind(number)?;
    }
    Ok(homes)
}

/// How many parameters there are.
fn count_of(parameters: &[Listed]) -> Result<u32, AllocError>
    ensures { IfOk result (λ count. count ≡ length parameters.now) }
{
    u32::try_from(parameters.len()).map_err(|_| AllocError)
}

/// At a body's begin its parameters are its first locals.
fn begin_body<S: Surroundings>(
    scene: &Scene<'_, S>,
    state: &mut State,
    prototype: &Option<Prototype>,
) -> Result<(), AllocError>
    ensures state { let here = here_at scene.now.facts.now (S.told scene.now.around.now) in
        OnOk result (seen_state state.new
        ≡ at_body here prototype.now (seen_state state.old)) }
    ensures inside { OnOk result (1 < length state.new.scopes.ordinary) }
{
    enter_body(state, prototype)?;
    let parameters = listed_in(prototype);
    let count = count_of(parameters)?;
    state.locals = parameter_homes(scene, state, parameters)?;
    state.taken = Vec::new(scene.facts.alloc);
    state.next_local = count;
    Ok(())
}

/// The block of a body, behind which its function has no locals.
fn take_block(alloc: Global, state: &mut State, body: Items<Stmt>) -> Stmt
    ensures block { result ≡ block_left (seen_state state.old) body }
    ensures state { seen_state state.new ≡ with_locals [] (seen_state state.old) }
    ensures depth { state.new.scopes ≡ state.old.scopes }
{
    let locals = Items::from_vec(mem::replace(&mut state.locals, Vec::new(alloc)));
    Stmt::Block { locals, body }
}

/// What is counted of a function: its values, its parameters, and the locals whose address is taken.
#[derive(Drop)]
struct Counts {
    values: u32,
    parameters: u32,
    taken: Items<u32>,
}

/// What is counted of a function.
fn counts_of(
    alloc: Global,
    state: &State,
    function: &Function,
    prototype: &Option<Prototype>,
) -> Result<Counts, AllocError>
    ensures values { IfOk result (λ c. c.values ≡ values_of (seen_state state.now) function.now) }
    ensures parameters { IfOk result (λ c. c.parameters ≡ length (listed_in prototype.now)) }
    ensures taken { IfOk result (λ c. c.taken ≡ reverse state.now.taken.items) }
{
    let values = values_of(state, function)?;
    let parameters = count_of(listed_in(prototype))?;
    let taken = reversed(alloc, state.taken.as_slice())?;
    Ok(Counts {
        values,
        parameters,
        taken,
    })
}

/// The function of a body, of which this is counted.
fn made_with<S: Surroundings>(
    scene: &Scene<'_, S>,
    state: &State,
    function: &Function,
    part: Part,
    counts: Counts,
    body: Stmt,
) -> Made
    ensures { let here = here_at scene.now.facts.now (S.told scene.now.around.now) in
        result ≡ made_with here function.now part (seen_state state.now) counts body }
{
    Made {
        function: FunctionDef {
            line: function.span.line,
            library: scene.facts.is_library(function.span.first),
            kind: scene.around.kind_of(part.number),
            parameters: counts.parameters,
            locals: state.next_local,
            values: counts.values,
            body,
        },
        taken: counts.taken,
    }
}

/// The function that a body makes.
fn function_of<S: Surroundings>(
    scene: &Scene<'_, S>,
    state: &State,
    function: &Function,
    part: Part,
    prototype: &Option<Prototype>,
    body: Stmt,
) -> Result<Made, AllocError>
    ensures { let here = here_at scene.now.facts.now (S.told scene.now.around.now) in
        let s = seen_state state.now in IfOk result (λ made. function_of here function.now
        part prototype.now s body ≡ Fine s made) }
{
    let counts = counts_of(scene.facts.alloc, state, function, prototype)?;
    Ok(made_with(scene, state, function, part, counts, body))
}

/// A body, and the function that it makes.
fn body_made<S: Surroundings>(
    scene: &Scene<'_, S>,
    state: &mut State,
    function: &Function,
    part: Part,
    prototype: &Option<Prototype>,
) -> Result<Made, Fault>
    requires { S.fit scene.now.around.now }
    ensures { let here = here_at scene.now.facts.now (S.told scene.now.around.now) in
        Passes (seen_state state.new) result (body_of here function.now part
        prototype.now (seen_state state.old)) }
{
    let inside = inside_function(state, part);
    begin_body(scene, state, prototype)?;
    let statements = block_items(scene, state, inside, function.body.items.as_slice())?;
    let body = take_block(scene.facts.alloc, state, statements);
    let made = function_of(scene, state, function, part, prototype, body)?;
    leave(state);
    Ok(made)
}

/// A declarator before a body, by its rules: it makes a function by a list of parameters of its own (C11 6.9.1p2).
fn stated_before_body<S: Surroundings>(
    scene: &Scene<'_, S>,
    state: &mut State,
    heading: &Heading,
    declarator: &Declarator,
    part: Part,
) -> Result<(), Fault>
    requires { heading.now.standing ≡ Standing.Definition }
    ensures { let here = here_at scene.now.facts.now (S.told scene.now.around.now) in
        Passes (seen_state state.new) result (stated_before_body here heading.now
        declarator.now (seen_state state.old) part) }
{
    let what = what_declared(scene, state, heading, part)?;
    let sizeless = size_rule_of(state, what, part);
    let is_bad_main = is_bad_main(scene, state, heading, what, part);
    let is_again = declare(state, scene.around.spelling(heading.name), what)?;
    let is_listed = is_function_declared(false, declarator);
    obey_rule(
        heading.line,
        body_rule(is_again, sizeless, is_listed, is_bad_main),
        (),
    )
}

/// A name, or 0 where there is none, which the grammar rules out.
fn name_or_zero(name: Option<u32>) -> u32
    ensures { result ≡ name_or_zero name }
{
    name.unwrap_or(0)
}

/// A function behind its declarator, in which these locals have their address taken.
fn function_behind<S: Surroundings>(
    scene: &Scene<'_, S>,
    homes: &Homes,
    state: &mut State,
    function: &Function,
    said: Said,
    formed: &Formed,
) -> Result<Made, Fault>
    requires { S.fit scene.now.around.now }
    ensures { let around = S.told scene.now.around.now in
        let here = here_at scene.now.facts.now around in
        let there = here_at scene.now.facts.now (with_homes homes.now around) in
        Passes (seen_state state.new) result (function_behind here there function.now said
        (seen_state state.old) formed.now) }
{
    let declarator = &function.declarator;
    let heading = Heading {
        standing: Standing::Definition,
        storage: said.storage,
        line: declarator.span.line,
        name: name_or_zero(declarator.name),
        is_given: true,
    };
    let derivations = formed.derivations.as_slice();
    let is_again = is_name_again(scene, state, &heading, said.ty, derivations)?;
    let part = declared_type(state, heading.line, is_again, said.ty, derivations)?;
    stated_before_body(scene, state, &heading, declarator, part)?;
    let around = InFunction {
        outside: scene.around,
        homes,
    };
    let inner = Scene {
        facts: scene.facts,
        around: &around,
    };
    body_made(&inner, state, function, part, &formed.prototype)
}

/// A function with its body, in which these locals have their address taken.
pub fn function_made<S: Surroundings>(
    scene: &Scene<'_, S>,
    homes: &Homes,
    state: &mut State,
    function: &Function,
) -> Result<Made, Fault>
    requires { S.fit scene.now.around.now }
    ensures { let around = S.told scene.now.around.now in
        let here = here_at scene.now.facts.now around in
        let there = here_at scene.now.facts.now (with_homes homes.now around) in
        Passes (seen_state state.new) result
        (function_checked_at here there (seen_state state.old) function.now) }
{
    let place = place_of(Standing::Definition);
    let said = specifiers_said(scene, state, place, &function.specifiers)?;
    let formed = formed(scene, state, &function.declarator)?;
    function_behind(scene, homes, state, function, said, &formed)
}
