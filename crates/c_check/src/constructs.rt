//! The constructs of a file, one by one.

ghost use Rattle.std.specs.Prelude.{◌≡◌, [], ◌++◌, slice_get, IfOk, IfErr, OnOk};
ghost use Rattle.c_expr_rules.specs.Views.{seen_state, Passes};
ghost use Rattle.c_names.specs.Around.{with_homes};
ghost use Rattle.c_names.specs.Code.{here_at};
ghost use Rattle.c_objects.specs.Contents.{in_list};
ghost use Rattle.c_check.specs.Going.{Adds, IsStopped, IsSameFile, IsOfFile, external_at};
ghost use Rattle.c_check.specs.Going.{number_of_item, construct_at, look_at, ahead_of};
ghost use Rattle.c_check.specs.Known.{locals_or_none};
ghost use Rattle.c_check.specs.Rounds.{round_at};
ghost use Rattle.c_check.specs.Tokens.{plain_tokens};

use crate::round::{MOST_ROOM, Round, named_type};
use c_expr_rules::{Fault, State, Surroundings};
use c_file_rules::{Homes, Made};
use c_lexer::Tokens;
use c_names::{Facts, Scene, printer_in};
use c_specifiers::Standing;
use c_statements::{asserted, declaration_made, function_made};
use c_syntax::External;
use std::alloc::AllocError;

/// A file behind some of its constructs: the state, and the functions so far.
#[derive(Drop)]
pub struct Gone {
    pub state: State,
    pub functions: Vec<Made>,
}

/// A construct of a file. Where it is a function, these of its locals have their address taken.
fn external_made<S: Surroundings>(
    scene: &Scene<'_, S>,
    homes: &Homes,
    state: &mut State,
    item: &External,
) -> Result<Option<Made>, Fault>
    requires { S.fit scene.now.around.now }
    ensures { let around = S.told scene.now.around.now in
        let here = here_at scene.now.facts.now around in
        let there = here_at scene.now.facts.now (with_homes homes.now around) in
        Passes (seen_state state.new) result
        (external_at here there (seen_state state.old) item.now) }
{
    match item {
        External::Function(function) => {
            let made = function_made(scene, homes, state, function)?;
            Ok(Some(made))
        }
        External::Declaration(declaration) => {
            let _ = declaration_made(scene, state, Standing::File, declaration)?;
            Ok(None)
        }
        External::Assertion(assertion) => {
            asserted(scene, state, assertion)?;
            Ok(None)
        }
    }
}

/// The number of the function that a construct is, where it is one.
fn number_of<S: Surroundings>(scene: &Scene<'_, S>, item: &External) -> Result<u32, AllocError>
    ensures { let here = here_at scene.now.facts.now (S.told scene.now.around.now) in
        IfOk result (λ number. number ≡ number_of_item here item.now) }
{
    match item {
        External::Function(function) => {
            scene.function_number(false, function.declarator.name.unwrap_or(0))
        }
        External::Declaration(_) | External::Assertion(_) => Ok(0),
    }
}

/// The locals of a function whose address is taken, where these are told of each function, or else
/// none.
fn homes_at<'a>(taken: &'a [Homes], number: u32, none: &'a Homes) -> &'a Homes
    requires { none.now ≡ [] }
    ensures { result.now ≡ locals_or_none (slice_get taken.now number) }
{
    match taken.get(number as usize) {
        Some(homes) => homes,
        None => none,
    }
}

/// A construct of a file, where these locals of each function have their address taken.
fn construct(
    facts: &Facts,
    tokens: &Tokens,
    taken: &[Homes],
    state: &mut State,
    item: &External,
) -> Result<Option<Made>, Fault>
    ensures { let here = here_at facts.now (round_at (plain_tokens tokens.now) facts.now 201) in
        Passes (seen_state state.new) result
        (construct_at here taken.now (seen_state state.old) item.now) }
{
    let around = Round {
        facts,
        tokens,
        room: MOST_ROOM,
        named: named_type,
    };
    let scene = Scene {
        facts,
        around: &around,
    };
    let none = Homes::new(facts.alloc);
    let number = number_of(&scene, item)?;
    let homes = homes_at(taken, number, &none);
    external_made(&scene, homes, state, item)
}

/// Adds a function, where there is one.
fn add_function(functions: &mut Vec<Made>, made: Option<Made>) -> Result<(), AllocError>
    ensures { OnOk result (functions.new.items ≡ functions.old.items ++ in_list made) }
{
    match made {
        None => Ok(()),
        Some(made) => {
            functions.push(made)?;
            Ok(())
        }
    }
}

/// Goes past one construct of a file, where these locals of each function have their address
/// taken.
pub fn go_past(
    facts: &mut Facts,
    tokens: &Tokens,
    taken: &[Homes],
    gone: &mut Gone,
    item: &External,
) -> Result<(), Fault>
    requires { IsOfFile (plain_tokens tokens.now) facts.old }
    ensures goes { OnOk result (Adds gone.old.functions.items
        (look_at (plain_tokens tokens.now) (ahead_of facts.old.kinds taken.now) facts.old.bodies
        (seen_state gone.old.state) item.now)
        (seen_state gone.new.state) gone.new.functions.items) }
    ensures stopped { IfErr result (IsStopped
        (look_at (plain_tokens tokens.now) (ahead_of facts.old.kinds taken.now) facts.old.bodies
        (seen_state gone.old.state) item.now)) }
    ensures kept { OnOk result (IsSameFile facts.old facts.new) }
{
    facts.printer = printer_in(&gone.state, facts.bodies.len());
    let made = construct(facts, tokens, taken, &mut gone.state, item)?;
    add_function(&mut gone.functions, made)?;
    Ok(())
}
