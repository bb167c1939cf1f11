//! Whether functions and static objects make a program, and the program that they make.

ghost use Rattle.std.specs.Prelude.{◌≡◌, ◌↔◌, IsTrue, IfOk, MatchOption, All};
ghost use Rattle.c_tree.specs.Plain.{plain_program};
ghost use Rattle.c_tree.specs.Fits.{HalfFits, FunctionFits, StaticFits, IsProgram};
ghost use Rattle.program_fits.specs.Parts.{StaticWordsFit, MainFits, FrameFits};

use crate::outline::{Names, Place};
use crate::registers::registers_fit;
use crate::statement::stmt_fits;
use c_tree::{FunctionDef, Program};
use c_types::MOST_OBJECT_BYTES;
use filc_num::{StaticDef, StaticHalf};
use std::alloc::{AllocError, Global};

/// Whether what a static word's half names is one of the program's.
fn half_fits(names: &Names, half: StaticHalf) -> bool
    ensures { IsTrue result ↔ HalfFits names.now half }
{
    match half {
        StaticHalf::None => true,
        StaticHalf::Object(number) => names.has_static(number),
        StaticHalf::Function(number) => names.has_function(number),
    }
}

/// Whether what each half names is one of the program's.
fn halves_fit(names: &Names, halves: &[StaticHalf]) -> bool
    ensures { IsTrue result ↔ All (HalfFits names.now) halves.now }
{
    halves.iter().all(|half| half_fits(names, *half))
}

/// Whether a static object is no larger than an object may be, and names what is there.
fn static_fits(names: &Names, object: &StaticDef) -> bool
    ensures { IsTrue result ↔ StaticFits names.now object.now }
{
    if object.bytes > MOST_OBJECT_BYTES {
        return false;
    }
    halves_fit(names, object.halves.as_slice())
}

/// Whether each static object fits.
fn statics_fit(names: &Names, statics: &[StaticDef]) -> bool
    ensures { IsTrue result ↔ All (StaticFits names.now) statics.now }
{
    for object in statics {
        if !static_fits(names, object) {
            return false;
        }
    }
    true
}

/// Whether the static objects have no more words than all of them may have.
fn static_words_fit(statics: &[StaticDef]) -> bool
    ensures { IsTrue result ↔ StaticWordsFit statics.now }
{
    let mut room = 262_144;
    for object in statics {
        let words = object.words.len();
        if words > room {
            return false;
        }
        room -= words;
    }
    true
}

/// Whether `main` is a function that takes nothing.
fn main_fits(functions: &[FunctionDef], main: u32) -> bool
    ensures { IsTrue result ↔ MainFits functions.now main }
{
    match functions.get(main as usize) {
        Some(function) => function.parameters == 0,
        None => false,
    }
}

/// Whether a function's registers hold what it needs, and its body fits.
fn function_fits(alloc: Global, names: &Names, function: &FunctionDef) -> Result<bool, AllocError>
    ensures { IfOk result (λ fits. IsTrue fits ↔ FunctionFits names.now function.now) }
{
    if registers_fit(function) {
        let place = Place::of_body(function.locals);
        stmt_fits(alloc, names, &place, &function.body)
    } else {
        Ok(false)
    }
}

/// Whether each function fits.
fn functions_fit(
    alloc: Global,
    names: &Names,
    functions: &[FunctionDef],
) -> Result<bool, AllocError>
    ensures { IfOk result (λ fits. IsTrue fits ↔ All (FunctionFits names.now) functions.now) }
{
    for function in functions {
        let keeps = function_fits(alloc, names, function)?;
        if !keeps {
            return Ok(false);
        }
    }
    Ok(true)
}

/// Whether all but the functions' trees fits.
fn frame_fits(names: &Names, functions: &[FunctionDef], statics: &[StaticDef], main: u32) -> bool
    ensures { IsTrue result ↔ FrameFits names.now functions.now statics.now main }
{
    functions.len() <= 4000
        && main_fits(functions, main)
        && static_words_fit(statics)
        && names.threads_take_one()
        && statics_fit(names, statics)
}

/// Whether these functions and static objects, with `main`, make a program.
pub fn fits(
    alloc: Global,
    functions: &[FunctionDef],
    statics: &[StaticDef],
    main: u32,
) -> Result<bool, AllocError>
    ensures { IfOk result (λ fits. IsTrue fits
        ↔ IsProgram (plain_program functions.now statics.now main)) }
{
    let names = Names::new(functions, statics.len());
    if frame_fits(&names, functions, statics, main) {
        functions_fit(alloc, &names, functions)
    } else {
        Ok(false)
    }
}

/// The program of these functions and static objects, where they make one.
pub fn program_of(
    alloc: Global,
    functions: Vec<FunctionDef>,
    statics: Vec<StaticDef>,
    main: u32,
) -> Result<Option<Program>, AllocError>
    ensures { IfOk result (λ made. MatchOption made
        (IsProgram (plain_program functions.items statics.items main) → ⊥)
        (λ program. program ≡ plain_program functions.items statics.items main)) }
{
    let keeps = fits(alloc, functions.as_slice(), statics.as_slice(), main)?;
    if keeps {
        Ok(Some(Program::new(functions, statics, main)))
    } else {
        Ok(None)
    }
}
