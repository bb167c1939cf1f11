//! What only a file's end tells: the locals of each function whose address is taken, and the types
//! of functions in the order of their numbers.

ghost use Rattle.std.specs.Prelude.{◌≡◌, IfOk};
ghost use Rattle.c_expr_rules.specs.Views.{seen_state};
ghost use Rattle.c_file_rules.specs.Files.{functions_in};
ghost use Rattle.c_check.specs.Known.{taken_lists};
ghost use Rattle.c_file_rules.specs.Kinds.{types_of_functions};
ghost use Rattle.c_file_rules.specs.Operations as operations;

use c_expr_rules::State;
use c_file_rules::{Homes, Made, Numbering};
use c_names::thread_type;
use c_objects::kinds_of;
use std::alloc::{AllocError, Global};

/// What only a file's end tells.
#[derive(Drop)]
pub struct Known {
    pub homes: Vec<Homes>,
    pub kinds: Numbering,
}

/// The locals of each function whose address is taken.
fn homes_of(alloc: Global, functions: &[Made]) -> Result<Vec<Homes>, AllocError>
    ensures { IfOk result (λ homes. homes.items ≡ taken_lists functions.now) }
{
    let mut homes = Vec::new(alloc);
    'functions: for made in functions {
        homes.push(Homes::of(alloc, made.taken.as_slice())?)?;
    }
    Ok(homes)
}

/// The types of functions in the order of their numbers. The state's table may get the type that a
/// thread begins with.
fn kinds_in(alloc: Global, state: &mut State, functions: &[Made]) -> Result<Numbering, AllocError>
    ensures { let s = seen_state state.old in IfOk result (λ kinds. kinds
        ≡ types_of_functions (operations.thread_type s.table) (functions_in functions.now)) }
{
    let thread = thread_type(&mut state.types)?;
    kinds_of(alloc, functions, thread)
}

/// What a whole file's first reading tells.
pub fn known_at(alloc: Global, state: &mut State, functions: &[Made]) -> Result<Known, AllocError>
    ensures homes { IfOk result (λ known. known.homes.items ≡ taken_lists functions.now) }
    ensures kinds { let s = seen_state state.old in IfOk result (λ known. known.kinds
        ≡ types_of_functions (operations.thread_type s.table) (functions_in functions.now)) }
{
    let homes = homes_of(alloc, functions)?;
    let kinds = kinds_in(alloc, state, functions)?;
    Ok(Known { homes, kinds })
}
