//! The program of a checked file: the parts that `c_check` gives make one where they keep what a
//! program keeps.
#![tactic(auto)]

ghost use Rattle.std.specs.Prelude.{◌≡◌, IfOk, IfErr};
ghost use Rattle.c_tree.specs.Fits.{IsProgram};
ghost use Rattle.checked_program.specs.Parts.{program_in, IsUnfit};
ghost use Rattle.checked_program.specs.declared.Unfit.TheVariants.{NoMemory};

use c_check::CheckedFile;
use c_tree::Program;
use program_fits::fits;
use std::alloc::{AllocError, Global};
use thiserror::Error;

/// Why a checked file has no program.
#[derive(Clone, Copy, Debug, PartialEq, Eq, Error)]
pub enum Unfit {
    /// Its parts don't keep what a program keeps.
    #[error("unfit program")]
    Parts,
    /// No memory. It says nothing of the parts.
    #[error("no memory")]
    NoMemory,
}

impl From<AllocError> for Unfit {
    ghost from_gives = { λ _ unfit. unfit ≡ NoMemory };

    fn from(_error: AllocError) -> Unfit {
        Unfit::NoMemory
    }
}

/// The program of a checked file, where its parts keep what a program keeps.
pub fn program(alloc: Global, checked: CheckedFile) -> Result<Program, Unfit>
    ensures program { IfOk result (λ program. program ≡ program_in checked) }
    ensures fits { IfOk result (λ _. IsProgram (program_in checked)) }
    ensures unfit { IfErr result (IsUnfit (program_in checked)) }
{
    let (functions, statics) = (checked.functions, checked.statics);
    let keeps = fits(
        alloc,
        functions.as_slice(),
        statics.as_slice(),
        checked.main,
    )?;
    if keeps {
        Ok(Program::new(functions, statics, checked.main))
    } else {
        Err(Unfit::Parts)
    }
}
