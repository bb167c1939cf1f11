//! The compiler: from the typed tree to register code that plays it.
//!
//! A function's locals are its first registers; an expression's value goes into the first register
//! above them, its operands into those after that. So code needs no stack, and a chain of operators
//! as long as a file needs two registers.
//!
//! Read `specs/Code.antt` for what the code of each construct is, and `specs/Correct.antt` for what
//! is promised of it.
#![tactic(auto)]

ghost use Rattle.std.specs.Prelude.{◌≡◌, IfOk};
ghost use Rattle.code_gen.specs.Code.{program_code};
ghost use Rattle.code_gen.specs.Correct.{Plays};

mod emit;
pub mod laws;

use filc_code::Code;
use form_tree::Program;
use std::alloc::{AllocError, Global};

/// The code of a program, which plays it: for the same answers it makes the same events and ends
/// alike, with as many backward jumps and calls.
pub fn compile(alloc: Global, program: &Program) -> Result<Code, AllocError>
    ensures code { IfOk result (λ code. code ≡ program_code program.now) }
    ensures plays { IfOk result (λ code. Plays code program.now) }
{
    let mut functions = Vec::new(alloc);
    for function in program.functions() {
        functions.push(emit::emit_function(alloc, function)?)?;
    }
    Ok(Code::new(functions, program.main()))
}
