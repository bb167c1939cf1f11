//! The code of functions and of a whole program.

ghost use Rattle.std.specs.Prelude.{◌≡◌, IfOk};
ghost use Rattle.whole_code.specs.Plain.{plain_function};
ghost use Rattle.stmt_gen.specs.Programs.{function_code};
ghost use Rattle.stmt_emit.specs.Compiled.{IsCodeOf, Plays};

use crate::size::size_of_stmt;
use crate::statement::{Exits, Inside, emit_stmt};
use c_tree::{FunctionDef, Program};
use expr_emit::{Place, Tail, put, sum};
use std::alloc::{AllocError, Global};
use whole_code::{Code, CodeFunction, Op};

/// The code of a function: that of its body, and then it returns 0.
fn emit_function(alloc: Global, function: &FunctionDef) -> Result<CodeFunction, AllocError>
    ensures { IfOk result (λ code. plain_function code ≡ function_code function.now) }
{
    let t = function.locals;
    let library = function.library;
    let size = size_of_stmt(&function.body)?;
    let mut tail = Tail::new(alloc, sum(size, 2)?);
    let zero = Op::Const { d: t, constant: 0 };
    let place = Place {
        library,
        line: function.line,
        t,
    };
    put(&mut tail, place, &[zero, Op::Return { a: t }])?;
    let inside = Inside {
        heap: alloc,
        place,
        exits: Exits {
            broke: size,
            continued: size,
        },
    };
    emit_stmt(&mut tail, inside, &function.body)?;
    Ok(CodeFunction {
        values: function.values,
        parameters: function.parameters,
        kind: function.kind,
        instructions: tail.into_instructions(),
    })
}

/// The code of a program: well formed, as each value of its type is, and it plays the program. It fails only for
/// memory.
pub fn compile(alloc: Global, program: &Program) -> Result<Code, AllocError>
    ensures code { IfOk result (λ code. IsCodeOf code program.now) }
    ensures plays { IfOk result (λ code. Plays code program.now) }
{
    let mut functions = Vec::new(alloc);
    for function in program.functions() {
        functions.push(emit_function(alloc, function)?)?;
    }
    let mut statics = Vec::new(alloc);
    for object in program.statics() {
        statics.push(object.clone()?)?;
    }
    Ok(Code::new(functions, statics, program.main()))
}
