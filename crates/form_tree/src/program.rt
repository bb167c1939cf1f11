//! Functions, and the program that they make.

ghost use Rattle.std.specs.Prelude.{◌≡◌, ◌<◌, Some, length, slice_get};
ghost use Rattle.form_tree.specs.Plain.{plain_program};
ghost use Rattle.form_tree.specs.Fits.{IsProgram, FunctionFits};

use crate::stmt::Stmt;
use std::marker::Model;

/// A function with a body: the line of its first token, the number of its locals, and what it does.
/// Its locals are numbered from 0, and where control reaches its end the result is 0.
#[derive(Drop)]
pub struct FunctionDef {
    pub line: u32,
    pub locals: u32,
    pub body: Stmt,
}

/// A program: its functions, each at its number, and the number of `main`. Each local that a
/// function names is one of its own, and no function has more values than a frame has registers.
#[derive(Drop)]
pub struct Program {
    functions: Vec<FunctionDef>,
    main: u32,
}

impl Model for Program {
    ghost use Rattle.form_tree.specs.Plain.{PlainProgram, plain_program};
    ghost use Rattle.form_tree.specs.Fits.{IsProgram};
    ghost use Rattle.std.specs.Coded.{codes};
    ghost use Rattle.form_tree.specs.contracts.stmt.Stmt as stmt_row;

    ghost Value = { PlainProgram };

    ghost coded = { Prim.hlevel (codes, stmt_row.the_row.coded) };

    ghost view = { λ program. plain_program program.functions.items program.main };

    ghost invariant = { λ program. IsProgram (plain_program program.functions.items program.main) };
}

impl Program {
    /// The program of these functions.
    pub fn new(functions: Vec<FunctionDef>, main: u32) -> Program
        requires { IsProgram (plain_program functions.items main) }
        ensures { result ≡ plain_program functions.items main }
    {
        Program { functions, main }
    }

    /// The number of `main`.
    pub fn main(&self) -> u32
        ensures value { result ≡ self.now.main }
        ensures within { result < length self.now.functions }
    {
        self.main
    }

    /// The functions, each at its number.
    pub fn functions(&self) -> &[FunctionDef]
        ensures value { result.now ≡ self.now.functions }
        ensures fits { IsProgram self.now }
    {
        &self.functions
    }

    /// The function of this number.
    pub fn function(&self, number: u32) -> &FunctionDef
        requires { number < length self.now.functions }
        ensures value { slice_get self.now.functions number ≡ Some result.now }
        ensures fits { FunctionFits result.now }
    {
        &self.functions[number as usize]
    }
}
