//! Functions, and the program that they make.

ghost use Rattle.std.specs.Prelude.{◌≡◌, ◌<◌, Some, length, slice_get};
ghost use Rattle.c_tree.specs.Plain.{plain_program};
ghost use Rattle.c_tree.specs.Fits.{IsProgram, FunctionFits, outline_of};

use crate::stmt::Stmt;
use filc_num::StaticDef;
use std::marker::Model;

/// A function with a body.
#[derive(Drop)]
pub struct FunctionDef {
    /// The line of its first token.
    pub line: u32,
    /// Whether its body's text is a library header's.
    pub library: bool,
    /// The number of its type among those of functions: 0 is `int(void*)`, what a thread is begun with.
    pub kind: u32,
    /// Its first locals are its parameters.
    pub parameters: u32,
    pub locals: u32,
    /// How many registers it has: its locals, its switches, its greatest temporaries, and 8.
    pub values: u32,
    pub body: Stmt,
}

/// A program: its functions and its static objects, each at its number, and the number of `main`. It keeps what
/// `IsProgram` says.
#[derive(Drop)]
pub struct Program {
    functions: Vec<FunctionDef>,
    statics: Vec<StaticDef>,
    main: u32,
}

impl Model for Program {
    ghost use Rattle.c_tree.specs.Plain.{PlainProgram, plain_program};
    ghost use Rattle.c_tree.specs.Fits.{IsProgram};
    ghost use Rattle.std.specs.Coded.{codes};
    ghost use Rattle.c_tree.specs.contracts.stmt.Stmt as stmt_row;

    ghost Value = { PlainProgram };

    ghost coded = { Prim.hlevel (codes, stmt_row.the_row.coded) };

    ghost view = { λ program. plain_program program.functions.items program.statics.items program.main };

    ghost invariant = { λ program. IsProgram
        (plain_program program.functions.items program.statics.items program.main) };
}

impl Program {
    /// The program of these functions and statics.
    pub fn new(functions: Vec<FunctionDef>, statics: Vec<StaticDef>, main: u32) -> Program
        requires { IsProgram (plain_program functions.items statics.items main) }
        ensures { result ≡ plain_program functions.items statics.items main }
    {
        Program {
            functions,
            statics,
            main,
        }
    }

    /// The number of `main`.
    pub fn main(&self) -> u32
        ensures value { result ≡ self.now.main }
        ensures fits { IsProgram self.now }
    {
        self.main
    }

    /// The functions, each at its number.
    pub fn functions(&self) -> &[FunctionDef]
        ensures value { result.now ≡ self.now.functions }
        ensures fits { IsProgram self.now }
    {
        &self.functions
    }

    /// The static objects, each at its number.
    pub fn statics(&self) -> &[StaticDef]
        ensures value { result.now ≡ self.now.statics }
        ensures fits { IsProgram self.now }
    {
        &self.statics
    }

    /// The function of this number.
    pub fn function(&self, number: u32) -> &FunctionDef
        requires { number < length self.now.functions }
        ensures value { slice_get self.now.functions number ≡ Some result.now }
        ensures fits { FunctionFits (outline_of self.now) result.now }
    {
        &self.functions[number as usize]
    }
}
