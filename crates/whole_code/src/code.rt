//! Code: functions of instructions, of which one is `main`, and static objects.

ghost use Rattle.std.specs.Prelude.{◌≡◌, ◌<◌, Some, length, map, slice_get};
ghost use Rattle.whole_code.specs.Plain.{plain_function, plain_code, instruction_at, HasInstruction};
ghost use Rattle.whole_code.specs.WellFormed.{IsWellFormed, IsFunctionWellFormed, named_in};

use crate::op::Instruction;
use filc_num::StaticDef;
use std::marker::Model;

/// A function's code. Its registers are numbered from 0, and its parameters are the first ones.
#[derive(Debug, Drop)]
pub struct CodeFunction {
    /// How many registers it has.
    pub values: u32,
    /// How many of them are parameters.
    pub parameters: u32,
    /// The number of its type: 0 is `int(void*)`, what a thread is begun with.
    pub kind: u32,
    pub instructions: Vec<Instruction>,
}

/// A whole program's code, which is well formed: nothing in it names a register, an instruction,
/// an operator, a type, a function or a static object that isn't there.
#[derive(Debug, Drop)]
pub struct Code {
    functions: Vec<CodeFunction>,
    statics: Vec<StaticDef>,
    main: u32,
}

impl Model for Code {
    ghost use Rattle.whole_code.specs.Plain.{PlainCode, plain_code};
    ghost use Rattle.whole_code.specs.WellFormed.{IsWellFormed};

    ghost Value = { PlainCode };

    ghost view = { λ code. plain_code code.functions.items code.statics.items code.main };

    ghost invariant = { λ code. IsWellFormed
        (plain_code code.functions.items code.statics.items code.main) };
}

impl Code {
    /// The code of these functions and statics; `main` is the number of the first function to run.
    pub fn new(functions: Vec<CodeFunction>, statics: Vec<StaticDef>, main: u32) -> Code
        requires { IsWellFormed (plain_code functions.items statics.items main) }
        ensures { result ≡ plain_code functions.items statics.items main }
    {
        Code {
            functions,
            statics,
            main,
        }
    }

    /// The functions, the static objects and the number of `main`.
    pub fn into_parts(self) -> (Vec<CodeFunction>, Vec<StaticDef>, u32)
        ensures parts { plain_code result.0.items result.1.items result.2 ≡ self }
        ensures well_formed { IsWellFormed self }
    {
        let Code {
            functions,
            statics,
            main,
        } = self;
        (functions, statics, main)
    }

    /// The number of the function that a run begins with.
    pub fn main(&self) -> u32
        ensures value { result ≡ self.now.main }
        ensures within { result < length self.now.functions }
    {
        self.main
    }

    /// The functions, each at its number.
    pub fn functions(&self) -> &[CodeFunction]
        ensures value { map plain_function result.now ≡ self.now.functions }
        ensures well_formed { IsWellFormed self.now }
    {
        &self.functions
    }

    /// The static objects, each at its number.
    pub fn statics(&self) -> &[StaticDef]
        ensures value { result.now ≡ self.now.statics }
        ensures well_formed { IsWellFormed self.now }
    {
        &self.statics
    }

    /// The function of this number.
    pub fn function(&self, number: u32) -> &CodeFunction
        requires { number < length self.now.functions }
        ensures value { slice_get self.now.functions number ≡ Some (plain_function result.now) }
        ensures well_formed { IsFunctionWellFormed (named_in self.now) (plain_function result.now) }
    {
        &self.functions[number as usize]
    }

    /// The instruction at this index of this function.
    pub fn instruction(&self, function: u32, index: u32) -> &Instruction
        requires { HasInstruction self.now function index }
        ensures { instruction_at self.now function index ≡ Some result.now }
    {
        &self.functions[function as usize].instructions[index as usize]
    }
}
