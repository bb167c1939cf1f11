//! What trees may name, and where a tree stands.

ghost use Rattle.std.specs.Prelude.{◌≡◌, ◌<◌, ◌↔◌, IsTrue, IfOk, All, Contains, IsSomeAnd, slice_get, map, length, [], suc, false, reverse};
ghost use Rattle.c_tree.specs.Operands.{IsLocal, IsValue};
ghost use Rattle.c_tree.specs.Fits.{TakesItsArgument, callee_of, put_parameters, in_loop, behind_body, in_switch};

use c_tree::FunctionDef;
use std::alloc::{AllocError, Global};
use std::marker::Model;

/// What the trees of a program may name: its functions, and so many static objects.
#[derive(Drop)]
pub struct Names<'a> {
    functions: &'a [FunctionDef],
    statics: usize,
}

impl<'a> Model for Names<'a> {
    ghost use Rattle.c_tree.specs.Operands.{Outline};
    ghost use Rattle.program_fits.specs.Views.{names_of};

    ghost Value = { Outline };

    ghost view = { names_of };
}

/// How many parameters a function of the library has that puts out a text, or a number in a radix.
fn put_parameters(radix: Option<u8>) -> u32
    ensures { result ≡ put_parameters radix }
{
    match radix {
        None => 1,
        Some(_) => 2,
    }
}

/// Whether a function takes so many arguments, where it is of this kind.
fn takes_as(function: &FunctionDef, kind: u32, arguments: usize) -> bool
    ensures { IsTrue result
        ↔ (function.now.kind ≡ kind → arguments ≡ function.now.parameters) }
{
    function.kind != kind || arguments == function.parameters as usize
}

/// Whether each function of this kind takes so many arguments.
fn each_takes(functions: &[FunctionDef], kind: u32, arguments: usize) -> bool
    ensures { IsTrue result
        ↔ All (λ f. f.kind ≡ kind → arguments ≡ f.parameters) functions.now }
{
    functions
        .iter()
        .all(|function| takes_as(function, kind, arguments))
}

impl<'a> Names<'a> {
    /// The names of a program with these functions and so many static objects.
    pub fn new(functions: &'a [FunctionDef], statics: usize) -> Names<'a>
        ensures { result ≡ record { callees = map callee_of functions.now; statics = statics } }
    {
        Names { functions, statics }
    }

    /// Whether a static object has this number.
    pub fn has_static(&self, number: u32) -> bool
        ensures { IsTrue result ↔ (number < self.now.statics) }
    {
        (number as usize) < self.statics
    }

    /// Whether a function has this number.
    pub fn has_function(&self, number: u32) -> bool
        ensures { IsTrue result ↔ (number < length self.now.callees) }
    {
        (number as usize) < self.functions.len()
    }

    /// Whether a function of this number takes so many arguments.
    pub fn takes(&self, number: u32, arguments: usize) -> bool
        ensures { IsTrue result ↔ IsSomeAnd (slice_get self.now.callees number)
            (λ c. arguments ≡ c.parameters) }
    {
        match self.functions.get(number as usize) {
            Some(function) => arguments == function.parameters as usize,
            None => false,
        }
    }

    /// Whether a function of this number takes a text, or a number with its radix.
    pub fn puts(&self, number: u32, radix: Option<u8>) -> bool
        ensures { IsTrue result ↔ IsSomeAnd (slice_get self.now.callees number)
            (λ c. c.parameters ≡ put_parameters radix) }
    {
        match self.functions.get(number as usize) {
            Some(function) => function.parameters == put_parameters(radix),
            None => false,
        }
    }

    /// Whether each function of this kind takes so many arguments.
    pub fn kind_takes(&self, kind: u32, arguments: usize) -> bool
        ensures { IsTrue result
            ↔ All (λ c. c.kind ≡ kind → arguments ≡ c.parameters) self.now.callees }
    {
        each_takes(self.functions, kind, arguments)
    }

    /// Whether each function that may be started as a thread takes one argument.
    pub fn threads_take_one(&self) -> bool
        ensures { IsTrue result ↔ All TakesItsArgument self.now.callees }
    {
        self.kind_takes(0, 1)
    }
}

/// Where an expression or a statement stands: in a function with so many locals, of which these have a home; and
/// whether a loop or switch is round it that `break` leaves, and a loop in which `continue` goes on.
#[derive(Drop)]
pub struct Place<'a> {
    locals: u32,
    homes: &'a [u32],
    may_break: bool,
    may_continue: bool,
}

impl<'a> Model for Place<'a> {
    ghost use Rattle.c_tree.specs.Operands.{Context};
    ghost use Rattle.program_fits.specs.Views.{place_of};

    ghost Value = { Context };

    ghost view = { place_of };
}

impl<'a> Place<'a> {
    /// Where the body of a function with so many locals stands.
    pub fn of_body(locals: u32) -> Place<'static>
        ensures { result ≡ record {
          locals = locals;
          homes = [];
          may_break = false;
          may_continue = false;
        } }
    {
        Place {
            locals,
            homes: &[],
            may_break: false,
            may_continue: false,
        }
    }

    /// Whether a function has this local.
    pub fn has_local(&self, local: u32) -> bool
        ensures { IsTrue result ↔ IsLocal self.now local }
    {
        local < self.locals
    }

    /// Whether a local has a home here.
    fn has_home(&self, local: u32) -> bool
        ensures { IsTrue result ↔ Contains self.now.homes local }
    {
        self.homes.contains(&local)
    }

    /// Whether a local has no home here, so that it can be set.
    pub fn is_value(&self, local: u32) -> bool
        ensures { IsTrue result ↔ IsValue self.now local }
    {
        local < self.locals && !self.has_home(local)
    }

    /// Whether `break` has something to leave.
    pub fn may_break(&self) -> bool
        ensures { result ≡ self.now.may_break }
    {
        self.may_break
    }

    /// Whether `continue` has a loop to go on in.
    pub fn may_continue(&self) -> bool
        ensures { result ≡ self.now.may_continue }
    {
        self.may_continue
    }

    /// The locals that have a home, the newest last.
    pub fn homes(&self, alloc: Global) -> Result<Vec<u32>, AllocError>
        ensures { IfOk result (λ homes. reverse homes.items ≡ self.now.homes) }
    {
        self.homes.to_vec(alloc)
    }

    /// The same place with these homes, the newest last.
    pub fn with_homes<'b>(&self, homes: &'b [u32]) -> Place<'b>
        ensures { result ≡ record self.now { homes = reverse homes.now } }
    {
        Place {
            locals: self.locals,
            homes,
            may_break: self.may_break,
            may_continue: self.may_continue,
        }
    }

    /// In a loop's body.
    pub fn in_loop(&self) -> Place<'a>
        ensures { result ≡ in_loop self.now }
    {
        Place {
            locals: self.locals,
            homes: self.homes,
            may_break: true,
            may_continue: true,
        }
    }

    /// In what a loop does behind its body.
    pub fn behind_body(&self) -> Place<'a>
        ensures { result ≡ behind_body self.now }
    {
        Place {
            locals: self.locals,
            homes: self.homes,
            may_break: true,
            may_continue: false,
        }
    }

    /// In a switch.
    pub fn in_switch(&self) -> Place<'a>
        ensures { result ≡ in_switch self.now }
    {
        Place {
            locals: self.locals,
            homes: self.homes,
            may_break: true,
            may_continue: self.may_continue,
        }
    }
}
