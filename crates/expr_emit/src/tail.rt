//! The last instructions of a function's code.
//!
//! Code is put in place from its end to its beginning. So what a jump forward leads to stands there before the
//! jump is put, and each jump is known when it is put.

ghost use Rattle.std.specs.Prelude.{◌≡◌, [], ◌∷◌, length, OnOk};
ghost use Rattle.expr_gen.specs.Code.{instructions};
ghost use Rattle.expr_emit.specs.Tail.{plain_tail, before, Replaces};

use crate::place::Place;
use std::alloc::{AllocError, Global};
use std::marker::Model;
use whole_code::{Instruction, Op};

/// The last instructions of a function's code, from the index of the first of them to the end.
#[derive(Debug, Drop)]
pub struct Tail {
    start: u32,
    reversed: Vec<Instruction>,
}

impl Model for Tail {
    ghost use Rattle.std.specs.Prelude.{reverse};
    ghost use Rattle.expr_emit.specs.Tail.{PlainTail, plain_tail};

    ghost Value = { PlainTail };

    ghost view = { λ tail. plain_tail tail.start (reverse tail.reversed.items) };
}

impl Tail {
    /// No instruction yet, of code that has so many.
    pub fn new(alloc: Global, size: u32) -> Tail
        ensures { result ≡ plain_tail size [] }
    {
        Tail {
            start: size,
            reversed: Vec::new(alloc),
        }
    }

    /// The index of the first instruction that is there.
    pub fn start(&self) -> u32
        ensures { result ≡ self.now.start }
    {
        self.start
    }

    /// One instruction more. Nothing stands before index 0.
    pub fn push(&mut self, instruction: Instruction) -> Result<(), AllocError>
        ensures { OnOk result (self.new ≡ before (instruction ∷ []) self.old) }
    {
        self.reversed.push(instruction)?;
        self.start = self.start.saturating_sub(1);
        Ok(())
    }

    /// How many instructions are there.
    pub fn len(&self) -> usize
        ensures { result ≡ length self.now.instructions }
    {
        self.reversed.len()
    }

    /// Another instruction comes in place of the one that has so many behind it, where there is one.
    pub fn replace(&mut self, behind: usize, instruction: Instruction)
        ensures start { self.new.start ≡ self.old.start }
        ensures instructions { Replaces behind instruction self.old.instructions
            self.new.instructions }
    {
        if behind < self.reversed.len() {
            self.reversed[behind] = instruction;
        }
    }

    /// The instructions, from the first to the last.
    pub fn into_instructions(self) -> Vec<Instruction>
        ensures { result.items ≡ self.instructions }
    {
        let mut instructions = self.reversed;
        instructions.reverse();
        instructions
    }
}

/// These instructions more, of one line.
#[tactic(auto, using(crate::proofs::Tails::before_append))]
pub fn put(tail: &mut Tail, place: Place, ops: &[Op]) -> Result<(), AllocError>
    ensures { OnOk result (tail.new ≡
        before (instructions place.library place.line ops.now) tail.old) }
{
    for index in (0..ops.len()).rev() {
        tail.push(Instruction {
            line: place.line,
            library: place.library,
            op: ops[index],
        })?;
    }
    Ok(())
}
