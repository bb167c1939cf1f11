//! A thread and its block of registers.

ghost use Rattle.std.specs.Prelude.{◌≡◌, ◌+◌, ◌<◌, ◌^◌, length, true, IfOk, None, Some};
ghost use Rattle.whole_code.specs.Plain.{PlainCode};
ghost use Rattle.whole_thread.specs.Standing.{register, with_register, at_index};
ghost use Rattle.whole_thread.specs.Thread.{goes_on, gets, at_stage, before};
ghost use Rattle.whole_thread.specs.Thread.{here, stage_of, want_of};
ghost use Rattle.thread_steps.specs.declared.constants.TheConstants.{ACTIVATIONS, BLOCK};
ghost use Rattle.thread_steps.specs.Short.{IsShortStage};
ghost use Rattle.thread_steps.specs.Stands.{StandsIn, is_over};
ghost use Rattle.thread_steps.specs.Turns.{is_before, room_of};
ghost use Rattle.thread_steps.specs.Usable.{IsUsable};
ghost use Rattle.whole_thread.specs.declared.stage.Want.TheVariants as want;

mod answer;
mod begin;
mod calls;
mod registers;
mod reply;
mod step;
mod turns;
mod want;

use crate::activation::Activation;
use crate::constants::{ACTIVATIONS, BLOCK};
use ideal_machine::{Access, Half, Value};
use std::alloc::{AllocError, Global};
use std::marker::Model;
use whole_code::{Code, Instruction};
use whole_thread::{Halt, Stage};

/// What each register is when a function is entered.
const ZERO: Value = Value {
    number: 0,
    half: Half::Nothing,
};

/// What stands where no activation waits.
const NONE: Activation = Activation {
    function: 0,
    index: 0,
    called_at: None,
    values: 0,
    result: 0,
};

/// A thread: its activations, the registers of all of them, and where it is in the instruction at
/// hand. No call but `new` takes memory. The code that is given to a call is that of the last `begin`.
#[derive(Drop)]
pub struct CodeThread {
    registers: Vec<Value>,
    callers: Vec<Activation>,
    depth: usize,
    base: usize,
    function: u32,
    index: usize,
    called_at: Option<u32>,
    values: u32,
    granted: Option<Access>,
    stage: Stage,
    id: u64,
    main: bool,
}

impl Model for CodeThread {
    ghost use Rattle.std.specs.Prelude.{◌≡◌, ◌*◌, ◌<◌, length};
    ghost use Rattle.filc_num.specs.declared.registers.TheConstants.{REGISTERS};
    ghost use Rattle.whole_thread.specs.Thread.{Thread};
    ghost use Rattle.thread_steps.specs.Blocks.{frame_registers, callers_of};
    ghost use Rattle.thread_steps.specs.Short.{IsShortRound, IsShortStage};
    ghost use Rattle.thread_steps.specs.declared.constants.TheConstants.{ACTIVATIONS, BLOCK};

    ghost Value = { Thread };

    ghost view = { λ t. record {
      id = t.id;
      main = t.main;
      at = record {
        callers = callers_of t.callers.items t.registers.items t.depth;
        frame = record {
          function = t.function;
          index = t.index;
          called_at = t.called_at;
          registers = frame_registers t.registers.items t.depth t.values;
        };
        granted = t.granted;
      };
      stage = t.stage;
    } };

    ghost invariant = { λ t. (length t.registers.items ≡ BLOCK)
        × (length t.callers.items ≡ ACTIVATIONS) × (t.depth < ACTIVATIONS) × (t.base ≡ REGISTERS * t.depth)
        × IsShortRound t.granted × IsShortStage t.stage };
}

/// A thread that has ended, with these frames.
fn thread_of(registers: Vec<Value>, callers: Vec<Activation>) -> CodeThread
    requires registers { length registers.items ≡ BLOCK }
    requires callers { length callers.items ≡ ACTIVATIONS }
    ensures { is_over result.stage ≡ true }
{
    CodeThread {
        registers,
        callers,
        depth: 0,
        base: 0,
        function: 0,
        index: 0,
        called_at: None,
        values: 0,
        granted: None,
        stage: Stage::Over(Halt::Returned(0)),
        id: 0,
        main: false,
    }
}

impl CodeThread {
    /// A thread that has ended, with the room of all its frames.
    pub fn new(alloc: Global) -> Result<CodeThread, AllocError>
        ensures over { IfOk result (λ thread. is_over thread.stage ≡ true) }
        ensures stopped { IfOk result (λ thread.
            (code : PlainCode) → want_of code thread ≡ want.Stopped) }
    {
        let mut registers = Vec::with_capacity(alloc, BLOCK)?;
        for _register in 0..BLOCK {
            registers.push(ZERO)?;
        }
        let mut callers = Vec::with_capacity(alloc, ACTIVATIONS)?;
        for _caller in 0..ACTIVATIONS {
            callers.push(NONE)?;
        }
        Ok(thread_of(registers, callers))
    }

    /// Whether the thread has ended. Then it wants nothing, whatever code it is shown.
    pub fn is_over(&self) -> bool
        ensures { result ≡ is_over self.now.stage }
    {
        matches!(self.stage, Stage::Over(_))
    }

    /// The function in which the thread is, and the index of the instruction at which it stands there.
    pub fn at(&self) -> (u32, usize)
        ensures function { result.0 ≡ self.now.at.frame.function }
        ensures index { result.1 ≡ self.now.at.frame.index }
    {
        (self.function, self.index)
    }

    /// The instruction at which the thread stands.
    pub fn instruction<'a>(&self, code: &'a Code) -> &'a Instruction
        requires { StandsIn code.now self.now }
        ensures here { here code.now self.now ≡ Some result.now }
        ensures usable { IsUsable (room_of code.now self.now) result.now.op }
        ensures index { self.now.at.frame.index + 1 < 2 ^ 64 }
    {
        let _functions = code.functions();
        self.instruction_in(code, code.function(self.function))
    }

    /// A register of the innermost activation.
    #[inline(always)]
    fn value_of(&self, r: u32) -> Value
        requires { r < length self.now.at.frame.registers }
        ensures { result ≡ register self.now.at r }
    {
        self.registers[self.base + r as usize]
    }

    /// A register of the innermost frame: an operand of the instruction at hand.
    pub fn operand(&self, r: u32) -> Value
        requires { r < length self.now.at.frame.registers }
        ensures { result ≡ register self.now.at r }
    {
        self.value_of(r)
    }

    /// Writes a register of the innermost activation.
    #[inline(always)]
    fn put(&mut self, d: u32, value: Value)
        requires { d < length self.old.at.frame.registers }
        ensures { self.new ≡ record self.old { at = with_register self.old.at d value } }
    {
        self.registers[self.base + d as usize] = value;
    }

    /// Whether the thread stands before its instruction, and in no further round of it.
    #[inline(always)]
    pub fn is_before(&self) -> bool
        ensures { result ≡ is_before (stage_of self.now) }
    {
        matches!((self.granted, self.stage), (None, Stage::Before))
    }

    /// Leaves the instruction, whatever was answered of it. Most instructions have no answers, and then
    /// nothing is written.
    fn clear(&mut self)
        ensures { self.new ≡ before self.old (record self.old.at { granted = None }) }
    {
        if !self.is_before() {
            self.granted = None;
            self.stage = Stage::Before;
        }
    }

    /// Goes on at the next instruction.
    fn next(&mut self)
        requires { self.old.at.frame.index + 1 < 2 ^ 64 }
        ensures { self.new ≡ goes_on self.old }
    {
        self.clear();
        self.index += 1;
    }

    /// Writes a register, and goes on at the next instruction.
    fn set(&mut self, d: u32, value: Value)
        requires register { d < length self.old.at.frame.registers }
        requires index { self.old.at.frame.index + 1 < 2 ^ 64 }
        ensures { self.new ≡ gets self.old d value }
    {
        self.clear();
        self.put(d, value);
        self.index += 1;
    }

    /// Goes on at another instruction of the function.
    fn jump(&mut self, target: u32)
        ensures { self.new ≡ before self.old (at_index self.old.at target) }
    {
        self.clear();
        self.index = target as usize;
    }

    /// Goes to another stage of its instruction.
    fn set_stage(&mut self, stage: Stage)
        requires { IsShortStage stage }
        ensures { self.new ≡ at_stage self.old stage }
    {
        self.stage = stage;
    }
}
