//! A thread that carries out register code.

ghost use Rattle.std.specs.Prelude.{◌≡◌, ◌<◌, length, IfOk, slice_get};
ghost use Rattle.ideal_machine.specs.Phrases.{reason_of};
ghost use Rattle.filc_code.specs.Plain.{plain_function};
ghost use Rattle.filc_code.specs.WellFormed.{IsFunctionWellFormed};
ghost use Rattle.code_thread.specs.Exec.{first_registers};
ghost use Rattle.code_thread.specs.Thread.{want_of, is_trapping, stage_at, IsThreadOf};
ghost use Rattle.code_thread.specs.Thread.{thread_after_begin, thread_after_step};
ghost use Rattle.code_thread.specs.Thread.{thread_after_answer};
ghost use Rattle.code_thread.specs.declared.stage.Want.TheVariants.{Instruction as WantInstruction};
ghost use Rattle.code_thread.specs.declared.stage.Want.TheVariants.{Stopped};

use crate::act;
use crate::stage::{Halt, Stage, Want};
use filc_code::{Code, CodeFunction};
use filc_num::{ArithFault, REGISTERS, Reason};
use ideal_machine::{Answer, Event, Finish, Half, Value};
use std::alloc::{AllocError, Global};
use std::marker::Model;

/// What each register is when a function is entered.
const ZERO: Value = Value {
    number: 0,
    half: Half::Nothing,
};

/// A thread: its index in the code, its registers, and what it wants. No call but `new` takes
/// memory, and each does a constant amount of work. The code that is given to a call is that of the
/// last `begin`.
#[derive(Drop)]
pub struct CodeThread {
    registers: Vec<Value>,
    function: u32,
    main: bool,
    index: usize,
    stage: Stage,
}

impl Model for CodeThread {
    ghost use Rattle.std.specs.Prelude.{◌≡◌, length};
    ghost use Rattle.filc_num.specs.declared.registers.TheConstants.{REGISTERS};
    ghost use Rattle.code_thread.specs.Thread.{Thread};

    ghost Value = { Thread };

    ghost view = { λ t. record {
      function = t.function;
      main = t.main;
      index = t.index;
      registers = t.registers.items;
      stage = t.stage;
    } };

    ghost invariant = { λ t. length t.registers.items ≡ REGISTERS };
}

/// Why arithmetic without a result stops a thread.
fn reason_of(fault: ArithFault) -> Reason
    ensures { result ≡ reason_of fault }
{
    match fault {
        ArithFault::Divide => Reason::Divide,
        ArithFault::Shift => Reason::Shift,
    }
}

/// The stage of a thread that comes to an index of a function.
fn arrive(function: &CodeFunction, main: bool, index: usize, registers: &Vec<Value>) -> Stage
    requires index { index < length function.now.instructions.items }
    requires registers { length registers.now.items ≡ REGISTERS }
    requires formed { IsFunctionWellFormed (plain_function function.now) }
    ensures { result ≡ stage_at main
        (slice_get function.now.instructions.items index) registers.now.items }
{
    let instruction = function.instructions[index];
    act::stage_before(main, instruction.op, instruction.line, registers)
}

/// Makes each register zero.
fn clear(registers: &mut Vec<Value>)
    requires { length registers.old.items ≡ REGISTERS }
    ensures { registers.new.items ≡ first_registers }
{
    for index in 0..REGISTERS as usize {
        registers[index] = ZERO;
    }
}

impl CodeThread {
    /// A thread with nothing to do, and with the room of a frame.
    pub fn new(alloc: Global) -> Result<CodeThread, AllocError>
        ensures stopped { IfOk result (λ thread. want_of thread ≡ Stopped) }
    {
        let mut registers = Vec::with_capacity(alloc, REGISTERS as usize)?;
        for _index in 0..REGISTERS as usize {
            registers.push(ZERO)?;
        }
        Ok(CodeThread {
            registers,
            function: 0,
            main: false,
            index: 0,
            stage: Stage::Over(Halt::Returned(0)),
        })
    }

    /// What the thread wants next.
    pub fn want(&self) -> Want
        ensures { result ≡ want_of self.now }
    {
        match self.stage {
            Stage::Acts(..) => Want::Instruction,
            Stage::PutsOut(byte, _) => Want::Event(Event::Out { byte }),
            Stage::Ends(result) => Want::Event(Event::End { result }),
            Stage::Exits(status) => Want::Event(Event::Exit { status }),
            Stage::Traps(reason, line) => Want::Event(Event::Trap { reason, line }),
            Stage::Over(_) => Want::Stopped,
        }
    }

    /// Whether the thread is at the trap of an instruction that has begun, so that the trap's
    /// answer is no instruction of its own.
    pub fn is_trapping(&self) -> bool
        ensures { result ≡ is_trapping self.now }
    {
        matches!(self.stage, Stage::Traps(..))
    }

    /// Starts a thread with a function of the code.
    pub fn begin(&mut self, code: &Code, function: u32)
        requires { function < length code.now.functions }
        ensures exact { self.new ≡ thread_after_begin code.now function }
        ensures of_code { IsThreadOf code.now self.new }
    {
        clear(&mut self.registers);
        self.function = function;
        self.main = function == code.main();
        self.index = 0;
        self.stage = arrive(code.function(function), self.main, 0, &self.registers);
    }

    /// Carries out the instruction before which the thread stands.
    pub fn step(&mut self, code: &Code)
        requires of_code { IsThreadOf code.now self.old }
        requires wanted { want_of self.old ≡ WantInstruction }
        ensures exact { self.new ≡ thread_after_step code.now self.old }
        ensures of_code { IsThreadOf code.now self.new }
    {
        let Stage::Acts(op, line) = self.stage else {
            return;
        };
        let function = code.function(self.function);
        match act::act(&mut self.registers, op, self.index) {
            Ok(index) => {
                self.index = index;
                self.stage = arrive(function, self.main, index, &self.registers);
            }
            Err(fault) => self.stage = Stage::Traps(reason_of(fault), line),
        }
    }

    /// Takes in the answer to the event that the thread wants.
    pub fn answer(&mut self, code: &Code, answer: Answer)
        requires of_code { IsThreadOf code.now self.old }
        ensures exact { self.new ≡ thread_after_answer code.now self.old answer }
        ensures of_code { IsThreadOf code.now self.new }
    {
        match (self.stage, answer) {
            (Stage::PutsOut(..), Answer::Done) => {
                let function = code.function(self.function);
                let index = self.index + 1;
                self.index = index;
                self.stage = arrive(function, self.main, index, &self.registers);
            }
            (Stage::PutsOut(_, line), Answer::Refused(reason)) => {
                self.stage = Stage::Traps(reason, line);
            }
            (Stage::Ends(result), _) => self.stage = Stage::Over(Halt::Returned(result)),
            (Stage::Exits(status), _) => {
                self.stage = Stage::Over(Halt::Finished(Finish::Exited(status)));
            }
            (Stage::Traps(reason, line), _) => {
                self.stage = Stage::Over(Halt::Finished(Finish::Trapped(reason, line)));
            }
            _ => {}
        }
    }
}
