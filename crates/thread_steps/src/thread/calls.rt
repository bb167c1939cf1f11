//! Calls and returns: a frame is filled, and left.

ghost use Rattle.std.specs.Prelude.{◌≡◌, ◌+◌, ◌*◌, ◌<◌, ◌≤◌, ◌^◌, ℕ, ◌∷◌, min, length, All, Some};
ghost use Rattle.std.specs.Prelude.{if◌then◌else◌};
ghost use Rattle.ideal_machine.specs.Values.{value_at};
ghost use Rattle.whole_code.specs.Plain.{plain_function};
ghost use Rattle.whole_thread.specs.Act.{caller_at, entering};
ghost use Rattle.whole_thread.specs.Standing.{trap_line, registers_from, first_registers};
ghost use Rattle.whole_thread.specs.Standing.{further_activations, register};
ghost use Rattle.whole_thread.specs.Thread.{before, calls, calls_half, return_of, returns_to};
ghost use Rattle.thread_steps.specs.declared.constants.TheConstants.{BLOCK, FRAME};
ghost use Rattle.thread_steps.specs.Stands.{HasResult};
ghost use Rattle.thread_steps.specs.Passing.{callee_register};
ghost use Rattle.thread_steps.specs.Usable.{HasArguments};
ghost use Rattle.thread_steps.specs.Turns.{is_instruction, room_of};

use crate::activation::Activation;
use crate::constants::{FRAME, FURTHER_ACTIVATIONS};
use crate::thread::step::has_kind;
use crate::thread::{CodeThread, ZERO};
use filc_num::Reason;
use ideal_machine::{Half, Value};
use whole_code::{Code, CodeFunction, Instruction};
use whole_thread::Stage;

/// The smaller of two numbers.
pub(super) fn fewer(a: u32, b: u32) -> u32
    ensures { result ≡ min a b }
{
    if a < b { a } else { b }
}

/// What the register k of a function that is called begins with: an argument, or zero.
fn argument_or_zero(registers: &Vec<Value>, from: usize, given: u32, k: u32) -> Value
    requires { k < given → from + k < length registers.now.items }
    ensures { result ≡ callee_register registers.now.items from given k }
{
    if k < given {
        registers[from + k as usize]
    } else {
        ZERO
    }
}

/// Fills the frame after the one at `base`: its first `given` registers with those from `from` on,
/// and the others with zero.
fn fill(registers: &mut Vec<Value>, base: usize, from: usize, given: u32, values: u32)
    requires long { length registers.old.items ≡ BLOCK }
    requires base { base + 2 * FRAME ≤ BLOCK }
    requires values { values ≤ FRAME }
    requires arguments { (k : ℕ) → k < given → from + k < base + FRAME }
    ensures long { length registers.new.items ≡ BLOCK }
    ensures below { (k : ℕ) → k < base + FRAME →
        value_at registers.new.items k ≡ value_at registers.old.items k }
    ensures filled { (k : ℕ) → k < values → value_at registers.new.items (base + FRAME + k) ≡
        callee_register registers.old.items from given k }
{
    for k in 0..values {
        let value = argument_or_zero(registers, from, given, k);
        registers[base + FRAME + k as usize] = value;
    }
}

impl CodeThread {
    /// Begins an activation of a function, which is called at this line with these arguments: the
    /// first of their registers, and how many there are.
    fn push(&mut self, f: &CodeFunction, line: u32, d: u32, function: u32, arguments: (u32, u32))
        requires values { f.now.values ≤ FRAME }
        requires index { self.old.at.frame.index + 1 < 2 ^ 64 }
        requires depth { length self.old.at.callers < further_activations }
        requires arguments { (k : ℕ) → k < arguments.1 →
            arguments.0 + k < length self.old.at.frame.registers }
        ensures { self.new ≡ before self.old (entering
            (caller_at self.old.at d ∷ self.old.at.callers) function (Some line)
            (first_registers (plain_function f.now)
            (registers_from self.old.at arguments.0 arguments.1))) }
    {
        let given = fewer(f.parameters, arguments.1);
        let from = self.base + arguments.0 as usize;
        fill(&mut self.registers, self.base, from, given, f.values);
        self.callers[self.depth] = Activation {
            function: self.function,
            index: self.index + 1,
            called_at: self.called_at,
            values: self.values,
            result: d,
        };
        self.depth += 1;
        self.base += FRAME;
        self.function = function;
        self.index = 0;
        self.called_at = Some(line);
        self.values = f.values;
        self.granted = None;
        self.stage = Stage::Before;
    }

    /// Calls a function, where there is room for one more activation.
    pub(super) fn enter(
        &mut self,
        code: &Code,
        i: &Instruction,
        d: u32,
        function: u32,
        arguments: (u32, u32),
    )
        requires function { function < length code.now.functions }
        requires index { self.old.at.frame.index + 1 < 2 ^ 64 }
        requires arguments { HasArguments (room_of code.now self.old) arguments.0 arguments.1 }
        ensures { self.new ≡ calls code.now self.old (trap_line self.old.at.frame i.now) d function
            (registers_from self.old.at arguments.0 arguments.1) }
    {
        if self.depth < FURTHER_ACTIVATIONS {
            let line = self.line(i);
            self.push(code.function(function), line, d, function, arguments);
        } else {
            self.trap(i, Reason::CallDepth);
        }
    }

    /// Calls the function that a half names, if it is of this kind.
    pub(super) fn enter_half(
        &mut self,
        code: &Code,
        i: &Instruction,
        d: u32,
        half: Half,
        kind: u32,
        arguments: (u32, u32),
    )
        requires index { self.old.at.frame.index + 1 < 2 ^ 64 }
        requires arguments { HasArguments (room_of code.now self.old) arguments.0 arguments.1 }
        ensures { self.new ≡ calls_half code.now self.old (trap_line self.old.at.frame i.now) d kind
            (registers_from self.old.at arguments.0 arguments.1) half }
    {
        let Half::Function(function) = half else {
            self.trap(i, Reason::NotFunction);
            return;
        };
        if has_kind(code, function, kind) {
            self.enter(code, i, d, function, arguments);
        } else {
            self.trap(i, Reason::FunctionType);
        }
    }

    /// Goes on in the caller with the value of a register, if there is a caller.
    pub(super) fn return_value(&mut self, a: u32) -> bool
        requires register { a < length self.old.at.frame.registers }
        requires results { All HasResult self.old.at.callers }
        ensures wanted { result ≡ is_instruction (return_of self.old.main self.old.at.callers
            (register self.old.at a)) }
        ensures exact { self.new ≡ (if result then returns_to self.old self.old.at.callers
            (register self.old.at a) else self.old) }
    {
        if self.depth == 0 {
            return false;
        }
        let value = self.value_of(a);
        let depth = self.depth - 1;
        let caller = self.callers[depth];
        self.depth = depth;
        self.base -= FRAME;
        self.function = caller.function;
        self.index = caller.index;
        self.called_at = caller.called_at;
        self.values = caller.values;
        self.granted = None;
        self.stage = Stage::Before;
        self.put(caller.result, value);
        true
    }
}
