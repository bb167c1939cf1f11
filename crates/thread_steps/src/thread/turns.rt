//! Many instructions on registers, one after another.
//!
//! Most of them read and write registers of the innermost frame, and go on within its function.
//! Those are carried out here, in a loop that holds the function; any other is left to `step`.

ghost use Rattle.std.specs.Prelude.{◌≡◌, ◌+◌, ◌*◌, ◌<◌, ◌≤◌, ◌^◌, length, All, Some, slice_get};
ghost use Rattle.std.specs.Prelude.{true, if◌then◌else◌};
ghost use Rattle.ideal_machine.specs.Addresses.{advance};
ghost use Rattle.ideal_machine.specs.Phrases.{operator_result, if_zero};
ghost use Rattle.whole_code.specs.Numbers.{operator_at, type_at};
ghost use Rattle.whole_code.specs.Numbers.{IsOperatorNumber, IsArithmeticNumber};
ghost use Rattle.whole_code.specs.Plain.{plain_function};
ghost use Rattle.whole_code.specs.WellFormed.{IsWellFormed};
ghost use Rattle.whole_thread.specs.Standing.{trap_line, at_index, register};
ghost use Rattle.whole_thread.specs.Thread.{here, stage_of, want_before};
ghost use Rattle.whole_thread.specs.Thread.{before, goes_on, gets, gets_result};
ghost use Rattle.thread_steps.specs.Stands.{IsPlace, IsThreadOf, StandsIn};
ghost use Rattle.thread_steps.specs.Turns.{is_before, is_instruction, room_of, turn_by};
ghost use Rattle.thread_steps.specs.Turns.{thread_after_turns, turns_within, Leads};
ghost use Rattle.thread_steps.specs.Usable.{IsUsable};

use crate::arithmetic::{arithmetic, converted};
use crate::thread::CodeThread;
use crate::thread::step::{advance, function_pointer, integer, object_pointer};
use ideal_machine::Value;
use whole_code::{Code, CodeFunction, Instruction, Op, type_at};

impl CodeThread {
    /// The number of the function in which the thread is.
    #[inline(always)]
    fn function_number(&self) -> u32
        ensures { result ≡ self.now.at.frame.function }
    {
        self.function
    }

    /// The instruction at which the thread stands in its function.
    #[inline(always)]
    pub(super) fn instruction_in<'a>(&self, code: &Code, f: &'a CodeFunction) -> &'a Instruction
        requires stands { StandsIn code.now self.now }
        requires formed { IsWellFormed code.now }
        requires function { slice_get code.now.functions self.now.at.frame.function
            ≡ Some (plain_function f.now) }
        ensures here { here code.now self.now ≡ Some result.now }
        ensures usable { IsUsable (room_of code.now self.now) result.now.op }
        ensures index { self.now.at.frame.index + 1 < 2 ^ 64 }
    {
        &f.instructions[self.index]
    }

    /// Goes to another instruction, from before one.
    #[inline(always)]
    fn go_to(&mut self, index: usize)
        requires { is_before (stage_of self.old) ≡ true }
        ensures { self.new ≡ before self.old (at_index self.old.at index) }
    {
        self.index = index;
    }

    /// Goes on at the next instruction, from before one.
    #[inline(always)]
    fn pass(&mut self)
        requires before { is_before (stage_of self.old) ≡ true }
        requires index { self.old.at.frame.index + 1 < 2 ^ 64 }
        ensures { self.new ≡ goes_on self.old }
    {
        self.index += 1;
    }

    /// Writes a register before an instruction, and goes on at the next one.
    #[inline(always)]
    fn write(&mut self, d: u32, value: Value)
        requires before { is_before (stage_of self.old) ≡ true }
        requires register { d < length self.old.at.frame.registers }
        requires index { self.old.at.frame.index + 1 < 2 ^ 64 }
        ensures { self.new ≡ gets self.old d value }
    {
        self.put(d, value);
        self.index += 1;
    }

    /// Goes to another instruction where a register is 0, and else on at the next one.
    #[inline(always)]
    fn branch(&mut self, a: u32, target: u32)
        requires before { is_before (stage_of self.old) ≡ true }
        requires a { a < length self.old.at.frame.registers }
        requires index { self.old.at.frame.index + 1 < 2 ^ 64 }
        ensures { self.new ≡ if_zero (register self.old.at a).number
            (before self.old (at_index self.old.at target)) (goes_on self.old) }
    {
        if self.value_of(a).number == 0 {
            self.go_to(target as usize);
        } else {
            self.pass();
        }
    }

    /// Writes what an operator gives, where it has a result.
    #[inline(always)]
    fn write_result(
        &mut self,
        i: &Instruction,
        d: u32,
        operator: (u32, u32),
        a: u64,
        b: u64,
    ) -> bool
        requires before { is_before (stage_of self.old) ≡ true }
        requires register { d < length self.old.at.frame.registers }
        requires index { self.old.at.frame.index + 1 < 2 ^ 64 }
        requires op { IsOperatorNumber operator.0 }
        requires t { IsArithmeticNumber operator.1 }
        ensures exact { self.new ≡ (if result
            then gets_result self.old (trap_line self.old.at.frame i.now) d
            (operator_result (operator_at operator.0) (type_at operator.1) a b) else self.old) }
        ensures before { is_before (stage_of self.new) ≡ true }
        ensures function { self.new.at.frame.function ≡ self.old.at.frame.function }
    {
        match arithmetic(operator.0, operator.1, a, b) {
            Ok(number) => {
                self.write(d, integer(number));
                true
            }
            Err(_) => false,
        }
    }

    /// Carries out an instruction that leaves the thread in its function, before another one.
    #[inline(always)]
    fn act_within(&mut self, code: &Code, places: &[u64], i: &Instruction) -> bool
        requires before { is_before (stage_of self.old) ≡ true }
        requires usable { IsUsable (room_of code.now self.old) i.now.op }
        requires index { self.old.at.frame.index + 1 < 2 ^ 64 }
        requires places { length code.now.statics ≤ length places.now }
        requires near { All IsPlace places.now }
        ensures wanted { result ≡ true →
            is_instruction (want_before code.now self.old i.now.op) ≡ true }
        ensures exact { self.new ≡ turn_by result code.now places.now self.old i.now i.now.op }
        ensures before { is_before (stage_of self.new) ≡ true }
        ensures function { self.new.at.frame.function ≡ self.old.at.frame.function }
    {
        match i.op {
            Op::Const { d, constant } => self.write(d, integer(constant)),
            Op::Move { d, a } => {
                let value = self.value_of(a);
                self.write(d, value);
            }
            Op::StaticAt { d, number } => self.write(d, object_pointer(places[number as usize])),
            Op::FunctionAt { d, number } => self.write(d, function_pointer(number)),
            Op::Convert { d, a, t } => {
                let number = self.value_of(a).number;
                self.write(d, integer(converted(number, type_at(t))));
            }
            Op::Binary { d, a, b, op, t } => {
                let left = self.value_of(a).number;
                let right = self.value_of(b).number;
                return self.write_result(i, d, (op, t), left, right);
            }
            Op::PointerAdd { d, a, b, bytes } => {
                let pointer = self.value_of(a);
                let count = self.value_of(b).number;
                self.write(d, advance(pointer, count, bytes));
            }
            Op::ToPointer { d, a } => {
                let number = self.value_of(a).number;
                self.write(d, integer(number));
            }
            Op::Jump { target } => self.go_to(target as usize),
            Op::JumpZero { a, target } => self.branch(a, target),
            Op::SelfId { d } => self.write(d, integer(self.id)),
            _ => return false,
        }
        true
    }

    /// Carries out instructions that leave the thread in its function, at most so many, and tells how
    /// many it was.
    fn turns_in(&mut self, code: &Code, places: &[u64], f: &CodeFunction, most: u64) -> u64
        requires stands { StandsIn code.now self.old }
        requires formed { IsWellFormed code.now }
        requires before { is_before (stage_of self.old) ≡ true }
        requires function { slice_get code.now.functions self.old.at.frame.function
            ≡ Some (plain_function f.now) }
        requires places { length code.now.statics ≤ length places.now }
        requires near { All IsPlace places.now }
        ensures within { result ≤ most }
        ensures leads { Leads code.now places.now result self.old self.new }
        ensures stands { StandsIn code.now self.new }
    {
        for done in 0..most {
            let i = self.instruction_in(code, f);
            if !self.act_within(code, places, i) {
                return done;
            }
        }
        most
    }

    /// The same, where the thread stands before an instruction; else it stays.
    fn turns_here(&mut self, code: &Code, places: &[u64], most: u64) -> u64
        requires stands { IsThreadOf code.now self.old }
        requires places { length code.now.statics ≤ length places.now }
        requires near { All IsPlace places.now }
        ensures within { result ≤ most }
        ensures leads { Leads code.now places.now result self.old self.new }
        ensures stands { IsThreadOf code.now self.new }
    {
        let _functions = code.functions();
        if !self.is_before() {
            return 0;
        }
        let f = code.function(self.function_number());
        self.turns_in(code, places, f, most)
    }

    /// Carries out instructions on registers for as long as the thread wants to, at most so many, and
    /// tells how many it was. `places` has the place of each static object.
    pub fn turns(&mut self, code: &Code, places: &[u64], most: u64) -> u64
        requires stands { IsThreadOf code.now self.old }
        requires places { length code.now.statics ≤ length places.now }
        requires near { All IsPlace places.now }
        ensures count { result ≡ turns_within most code.now places.now self.old }
        ensures exact { self.new ≡ thread_after_turns result code.now places.now self.old }
        ensures stands { IsThreadOf code.now self.new }
    {
        let mut done = 0;
        while done < most {
            if !self.step(code, places) {
                return done;
            }
            done += 1;
            done += self.turns_here(code, places, most - done);
        }
        done
    }
}
