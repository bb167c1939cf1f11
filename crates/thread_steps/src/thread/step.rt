//! One instruction on registers.

ghost use Rattle.std.specs.Prelude.{◌≡◌, ◌+◌, ◌*◌, ◌<◌, ◌≤◌, ◌^◌, length, All, [], slice_get};
ghost use Rattle.std.specs.Prelude.{if◌then◌else◌};
ghost use Rattle.whole_code.specs.Numbers.{operator_at, type_at};
ghost use Rattle.whole_code.specs.Numbers.{IsOperatorNumber, IsArithmeticNumber, IsTypeNumber};
ghost use Rattle.ideal_machine.specs.Values.{integer};
ghost use Rattle.ideal_machine.specs.Addresses.{object_pointer, function_pointer, advance};
ghost use Rattle.ideal_machine.specs.Addresses.{pointer_of_int};
ghost use Rattle.filc_num.specs.Integers.{convert_of};
ghost use Rattle.ideal_machine.specs.Phrases.{operator_result, reason_of, if_zero};
ghost use Rattle.whole_thread.specs.Act.{kinds_of};
ghost use Rattle.whole_thread.specs.Standing.{trap_line, at_index, register};
ghost use Rattle.whole_thread.specs.Thread.{place_address, gets, gets_result, want_before};
ghost use Rattle.whole_thread.specs.Thread.{before, goes_on};
ghost use Rattle.whole_thread.specs.Thread.{at_stage, free_of, spawn_of, function_fault};
ghost use Rattle.whole_thread.specs.declared.stage.Stage.TheVariants as stage;
ghost use Rattle.whole_thread.specs.declared.stage.Want.TheVariants as want;
ghost use Rattle.whole_thread.specs.Thread.{want_of, thread_after_poll};
ghost use Rattle.thread_steps.specs.Stands.{IsPlace, HasResult, IsThreadOf};
ghost use Rattle.thread_steps.specs.Usable.{IsUsable};
ghost use Rattle.thread_steps.specs.Turns.{is_instruction, turn_by, room_of, is_of_kind, calls_by};
ghost use Rattle.thread_steps.specs.Turns.{thread_after_turn};

use crate::arithmetic::{arithmetic, converted};
use crate::constants::{FIRST_ADDRESS, THREAD_KIND, WORD_BYTES};
use crate::thread::CodeThread;
use filc_num::{ArithFault, Reason};
use ideal_machine::{Half, Value};
use whole_code::{Code, Instruction, Op, type_at};
use whole_thread::Stage;

/// An integer as a value.
#[inline(always)]
pub const fn integer(number: u64) -> Value
    ensures { result ≡ integer number }
{
    Value {
        number,
        half: Half::Nothing,
    }
}

/// Why arithmetic without a result stops a thread.
fn reason_of(fault: ArithFault) -> Reason
    ensures { result ≡ reason_of fault }
{
    match fault {
        ArithFault::Divide => Reason::Divide,
        ArithFault::Shift => Reason::Shift,
    }
}

/// The pointer to the object at a place.
pub(super) fn object_pointer(place: u64) -> Value
    requires { IsPlace place }
    ensures { result ≡ object_pointer place_address place }
{
    Value {
        number: FIRST_ADDRESS + WORD_BYTES * place,
        half: Half::Object(place),
    }
}

/// The pointer to a function.
pub(super) fn function_pointer(number: u32) -> Value
    ensures { result ≡ function_pointer number }
{
    Value {
        number: 16 * (u64::from(number) + 1),
        half: Half::Function(number),
    }
}

/// A pointer, moved by so many elements (C11 6.5.6).
#[inline(always)]
pub(super) fn advance(pointer: Value, count: u64, bytes: u32) -> Value
    ensures { result ≡ advance pointer (count * bytes) }
{
    Value {
        number: pointer
            .number
            .wrapping_add(count.wrapping_mul(u64::from(bytes))),
        half: pointer.half,
    }
}

/// Whether code has the function, with a type of this number.
pub(super) fn has_kind(code: &Code, function: u32, kind: u32) -> bool
    ensures { result ≡ is_of_kind kind (slice_get (kinds_of code.now) function) }
{
    if (function as usize) < code.functions().len() {
        code.function(function).kind == kind
    } else {
        false
    }
}

impl CodeThread {
    /// The line of a trap of this instruction.
    pub(super) fn line(&self, i: &Instruction) -> u32
        ensures { result ≡ trap_line self.now.at.frame i.now }
    {
        match self.called_at {
            Some(line) if i.library => line,
            _ => i.line,
        }
    }

    /// Traps for a reason.
    pub(super) fn trap(&mut self, i: &Instruction, reason: Reason)
        ensures { self.new ≡
            at_stage self.old (stage.Traps reason (trap_line self.old.at.frame i.now)) }
    {
        let line = self.line(i);
        self.set_stage(Stage::Traps(reason, line));
    }

    /// Writes what an operator gives, or traps.
    pub(super) fn compute(&mut self, i: &Instruction, d: u32, operator: (u32, u32), a: u64, b: u64)
        requires register { d < length self.old.at.frame.registers }
        requires index { self.old.at.frame.index + 1 < 2 ^ 64 }
        requires op { IsOperatorNumber operator.0 }
        requires t { IsArithmeticNumber operator.1 }
        ensures { self.new ≡ gets_result self.old (trap_line self.old.at.frame i.now) d
            (operator_result (operator_at operator.0) (type_at operator.1) a b) }
    {
        match arithmetic(operator.0, operator.1, a, b) {
            Ok(number) => self.set(d, integer(number)),
            Err(fault) => self.trap(i, reason_of(fault)),
        }
    }

    /// Jumps where a register is 0.
    fn jump_zero(&mut self, a: u32, target: u32)
        requires a { a < length self.old.at.frame.registers }
        requires index { self.old.at.frame.index + 1 < 2 ^ 64 }
        ensures { self.new ≡ if_zero (register self.old.at a).number
            (before self.old (at_index self.old.at target)) (goes_on self.old) }
    {
        if self.value_of(a).number == 0 {
            self.jump(target);
        } else {
            self.next();
        }
    }

    /// Goes on where a register has address 0, of which nothing is asked.
    fn free_null(&mut self, a: u32) -> bool
        requires a { a < length self.old.at.frame.registers }
        requires index { self.old.at.frame.index + 1 < 2 ^ 64 }
        ensures wanted { result ≡ is_instruction (free_of (register self.old.at a)) }
        ensures exact { self.new ≡ (if result then goes_on self.old else self.old) }
    {
        if self.value_of(a).number == 0 {
            self.next();
            true
        } else {
            false
        }
    }

    /// Traps where the half of a names no function that a thread may begin with.
    fn refuse_thread(&mut self, code: &Code, i: &Instruction, a: u32, b: u32) -> bool
        requires a { a < length self.old.at.frame.registers }
        requires b { b < length self.old.at.frame.registers }
        ensures wanted { result ≡ is_instruction (spawn_of (kinds_of code.now)
            (register self.old.at a).half (register self.old.at b)) }
        ensures exact { self.new ≡ (if result then at_stage self.old (stage.Traps
            (function_fault (kinds_of code.now) (register self.old.at a).half)
            (trap_line self.old.at.frame i.now)) else self.old) }
    {
        let Half::Function(function) = self.value_of(a).half else {
            self.trap(i, Reason::NotFunction);
            return true;
        };
        if has_kind(code, function, THREAD_KIND) {
            return false;
        }
        self.trap(i, Reason::FunctionType);
        true
    }

    /// Writes a register's value into another one.
    fn copy(&mut self, d: u32, a: u32)
        requires d { d < length self.old.at.frame.registers }
        requires a { a < length self.old.at.frame.registers }
        requires index { self.old.at.frame.index + 1 < 2 ^ 64 }
        ensures { self.new ≡ gets self.old d (register self.old.at a) }
    {
        let value = self.value_of(a);
        self.set(d, value);
    }

    /// Writes an integer, converted to a type.
    fn convert(&mut self, d: u32, a: u32, t: u32)
        requires d { d < length self.old.at.frame.registers }
        requires a { a < length self.old.at.frame.registers }
        requires t { IsTypeNumber t }
        requires index { self.old.at.frame.index + 1 < 2 ^ 64 }
        ensures { self.new ≡ gets self.old d
            (integer (convert_of (register self.old.at a).number (type_at t))) }
    {
        let number = self.value_of(a).number;
        self.set(d, integer(converted(number, type_at(t))));
    }

    /// Writes what an operator gives of two registers, or traps.
    fn combine(&mut self, i: &Instruction, d: u32, operator: (u32, u32), operands: (u32, u32))
        requires d { d < length self.old.at.frame.registers }
        requires a { operands.0 < length self.old.at.frame.registers }
        requires b { operands.1 < length self.old.at.frame.registers }
        requires op { IsOperatorNumber operator.0 }
        requires t { IsArithmeticNumber operator.1 }
        requires index { self.old.at.frame.index + 1 < 2 ^ 64 }
        ensures { self.new ≡ gets_result self.old (trap_line self.old.at.frame i.now) d
            (operator_result (operator_at operator.0) (type_at operator.1)
            (register self.old.at operands.0).number (register self.old.at operands.1).number) }
    {
        let left = self.value_of(operands.0).number;
        let right = self.value_of(operands.1).number;
        self.compute(i, d, operator, left, right);
    }

    /// Writes a pointer, moved by so many elements.
    fn add(&mut self, d: u32, a: u32, b: u32, bytes: u32)
        requires d { d < length self.old.at.frame.registers }
        requires a { a < length self.old.at.frame.registers }
        requires b { b < length self.old.at.frame.registers }
        requires index { self.old.at.frame.index + 1 < 2 ^ 64 }
        ensures { self.new ≡ gets self.old d
            (advance (register self.old.at a) ((register self.old.at b).number * bytes)) }
    {
        let pointer = self.value_of(a);
        let count = self.value_of(b).number;
        self.set(d, advance(pointer, count, bytes));
    }

    /// Writes an integer as a pointer without a capability.
    fn point(&mut self, d: u32, a: u32)
        requires d { d < length self.old.at.frame.registers }
        requires a { a < length self.old.at.frame.registers }
        requires index { self.old.at.frame.index + 1 < 2 ^ 64 }
        ensures { self.new ≡ gets self.old d (pointer_of_int (register self.old.at a)) }
    {
        let number = self.value_of(a).number;
        self.set(d, integer(number));
    }

    /// Calls a function, by its number or by a pointer; else nothing happens.
    fn call(&mut self, code: &Code, i: &Instruction, op: Op)
        requires usable { IsUsable (room_of code.now self.old) op }
        requires index { self.old.at.frame.index + 1 < 2 ^ 64 }
        ensures { self.new ≡ calls_by code.now self.old (trap_line self.old.at.frame i.now) op }
    {
        match op {
            Op::Call {
                d,
                function,
                first,
                count,
            } => self.enter(code, i, d, function, (first, count)),
            Op::CallPointer {
                d,
                a,
                first,
                count,
                kind,
            } => {
                let half = self.value_of(a).half;
                self.enter_half(code, i, d, half, kind, (first, count));
            }
            _ => {}
        }
    }

    /// Carries out an instruction on registers, if the thread wants to.
    fn act(&mut self, code: &Code, places: &[u64], i: &Instruction, op: Op) -> bool
        requires usable { IsUsable (room_of code.now self.old) op }
        requires index { self.old.at.frame.index + 1 < 2 ^ 64 }
        requires places { length code.now.statics ≤ length places.now }
        requires near { All IsPlace places.now }
        requires results { All HasResult self.old.at.callers }
        ensures wanted { result ≡ is_instruction (want_before code.now self.old op) }
        ensures exact { self.new ≡ turn_by result code.now places.now self.old i.now op }
    {
        match op {
            Op::Const { d, constant } => self.set(d, integer(constant)),
            Op::Move { d, a } => self.copy(d, a),
            Op::StaticAt { d, number } => self.set(d, object_pointer(places[number as usize])),
            Op::FunctionAt { d, number } => self.set(d, function_pointer(number)),
            Op::Convert { d, a, t } => self.convert(d, a, t),
            Op::Binary { d, a, b, op, t } => self.combine(i, d, (op, t), (a, b)),
            Op::PointerAdd { d, a, b, bytes } => self.add(d, a, b, bytes),
            Op::ToPointer { d, a } => self.point(d, a),
            Op::Jump { target } => self.jump(target),
            Op::JumpZero { a, target } => self.jump_zero(a, target),
            Op::SelfId { d } => self.set(d, integer(self.id)),
            Op::Abort => self.trap(i, Reason::Abort),
            Op::Call { .. } | Op::CallPointer { .. } => self.call(code, i, op),
            Op::Return { a } => return self.return_value(a),
            Op::Free { a } => return self.free_null(a),
            Op::Spawn { a, b, .. } => return self.refuse_thread(code, i, a, b),
            _ => return false,
        }
        true
    }

    /// Carries out the instruction at hand, if the thread wants to, and tells whether it did.
    /// `places` has the place of each static object.
    pub fn step(&mut self, code: &Code, places: &[u64]) -> bool
        requires stands { IsThreadOf code.now self.old }
        requires places { length code.now.statics ≤ length places.now }
        requires near { All IsPlace places.now }
        ensures wanted { result ≡ is_instruction (want_of code.now self.old) }
        ensures exact { self.new ≡ thread_after_turn result code.now places.now self.old }
        ensures stands { IsThreadOf code.now self.new }
    {
        let _functions = code.functions();
        if !self.is_before() {
            return false;
        }
        let i = self.instruction(code);
        self.act(code, places, i, i.op)
    }

    /// Goes on after a poll.
    pub fn pass_poll(&mut self, code: &Code)
        requires stands { IsThreadOf code.now self.old }
        requires wanted { want_of code.now self.old ≡ want.Poll }
        ensures exact { self.new ≡ thread_after_poll self.old }
        ensures stands { IsThreadOf code.now self.new }
    {
        let _functions = code.functions();
        let _i = self.instruction(code);
        self.next();
    }
}
