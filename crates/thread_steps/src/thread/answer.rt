//! What a thread makes of an answer, by the stage of its instruction.

ghost use Rattle.std.specs.Prelude.{◌≡◌, ◌+◌, ◌<◌, ◌^◌, length};
ghost use Rattle.ideal_machine.specs.Addresses.{elements_between};
ghost use Rattle.ideal_machine.specs.Words.{same_half, same_found};
ghost use Rattle.whole_thread.specs.Answers.{gets_pointer, reads, gets_both, compares, replaces, looks};
ghost use Rattle.whole_thread.specs.Answers.{answer_before, answer_granted, answer_at};
ghost use Rattle.whole_thread.specs.Answers.{thread_after_answer};
ghost use Rattle.whole_thread.specs.Standing.{register, trap_line};
ghost use Rattle.whole_thread.specs.Thread.{want_of, want_before, want_at, at_stage, gets};
ghost use Rattle.whole_thread.specs.Answers.{checked, leaves_stage, when_done};
ghost use Rattle.filc_num.specs.Integers.{convert_of};
ghost use Rattle.ideal_machine.specs.Play.{by_reply};
ghost use Rattle.ideal_machine.specs.Queries.{check_reply, plain_check_reply};
ghost use Rattle.ideal_machine.specs.Values.{integer};
ghost use Rattle.whole_code.specs.Numbers.{type_at, IsTypeNumber};
ghost use Rattle.thread_steps.specs.Short.{IsShort, IsShortStage, IsNear, IsNearReply};
ghost use Rattle.thread_steps.specs.Stands.{IsThreadOf};
ghost use Rattle.thread_steps.specs.Turns.{room_of};
ghost use Rattle.thread_steps.specs.Usable.{IsUsable};

use crate::constants::NO_THREAD;
use crate::thread::CodeThread;
use crate::thread::reply::{
    byte_reply, check_reply, found_reply, id_reply, number_reply, plain_check_reply, room_reply,
};
use crate::thread::step::integer;
use filc_num::{BinOp, IntType, binary, convert};
use ideal_machine::{Access, Answer, Finish, Found, Half, Value};
use whole_code::{Code, Instruction, Op, type_at};
use whole_thread::{Halt, Stage};

/// The number of the type in which addresses are compared.
const U64_NUMBER: u32 = 8;

/// How many elements lie from an address to another, as signed (C11 6.5.6).
#[tactic(auto, unfolding(filc_num::specs::Integers::binary_of))]
fn elements_between(bytes: u32, p: u64, q: u64) -> u64
    requires { 0 < bytes }
    ensures { result ≡ elements_between bytes p q }
{
    let difference = p.wrapping_sub(q);
    match binary(BinOp::Div, IntType::I64, difference, u64::from(bytes)) {
        Ok(elements) => elements,
        Err(_) => 0,
    }
}

/// Whether two halves are the same.
fn same_half(a: Half, b: Half) -> bool
    ensures { result ≡ same_half a b }
{
    match a {
        Half::Nothing => match b {
            Half::Nothing => true,
            Half::Freed | Half::Object(_) | Half::Function(_) => false,
        },
        Half::Freed => match b {
            Half::Freed => true,
            Half::Nothing | Half::Object(_) | Half::Function(_) => false,
        },
        Half::Object(m) => match b {
            Half::Object(n) => m == n,
            Half::Nothing | Half::Freed | Half::Function(_) => false,
        },
        Half::Function(f) => match b {
            Half::Function(g) => f == g,
            Half::Nothing | Half::Freed | Half::Object(_) => false,
        },
    }
}

/// Whether two halves that were found are the same; so are two pairs of one number.
fn same_found(a: Found, b: Found) -> bool
    ensures { result ≡ same_found a b }
{
    match a {
        Found::Plain(left) => match b {
            Found::Plain(right) => same_half(left, right),
            Found::Pair(_) => false,
        },
        Found::Pair(m) => match b {
            Found::Pair(n) => m == n,
            Found::Plain(_) => false,
        },
    }
}

impl CodeThread {
    /// Takes the pointer that was read.
    fn take_pointer(&mut self, code: &Code, op: Op, access: Access, found: Found, pointer: Value)
        requires usable { IsUsable (room_of code.now self.old) op }
        requires index { self.old.at.frame.index + 1 < 2 ^ 64 }
        requires short { IsShort access }
        ensures { self.new ≡ gets_pointer self.old op access found pointer }
    {
        match op {
            Op::LoadPointer { d, .. } | Op::BoxSwap { d, .. } => self.set(d, pointer),
            Op::BoxCas { .. } => self.set_stage(Stage::Read(access, found, pointer)),
            _ => {}
        }
    }

    /// Reads the pointer of a half that was found.
    fn read(&mut self, code: &Code, op: Op, access: Access, found: Found, answer: Answer)
        requires usable { IsUsable (room_of code.now self.old) op }
        requires index { self.old.at.frame.index + 1 < 2 ^ 64 }
        requires short { IsShort access }
        ensures { self.new ≡ reads self.old op access found answer }
    {
        match found {
            Found::Plain(half) => {
                if let Some(number) = number_reply(answer) {
                    self.take_pointer(code, op, access, found, Value { number, half });
                }
            }
            Found::Pair(_) => match answer {
                Answer::Opened(number, half) => {
                    self.take_pointer(code, op, access, found, Value { number, half });
                }
                Answer::Granted
                | Answer::Refused(_)
                | Answer::Done
                | Answer::Number(_)
                | Answer::Found(_)
                | Answer::Made(..)
                | Answer::Absent
                | Answer::End => {}
            },
        }
    }

    /// Writes the pointer that was found, and whether it was replaced.
    #[tactic(auto, using(crate::proofs::Standing::length_put))]
    fn set_both(&mut self, d: u32, w: u32, pointer: Value, made: bool)
        requires d { d < length self.old.at.frame.registers }
        requires w { w < length self.old.at.frame.registers }
        requires index { self.old.at.frame.index + 1 < 2 ^ 64 }
        ensures { self.new ≡ gets_both self.old d w pointer made }
    {
        self.put(d, pointer);
        self.set(w, integer(u64::from(made)));
    }

    /// Compares the pointer that was found with the expected one.
    fn compare(&mut self, code: &Code, op: Op, access: Access, found: Found, pointer: Value)
        requires usable { IsUsable (room_of code.now self.old) op }
        requires index { self.old.at.frame.index + 1 < 2 ^ 64 }
        requires short { IsShort access }
        ensures { self.new ≡ compares self.old op access found pointer }
    {
        match op {
            Op::BoxCas { d, w, e, .. } => {
                if pointer.number == self.value_of(e).number {
                    self.set_stage(Stage::Matches(access, found, pointer));
                } else {
                    self.set_both(d, w, pointer, false);
                }
            }
            _ => {}
        }
    }

    /// Takes what was there when the pointer was to be replaced.
    fn replace(&mut self, code: &Code, op: Op, access: Access, seen: (Found, Value), there: Found)
        requires usable { IsUsable (room_of code.now self.old) op }
        requires index { self.old.at.frame.index + 1 < 2 ^ 64 }
        requires short { IsShort access }
        ensures { self.new ≡ replaces self.old op access seen.0 seen.1 there }
    {
        match op {
            Op::BoxCas { d, w, .. } => {
                if same_found(there, seen.0) {
                    self.set_both(d, w, seen.1, true);
                } else {
                    self.next_round(access);
                }
            }
            _ => {}
        }
    }

    /// Looks at two pointers, which are both named.
    fn look(&mut self, code: &Code, i: &Instruction, op: Op)
        requires usable { IsUsable (room_of code.now self.old) op }
        requires index { self.old.at.frame.index + 1 < 2 ^ 64 }
        ensures { self.new ≡ looks self.old (trap_line self.old.at.frame i.now) op }
    {
        match op {
            Op::PointerSub { d, a, b, bytes } => {
                let p = self.value_of(a).number;
                let q = self.value_of(b).number;
                self.set(d, integer(elements_between(bytes, p, q)));
            }
            Op::PointerCompare { d, a, b, op } => {
                let p = self.value_of(a).number;
                let q = self.value_of(b).number;
                self.compute(i, d, (op, U64_NUMBER), p, q);
            }
            _ => {}
        }
    }

    /// Writes the address of a pointer that was named, as a value of a type.
    fn take_address(&mut self, d: u32, a: u32, t: u32, answer: Answer)
        requires d { d < length self.old.at.frame.registers }
        requires a { a < length self.old.at.frame.registers }
        requires t { IsTypeNumber t }
        requires index { self.old.at.frame.index + 1 < 2 ^ 64 }
        ensures { self.new ≡ when_done self.old (gets self.old d
            (integer (convert_of (register self.old.at a).number (type_at t)))) answer }
    {
        let number = convert(self.value_of(a).number, type_at(t));
        self.set_when_done(d, integer(number), answer);
    }

    /// Goes on after a check of so many bytes at the pointer in a register, or traps.
    fn grant_at(&mut self, i: &Instruction, p: u32, width: u32, answer: Answer)
        requires register { p < length self.old.at.frame.registers }
        requires near { IsNearReply (check_reply answer) (register self.old.at p).half
            (register self.old.at p).number }
        ensures { self.new ≡ by_reply (plain_check_reply answer) self.old (checked self.old
            (trap_line self.old.at.frame i.now) (register self.old.at p) width) }
    {
        let pointer = self.value_of(p);
        self.grant_plain(i, pointer, width, answer);
    }

    /// The same of a pointer's bytes that are to be written.
    fn grant_store(&mut self, i: &Instruction, p: u32, answer: Answer)
        requires register { p < length self.old.at.frame.registers }
        requires near { IsNearReply (check_reply answer) (register self.old.at p).half
            (register self.old.at p).number }
        ensures { self.new ≡ by_reply (check_reply answer) self.old (checked self.old
            (trap_line self.old.at.frame i.now) (register self.old.at p) 8) }
    {
        let pointer = self.value_of(p);
        self.grant(i, pointer, 8, check_reply(answer));
    }

    /// The end of a thread's first function with the value of a register, when it is done.
    fn leave_with(&mut self, main: bool, a: u32, answer: Answer)
        requires { a < length self.old.at.frame.registers }
        ensures { self.new ≡ when_done self.old
            (at_stage self.old (leaves_stage main (register self.old.at a))) answer }
    {
        let value = self.value_of(a);
        self.leave(main, value, answer);
    }

    /// The answer before an instruction.
    fn answer_before(&mut self, code: &Code, i: &Instruction, op: Op, answer: Answer)
        requires usable { IsUsable (room_of code.now self.old) op }
        requires index { self.old.at.frame.index + 1 < 2 ^ 64 }
        requires near { IsNear (want_before code.now self.old op) answer }
        ensures { self.new ≡
            answer_before self.old (trap_line self.old.at.frame i.now) op answer }
    {
        match op {
            Op::PointerSub { .. } | Op::PointerCompare { .. } => {
                self.stand_when_done(Stage::NamedFirst, answer);
            }
            Op::ToInteger { d, a, t } => self.take_address(d, a, t, answer),
            Op::Home { d, .. } => self.take_home(i, d, answer),
            Op::New { d, .. } => self.take_object(d, answer),
            Op::Free { .. } => self.next_unless_refused(i, plain_check_reply(answer)),
            Op::Size { d, .. } => self.take_size(i, d, answer),
            Op::LoadInt { p, t, .. }
            | Op::StoreInt { p, t, .. }
            | Op::RmwInt { p, t, .. }
            | Op::CasInt { p, t, .. } => {
                self.grant_at(i, p, type_at(t).bytes(), answer);
            }
            Op::Lock { p } => self.grant_at(i, p, 4, answer),
            Op::LoadPointer { p, .. } => self.grant_at(i, p, 8, answer),
            Op::StorePointer { p, .. }
            | Op::BoxStore { p, .. }
            | Op::BoxSwap { p, .. }
            | Op::BoxCas { p, .. } => self.grant_store(i, p, answer),
            Op::Return { a } => self.leave_with(self.main, a, answer),
            Op::Out { .. } => self.next_unless_refused(i, room_reply(answer)),
            Op::Input { d } => self.take_or(d, u64::MAX, byte_reply(answer)),
            Op::Spawn { d, .. } => self.take_or(d, u64::MAX, id_reply(answer)),
            Op::Join { d, .. } => self.take_or(d, NO_THREAD, id_reply(answer)),
            Op::Exit { a } => self.leave_with(true, a, answer),
            Op::Const { .. }
            | Op::Move { .. }
            | Op::StaticAt { .. }
            | Op::FunctionAt { .. }
            | Op::Convert { .. }
            | Op::Binary { .. }
            | Op::PointerAdd { .. }
            | Op::ToPointer { .. }
            | Op::Jump { .. }
            | Op::JumpZero { .. }
            | Op::Poll
            | Op::Call { .. }
            | Op::CallPointer { .. }
            | Op::SelfId { .. }
            | Op::Abort => {}
        }
    }

    /// The answer after a granted check.
    fn answer_granted(
        &mut self,
        code: &Code,
        i: &Instruction,
        op: Op,
        access: Access,
        answer: Answer,
    )
        requires usable { IsUsable (room_of code.now self.old) op }
        requires index { self.old.at.frame.index + 1 < 2 ^ 64 }
        requires short { IsShort access }
        ensures { self.new ≡
            answer_granted self.old (trap_line self.old.at.frame i.now) op access answer }
    {
        match op {
            Op::LoadInt { d, t, .. } | Op::RmwInt { d, t, .. } => self.take_int(d, t, answer),
            Op::StoreInt { .. } | Op::BoxStore { .. } => self.next_when_done(answer),
            Op::CasInt { d, .. } => self.take_bytes(d, answer),
            Op::Lock { .. } => self.take_lock(i, access, answer),
            Op::LoadPointer { .. } | Op::BoxSwap { .. } | Op::BoxCas { .. } => {
                self.take_half(access, answer);
            }
            Op::StorePointer { .. } => self.stand_when_done(Stage::Stored(access), answer),
            _ => {}
        }
    }

    /// The answer at a stage of an instruction.
    fn answer_at(&mut self, code: &Code, i: &Instruction, stage: Stage, answer: Answer)
        requires usable { IsUsable (room_of code.now self.old) i.now.op }
        requires index { self.old.at.frame.index + 1 < 2 ^ 64 }
        requires short { IsShortStage stage }
        requires near { IsNear (want_at code.now self.old i.now.op stage) answer }
        ensures { self.new ≡
            answer_at self.old (trap_line self.old.at.frame i.now) i.now.op stage answer }
    {
        match stage {
            Stage::Before => self.answer_before(code, i, i.op, answer),
            Stage::Granted(access) => self.answer_granted(code, i, i.op, access, answer),
            Stage::Stored(_) => self.next_when_done(answer),
            Stage::Found(access, found) => self.read(code, i.op, access, found, answer),
            Stage::Read(access, found, pointer) => match answer {
                Answer::Done => self.compare(code, i.op, access, found, pointer),
                _ => {}
            },
            Stage::Matches(access, found, pointer) => {
                if let Some(there) = found_reply(answer) {
                    self.replace(code, i.op, access, (found, pointer), there);
                }
            }
            Stage::NamedFirst => match answer {
                Answer::Done => self.look(code, i, i.op),
                _ => {}
            },
            Stage::Traps(reason, line) => {
                let halt = Halt::Finished(Finish::Trapped(reason, line));
                self.stand_when_done(Stage::Over(halt), answer);
            }
            Stage::Waits | Stage::Over(_) => {}
        }
    }

    /// Takes in the answer to the event that the thread wants. A check is granted within the first
    /// 2^35 bytes of an object alone.
    pub fn answer(&mut self, code: &Code, answer: Answer)
        requires stands { IsThreadOf code.now self.old }
        requires near { IsNear (want_of code.now self.old) answer }
        ensures exact { self.new ≡ thread_after_answer code.now self.old answer }
        ensures stands { IsThreadOf code.now self.new }
    {
        let _functions = code.functions();
        if self.is_over() {
            return;
        }
        let i = self.instruction(code);
        let stage = self.stage_here();
        self.answer_at(code, i, stage, answer);
    }
}
