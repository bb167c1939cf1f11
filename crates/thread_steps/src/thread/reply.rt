//! Which reply an answer is, and what a thread makes of one.

ghost use Rattle.std.specs.Prelude.{◌≡◌, ◌+◌, ◌-◌, ◌<◌, ◌^◌, length};
ghost use Rattle.ideal_machine.specs.Play.{by_reply};
ghost use Rattle.ideal_machine.specs.Queries.{check_reply, plain_check_reply, room_reply};
ghost use Rattle.ideal_machine.specs.Queries.{number_reply, found_reply, byte_reply, id_reply};
ghost use Rattle.ideal_machine.specs.Queries.{size_reply, object_reply, lock_reply};
ghost use Rattle.ideal_machine.specs.Threads.{number_or};
ghost use Rattle.ideal_machine.specs.Lifetimes.{object_or_null};
ghost use Rattle.ideal_machine.specs.Values.{integer};
ghost use Rattle.whole_thread.specs.Answers.{unless_refused, granted_stage, checked, gets_size};
ghost use Rattle.whole_thread.specs.Answers.{gets_home, locks, again};
ghost use Rattle.whole_thread.specs.Answers.{leaves_stage, when_done};
ghost use Rattle.whole_thread.specs.Answers.{gets_int};
ghost use Rattle.whole_thread.specs.Standing.{trap_line};
ghost use Rattle.whole_thread.specs.Thread.{at_stage, gets, goes_on};
ghost use Rattle.whole_thread.specs.Thread.{place_address};
ghost use Rattle.whole_thread.specs.declared.stage.Stage.TheVariants as stage;
ghost use Rattle.whole_code.specs.Numbers.{IsTypeNumber};
ghost use Rattle.thread_steps.specs.Short.{IsShort, IsShortStage, IsNearHalf};
ghost use Rattle.thread_steps.specs.Short.{IsNearReply};

use crate::constants::{FIRST_ADDRESS, WORD_BYTES};
use crate::thread::CodeThread;
use crate::thread::step::integer;
use filc_num::{Reason, convert};
use ideal_machine::{Access, Answer, Finish, Found, Half, Value};
use whole_code::{Instruction, type_at};
use whole_thread::{Halt, Stage};

/// Why a check is refused, if the answer is one of a check.
pub(super) fn check_reply(answer: Answer) -> Option<Option<Reason>>
    ensures { result ≡ check_reply answer }
{
    match answer {
        Answer::Granted => Some(None),
        Answer::Refused(reason) => Some(Some(reason)),
        Answer::Done
        | Answer::Number(_)
        | Answer::Found(_)
        | Answer::Opened(..)
        | Answer::Made(..)
        | Answer::Absent
        | Answer::End => None,
    }
}

/// The same of a check that wants no cell.
pub(super) fn plain_check_reply(answer: Answer) -> Option<Option<Reason>>
    ensures { result ≡ plain_check_reply answer }
{
    match answer {
        Answer::Granted => Some(None),
        Answer::Refused(reason) => match reason {
            Reason::NoCell => None,
            Reason::NoCapability
            | Reason::FunctionData
            | Reason::Freed
            | Reason::Bounds
            | Reason::Alignment
            | Reason::ReadOnly
            | Reason::NotFunction
            | Reason::FunctionType
            | Reason::BadFree
            | Reason::Divide
            | Reason::Shift
            | Reason::OutputLimit
            | Reason::CallDepth
            | Reason::Abort => Some(Some(reason)),
        },
        Answer::Done
        | Answer::Number(_)
        | Answer::Found(_)
        | Answer::Opened(..)
        | Answer::Made(..)
        | Answer::Absent
        | Answer::End => None,
    }
}

/// Why a byte is not put out, if the answer is one of that.
pub(super) fn room_reply(answer: Answer) -> Option<Option<Reason>>
    ensures { result ≡ room_reply answer }
{
    match answer {
        Answer::Done => Some(None),
        Answer::Refused(reason) => match reason {
            Reason::OutputLimit => Some(Some(Reason::OutputLimit)),
            Reason::NoCapability
            | Reason::FunctionData
            | Reason::Freed
            | Reason::Bounds
            | Reason::Alignment
            | Reason::ReadOnly
            | Reason::NotFunction
            | Reason::FunctionType
            | Reason::BadFree
            | Reason::Divide
            | Reason::Shift
            | Reason::CallDepth
            | Reason::Abort
            | Reason::NoCell => None,
        },
        Answer::Granted
        | Answer::Number(_)
        | Answer::Found(_)
        | Answer::Opened(..)
        | Answer::Made(..)
        | Answer::Absent
        | Answer::End => None,
    }
}

/// The integer of an answer.
pub(super) fn number_reply(answer: Answer) -> Option<u64>
    ensures { result ≡ number_reply answer }
{
    match answer {
        Answer::Number(number) => Some(number),
        Answer::Granted
        | Answer::Refused(_)
        | Answer::Done
        | Answer::Found(_)
        | Answer::Opened(..)
        | Answer::Made(..)
        | Answer::Absent
        | Answer::End => None,
    }
}

/// The half of an answer.
pub(super) fn found_reply(answer: Answer) -> Option<Found>
    ensures { result ≡ found_reply answer }
{
    match answer {
        Answer::Found(found) => Some(found),
        Answer::Granted
        | Answer::Refused(_)
        | Answer::Done
        | Answer::Number(_)
        | Answer::Opened(..)
        | Answer::Made(..)
        | Answer::Absent
        | Answer::End => None,
    }
}

/// The byte of an answer, or the input's end.
pub(super) fn byte_reply(answer: Answer) -> Option<Option<u64>>
    ensures { result ≡ byte_reply answer }
{
    match answer {
        Answer::Number(byte) => Some(Some(byte)),
        Answer::End => Some(None),
        Answer::Granted
        | Answer::Refused(_)
        | Answer::Done
        | Answer::Found(_)
        | Answer::Opened(..)
        | Answer::Made(..)
        | Answer::Absent => None,
    }
}

/// The id or the result of an answer, or none.
pub(super) fn id_reply(answer: Answer) -> Option<Option<u64>>
    ensures { result ≡ id_reply answer }
{
    match answer {
        Answer::Number(id) => Some(Some(id)),
        Answer::Absent => Some(None),
        Answer::Granted
        | Answer::Refused(_)
        | Answer::Done
        | Answer::Found(_)
        | Answer::Opened(..)
        | Answer::Made(..)
        | Answer::End => None,
    }
}

/// The size of an answer, or why there is none.
pub(super) fn size_reply(answer: Answer) -> Option<Result<u64, Reason>>
    ensures { result ≡ size_reply answer }
{
    match answer {
        Answer::Number(bytes) => Some(Ok(bytes)),
        Answer::Refused(reason) => match reason {
            Reason::NoCell => None,
            Reason::NoCapability
            | Reason::FunctionData
            | Reason::Freed
            | Reason::Bounds
            | Reason::Alignment
            | Reason::ReadOnly
            | Reason::NotFunction
            | Reason::FunctionType
            | Reason::BadFree
            | Reason::Divide
            | Reason::Shift
            | Reason::OutputLimit
            | Reason::CallDepth
            | Reason::Abort => Some(Err(reason)),
        },
        Answer::Granted
        | Answer::Done
        | Answer::Found(_)
        | Answer::Opened(..)
        | Answer::Made(..)
        | Answer::Absent
        | Answer::End => None,
    }
}

/// How far an address lies in the object at a place.
pub(super) fn offset_in(place: u64, address: u64) -> u64
    ensures { result ≡ address - place_address place }
{
    if place <= (u64::MAX - FIRST_ADDRESS) / WORD_BYTES {
        address.saturating_sub(FIRST_ADDRESS + WORD_BYTES * place)
    } else {
        0
    }
}

/// The stage after a granted check.
pub(super) fn granted_stage(p: Value, width: u32) -> Stage
    requires { IsNearHalf p.half p.number }
    ensures stage { result ≡ granted_stage p.half p.number width }
    ensures short { IsShortStage result }
{
    match p.half {
        Half::Object(object) => Stage::Granted(Access {
            object,
            offset: offset_in(object, p.number),
            width,
        }),
        Half::Nothing | Half::Freed | Half::Function(_) => Stage::Waits,
    }
}

impl CodeThread {
    /// Goes to another stage, when it is done.
    pub(super) fn stand_when_done(&mut self, stage: Stage, answer: Answer)
        requires { IsShortStage stage }
        ensures { self.new ≡ when_done self.old (at_stage self.old stage) answer }
    {
        match answer {
            Answer::Done => self.set_stage(stage),
            Answer::Granted
            | Answer::Refused(_)
            | Answer::Number(_)
            | Answer::Found(_)
            | Answer::Opened(..)
            | Answer::Made(..)
            | Answer::Absent
            | Answer::End => {}
        }
    }

    /// Writes a register, when it is done.
    pub(super) fn set_when_done(&mut self, d: u32, value: Value, answer: Answer)
        requires register { d < length self.old.at.frame.registers }
        requires index { self.old.at.frame.index + 1 < 2 ^ 64 }
        ensures { self.new ≡ when_done self.old (gets self.old d value) answer }
    {
        match answer {
            Answer::Done => self.set(d, value),
            Answer::Granted
            | Answer::Refused(_)
            | Answer::Number(_)
            | Answer::Found(_)
            | Answer::Opened(..)
            | Answer::Made(..)
            | Answer::Absent
            | Answer::End => {}
        }
    }

    /// Goes on, when it is done.
    pub(super) fn next_when_done(&mut self, answer: Answer)
        requires index { self.old.at.frame.index + 1 < 2 ^ 64 }
        ensures { self.new ≡ when_done self.old (goes_on self.old) answer }
    {
        match answer {
            Answer::Done => self.next(),
            Answer::Granted
            | Answer::Refused(_)
            | Answer::Number(_)
            | Answer::Found(_)
            | Answer::Opened(..)
            | Answer::Made(..)
            | Answer::Absent
            | Answer::End => {}
        }
    }

    /// Goes on after a check, or traps.
    pub(super) fn grant(
        &mut self,
        i: &Instruction,
        p: Value,
        width: u32,
        reply: Option<Option<Reason>>,
    )
        requires near { IsNearReply reply p.half p.number }
        ensures { self.new ≡ by_reply reply self.old
            (checked self.old (trap_line self.old.at.frame i.now) p width) }
    {
        match reply {
            None => {}
            Some(None) => {
                let stage = granted_stage(p, width);
                self.set_stage(stage);
            }
            Some(Some(reason)) => self.trap(i, reason),
        }
    }

    /// The same of a check that wants no cell.
    pub(super) fn grant_plain(&mut self, i: &Instruction, p: Value, width: u32, answer: Answer)
        requires near { IsNearReply (check_reply answer) p.half p.number }
        ensures { self.new ≡ by_reply (plain_check_reply answer) self.old
            (checked self.old (trap_line self.old.at.frame i.now) p width) }
    {
        self.grant(i, p, width, plain_check_reply(answer));
    }

    /// Goes on at the next instruction, or traps.
    pub(super) fn next_unless_refused(&mut self, i: &Instruction, reply: Option<Option<Reason>>)
        requires index { self.old.at.frame.index + 1 < 2 ^ 64 }
        ensures { self.new ≡ by_reply reply self.old
            (unless_refused self.old (trap_line self.old.at.frame i.now) (goes_on self.old)) }
    {
        match reply {
            None => {}
            Some(None) => self.next(),
            Some(Some(reason)) => self.trap(i, reason),
        }
    }

    /// Writes the home of a local, or traps.
    pub(super) fn take_home(&mut self, i: &Instruction, d: u32, answer: Answer)
        requires register { d < length self.old.at.frame.registers }
        requires index { self.old.at.frame.index + 1 < 2 ^ 64 }
        ensures { self.new ≡ by_reply (object_reply answer) self.old
            (gets_home self.old (trap_line self.old.at.frame i.now) d) }
    {
        match answer {
            Answer::Made(object, number) => {
                let half = Half::Object(object);
                self.set(d, Value { number, half });
            }
            Answer::Absent => self.trap(i, Reason::NoCell),
            Answer::Granted
            | Answer::Refused(_)
            | Answer::Done
            | Answer::Number(_)
            | Answer::Found(_)
            | Answer::Opened(..)
            | Answer::End => {}
        }
    }

    /// Writes the pointer to a new object, or null.
    pub(super) fn take_object(&mut self, d: u32, answer: Answer)
        requires register { d < length self.old.at.frame.registers }
        requires index { self.old.at.frame.index + 1 < 2 ^ 64 }
        ensures { self.new ≡ by_reply (object_reply answer) self.old
            (λ made. gets self.old d (object_or_null made)) }
    {
        match answer {
            Answer::Made(object, number) => {
                let half = Half::Object(object);
                self.set(d, Value { number, half });
            }
            Answer::Absent => self.set(d, integer(0)),
            Answer::Granted
            | Answer::Refused(_)
            | Answer::Done
            | Answer::Number(_)
            | Answer::Found(_)
            | Answer::Opened(..)
            | Answer::End => {}
        }
    }

    /// Writes a size, or traps.
    pub(super) fn take_size(&mut self, i: &Instruction, d: u32, answer: Answer)
        requires register { d < length self.old.at.frame.registers }
        requires index { self.old.at.frame.index + 1 < 2 ^ 64 }
        ensures { self.new ≡ by_reply (size_reply answer) self.old
            (gets_size self.old (trap_line self.old.at.frame i.now) d) }
    {
        match size_reply(answer) {
            None => {}
            Some(Ok(bytes)) => self.set(d, integer(bytes)),
            Some(Err(reason)) => self.trap(i, reason),
        }
    }

    /// Writes a number, or what stands for none.
    pub(super) fn take_or(&mut self, d: u32, none: u64, reply: Option<Option<u64>>)
        requires register { d < length self.old.at.frame.registers }
        requires index { self.old.at.frame.index + 1 < 2 ^ 64 }
        ensures { self.new ≡ by_reply reply self.old
            (λ number. gets self.old d (number_or none number)) }
    {
        match reply {
            None => {}
            Some(None) => self.set(d, integer(none)),
            Some(Some(number)) => self.set(d, integer(number)),
        }
    }

    /// Writes an integer as a value of a type.
    pub(super) fn take_int(&mut self, d: u32, t: u32, answer: Answer)
        requires register { d < length self.old.at.frame.registers }
        requires index { self.old.at.frame.index + 1 < 2 ^ 64 }
        requires t { IsTypeNumber t }
        ensures { self.new ≡ by_reply (number_reply answer) self.old (gets_int self.old d t) }
    {
        if let Some(number) = number_reply(answer) {
            self.set(d, integer(convert(number, type_at(t))));
        }
    }

    /// Writes the bytes that were found, as they are.
    pub(super) fn take_bytes(&mut self, d: u32, answer: Answer)
        requires register { d < length self.old.at.frame.registers }
        requires index { self.old.at.frame.index + 1 < 2 ^ 64 }
        ensures { self.new ≡ by_reply (number_reply answer) self.old
            (λ found. gets self.old d (integer found)) }
    {
        if let Some(number) = number_reply(answer) {
            self.set(d, integer(number));
        }
    }

    /// Goes on after a half was found.
    pub(super) fn take_half(&mut self, access: Access, answer: Answer)
        requires { IsShort access }
        ensures { self.new ≡ by_reply (found_reply answer) self.old
            (λ found. at_stage self.old (stage.Found access found)) }
    {
        if let Some(found) = found_reply(answer) {
            self.set_stage(Stage::Found(access, found));
        }
    }

    /// Makes one more round of the instruction, after its check.
    pub(super) fn next_round(&mut self, access: Access)
        requires { IsShort access }
        ensures { self.new ≡ again self.old access }
    {
        self.granted = Some(access);
        self.stage = Stage::Before;
    }

    /// Goes on when a lock is taken; after its check made once more there is one more round.
    pub(super) fn take_lock(&mut self, i: &Instruction, access: Access, answer: Answer)
        requires index { self.old.at.frame.index + 1 < 2 ^ 64 }
        requires short { IsShort access }
        ensures { self.new ≡ by_reply (lock_reply answer) self.old
            (locks self.old (trap_line self.old.at.frame i.now) access) }
    {
        match answer {
            Answer::Done => self.next(),
            Answer::Granted
            | Answer::Refused(_)
            | Answer::Number(_)
            | Answer::Found(_)
            | Answer::Opened(..)
            | Answer::Made(..)
            | Answer::Absent
            | Answer::End => match plain_check_reply(answer) {
                None => {}
                Some(None) => self.next_round(access),
                Some(Some(reason)) => self.trap(i, reason),
            },
        }
    }

    /// The end of a thread's first function, when it is done.
    pub(super) fn leave(&mut self, main: bool, v: Value, answer: Answer)
        ensures { self.new ≡ when_done self.old (at_stage self.old (leaves_stage main v)) answer }
    {
        let halt = if main {
            Halt::Finished(Finish::Exited((v.number % 256) as u8))
        } else {
            Halt::Returned(v.number)
        };
        self.stand_when_done(Stage::Over(halt), answer);
    }
}
