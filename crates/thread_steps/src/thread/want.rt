//! What a thread wants next.

ghost use Rattle.std.specs.Prelude.{◌≡◌, ◌<◌, ◌%◌, ◌^◌, length};
ghost use Rattle.std.specs.Prelude.{true};
ghost use Rattle.whole_thread.specs.Standing.{register};
ghost use Rattle.whole_code.specs.Numbers.{type_at, IsTypeNumber, IsOperation};
ghost use Rattle.ideal_machine.specs.declared.event.Event.TheVariants as event;
ghost use Rattle.ideal_machine.specs.declared.event.Seen.TheVariants.{Any};
ghost use Rattle.whole_thread.specs.declared.stage.Want.TheVariants as want;
ghost use Rattle.ideal_machine.specs.PointerAccess.{word_of, pair_of};
ghost use Rattle.whole_thread.specs.Act.{kinds_of, operation_at};
ghost use Rattle.whole_thread.specs.Thread.{want_of, want_before, want_granted, want_pointer};
ghost use Rattle.whole_thread.specs.Thread.{want_found, want_stored, want_read, want_matching};
ghost use Rattle.whole_thread.specs.Thread.{want_second, want_at, stage_of, check_of, name_of};
ghost use Rattle.whole_thread.specs.Thread.{free_of, spawn_of, leave_of, return_of};
ghost use Rattle.thread_steps.specs.Short.{IsShort, IsShortStage};
ghost use Rattle.thread_steps.specs.Stands.{IsThreadOf};
ghost use Rattle.thread_steps.specs.Turns.{room_of};
ghost use Rattle.thread_steps.specs.Usable.{IsUsable};

use crate::constants::THREAD_KIND;
use crate::thread::CodeThread;
use crate::thread::step::has_kind;
use ideal_machine::{Access, Event, Found, Half, Kept, Operation, Seen, Value};
use whole_code::{Code, Op, SET, operator_at, type_at};
use whole_thread::{Stage, Want};

/// The kind of an object of `malloc`.
const MALLOC: u32 = 0;

/// The kind of an object that is the home of a local.
const HOME: u32 = 1;

/// May so many bytes at a pointer be accessed?
fn check_of(p: Value, width: u32, write: bool) -> Want
    ensures { result ≡ check_of p width write }
{
    Want::Event(Event::Check {
        half: p.half,
        address: p.number,
        width,
        write,
    })
}

/// A look at a pointer's address.
fn name_of(p: Value) -> Want
    ensures { result ≡ name_of p }
{
    Want::Event(Event::Name {
        half: p.half,
        address: p.number,
    })
}

/// The end of the object of a pointer; nothing is asked for address 0.
fn free_of(p: Value) -> Want
    ensures { result ≡ free_of p }
{
    if p.number == 0 {
        Want::Instruction
    } else {
        Want::Event(Event::Void {
            half: p.half,
            address: p.number,
        })
    }
}

/// An object of so many bytes.
fn new_of(bytes: u64, kind: u32) -> Want
    ensures { result ≡ want.Event (event.New bytes kind) }
{
    Want::Event(Event::New { bytes, kind })
}

/// The size of the object of a pointer.
fn size_of(p: Value) -> Want
    ensures { result ≡ want.Event (event.Size p.half p.number) }
{
    Want::Event(Event::Size {
        half: p.half,
        address: p.number,
    })
}

/// A byte that is put out: the low one of a value.
fn out_of(v: Value) -> Want
    ensures { result ≡ want.Event (event.Out (v.number % 256)) }
{
    let byte = (v.number % 256) as u8;
    Want::Event(Event::Out { byte })
}

/// The result of the thread of an id.
fn join_of(v: Value) -> Want
    ensures { result ≡ want.Event (event.Join v.number) }
{
    Want::Event(Event::Join { id: v.number })
}

/// A thread more, where the half names a function that one may begin with.
fn spawn_of(code: &Code, half: Half, argument: Value) -> Want
    ensures { result ≡ spawn_of (kinds_of code.now) half argument }
{
    let Half::Function(function) = half else {
        return Want::Instruction;
    };
    if has_kind(code, function, THREAD_KIND) {
        Want::Event(Event::Spawn {
            function,
            address: argument.number,
            half: argument.half,
        })
    } else {
        Want::Instruction
    }
}

/// The end of a thread's first function.
fn leave_of(main: bool, v: Value) -> Want
    ensures { result ≡ leave_of main v }
{
    if main {
        exit_of(v)
    } else {
        Want::Event(Event::End { result: v.number })
    }
}

/// The program's end, with the low byte of a value.
fn exit_of(v: Value) -> Want
    ensures { result ≡ leave_of true v }
{
    let status = (v.number % 256) as u8;
    Want::Event(Event::Exit { status })
}

/// What a read-modify-write makes.
fn operation_at(op: u32, t: u32, u: u32) -> Operation
    requires t { IsTypeNumber t }
    requires op { IsOperation op t u }
    ensures { result ≡ operation_at op t u }
{
    if op == SET {
        Operation::Set
    } else {
        Operation::Compute(operator_at(op), type_at(t), type_at(u))
    }
}

/// The word of its object that an access of 8 bytes is.
fn word_of(access: Access) -> u32
    requires { IsShort access }
    ensures { result ≡ word_of access }
{
    (access.offset / 8) as u32
}

/// A pointer as a pair that is to be stored.
fn pair_of(v: Value) -> Kept
    ensures { result ≡ pair_of v }
{
    Kept::Pair(v.number, v.half)
}

/// A pointer comes into a word, in one step.
fn store_of(object: u64, word: u32, v: Value) -> Event
    ensures { result ≡ event.SetHalf object word (pair_of v) }
{
    Event::SetHalf {
        object,
        word,
        half: pair_of(v),
    }
}

/// A pointer comes in place of any that is in a word, in one step.
fn swap_of(object: u64, word: u32, v: Value) -> Event
    ensures { result ≡ event.CasHalf object word Any (pair_of v) }
{
    Event::CasHalf {
        object,
        word,
        seen: Seen::Any,
        new: pair_of(v),
    }
}

/// The pointer of a half that was found.
fn want_pointer(access: Access, found: Found) -> Want
    ensures { result ≡ want_pointer access found }
{
    match found {
        Found::Plain(_) => Want::Event(Event::GetInt { access }),
        Found::Pair(pair) => Want::Event(Event::Open { pair }),
    }
}

impl CodeThread {
    /// The stage at hand: one more round begins after the check.
    pub(super) fn stage_here(&self) -> Stage
        ensures stage { result ≡ stage_of self.now }
        ensures short { IsShortStage result }
    {
        match (self.granted, self.stage) {
            (Some(access), Stage::Before) => Stage::Granted(access),
            (_, stage) => stage,
        }
    }

    /// The return of a value: an event where no activation waits.
    fn return_of(&self, v: Value) -> Want
        ensures { result ≡ return_of self.now.main self.now.at.callers v }
    {
        if self.depth == 0 {
            leave_of(self.main, v)
        } else {
            Want::Instruction
        }
    }

    /// A check of so many bytes at the pointer in a register.
    fn check(&self, p: u32, width: u32, write: bool) -> Want
        requires { p < length self.now.at.frame.registers }
        ensures { result ≡ check_of (register self.now.at p) width write }
    {
        check_of(self.value_of(p), width, write)
    }

    /// Before an instruction.
    fn want_before(&self, code: &Code, op: Op) -> Want
        requires usable { IsUsable (room_of code.now self.now) op }
        ensures { result ≡ want_before code.now self.now op }
    {
        match op {
            Op::Poll => Want::Poll,
            Op::PointerSub { a, .. } | Op::PointerCompare { a, .. } | Op::ToInteger { a, .. } => {
                name_of(self.value_of(a))
            }
            Op::Home { bytes, .. } => new_of(u64::from(bytes), HOME),
            Op::New { a, .. } => new_of(self.value_of(a).number, MALLOC),
            Op::Free { a } => free_of(self.value_of(a)),
            Op::Size { a, .. } => size_of(self.value_of(a)),
            Op::LoadInt { p, t, .. } => self.check(p, type_at(t).bytes(), false),
            Op::StoreInt { p, t, .. } | Op::RmwInt { p, t, .. } | Op::CasInt { p, t, .. } => {
                self.check(p, type_at(t).bytes(), true)
            }
            Op::Lock { p } => self.check(p, 4, true),
            Op::LoadPointer { p, .. } => self.check(p, 8, false),
            Op::StorePointer { p, .. }
            | Op::BoxStore { p, .. }
            | Op::BoxSwap { p, .. }
            | Op::BoxCas { p, .. } => self.check(p, 8, true),
            Op::Return { a } => self.return_of(self.value_of(a)),
            Op::Out { a } => out_of(self.value_of(a)),
            Op::Input { .. } => Want::Event(Event::Input),
            Op::Spawn { a, b, .. } => spawn_of(code, self.value_of(a).half, self.value_of(b)),
            Op::Join { a, .. } => join_of(self.value_of(a)),
            Op::Exit { a } => exit_of(self.value_of(a)),
            _ => Want::Instruction,
        }
    }

    /// After a granted check.
    fn want_granted(&self, code: &Code, op: Op, access: Access) -> Want
        requires usable { IsUsable (room_of code.now self.now) op }
        requires short { IsShort access }
        ensures { result ≡ want_granted self.now op access }
    {
        let object = access.object;
        let word = word_of(access);
        let event = match op {
            Op::LoadInt { .. } => Event::GetInt { access },
            Op::StoreInt { a, .. } | Op::StorePointer { a, .. } => Event::SetInt {
                access,
                value: self.value_of(a).number,
            },
            Op::RmwInt { a, op, t, u, .. } => Event::RmwInt {
                access,
                operation: operation_at(op, t, u),
                value: self.value_of(a).number,
            },
            Op::CasInt { e, n, .. } => Event::CasInt {
                access,
                expected: self.value_of(e).number,
                desired: self.value_of(n).number,
            },
            Op::Lock { .. } => Event::Lock {
                object,
                offset: access.offset,
            },
            Op::LoadPointer { .. } | Op::BoxCas { .. } => Event::GetHalf { object, word },
            Op::BoxStore { a, .. } => store_of(object, word, self.value_of(a)),
            Op::BoxSwap { a, .. } => swap_of(object, word, self.value_of(a)),
            _ => return Want::Stopped,
        };
        Want::Event(event)
    }

    /// At a half that was found: its pointer is read.
    fn want_found(&self, op: Op, access: Access, found: Found) -> Want
        ensures { result ≡ want_found op access found }
    {
        match op {
            Op::LoadPointer { .. } | Op::BoxSwap { .. } | Op::BoxCas { .. } => {
                want_pointer(access, found)
            }
            _ => Want::Stopped,
        }
    }

    /// After a pointer's integer is stored: its half is.
    fn want_stored(&self, code: &Code, op: Op, access: Access) -> Want
        requires usable { IsUsable (room_of code.now self.now) op }
        requires short { IsShort access }
        ensures { result ≡ want_stored self.now op access }
    {
        match op {
            Op::StorePointer { a, .. } => Want::Event(Event::SetHalf {
                object: access.object,
                word: word_of(access),
                half: Kept::Plain(self.value_of(a).half),
            }),
            _ => Want::Stopped,
        }
    }

    /// At a pointer that was read: the expected one is named.
    fn want_read(&self, code: &Code, op: Op) -> Want
        requires usable { IsUsable (room_of code.now self.now) op }
        ensures { result ≡ want_read self.now op }
    {
        match op {
            Op::BoxCas { e, .. } => name_of(self.value_of(e)),
            _ => Want::Stopped,
        }
    }

    /// At a pointer with the expected address: it is replaced.
    fn want_matching(&self, code: &Code, op: Op, access: Access, found: Found) -> Want
        requires usable { IsUsable (room_of code.now self.now) op }
        requires short { IsShort access }
        ensures { result ≡ want_matching self.now op access found }
    {
        match op {
            Op::BoxCas { n, .. } => Want::Event(Event::CasHalf {
                object: access.object,
                word: word_of(access),
                seen: Seen::Found(found),
                new: pair_of(self.value_of(n)),
            }),
            _ => Want::Stopped,
        }
    }

    /// After the first of two pointers is named: the second is.
    fn want_second(&self, code: &Code, op: Op) -> Want
        requires usable { IsUsable (room_of code.now self.now) op }
        ensures { result ≡ want_second self.now op }
    {
        match op {
            Op::PointerSub { b, .. } | Op::PointerCompare { b, .. } => name_of(self.value_of(b)),
            _ => Want::Stopped,
        }
    }

    /// At a stage of an instruction.
    fn want_at(&self, code: &Code, op: Op, stage: Stage) -> Want
        requires usable { IsUsable (room_of code.now self.now) op }
        requires short { IsShortStage stage }
        ensures { result ≡ want_at code.now self.now op stage }
    {
        match stage {
            Stage::Before => self.want_before(code, op),
            Stage::Granted(access) => self.want_granted(code, op, access),
            Stage::Stored(access) => self.want_stored(code, op, access),
            Stage::Found(access, found) => self.want_found(op, access, found),
            Stage::Read(..) => self.want_read(code, op),
            Stage::Matches(access, found, _) => self.want_matching(code, op, access, found),
            Stage::NamedFirst => self.want_second(code, op),
            Stage::Traps(reason, line) => Want::Event(Event::Trap { reason, line }),
            Stage::Waits | Stage::Over(_) => Want::Stopped,
        }
    }

    /// What the thread wants next: an event, to carry out an instruction on registers, to go on after
    /// a poll, or nothing, where it has ended.
    pub fn want(&self, code: &Code) -> Want
        requires { IsThreadOf code.now self.now }
        ensures { result ≡ want_of code.now self.now }
    {
        if self.is_over() {
            return Want::Stopped;
        }
        let i = self.instruction(code);
        self.want_at(code, i.op, self.stage_here())
    }
}
