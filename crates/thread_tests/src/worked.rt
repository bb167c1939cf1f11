//! Small code carried out call by call, with the events, the answers and the values worked out by hand.

ghost use Rattle.std.specs.Prelude.{◌≡◌, true, false, [], IfOk};
ghost use Rattle.ideal_machine.specs.declared.event.Event.{Event};
ghost use Rattle.thread_steps.specs.Short.{IsNear, IsNearHalf};
ghost use Rattle.thread_steps.specs.Stands.{IsThreadOf};
ghost use Rattle.whole_code.specs.WellFormed.{IsFunctionWellFormed};
ghost use Rattle.whole_thread.specs.declared.stage.Want.TheVariants as want;

use filc_num::Reason;
use ideal_machine::{Access, Answer, Event, Half};
use std::alloc::Global;
use std::test::Fail;
use thread_steps::CodeThread;
use whole_code::{Code, CodeFunction, Instruction, Op};
use whole_thread::Want;

/// The numbers of the type `int` and of two operators.
const INT: u32 = 5;

const ADD: u32 = 0;

const SUB: u32 = 1;

/// An instruction of line 7.
fn at(op: Op) -> Instruction
    ensures { result ≡ record { line = 7; library = false; op = op } }
{
    Instruction {
        line: 7,
        library: false,
        op,
    }
}

/// Code of a `main` of four registers, and of a function of one parameter and three registers.
fn code_of(alloc: Global, main: Vec<Instruction>, other: Vec<Instruction>) -> Result<Code, Fail>
    requires main { IsFunctionWellFormed (record { functions = 2; statics = 0 }) (record {
      values = 4;
      parameters = 0;
      kind = 1;
      instructions = main.items;
    }) }
    requires other { IsFunctionWellFormed (record { functions = 2; statics = 0 }) (record {
      values = 3;
      parameters = 1;
      kind = 2;
      instructions = other.items;
    }) }
    ensures { IfOk result (λ code. code.statics ≡ []) }
{
    let main = CodeFunction {
        values: 4,
        parameters: 0,
        kind: 1,
        instructions: main,
    };
    let other = CodeFunction {
        values: 3,
        parameters: 1,
        kind: 2,
        instructions: other,
    };
    let functions = vec![in alloc; main, other]?;
    Ok(Code::new(functions, Vec::new(alloc), 0))
}

/// `int plus_two(int n) { return n + 2; }`, and a `main` that polls, calls it with 40, puts the result out
/// and returns it by way of an object of its own.
fn sum(alloc: Global) -> Result<Code, Fail>
    ensures { IfOk result (λ code. code.statics ≡ []) }
{
    let forty = at(Op::Const { d: 0, constant: 40 });
    let poll = at(Op::Poll);
    let call = at(Op::Call {
        d: 1,
        function: 1,
        first: 0,
        count: 1,
    });
    let out = at(Op::Out { a: 1 });
    let home = at(Op::Home { d: 2, bytes: 8 });
    let store = at(Op::StoreInt { p: 2, a: 1, t: INT });
    let load = at(Op::LoadInt { d: 3, p: 2, t: INT });
    let end = at(Op::Return { a: 3 });
    let main = vec![in alloc; forty, poll, call, out, home, store, load, end]?;
    let two = at(Op::Const { d: 1, constant: 2 });
    let add = at(Op::Binary {
        d: 2,
        a: 0,
        b: 1,
        op: ADD,
        t: INT,
    });
    let back = at(Op::Return { a: 2 });
    let other = vec![in alloc; two, add, back]?;
    code_of(alloc, main, other)
}

/// `int depth(int n) { return n == 0 ? 0 : depth(n - 1) + 1; }`, and a `main` that returns its value at n.
fn recursion(alloc: Global, n: u64) -> Result<Code, Fail>
    ensures { IfOk result (λ code. code.statics ≡ []) }
{
    let argument = at(Op::Const { d: 0, constant: n });
    let call = at(Op::Call {
        d: 1,
        function: 1,
        first: 0,
        count: 1,
    });
    let end = at(Op::Return { a: 1 });
    let main = vec![in alloc; argument, call, end]?;
    let test = at(Op::JumpZero { a: 0, target: 6 });
    let one = at(Op::Const { d: 1, constant: 1 });
    let less = at(Op::Binary {
        d: 2,
        a: 0,
        b: 1,
        op: SUB,
        t: INT,
    });
    let inner = at(Op::Call {
        d: 2,
        function: 1,
        first: 2,
        count: 1,
    });
    let more = at(Op::Binary {
        d: 2,
        a: 2,
        b: 1,
        op: ADD,
        t: INT,
    });
    let back = at(Op::Return { a: 2 });
    let zero = at(Op::Return { a: 0 });
    let other = vec![in alloc; test, one, less, inner, more, back, zero]?;
    code_of(alloc, main, other)
}

/// Whether an address lies near to the object of its half.
fn is_near_half(half: Half, address: u64) -> bool
    ensures { result ≡ true → IsNearHalf half address }
{
    match half {
        Half::Object(place) => place < 1000 && address < 1_000_000,
        _ => true,
    }
}

/// Whether this answer may be given to an event.
fn is_near(event: Event, answer: Answer) -> bool
    ensures { result ≡ true → IsNear (want.Event event) answer }
{
    match event {
        Event::Check { half, address, .. } => is_near_half(half, address),
        _ => true,
    }
}

/// Lets the thread go on: an event has this answer.
fn go_on(code: &Code, thread: &mut CodeThread, answer: Answer)
    requires stands { IsThreadOf code.now thread.old }
    requires statics { code.now.statics ≡ [] }
    ensures { IsThreadOf code.now thread.new }
{
    let places: [u64; 0] = [];
    match thread.want(code) {
        Want::Event(event) => {
            if is_near(event, answer) {
                thread.answer(code, answer);
            }
        }
        Want::Poll => thread.pass_poll(code),
        Want::Instruction | Want::Stopped => {
            let _carried_out = thread.step(code, &places);
        }
    }
}

/// Carries out at most so many instructions on registers, and tells how many it was.
fn turns(code: &Code, thread: &mut CodeThread, most: u64) -> u64
    requires stands { IsThreadOf code.now thread.old }
    requires statics { code.now.statics ≡ [] }
    ensures { IsThreadOf code.now thread.new }
{
    let places: [u64; 0] = [];
    thread.turns(code, &places, most)
}

/// The numbers of all registers, from the innermost frame on.
fn values(alloc: Global, thread: &CodeThread) -> Result<Vec<u64>, Fail> {
    let mut values = Vec::new(alloc);
    for register in 0..thread.registers() {
        values.push(thread.value(register))?;
    }
    Ok(values)
}

#[test]
fn a_new_thread_wants_nothing(rt: HostRuntime) -> Result<(), Fail> {
    let code = sum(rt.alloc())?;
    let mut thread = CodeThread::new(rt.alloc())?;
    assert_eq!(rt; thread.want(&code), Want::Stopped);
    assert!(rt; thread.is_over());
    assert_eq!(rt; turns(&code, &mut thread, 1), 0);
    Ok(())
}

#[test]
fn a_thread_goes_to_its_exit(rt: HostRuntime) -> Result<(), Fail> {
    let code = sum(rt.alloc())?;
    let mut thread = CodeThread::new(rt.alloc())?;
    thread.begin(&code, 0, code.main(), 0, Half::Nothing);
    let access = Access {
        object: 9,
        offset: 0,
        width: 4,
    };
    let check = |write| Want::Event(Event::Check {
        half: Half::Object(9),
        address: 65_608,
        width: 4,
        write,
    });
    let made = Want::Event(Event::New { bytes: 8, kind: 1 });
    let put = Want::Event(Event::SetInt { access, value: 42 });
    let got = Want::Event(Event::GetInt { access });
    for (name, want, answer) in [
        ("a constant", Want::Instruction, Answer::Done),
        ("a poll", Want::Poll, Answer::Done),
        ("a call", Want::Instruction, Answer::Done),
        ("the two", Want::Instruction, Answer::Done),
        ("the sum", Want::Instruction, Answer::Done),
        ("the return", Want::Instruction, Answer::Done),
        ("a byte", Want::Event(Event::Out { byte: 42 }), Answer::Done),
        ("an object", made, Answer::Made(9, 65_608)),
        ("its check before the store", check(true), Answer::Granted),
        ("the store", put, Answer::Done),
        ("its check before the load", check(false), Answer::Granted),
        ("the load", got, Answer::Number(42)),
        (
            "the end",
            Want::Event(Event::Exit { status: 42 }),
            Answer::Done,
        ),
        ("nothing more", Want::Stopped, Answer::Done),
    ] {
        assert_eq!(rt; thread.want(&code), want, "{name}");
        go_on(&code, &mut thread, answer);
    }
    assert!(rt; thread.is_over());
    Ok(())
}

#[test]
fn registers_are_counted_from_the_innermost_frame(rt: HostRuntime) -> Result<(), Fail> {
    let alloc = rt.alloc();
    let code = sum(alloc)?;
    let mut thread = CodeThread::new(alloc)?;
    thread.begin(&code, 0, code.main(), 0, Half::Nothing);
    for _instruction in 0..4_u8 {
        go_on(&code, &mut thread, Answer::Done);
    }
    let called = values(alloc, &thread)?;
    assert_eq!(rt; called.as_slice(), [40, 2, 0, 40, 0, 0, 0].as_slice());
    for answer in [
        Answer::Done,
        Answer::Done,
        Answer::Done,
        Answer::Made(9, 65_608),
    ] {
        go_on(&code, &mut thread, answer);
    }
    let back = values(alloc, &thread)?;
    assert_eq!(rt; back.as_slice(), [40, 42, 65_608, 0].as_slice());
    let all = thread.registers();
    assert!(rt; 2 < all);
    assert_eq!(rt; thread.half(2), Half::Object(9));
    thread.free_half(2);
    let check = Event::Check {
        half: Half::Freed,
        address: 65_608,
        width: 4,
        write: true,
    };
    assert_eq!(rt; thread.want(&code), Want::Event(check));
    let freed = values(alloc, &thread)?;
    assert_eq!(rt; freed.as_slice(), back.as_slice());
    Ok(())
}

#[test]
fn calls_go_1024_activations_deep(rt: HostRuntime) -> Result<(), Fail> {
    let alloc = rt.alloc();
    let too_deep = Event::Trap {
        reason: Reason::CallDepth,
        line: 7,
    };
    let mut thread = CodeThread::new(alloc)?;
    for (n, turn, event) in [
        (0, 4, Event::Exit { status: 0 }),
        (1022, 6 * 1022 + 4, Event::Exit { status: 254 }),
        (1023, 4 * 1023 + 2, too_deep),
    ] {
        let code = recursion(alloc, n)?;
        thread.begin(&code, 0, code.main(), 0, Half::Nothing);
        assert_eq!(rt; turns(&code, &mut thread, 10_000), turn, "{n}");
        assert_eq!(rt; thread.want(&code), Want::Event(event), "{n}");
    }
    Ok(())
}
