//! The runner: one thread of code, turn by turn.

ghost use Rattle.std.specs.Prelude.{◌≡◌, ◌≤◌, [], length};
ghost use Rattle.std.specs.Vec.{vec_capacity};
ghost use Rattle.code_thread.specs.Thread.{want_of};
ghost use Rattle.code_thread.specs.declared.stage.Want.TheVariants.{Event as WantEvent};
ghost use Rattle.code_thread.specs.declared.stage.Want.TheVariants.{Instruction as WantInstruction};
ghost use Rattle.ideal_machine.specs.declared.event.Event.TheVariants.{Out};
ghost use Rattle.single_thread.specs.Alone.{observable_of_run};
ghost use Rattle.single_thread.specs.Turns.{trap_at, IsReady, TurnTells};

use code_thread::{CodeThread, Want};
use filc_code::Code;
use filc_num::Reason;
use ideal_machine::{Answer, Event, Finish};

/// How many bytes can be put out.
pub const MOST_OUTPUT_BYTES: usize = 1_048_576;

/// The end of the program where the thread stands at a trap.
fn trap_of(thread: &CodeThread) -> Option<Finish>
    ensures { result ≡ trap_at thread.now.stage }
{
    match thread.want() {
        Want::Event(Event::Trap { reason, line }) => Some(Finish::Trapped(reason, line)),
        _ => None,
    }
}

/// A turn of an instruction on registers.
fn act(code: &Code, thread: &mut CodeThread, out: &Vec<u8>) -> Option<Finish>
    requires ready { IsReady code.now thread.old }
    requires wanted { want_of thread.old ≡ WantInstruction }
    ensures { TurnTells code.now thread.old out.now.items result thread.new out.now.items }
{
    thread.step(code);
    trap_of(thread)
}

/// A turn that puts out a byte.
fn put_out(code: &Code, thread: &mut CodeThread, out: &mut Vec<u8>, byte: u8) -> Option<Finish>
    requires ready { IsReady code.now thread.old }
    requires wanted { want_of thread.old ≡ WantEvent (Out byte) }
    requires room { MOST_OUTPUT_BYTES ≤ vec_capacity out.old }
    ensures turn { TurnTells code.now thread.old out.old.items result thread.new out.new.items }
    ensures capacity { vec_capacity out.new ≡ vec_capacity out.old }
{
    if out.len() < MOST_OUTPUT_BYTES {
        out.push_reserved(byte);
        thread.answer(code, Answer::Done);
    } else {
        thread.answer(code, Answer::Refused(Reason::OutputLimit));
    }
    trap_of(thread)
}

/// One turn: one instruction, with its events. It gives the end of the program, if it ended.
fn turn(code: &Code, thread: &mut CodeThread, out: &mut Vec<u8>) -> Option<Finish>
    requires ready { IsReady code.now thread.old }
    requires room { MOST_OUTPUT_BYTES ≤ vec_capacity out.old }
    ensures turn { TurnTells code.now thread.old out.old.items result thread.new out.new.items }
    ensures capacity { vec_capacity out.new ≡ vec_capacity out.old }
{
    match thread.want() {
        Want::Instruction => act(code, thread, out),
        Want::Event(Event::Out { byte }) => put_out(code, thread, out, byte),
        Want::Event(Event::Exit { status }) => Some(Finish::Exited(status)),
        _ => unreachable!(),
    }
}

/// Runs `main` of the code for at most so many turns, of one instruction each, and gives the end of
/// the program, if it ended. The bytes that it puts out go into `out`, which has the room for all
/// that can be, so the run takes no memory.
pub fn run(code: &Code, turns: u64, thread: &mut CodeThread, out: &mut Vec<u8>) -> Option<Finish>
    requires empty { out.old.items ≡ [] }
    requires room { MOST_OUTPUT_BYTES ≤ vec_capacity out.old }
    ensures bytes { out.new.items ≡ (observable_of_run turns code.now).bytes }
    ensures finish { result ≡ (observable_of_run turns code.now).finish }
{
    thread.begin(code, code.main());
    for _turn in 0..turns {
        if let Some(finish) = turn(code, thread, out) {
            return Some(finish);
        }
    }
    None
}
