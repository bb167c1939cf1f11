//! Carries out a loop of so many rounds by one call of `turns`, and prints how many instructions it was and
//! what `main` returns: what `bench/thread_steps` measures.
#![tactic(auto)]

ghost use Rattle.std.specs.Prelude.{◌≡◌, false, IfOk, []};
ghost use Rattle.thread_steps.specs.Stands.{IsThreadOf};
ghost use Rattle.whole_code.specs.WellFormed.{IsFunctionWellFormed};

use anyhow::{Context, Result};
use ideal_machine::{Event, Half};
use std::alloc::{AllocError, Global};
use std::env;
use thread_steps::CodeThread;
use whole_code::{Code, CodeFunction, Instruction, Op};
use whole_thread::Want;

/// The number of the type `int`.
const INT: u32 = 5;

/// How many instructions a round has.
const ROUND: u64 = 9;

/// How many there are outside of the rounds, and a few more.
const REST: u64 = 16;

/// An instruction of a line.
fn at(line: u32, op: Op) -> Instruction
    ensures { result ≡ record { line = line; library = false; op = op } }
{
    Instruction {
        line,
        library: false,
        op,
    }
}

/// Code whose `main` has these instructions, three registers and no parameter.
fn code_of(alloc: Global, instructions: Vec<Instruction>) -> Result<Code, AllocError>
    requires { IsFunctionWellFormed (record { functions = 1; statics = 0 }) (record {
      values = 3;
      parameters = 0;
      kind = 1;
      instructions = instructions.items;
    }) }
    ensures statics { IfOk result (λ code. code.statics ≡ []) }
{
    let function = CodeFunction {
        values: 3,
        parameters: 0,
        kind: 1,
        instructions,
    };
    let functions = vec![in alloc; function]?;
    Ok(Code::new(functions, Vec::new(alloc), 0))
}

/// `int i; i = 0; while (i < rounds) i = i + 1; return 7;` in code, as a compiler without a thought
/// for its speed makes it.
fn loop_of(alloc: Global, rounds: u64) -> Result<Code, AllocError>
    ensures statics { IfOk result (λ code. code.statics ≡ []) }
{
    let zero = at(1, Op::Const { d: 0, constant: 0 });
    let read = at(2, Op::Move { d: 1, a: 0 });
    let most = at(
        2,
        Op::Const {
            d: 2,
            constant: rounds,
        },
    );
    let less = at(
        2,
        Op::Binary {
            d: 1,
            a: 1,
            b: 2,
            op: 10,
            t: INT,
        },
    );
    let leave = at(2, Op::JumpZero { a: 1, target: 10 });
    let one = at(2, Op::Const { d: 2, constant: 1 });
    let sum = at(
        2,
        Op::Binary {
            d: 1,
            a: 1,
            b: 2,
            op: 0,
            t: INT,
        },
    );
    let write = at(2, Op::Move { d: 0, a: 1 });
    let back = at(2, Op::Jump { target: 1 });
    let seven = at(3, Op::Const { d: 1, constant: 7 });
    let end = at(3, Op::Return { a: 1 });
    let instructions = vec![in alloc;
        zero, read, most, less, leave, read, one, sum, write, back, seven, end,
    ]?;
    code_of(alloc, instructions)
}

/// Carries out at most so many instructions on registers, and tells how many it was.
fn carry_out(code: &Code, thread: &mut CodeThread, most: u64) -> u64
    requires stands { IsThreadOf code.now thread.old }
    requires statics { code.now.statics ≡ [] }
    ensures stands { IsThreadOf code.now thread.new }
{
    let places: [u64; 0] = [];
    thread.turns(code, &places, most)
}

fn main(rt: HostRuntime) -> Result<()> {
    let mut words = env::args(&rt)?;
    let _program = words.next();
    let rounds = words.next().context("no number of rounds")?;
    let rounds: u32 = rounds.as_str().parse().context("the rounds are no number")?;
    let code = loop_of(rt.alloc(), u64::from(rounds))?;
    let mut thread = CodeThread::new(rt.alloc())?;
    thread.begin(&code, 0, code.main(), 0, Half::Nothing);
    let turns = carry_out(&code, &mut thread, ROUND * u64::from(rounds) + REST);
    match thread.want(&code) {
        Want::Event(Event::Exit { status }) => println!(rt;
            "{turns} instructions, and then {status}"
        )?,
        _ => anyhow::bail!("the loop has not ended"),
    }
    Ok(())
}
