//! Runs of small code, turn by turn, worked out by hand from what each instruction does.

ghost use Rattle.std.specs.Prelude.{◌≡◌, false};
ghost use Rattle.filc_code.specs.WellFormed.{IsFunctionWellFormed};

use super::*;
use code_thread::CodeThread;
use filc_code::{Code, CodeFunction, Instruction, Op};
use filc_num::Reason;
use ideal_machine::Finish;
use std::alloc::Global;
use std::test::Fail;

/// An instruction of line 7.
fn at(op: Op) -> Instruction
    ensures { result ≡ record { line = 7; library = false; op = op } }
{
    Instruction {
        line: 7,
        library: false,
        op,
    }
}

/// A program of these instructions, with two registers.
fn code_of(alloc: Global, instructions: Vec<Instruction>) -> Result<Code, Fail>
    requires { IsFunctionWellFormed (record {
      values = 2;
      parameters = 0;
      kind = 1;
      instructions = instructions.items;
    }) }
{
    let function = CodeFunction {
        values: 2,
        parameters: 0,
        kind: 1,
        instructions,
    };
    let functions = vec![in alloc; function]?;
    Ok(Code::new(functions, 0))
}

/// Puts out A and B and ends with the low byte of 259.
fn letters(alloc: Global) -> Result<Code, Fail> {
    let first = at(Op::Const(0, 65));
    let second = at(Op::Const(0, 66));
    let out = at(Op::Out(0));
    let status = at(Op::Const(1, 259));
    let leaves = at(Op::Return(1));
    let instructions = vec![in alloc; first, out, second, out, status, leaves]?;
    code_of(alloc, instructions)
}

/// Divides 1 by 0.
fn division(alloc: Global) -> Result<Code, Fail> {
    let one = at(Op::Const(0, 1));
    let zero = at(Op::Const(1, 0));
    let divides = at(Op::Binary(0, 0, 1, 3, 5));
    let leaves = at(Op::Return(0));
    let instructions = vec![in alloc; one, zero, divides, leaves]?;
    code_of(alloc, instructions)
}

/// Puts out a byte again and again.
fn endless(alloc: Global) -> Result<Code, Fail> {
    let out = at(Op::Out(0));
    let back = at(Op::Jump(0));
    let instructions = vec![in alloc; out, back]?;
    code_of(alloc, instructions)
}

#[test]
fn runs_end_at_their_turn(rt: HostRuntime) -> Result<(), Fail> {
    let alloc = rt.alloc();
    let letters = letters(alloc)?;
    let division = division(alloc)?;
    let endless = endless(alloc)?;
    let divided = Some(Finish::Trapped(Reason::Divide, 7));
    let full = Some(Finish::Trapped(Reason::OutputLimit, 7));
    let status_3 = Some(Finish::Exited(3));
    let mut thread = CodeThread::new(alloc)?;
    for (name, code, turns, end, bytes) in [
        ("no turn", &letters, 0, None, 0),
        ("before the first byte", &letters, 1, None, 0),
        ("after the first byte", &letters, 3, None, 1),
        ("before the return", &letters, 5, None, 2),
        ("the return", &letters, 6, status_3, 2),
        ("more turns than needed", &letters, 9, status_3, 2),
        ("before the division", &division, 2, None, 0),
        ("the division", &division, 3, divided, 0),
        ("the output is full", &endless, 2_097_152, None, 1_048_576),
        ("one byte more", &endless, 2_097_153, full, 1_048_576),
    ] {
        let mut output = Vec::with_capacity(alloc, MOST_OUTPUT_BYTES)?;
        assert_eq!(rt; run(code, turns, &mut thread, &mut output), end, "{name}");
        assert_eq!(rt; output.len(), bytes, "{name}");
    }
    Ok(())
}

#[test]
fn bytes_come_in_order(rt: HostRuntime) -> Result<(), Fail> {
    let alloc = rt.alloc();
    let code = letters(alloc)?;
    let mut thread = CodeThread::new(alloc)?;
    let mut output = Vec::with_capacity(alloc, MOST_OUTPUT_BYTES)?;
    assert_eq!(rt;
        run(&code, 100, &mut thread, &mut output),
        Some(Finish::Exited(3))
    );
    assert_eq!(rt; output.as_slice(), b"AB".as_slice());
    Ok(())
}
