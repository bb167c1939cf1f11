//! One instruction on registers.

ghost use Rattle.std.specs.Prelude.{◌≡◌, ◌+◌, ◌<◌, ◌^◌, length};
ghost use Rattle.filc_code.specs.Numbers.{operator_at, type_at};
ghost use Rattle.filc_code.specs.WellFormed.{KeepsRegisters, KeepsNumbers};
ghost use Rattle.filc_code.specs.WellFormed.{IsOperatorNumber, IsArithmeticNumber};
ghost use Rattle.ideal_machine.specs.Values.{integer, value_at, put_at};
ghost use Rattle.ideal_machine.specs.Phrases.{operator_result};
ghost use Rattle.code_thread.specs.Thread.{IsActed, stage_of};

use crate::stage::Stage;
use filc_code::{Op, operator_at, type_at};
use filc_num::{ArithFault, BinOp, binary, convert};
use ideal_machine::{Half, Value};

/// An integer as a value.
pub const fn integer(number: u64) -> Value
    ensures { result ≡ integer number }
{
    Value {
        number,
        half: Half::Nothing,
    }
}

/// The value of a register.
#[tactic(auto, using(crate::proofs::Registers::value_at_read))]
pub fn value(registers: &Vec<Value>, register: u32) -> Value
    requires { register < length registers.now.items }
    ensures { result ≡ value_at registers.now.items register }
{
    registers[register as usize]
}

/// Writes a register.
pub fn put(registers: &mut Vec<Value>, register: u32, value: Value)
    requires { register < length registers.old.items }
    ensures put { registers.new.items ≡ put_at registers.old.items register value }
    ensures length { length registers.new.items ≡ length registers.old.items }
{
    registers[register as usize] = value;
}

/// An operator on two integers, which are converted to its type before, but for a shift's count.
fn arithmetic(op: u32, ty: u32, a: u64, b: u64) -> Result<u64, ArithFault>
    requires op { IsOperatorNumber op }
    requires ty { IsArithmeticNumber ty }
    ensures { result ≡ operator_result (operator_at op) (type_at ty) a b }
{
    let op = operator_at(op);
    let ty = type_at(ty);
    let left = convert(a, ty);
    match op {
        BinOp::Shl | BinOp::Shr => binary(op, ty, left, b),
        _ => binary(op, ty, left, convert(b, ty)),
    }
}

/// Carries out an instruction on registers and gives the index after it. Where arithmetic has no
/// result nothing changes.
pub fn act(registers: &mut Vec<Value>, op: Op, index: usize) -> Result<usize, ArithFault>
    requires registers { KeepsRegisters (length registers.old.items) op }
    requires numbers { KeepsNumbers op }
    requires index { index + 1 < 2 ^ 64 }
    ensures done { IsActed op index registers.old.items registers.new.items result }
    ensures length { length registers.new.items ≡ length registers.old.items }
{
    match op {
        Op::Const(d, number) => {
            put(registers, d, integer(number));
            Ok(index + 1)
        }
        Op::Move(d, a) => {
            let moved = value(registers, a);
            put(registers, d, moved);
            Ok(index + 1)
        }
        Op::Binary(d, a, b, op, ty) => {
            let left = value(registers, a);
            let right = value(registers, b);
            match arithmetic(op, ty, left.number, right.number) {
                Ok(number) => {
                    put(registers, d, integer(number));
                    Ok(index + 1)
                }
                Err(fault) => Err(fault),
            }
        }
        Op::Jump(target) => Ok(target as usize),
        Op::JumpZero(a, target) => {
            if value(registers, a).number == 0 {
                Ok(target as usize)
            } else {
                Ok(index + 1)
            }
        }
        Op::Return(_) | Op::Out(_) | Op::Exit(_) => Ok(index + 1),
    }
}

/// The stage before an instruction.
pub fn stage_before(main: bool, op: Op, line: u32, registers: &Vec<Value>) -> Stage
    requires { KeepsRegisters (length registers.now.items) op }
    ensures { result ≡ stage_of main op line registers.now.items }
{
    match op {
        Op::Return(a) => {
            let number = value(registers, a).number;
            if main {
                Stage::Exits((number % 256) as u8)
            } else {
                Stage::Ends(number)
            }
        }
        Op::Out(a) => {
            let byte = (value(registers, a).number % 256) as u8;
            Stage::PutsOut(byte, line)
        }
        Op::Exit(a) => {
            let status = (value(registers, a).number % 256) as u8;
            Stage::Exits(status)
        }
        Op::Const(..) | Op::Move(..) | Op::Binary(..) | Op::Jump(_) | Op::JumpZero(..) => {
            Stage::Acts(op, line)
        }
    }
}
