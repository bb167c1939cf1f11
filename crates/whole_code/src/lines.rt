//! The listing: code as a text.

ghost use Rattle.std.specs.Prelude.{◌≡◌, ◌++◌, codes, IfOk, OnOk};
ghost use Rattle.std.specs.Fmt.{decimal};
ghost use Rattle.whole_code.specs.Plain.{plain_function};
ghost use Rattle.whole_code.specs.Listing.{listing_of, name_of, operands_of, words_after};
ghost use Rattle.whole_code.specs.Listing.{instruction_line, instruction_lines, function_lines};

use crate::code::{Code, CodeFunction};
use crate::op::{Instruction, Op};
use std::alloc::{AllocError, Global};

/// Appends a number.
fn push_number(text: &mut Vec<u8>, number: u64) -> Result<(), AllocError>
    ensures { OnOk result (text.new.items ≡ text.old.items ++ decimal number) }
{
    let mut buffer = itoa::Buffer::new();
    text.extend_from_slice(buffer.format(number).as_bytes())
}

/// Appends numbers, each behind a space.
fn push_words(text: &mut Vec<u8>, numbers: &[u32]) -> Result<(), AllocError>
    ensures { OnOk result (text.new.items ≡ text.old.items ++ words_after numbers.now) }
{
    for number in numbers {
        text.extend_from_slice(b" ")?;
        push_number(text, u64::from(*number))?;
    }
    Ok(())
}

/// Appends an instruction's operands, each behind a space.
fn push_operands(text: &mut Vec<u8>, op: Op) -> Result<(), AllocError>
    ensures { OnOk result (text.new.items ≡ text.old.items ++ words_after (operands_of op)) }
{
    match op {
        Op::Const { d, constant } => {
            push_words(text, &[d])?;
            text.extend_from_slice(b" ")?;
            push_number(text, constant)
        }
        Op::Poll | Op::Abort => Ok(()),
        Op::Jump { target } => push_words(text, &[target]),
        Op::JumpZero { a, target } => push_words(text, &[a, target]),
        Op::Input { d } | Op::SelfId { d } => push_words(text, &[d]),
        Op::Lock { p } => push_words(text, &[p]),
        Op::Return { a } | Op::Free { a } | Op::Out { a } | Op::Exit { a } => push_words(
            text,
            &[a],
        ),
        Op::Move { d, a } | Op::ToPointer { d, a } => push_words(text, &[d, a]),
        Op::New { d, a } | Op::Size { d, a } | Op::Join { d, a } => push_words(text, &[d, a]),
        Op::StaticAt { d, number } | Op::FunctionAt { d, number } => push_words(text, &[d, number]),
        Op::Home { d, bytes } => push_words(text, &[d, bytes]),
        Op::LoadPointer { d, p } => push_words(text, &[d, p]),
        Op::StorePointer { p, a } | Op::BoxStore { p, a } => push_words(text, &[p, a]),
        Op::Convert { d, a, t } | Op::ToInteger { d, a, t } => push_words(text, &[d, a, t]),
        Op::LoadInt { d, p, t } => push_words(text, &[d, p, t]),
        Op::StoreInt { p, a, t } => push_words(text, &[p, a, t]),
        Op::BoxSwap { d, p, a } => push_words(text, &[d, p, a]),
        Op::Spawn { d, a, b } => push_words(text, &[d, a, b]),
        Op::PointerAdd { d, a, b, bytes } => push_words(text, &[d, a, b, bytes]),
        Op::PointerSub { d, a, b, bytes } => push_words(text, &[d, a, b, bytes]),
        Op::PointerCompare { d, a, b, op } => push_words(text, &[d, a, b, op]),
        Op::Call {
            d,
            function,
            first,
            count,
        } => push_words(text, &[d, function, first, count]),
        Op::Binary { d, a, b, op, t } => push_words(text, &[d, a, b, op, t]),
        Op::CasInt { d, p, e, n, t } => push_words(text, &[d, p, e, n, t]),
        Op::BoxCas { d, w, p, e, n } => push_words(text, &[d, w, p, e, n]),
        Op::CallPointer {
            d,
            a,
            first,
            count,
            kind,
        } => push_words(text, &[d, a, first, count, kind]),
        Op::RmwInt { d, p, a, op, t, u } => push_words(text, &[d, p, a, op, t, u]),
    }
}

/// The name of an instruction.
fn name(op: Op) -> &'static [u8]
    ensures { result.now ≡ name_of op }
{
    match op {
        Op::Const { .. } => b"Const",
        Op::Move { .. } => b"Move",
        Op::StaticAt { .. } => b"StaticAt",
        Op::FunctionAt { .. } => b"FunctionAt",
        Op::Convert { .. } => b"Convert",
        Op::Binary { .. } => b"Binary",
        Op::PointerAdd { .. } => b"PointerAdd",
        Op::PointerSub { .. } => b"PointerSub",
        Op::PointerCompare { .. } => b"PointerCompare",
        Op::ToInteger { .. } => b"ToInteger",
        Op::ToPointer { .. } => b"ToPointer",
        Op::Jump { .. } => b"Jump",
        Op::JumpZero { .. } => b"JumpZero",
        Op::Poll => b"Poll",
        Op::Home { .. } => b"Home",
        Op::LoadInt { .. } => b"LoadInt",
        Op::StoreInt { .. } => b"StoreInt",
        Op::RmwInt { .. } => b"RmwInt",
        Op::CasInt { .. } => b"CasInt",
        Op::LoadPointer { .. } => b"LoadPointer",
        Op::StorePointer { .. } => b"StorePointer",
        Op::BoxStore { .. } => b"BoxStore",
        Op::BoxSwap { .. } => b"BoxSwap",
        Op::BoxCas { .. } => b"BoxCas",
        Op::Call { .. } => b"Call",
        Op::CallPointer { .. } => b"CallPointer",
        Op::Return { .. } => b"Return",
        Op::New { .. } => b"New",
        Op::Free { .. } => b"Free",
        Op::Size { .. } => b"Size",
        Op::Lock { .. } => b"Lock",
        Op::Out { .. } => b"Out",
        Op::Input { .. } => b"Input",
        Op::Spawn { .. } => b"Spawn",
        Op::Join { .. } => b"Join",
        Op::SelfId { .. } => b"Self",
        Op::Exit { .. } => b"Exit",
        Op::Abort => b"Abort",
    }
}

/// Appends the line of the instruction at an index.
fn push_instruction(text: &mut Vec<u8>, index: usize, i: &Instruction) -> Result<(), AllocError>
    ensures { OnOk result (text.new.items ≡ text.old.items ++ instruction_line index i.now) }
{
    push_number(text, index as u64)?;
    text.extend_from_slice(b" ")?;
    push_number(text, u64::from(i.line))?;
    text.extend_from_slice(b" ")?;
    text.extend_from_slice(name(i.op))?;
    push_operands(text, i.op)?;
    text.extend_from_slice(b"\n")
}

/// Appends the line of the function of a number, and those of its instructions.
fn push_function(text: &mut Vec<u8>, number: usize, f: &CodeFunction) -> Result<(), AllocError>
    ensures { OnOk result
        (text.new.items ≡ text.old.items ++ function_lines number (plain_function f.now)) }
{
    text.extend_from_slice(b"function ")?;
    push_number(text, number as u64)?;
    text.extend_from_slice(b" ")?;
    push_number(text, u64::from(f.values))?;
    text.extend_from_slice(b"\n")?;
    for (index, instruction) in f.instructions.iter().enumerate() {
        push_instruction(text, index, instruction)?;
    }
    Ok(())
}

/// The listing of code: a line for each function and for each instruction.
pub fn listing(alloc: Global, code: &Code) -> Result<Vec<u8>, AllocError>
    ensures { IfOk result (λ text. text.items ≡ listing_of code.now) }
{
    let mut text = Vec::from_slice(alloc, b"filc code 1\n")?;
    for (number, function) in code.functions().iter().enumerate() {
        push_function(&mut text, number, function)?;
    }
    Ok(text)
}
