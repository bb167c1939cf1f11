//! The code of `printf` on operands that are in their registers. What is put first stands last.
//!
//! The lock of the output is taken, each piece of the format puts out its bytes, and the lock is let go. A register
//! adds up how many bytes the pieces had, which is what `printf` gives.

ghost use Rattle.std.specs.Prelude.{◌≡◌, ◌+◌, [], ◌∷◌, ◌++◌, OnOk};
ghost use Rattle.filc_num.specs.declared.integer.BinOp.TheVariants.{Add};
ghost use Rattle.filc_num.specs.declared.integer.IntType.TheVariants.{I32};
ghost use Rattle.expr_gen.specs.Operations.{binary_op, piece_ops, pieces_ops};
ghost use Rattle.expr_gen.specs.Code.{print_code, instructions};
ghost use Rattle.expr_emit.specs.Tail.{before};

use crate::ops::{binary_op, call_op, sum};
use crate::place::Place;
use crate::tail::{Tail, put};
use c_tree::Piece;
use filc_num::{BinOp, IntType};
use std::alloc::AllocError;
use whole_code::{Op, type_number};

/// The code of a piece of operands from the place's register on: how many bytes it has comes into c + 1.
fn emit_piece(tail: &mut Tail, place: Place, piece: Piece, c: u32) -> Result<(), AllocError>
    ensures { OnOk result (tail.new ≡ before
        (instructions place.library place.line (piece_ops piece place.t c)) tail.old) }
{
    let d = sum(c, 1)?;
    let one = Op::Const { d, constant: 1 };
    match piece {
        Piece::Byte(byte) => {
            let constant = u64::from(byte);
            let ops = [Op::Const { d, constant }, Op::Out { a: d }, one];
            put(tail, place, &ops)
        }
        Piece::Out(operand) => {
            let a = sum(place.t, operand)?;
            put(tail, place, &[Op::Out { a }, one])
        }
        Piece::Put {
            function,
            operand,
            radix: None,
        } => {
            let a = sum(place.t, operand)?;
            let call = call_op(d, function, d, 1);
            put(tail, place, &[Op::Move { d, a }, call])
        }
        Piece::Put {
            function,
            operand,
            radix: Some(radix),
        } => {
            let a = sum(place.t, operand)?;
            let next = sum(c, 2)?;
            let constant = u64::from(radix);
            let base = Op::Const { d: next, constant };
            let call = call_op(d, function, d, 2);
            put(tail, place, &[Op::Move { d, a }, base, call])
        }
    }
}

/// The code of pieces, whose bytes are counted in c.
fn emit_pieces(tail: &mut Tail, place: Place, pieces: &[Piece], c: u32) -> Result<(), AllocError>
    ensures { OnOk result (tail.new ≡ before
        (instructions place.library place.line (pieces_ops pieces.now place.t c)) tail.old) }
{
    let d = sum(c, 1)?;
    for index in (0..pieces.len()).rev() {
        let add = binary_op(BinOp::Add, IntType::I32, c, c, d);
        put(tail, place, &[add])?;
        emit_piece(tail, place, pieces[index], c)?;
    }
    Ok(())
}

/// The lock in the place's register is taken, the pieces are put out, the lock becomes 0, and their count comes
/// into that register. So many operands stand from it on.
pub fn emit_print(tail: &mut Tail, place: Place, pieces: &[Piece], n: u32) -> Result<(), AllocError>
    ensures { OnOk result (tail.new ≡ before
        (print_code place.library pieces.now place.line place.t n) tail.old) }
{
    let t = place.t;
    let c = sum(t, n)?;
    let d = sum(c, 1)?;
    let zero = Op::Const { d, constant: 0 };
    let release = Op::StoreInt {
        p: t,
        a: d,
        t: type_number(IntType::I32),
    };
    put(tail, place, &[zero, release, Op::Move { d: t, a: c }])?;
    emit_pieces(tail, place, pieces, c)?;
    put(
        tail,
        place,
        &[Op::Lock { p: t }, Op::Const { d: c, constant: 0 }],
    )
}
