//! The code of the parts of a switch. What is put first stands last.

ghost use Rattle.std.specs.Prelude.{◌≡◌, OnOk, slice_index_or};
ghost use Rattle.stmt_gen.specs.Code.{case_ops, cases_code};
ghost use Rattle.expr_gen.specs.Code.{instructions};
ghost use Rattle.expr_emit.specs.Tail.{before};

use c_tree::Case;
use expr_emit::{Place, Tail, binary_op, put, sum};
use filc_num::{BinOp, IntType};
use std::alloc::AllocError;
use whole_code::Op;

/// Where the statement of this number begins; no number stands for a statement behind the last.
pub fn start_of(starts: &[u32], end: u32, statement: u32) -> u32
    ensures { result ≡ slice_index_or starts.now statement end }
{
    match starts.get(statement as usize) {
        Some(start) => *start,
        None => end,
    }
}

/// The code of a case: the comparison of the value in t with the case's, and a jump.
fn emit_case(tail: &mut Tail, place: Place, value: u64, target: u32) -> Result<(), AllocError>
    ensures { OnOk result (tail.new ≡ before
        (instructions place.library place.line (case_ops value place.t target)) tail.old) }
{
    let t = place.t;
    let d = sum(t, 1)?;
    let constant = Op::Const { d, constant: value };
    let compare = binary_op(BinOp::Ne, IntType::U64, d, t, d);
    let jump = Op::JumpZero { a: d, target };
    put(tail, place, &[constant, compare, jump])
}

/// The code of the cases of a switch, of which each goes where its statement begins.
pub fn emit_cases(
    tail: &mut Tail,
    place: Place,
    cases: &[Case],
    starts: &[u32],
    end: u32,
) -> Result<(), AllocError>
    ensures { OnOk result (tail.new ≡ before (cases_code place.library place.line place.t
        (λ n. slice_index_or starts.now n end) cases.now) tail.old) }
{
    for index in (0..cases.len()).rev() {
        let case = cases[index];
        let target = start_of(starts, end, case.statement);
        emit_case(tail, place, case.value, target)?;
    }
    Ok(())
}
