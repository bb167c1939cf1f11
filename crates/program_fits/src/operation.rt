//! Which operands an operation has, and what it may name.

ghost use Rattle.std.specs.Prelude.{◌≡◌, ◌<◌, ◌≤◌, ◌↔◌, IsTrue, All};
ghost use Rattle.c_types.specs.declared.ctype.TheConstants.{MOST_OBJECT_BYTES};
ghost use Rattle.c_tree.specs.Operands.{IsPromoted, IsElementSize, ChangeFits, IsChangeOf, IsExchanged, OpFits, is_comparison, is_fetched};

use crate::outline::{Names, Place};
use c_tree::{Access, Change, Operation};
use c_types::MOST_OBJECT_BYTES;
use filc_num::{BinOp, IntType};

fn is_promoted(ty: IntType) -> bool
    ensures { IsTrue result ↔ IsPromoted ty }
{
    ty.width() >= 32
}

fn is_comparison(operator: BinOp) -> bool
    ensures { result ≡ is_comparison operator }
{
    matches!(
        operator,
        BinOp::Lt | BinOp::Le | BinOp::Gt | BinOp::Ge | BinOp::Eq | BinOp::Ne
    )
}

/// Whether an operator is one of the atomic calls.
fn is_fetched(operator: BinOp) -> bool
    ensures { result ≡ is_fetched operator }
{
    matches!(
        operator,
        BinOp::Add | BinOp::Sub | BinOp::And | BinOp::Or | BinOp::Xor
    )
}

fn is_element_size(bytes: u64) -> bool
    ensures { IsTrue result ↔ IsElementSize bytes }
{
    bytes <= MOST_OBJECT_BYTES
}

/// Whether a local may be changed so.
fn change_fits(how: Change) -> bool
    ensures { IsTrue result ↔ ChangeFits how }
{
    match how {
        Change::Integer(_, computed, _) => is_promoted(computed),
        Change::Advance(bytes) | Change::Retreat(bytes) => is_element_size(bytes),
    }
}

/// Whether what lies in memory may be changed so.
fn is_change_of(lies: Access, how: Change) -> bool
    ensures { IsTrue result ↔ IsChangeOf lies how }
{
    match (lies, how) {
        (Access::Integer(ty), Change::Integer(_, computed, to)) => is_promoted(computed)
            && to == ty,
        (Access::Pointer, Change::Advance(bytes) | Change::Retreat(bytes)) => is_element_size(
            bytes,
        ),
        _ => false,
    }
}

/// Whether an atomic exchange may be of this.
fn is_exchanged(lies: Access) -> bool
    ensures { IsTrue result ↔ IsExchanged lies }
{
    match lies {
        Access::Integer(_) | Access::Box => true,
        Access::Pointer => false,
    }
}

/// Whether an operation fits so many operands.
pub fn op_fits(names: &Names, here: &Place, op: Operation, operands: usize) -> bool
    ensures { IsTrue result ↔ OpFits names.now here.now op operands }
{
    match op {
        Operation::Number(_) | Operation::Input | Operation::SelfId | Operation::Abort => operands
            == 0,
        Operation::Local(local) => operands == 0 && here.has_local(local),
        Operation::Static(number) => operands == 0 && names.has_static(number),
        Operation::Function(number) => operands == 0 && names.has_function(number),
        Operation::Negate(ty) | Operation::Complement(ty) | Operation::Not(ty) => operands == 1
            && is_promoted(ty),
        Operation::Binary(_, ty) | Operation::Combine(_, _, ty) => operands == 2 && is_promoted(ty),
        Operation::Advance(bytes)
        | Operation::Retreat(bytes)
        | Operation::AdvanceBy(bytes)
        | Operation::Copy(_, bytes) => operands == 2 && is_element_size(bytes),
        Operation::Distance(bytes) => operands == 2 && bytes > 0 && is_element_size(bytes),
        Operation::Compare(operator) => operands == 2 && is_comparison(operator),
        Operation::SetLocal(local) => operands == 1 && here.is_value(local),
        Operation::UpdateLocal(local, how) | Operation::StepLocal(local, how) => operands == 1
            && here.is_value(local)
            && change_fits(how),
        Operation::Update(lies, how) | Operation::Step(lies, how) => operands == 2
            && is_change_of(lies, how),
        Operation::Store(_) | Operation::Spawn | Operation::Second => operands == 2,
        Operation::Swap(lies) => operands == 2 && is_exchanged(lies),
        Operation::Cas(lies) => operands == 3 && is_exchanged(lies),
        Operation::Fetch(_, operator, computed) => operands == 2
            && is_fetched(operator)
            && is_promoted(computed),
        Operation::Call(number) => names.takes(number, operands),
        Operation::CallPointer(kind) => operands > 0 && names.kind_takes(kind, operands - 1),
        Operation::Convert(_)
        | Operation::Offset(_)
        | Operation::ToPointer
        | Operation::ToInteger(_)
        | Operation::Load(_)
        | Operation::New
        | Operation::Free
        | Operation::Size
        | Operation::Lock
        | Operation::Out
        | Operation::Join
        | Operation::Exit => operands == 1,
    }
}
