//! Instructions that operations are made of, and the numbers in them.
//!
//! A sum of registers, or an element's size, that doesn't fit an instruction is too much memory.

ghost use Rattle.std.specs.Prelude.{◌≡◌, ◌+◌, IfOk};
ghost use Rattle.whole_code.specs.Numbers.{type_number};
ghost use Rattle.whole_code.specs.declared.op.Op.TheVariants.{Convert, PointerAdd, Call};
ghost use Rattle.expr_gen.specs.Operations.{binary_op, load_op, store_op, swap_op, fetch_op};

use c_tree::Access;
use filc_num::{BinOp, IntType};
use std::alloc::AllocError;
use whole_code::{Op, SET, operator_number, type_number};

/// A sum, where it fits.
pub fn sum(a: u32, b: u32) -> Result<u32, AllocError>
    ensures { IfOk result (λ n. n ≡ a + b) }
{
    match a.checked_add(b) {
        Some(n) => Ok(n),
        None => Err(AllocError),
    }
}

/// The size of an element, where it fits.
pub fn element(bytes: u64) -> Result<u32, AllocError>
    ensures { IfOk result (λ n. n ≡ bytes) }
{
    match u32::try_from(bytes) {
        Ok(n) => Ok(n),
        Err(_) => Err(AllocError),
    }
}

/// a operator b in this type.
pub fn binary_op(operator: BinOp, ty: IntType, d: u32, a: u32, b: u32) -> Op
    ensures { result ≡ binary_op operator ty d a b }
{
    Op::Binary {
        d,
        a,
        b,
        op: operator_number(operator),
        t: type_number(ty),
    }
}

/// d becomes a, converted to this type.
pub fn convert_op(d: u32, a: u32, ty: IntType) -> Op
    ensures { result ≡ Convert d a (type_number ty) }
{
    Op::Convert {
        d,
        a,
        t: type_number(ty),
    }
}

/// d becomes the pointer in a, which goes forward by b elements of so many bytes.
pub fn advance_op(d: u32, a: u32, b: u32, bytes: u32) -> Op
    ensures { result ≡ PointerAdd d a b bytes }
{
    Op::PointerAdd { d, a, b, bytes }
}

/// d becomes what a function gives of so many arguments.
pub fn call_op(d: u32, function: u32, first: u32, count: u32) -> Op
    ensures { result ≡ Call d function first count }
{
    Op::Call {
        d,
        function,
        first,
        count,
    }
}

/// d becomes what lies at p.
pub fn load_op(lies: Access, d: u32, p: u32) -> Op
    ensures { result ≡ load_op lies d p }
{
    match lies {
        Access::Integer(ty) => Op::LoadInt {
            d,
            p,
            t: type_number(ty),
        },
        Access::Pointer | Access::Box => Op::LoadPointer { d, p },
    }
}

/// a is stored at p.
pub fn store_op(lies: Access, p: u32, a: u32) -> Op
    ensures { result ≡ store_op lies p a }
{
    match lies {
        Access::Integer(ty) => Op::StoreInt {
            p,
            a,
            t: type_number(ty),
        },
        Access::Pointer => Op::StorePointer { p, a },
        Access::Box => Op::BoxStore { p, a },
    }
}

/// d becomes what lies at p, and a takes its place.
pub fn swap_op(lies: Access, d: u32, p: u32, a: u32) -> Op
    ensures { result ≡ swap_op lies d p a }
{
    match lies {
        Access::Integer(ty) => Op::RmwInt {
            d,
            p,
            a,
            op: SET,
            t: type_number(ty),
            u: type_number(ty),
        },
        Access::Pointer | Access::Box => Op::BoxSwap { d, p, a },
    }
}

/// d becomes the integer that t points to, in place of which comes what an operator makes of it and t + 1.
pub fn fetch_op(
    object: IntType,
    operator: BinOp,
    computed: IntType,
    d: u32,
    t: u32,
) -> Result<Op, AllocError>
    ensures { IfOk result (λ o. o ≡ fetch_op object operator computed d t (t + 1)) }
{
    let a = sum(t, 1)?;
    Ok(Op::RmwInt {
        d,
        p: t,
        a,
        op: operator_number(operator),
        t: type_number(object),
        u: type_number(computed),
    })
}
