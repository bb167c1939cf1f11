//! Names that stand for no function, but are called.

ghost use Rattle.std.specs.Prelude.{◌≡◌};
ghost use Rattle.std.specs.Str.{bytes_eq};
ghost use Rattle.c_expr_rules.specs.Calls.{special_names, special_among, atomic_names, fetch_names};

use crate::printer::Printer;
use filc_num::BinOp;

/// An atomic call.
#[derive(Clone, Copy, Debug, PartialEq, Eq)]
pub enum AtomicCall {
    Load,
    Store,
    Exchange,
    CompareExchange,
    Fetch(BinOp),
}

/// What such a name calls.
#[derive(Clone, Copy, Debug, PartialEq, Eq)]
pub enum Special {
    /// `printf`
    Printing(Printer),
    Atomic(AtomicCall),
}

fn is_spelled(name: &[u8], letters: &[u8]) -> bool
    ensures { result ≡ bytes_eq name.now letters.now }
{
    name == letters
}

/// What a name calls, by its letters. `printf` is there where what it stands for is.
pub fn special_of(printer: Option<Printer>, name: &[u8]) -> Option<Special>
    ensures { result ≡ special_among (special_names printer) name.now }
{
    let Some(printer) = printer else {
        return atomic_of(name);
    };
    if is_spelled(name, b"__filc_printf") {
        return Some(Special::Printing(printer));
    }
    atomic_of(name)
}

/// What a name calls that is an atomic call.
fn atomic_of(name: &[u8]) -> Option<Special>
    ensures { result ≡ special_among atomic_names name.now }
{
    if is_spelled(name, b"__filc_atomic_load") {
        return Some(Special::Atomic(AtomicCall::Load));
    }
    if is_spelled(name, b"__filc_atomic_store") {
        return Some(Special::Atomic(AtomicCall::Store));
    }
    if is_spelled(name, b"__filc_atomic_exchange") {
        return Some(Special::Atomic(AtomicCall::Exchange));
    }
    if is_spelled(name, b"__filc_atomic_compare_exchange") {
        return Some(Special::Atomic(AtomicCall::CompareExchange));
    }
    fetch_of(name)
}

/// What a name calls that changes an atomic object by an operator.
fn fetch_of(name: &[u8]) -> Option<Special>
    ensures { result ≡ special_among fetch_names name.now }
{
    if is_spelled(name, b"__filc_atomic_fetch_add") {
        return Some(Special::Atomic(AtomicCall::Fetch(BinOp::Add)));
    }
    if is_spelled(name, b"__filc_atomic_fetch_sub") {
        return Some(Special::Atomic(AtomicCall::Fetch(BinOp::Sub)));
    }
    if is_spelled(name, b"__filc_atomic_fetch_or") {
        return Some(Special::Atomic(AtomicCall::Fetch(BinOp::Or)));
    }
    if is_spelled(name, b"__filc_atomic_fetch_xor") {
        return Some(Special::Atomic(AtomicCall::Fetch(BinOp::Xor)));
    }
    if is_spelled(name, b"__filc_atomic_fetch_and") {
        return Some(Special::Atomic(AtomicCall::Fetch(BinOp::And)));
    }
    None
}
