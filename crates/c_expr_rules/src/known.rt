//! What is known of an expression before a run.

use filc_num::StaticHalf;

/// What is known before a run of an expression's value, or where it is a place of the place's address.
#[derive(Clone, Copy, Debug, PartialEq, Eq)]
pub enum Known {
    /// It is no constant.
    Nothing,
    /// An integer constant, kept as a value of its type is.
    Integer(u64),
    /// An integer constant in form, in which a signed operation overflows, a divisor is zero, or the count of
    /// a shift is out of range.
    Fault,
    /// An address constant: so many bytes, modulo 2^64, behind what the half names.
    Address(StaticHalf, u64),
}
