//! What a file's static objects have, which only declarations look at.

use filc_num::StaticHalf;
use sqlite_items::Items;

/// A scalar of a static object, from a byte on: so many bytes of a value, or where the half isn't None an offset to
/// what that names.
#[derive(Clone, Copy, Debug, PartialEq, Eq)]
pub struct Fill {
    pub offset: u64,
    pub bytes: u64,
    pub value: u64,
    pub half: StaticHalf,
}

/// What an initialiser gives a static object, by the object's number.
#[derive(Drop)]
pub struct Filled {
    pub number: u32,
    pub fills: Items<Fill>,
}

/// A static object where it is declared: its number and its size in bytes.
#[derive(Clone, Copy, Debug, PartialEq, Eq)]
pub struct Placed {
    pub number: u32,
    pub bytes: u64,
}
