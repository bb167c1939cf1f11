//! Values: an integer or an address, and beside it the capability that a pointer carries.

/// What a pointer may reach: its capability, apart from its address.
#[derive(Clone, Copy, Debug, PartialEq, Eq)]
pub enum Half {
    /// No capability. Every integer has this half.
    Nothing,
    /// That of an object which was freed.
    Freed,
    /// The object of this number.
    Object(u64),
    /// The function of this number.
    Function(u32),
}

/// A half that is to be stored: as it is, or as a pair with its address, for an atomic pointer.
#[derive(Clone, Copy, Debug, PartialEq, Eq)]
pub enum Kept {
    Plain(Half),
    Pair(u64, Half),
}

/// A half that was found: as it is, or the number of the pair that was.
#[derive(Clone, Copy, Debug, PartialEq, Eq)]
pub enum Found {
    Plain(Half),
    Pair(u64),
}

/// A value of C: its bits, sign- or zero-extended to 64, and its half.
#[derive(Clone, Copy, Debug, PartialEq, Eq)]
pub struct Value {
    pub number: u64,
    pub half: Half,
}
