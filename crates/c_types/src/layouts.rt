//! Where the members of a structure or a union lie.

ghost use Rattle.std.specs.Prelude.{◌≡◌};
ghost use Rattle.c_types.specs.Extents.{IsExtent};

use crate::ctype::Extent;

/// Whether members lie one after another or all at one place.
#[derive(Clone, Copy, Debug, PartialEq, Eq)]
pub enum Form {
    Structure,
    Union,
}

/// The offsets of members, and the size and alignment of what has them.
#[derive(Debug, Drop)]
pub struct Layout {
    pub offsets: Vec<u64>,
    pub size: u64,
    pub align: u64,
    pub ghost sound: { IsExtent size align },
}

/// Why members have no layout.
#[derive(Clone, Copy, Debug, PartialEq, Eq)]
pub enum LayoutFault {
    /// A member has no size.
    Incomplete,
    /// With a member the bytes pass the limit.
    TooLarge,
    NoMemory,
}

impl Layout {
    pub fn extent(&self) -> Extent
        ensures size { result.size ≡ self.now.size }
        ensures align { result.align ≡ self.now.align }
    {
        Extent {
            size: self.size,
            align: self.align,
        }
    }
}
