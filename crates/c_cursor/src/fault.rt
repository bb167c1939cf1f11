//! Why a list of tokens isn't read.

use std::alloc::AllocError;

/// Why a part isn't read. But for `NoMemory` the cursor stands at the token that is refused.
#[derive(Clone, Copy, Debug, PartialEq, Eq, Drop)]
pub enum Fault {
    /// The tokens up to and with this one begin no such part.
    Syntax,
    /// This token opens one construct more than may be open.
    Deep,
    NoMemory,
}

impl From<AllocError> for Fault {
    ghost use Rattle.std.specs.Prelude.{◌≡◌};
    ghost use Rattle.c_cursor.specs.declared.fault.Fault.TheVariants.{NoMemory};

    ghost from_gives = { λ _ e. e ≡ NoMemory };

    fn from(_: AllocError) -> Self {
        Fault::NoMemory
    }
}
