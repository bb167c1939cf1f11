//! Sets of type qualifiers.

ghost use Rattle.std.specs.Prelude.{⊤, [], ◌∷◌, codes};

use bitflags::{Flag, Flags, bitflag_items};

/// The qualifiers of a type: a set of `const`, `volatile`, `restrict` and `_Atomic`.
#[derive(Clone, Copy, Debug, PartialEq, Eq, PartialOrd, Ord)]
pub struct Qualifiers(u8);

bitflag_items! {
    impl Qualifiers: u8 {
        const CONST = 1;
        const VOLATILE = 2;
        const RESTRICT = 4;
        const ATOMIC = 8;
    }
}

impl Flags for Qualifiers {
    type Bits = u8;

    ghost exact = { ⊤ };

    ghost table = { (codes "CONST", 1) ∷ (codes "VOLATILE", 2) ∷ (codes "RESTRICT", 4)
        ∷ (codes "ATOMIC", 8) ∷ [] };

    ghost set_of = { λ q. q.0 };

    fn flags<'a>() -> &'a [Flag<Qualifiers>] {
        Qualifiers::FLAGS
    }

    fn bits(&self) -> u8 {
        self.0
    }

    fn from_bits_retain(bits: u8) -> Qualifiers {
        Qualifiers(bits)
    }
}
