//! Capabilities as words, and addresses.
ghost use Rattle.std.specs.Prelude.{◌≡◌, ◌+◌, ◌*◌, ◌^◌, ◌<◌, IfSome, Some};
ghost use Rattle.object_header.specs.Codings.{cap_code, HasPlace};
ghost use Rattle.object_header.specs.declared.cap.Cap.{Cap};

/// A capability: what a pointer may reach. In memory it is one half of the pointer, beside the
/// address.
#[derive(Clone, Copy, Debug, PartialEq, Eq)]
pub enum Cap {
    /// Nothing: a plain integer.
    Nothing,
    /// An object that was freed.
    Freed,
    /// The object at this place.
    Object(u64),
    /// The function of this number.
    Function(u32),
    /// A pair of an address and a capability that lies in the box at this place.
    Boxed(u64),
}

/// The word of a capability.
pub fn cap_word(cap: Cap) -> u64
    requires { HasPlace cap }
    ensures { result ≡ cap_code cap }
{
    match cap {
        Cap::Nothing => 0,
        Cap::Freed => 1,
        Cap::Object(place) => 4 * place,
        Cap::Function(function) => 4 * u64::from(function) + 2,
        Cap::Boxed(place) => 4 * place + 3,
    }
}

/// The capability that a word codes, if it codes one.
pub fn cap_of(word: u64) -> Option<Cap>
    ensures codes { IfSome result (λ cap. cap_code cap ≡ word) }
    ensures fits { IfSome result HasPlace }
    ensures inverse { (cap : Cap) → HasPlace cap → cap_code cap ≡ word → result ≡ Some cap }
{
    let value = word / 4;
    match word % 4 {
        0 if value == 0 => Some(Cap::Nothing),
        0 => Some(Cap::Object(value)),
        1 if value == 0 => Some(Cap::Freed),
        1 => None,
        2 if value < 1 << 32 => Some(Cap::Function(value as u32)),
        2 => None,
        _ => Some(Cap::Boxed(value)),
    }
}

/// The address of a place.
pub fn address_of(place: u64) -> u64
    requires { place < 2 ^ 60 }
    ensures { result ≡ 65536 + 8 * place }
{
    65536 + 8 * place
}

/// The address of a function.
pub fn function_address(function: u32) -> u64
    ensures { result ≡ 16 * (function + 1) }
{
    16 * (u64::from(function) + 1)
}
