//! Arrays whose size isn't said.

ghost use Rattle.std.specs.Prelude.{◌≡◌};
ghost use Rattle.c_declarators.specs.Outermost.{ends_open, with_outermost};

use c_types::{Derivation, ElementCount};

/// Whether what derivations make last is an array whose size isn't said.
pub fn ends_open(derivations: &[Derivation]) -> bool
    ensures { result ≡ ends_open derivations.now }
{
    matches!(derivations.last(), Some(Derivation::OpenArray))
}

/// Says how many elements the array has that derivations make last, where they don't.
pub fn complete_outermost(derivations: &mut [Derivation], count: ElementCount)
    ensures { derivations.new ≡ with_outermost count derivations.old }
{
    if ends_open(derivations) {
        let last = derivations.len() - 1;
        derivations[last] = Derivation::Array(count);
    }
}
