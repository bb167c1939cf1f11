//! Why a list of tokens is refused, and where.

ghost use Rattle.std.specs.Prelude.{◌≡◌};
ghost use Rattle.c_expr_parser.specs.Refusals as spec;

use c_cursor::Fault;

/// Why a list of tokens is no expression, with the number of the token that is refused.
#[derive(Clone, Copy, Debug, PartialEq, Eq, Drop)]
pub enum Refusal {
    /// The tokens up to and with this one begin no expression.
    Syntax(usize),
    /// More constructs are open at this token than may be.
    Deep(usize),
    /// It says nothing of the list.
    NoMemory,
}

/// The refusal of a fault, at the token of this number.
pub fn refusal_at(fault: Fault, place: usize) -> Refusal
    ensures { result ≡ spec.refusal_of fault place }
{
    match fault {
        Fault::Syntax => Refusal::Syntax(place),
        Fault::Deep => Refusal::Deep(place),
        Fault::NoMemory => Refusal::NoMemory,
    }
}
