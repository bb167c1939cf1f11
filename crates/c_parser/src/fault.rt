//! Why a token list has no tree.

use std::alloc::AllocError;
use thiserror::Error;

/// Why a token list was not parsed. The line is that of the refused token.
#[derive(Clone, Copy, Debug, PartialEq, Eq, Error)]
pub enum ParseFault {
    /// No tree spells the list; the tokens up to and with the first of this line begin none.
    #[error("syntax at line {0}")]
    Syntax(u32),
    /// More than 200 constructs are open at a token of this line.
    #[error("too deep at line {0}")]
    Deep(u32),
    /// No memory. It says nothing of the list.
    #[error("no memory")]
    NoMemory,
}

impl From<AllocError> for ParseFault {
    ghost use Rattle.std.specs.Prelude.{◌≡◌};
    ghost use Rattle.c_parser.specs.declared.fault.ParseFault.TheVariants.{NoMemory};

    ghost from_gives = { λ _ fault. fault ≡ NoMemory };

    fn from(_error: AllocError) -> ParseFault {
        ParseFault::NoMemory
    }
}
