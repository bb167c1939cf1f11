//! Why a token list has no expansion.

ghost use Rattle.std.specs.Prelude.{◌≡◌};
ghost use Rattle.c_preproc.specs.declared.fault.PreFault.TheVariants.{NoMemory};

use std::alloc::{AllocError, AllocFailed};
use thiserror::Error;

/// Why a token list was not expanded. A line is that of the `#` of the directive, of a `#` elsewhere,
/// or of the token that was being expanded.
#[derive(Clone, Copy, Debug, PartialEq, Eq, Error)]
pub enum PreFault {
    /// A directive that has none of the forms, a condition with no value, or a `#` elsewhere.
    #[error("bad directive at line {0}")]
    Directive(u32),
    /// A header that isn't there.
    #[error("unknown header at line {0}")]
    Header(u32),
    /// A part or an end without its `if`, a part after `else`, or an `if` without its end.
    #[error("unbalanced conditional at line {0}")]
    Unbalanced(u32),
    /// More than 4,194,304 tokens.
    #[error("too many tokens at line {0}")]
    Expanded(u32),
    /// No memory, or more bytes than a token can name. It says nothing else of the tokens.
    #[error("no memory")]
    NoMemory,
}

impl From<AllocError> for PreFault {
    ghost from_gives = { λ _ fault. fault ≡ NoMemory };

    fn from(_error: AllocError) -> PreFault {
        PreFault::NoMemory
    }
}

impl<T: Drop> From<AllocFailed<T>> for PreFault {
    ghost from_gives = { λ _ fault. fault ≡ NoMemory };

    fn from(_error: AllocFailed<T>) -> PreFault {
        PreFault::NoMemory
    }
}
