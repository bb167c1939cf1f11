//! Why a declaration says nothing.

ghost use Rattle.std.specs.Prelude.{◌≡◌};
ghost use Rattle.c_declarations.specs.declared.fault.DeclarationFault.TheVariants.{NoMemory};

use c_rules::Rule;
use std::alloc::{AllocError, AllocFailed};
use thiserror::Error;

/// Why specifiers or a declarator say nothing.
#[derive(Clone, Copy, Debug, PartialEq, Eq, Error)]
pub enum DeclarationFault {
    /// The construct breaks this rule, and none with a lower number.
    #[error("{0}")]
    Broken(Rule),
    #[error("no memory")]
    NoMemory,
}

impl From<AllocError> for DeclarationFault {
    ghost from_gives = { λ _ fault. fault ≡ NoMemory };

    fn from(_error: AllocError) -> DeclarationFault {
        DeclarationFault::NoMemory
    }
}

impl<T: Drop> From<AllocFailed<T>> for DeclarationFault {
    ghost from_gives = { λ _ fault. fault ≡ NoMemory };

    fn from(_error: AllocFailed<T>) -> DeclarationFault {
        DeclarationFault::NoMemory
    }
}
