//! Why a file has no program.

ghost use Rattle.std.specs.Prelude.{◌≡◌};
ghost use Rattle.c_rules.specs.declared.fault.CheckFault.TheVariants.{NoMemory};

use crate::rule::Rule;
use std::alloc::{AllocError, AllocFailed};
use thiserror::Error;

/// Why a file that the grammar takes has no program. A line is counted from 1, and is that of the first token of
/// the construct that breaks the rule. Where a whole file breaks one, the rule says which line it has.
#[derive(Clone, Copy, Debug, PartialEq, Eq, Error)]
pub enum CheckFault {
    /// A construct breaks this rule.
    #[error("{rule} at line {line}")]
    Rule { line: u32, rule: Rule },
    /// No memory. It says nothing of the file.
    #[error("no memory")]
    NoMemory,
}

impl From<AllocError> for CheckFault {
    ghost from_gives = { λ _ fault. fault ≡ NoMemory };

    fn from(_error: AllocError) -> CheckFault {
        CheckFault::NoMemory
    }
}

impl<T: Drop> From<AllocFailed<T>> for CheckFault {
    ghost from_gives = { λ _ fault. fault ≡ NoMemory };

    fn from(_error: AllocFailed<T>) -> CheckFault {
        CheckFault::NoMemory
    }
}
