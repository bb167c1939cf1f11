//! How a call ends: the endings with their statuses, and the line that each writes to standard error.

ghost use Rattle.std.specs.Prelude.{◌≡◌};
ghost use Rattle.filc_top.specs.Endings.{status_of};

use c_front::FrontFault;
use c_parser::ParseFault;
use c_rules::{CheckFault, Refusal, RefusalKind};
use checked_program::Unfit;
use filc_num::Reason;
use std::alloc::AllocError;

/// How a call of `filc` ended.
#[derive(Clone, Copy, Debug, PartialEq, Eq)]
pub enum Ending {
    /// The program ended with this status: the low byte of what `main` returned.
    Exited(u8),
    /// A command that runs nothing wrote its text.
    Listed,
    /// The file is refused.
    Refused(Refusal),
    /// The program was stopped for this reason, at this line.
    Trapped(Reason, u32),
    /// Each thread waits for another.
    Deadlock,
    /// The turns are made, and the program has not ended.
    Spent,
    /// The input is longer than it may be.
    InputLimit,
    /// A file or the input was not read.
    ReadFault,
    /// The output or the line was not written whole.
    WriteFault,
    /// The words are no command.
    Usage,
    /// There was no memory. It says nothing of the file.
    NoMemory,
}

impl From<AllocError> for Ending {
    ghost use Rattle.filc_top.specs.declared.ending.Ending.TheVariants.{NoMemory};

    ghost from_gives = { λ _ ending. ending ≡ NoMemory };

    fn from(_error: AllocError) -> Ending {
        Ending::NoMemory
    }
}

impl From<FrontFault> for Ending {
    ghost use Rattle.filc_top.specs.Endings.{of_front};

    ghost from_gives = { λ fault ending. ending ≡ of_front fault };

    fn from(fault: FrontFault) -> Ending {
        match fault {
            FrontFault::Refused(refusal) => Ending::Refused(refusal),
            FrontFault::NoMemory => Ending::NoMemory,
        }
    }
}

impl From<ParseFault> for Ending {
    ghost use Rattle.filc_top.specs.Endings.{of_parser};

    ghost from_gives = { λ fault ending. ending ≡ of_parser fault };

    fn from(fault: ParseFault) -> Ending {
        match fault {
            ParseFault::Syntax(line) => Ending::Refused(Refusal {
                kind: RefusalKind::Syntax,
                line,
            }),
            ParseFault::Deep(line) => Ending::Refused(Refusal {
                kind: RefusalKind::Deep,
                line,
            }),
            ParseFault::NoMemory => Ending::NoMemory,
        }
    }
}

impl From<CheckFault> for Ending {
    ghost use Rattle.filc_top.specs.Endings.{of_checker};

    ghost from_gives = { λ fault ending. ending ≡ of_checker fault };

    fn from(fault: CheckFault) -> Ending {
        match fault {
            CheckFault::Rule { line, rule } => Ending::Refused(Refusal {
                kind: RefusalKind::Rule(rule),
                line,
            }),
            CheckFault::NoMemory => Ending::NoMemory,
        }
    }
}

impl From<Unfit> for Ending {
    ghost use Rattle.filc_top.specs.Endings.{of_unfit};

    ghost from_gives = { λ unfit ending. ending ≡ of_unfit unfit };

    fn from(unfit: Unfit) -> Ending {
        match unfit {
            Unfit::Parts => Ending::Refused(UNFIT),
            Unfit::NoMemory => Ending::NoMemory,
        }
    }
}

/// The refusal of a file that breaks no rule, and of which no program is made. No file is known to have it.
pub const UNFIT: Refusal = Refusal {
    kind: RefusalKind::Unfit,
    line: 1,
};

/// The refusal of a file that `run` does not run yet.
pub const NOT_BUILT: Refusal = Refusal {
    kind: RefusalKind::NotBuilt,
    line: 1,
};

/// The status with which the program ends.
pub fn status_of(ending: &Ending) -> u8
    ensures { result ≡ status_of ending.now }
{
    match ending {
        Ending::Exited(status) => *status,
        Ending::Listed => 0,
        Ending::Usage => 64,
        Ending::ReadFault => 65,
        Ending::WriteFault => 66,
        Ending::NoMemory => 67,
        Ending::Refused(_) => 68,
        Ending::InputLimit => 69,
        Ending::Trapped(_, _) => 70,
        Ending::Deadlock => 71,
        Ending::Spent => 72,
    }
}
