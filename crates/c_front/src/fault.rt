//! Why the front end gives no tokens.

ghost use Rattle.std.specs.Prelude.{◌≡◌};
ghost use Rattle.c_front.specs.Phases.{of_lexer, of_preprocessor};

use c_lexer::LexFault;
use c_preproc::PreFault;
use c_rules::{Refusal, RefusalKind};

/// Why a file was not carried to its parser.
#[derive(Clone, Copy, Debug, PartialEq, Eq, Drop)]
pub enum FrontFault {
    /// The file is refused.
    Refused(Refusal),
    /// No memory. It says nothing of the file.
    NoMemory,
}

fn refusal(kind: RefusalKind, line: u32) -> FrontFault
    ensures { result ≡ FrontFault.Refused (record { kind = kind; line = line }) }
{
    FrontFault::Refused(Refusal { kind, line })
}

impl From<LexFault> for FrontFault {
    ghost from_gives = { λ fault front. front ≡ of_lexer fault };

    fn from(fault: LexFault) -> FrontFault {
        match fault {
            LexFault::Bad(line) => refusal(RefusalKind::Bad, line),
            LexFault::Unclosed(line) => refusal(RefusalKind::Unclosed, line),
            LexFault::Literal(line) => refusal(RefusalKind::Literal, line),
            LexFault::TooLong => refusal(RefusalKind::TooLong, 1),
            LexFault::NoMemory => FrontFault::NoMemory,
        }
    }
}

impl From<PreFault> for FrontFault {
    ghost from_gives = { λ fault front. front ≡ of_preprocessor fault };

    fn from(fault: PreFault) -> FrontFault {
        match fault {
            PreFault::Directive(line) => refusal(RefusalKind::Directive, line),
            PreFault::Header(line) => refusal(RefusalKind::Header, line),
            PreFault::Unbalanced(line) => refusal(RefusalKind::Unbalanced, line),
            PreFault::Expanded(line) => refusal(RefusalKind::Expanded, line),
            PreFault::NoMemory => FrontFault::NoMemory,
        }
    }
}
