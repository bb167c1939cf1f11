//! What is answered of a file, as a text.

use c_check::check;
use c_front::{FrontFault, expanded_tokens};
use c_parser::{ParseFault, parse};
use c_rules::{CheckFault, Refusal};
use c_tree::Program;
use checked_program::{Unfit, program};
use std::alloc::{AllocError, Global};
use std::str::from_utf8;
use stmt_emit::compile;
use thiserror::Error;
use whole_code::listing;

/// Why a file has no program.
#[derive(Clone, Copy, Debug, Error)]
enum Fault {
    #[error("{0}")]
    Front(Refusal),
    #[error("{0}")]
    Parse(ParseFault),
    #[error("{0}")]
    Check(CheckFault),
    #[error("{0}")]
    Unfit(Unfit),
    #[error("no memory")]
    NoMemory,
}

impl From<FrontFault> for Fault {
    fn from(fault: FrontFault) -> Fault {
        match fault {
            FrontFault::Refused(refusal) => Fault::Front(refusal),
            FrontFault::NoMemory => Fault::NoMemory,
        }
    }
}

impl From<ParseFault> for Fault {
    fn from(fault: ParseFault) -> Fault {
        Fault::Parse(fault)
    }
}

impl From<CheckFault> for Fault {
    fn from(fault: CheckFault) -> Fault {
        Fault::Check(fault)
    }
}

impl From<Unfit> for Fault {
    fn from(fault: Unfit) -> Fault {
        Fault::Unfit(fault)
    }
}

/// The program that a file is.
fn program_of(alloc: Global, file: &[u8]) -> Result<Program, Fault> {
    let tokens = expanded_tokens(alloc, file)?;
    let tree = parse(alloc, &tokens)?;
    let checked = check(alloc, &tokens, &tree)?;
    let program = program(alloc, checked)?;
    Ok(program)
}

/// `accepted`, or the text and the line of the refusal.
pub fn file_answer(alloc: Global, file: &[u8]) -> Result<String, AllocError> {
    match program_of(alloc, file) {
        Ok(_) => format!(in alloc; "accepted"),
        Err(fault) => format!(in alloc; "{fault}"),
    }
}

/// The listing of a program's code, each line of it on a line of its own.
fn listing_of(alloc: Global, program: &Program) -> Result<String, AllocError> {
    let code = compile(alloc, program)?;
    let text = listing(alloc, &code)?;
    let mut out = format!(in alloc; "code")?;
    match from_utf8(text.as_slice()) {
        Ok(text) => {
            for line in text.lines() {
                out.push_str("\n  ")?;
                out.push_str(line)?;
            }
        }
        Err(_) => out.push_str("no text")?,
    }
    Ok(out)
}

/// The listing of a file's code, or the text and the line of the file's refusal.
pub fn listing_answer(alloc: Global, file: &[u8]) -> Result<String, AllocError> {
    match program_of(alloc, file) {
        Ok(program) => listing_of(alloc, &program),
        Err(fault) => format!(in alloc; "{fault}"),
    }
}
