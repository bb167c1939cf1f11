//! The front end of the whole language, and the texts that are made of a file: of `check` that it is a program, of
//! `code` the listing of its code.

ghost use Rattle.std.specs.Prelude.{◌≡◌, [], IfOk, IfErr};
ghost use Rattle.filc_top.specs.Checking.{HasProgram, IsTextOfCheck};
ghost use Rattle.filc_top.specs.Coding.{HasListing};
ghost use Rattle.filc_top.specs.Steps.{EndsLooking, EndsCheck, EndsCode};

use crate::ending::Ending;
use c_check::check;
use c_front::expanded_tokens;
use c_parser::parse;
use c_tree::Program;
use checked_program::program;
use std::alloc::Global;
use stmt_emit::compile;
use whole_code::listing;

/// The phases of the front end: the program of the language that a file is.
fn program_of_language(alloc: Global, file: &[u8]) -> Result<Program, Ending>
    ensures program { IfOk result (HasProgram file.now) }
    ensures ended { IfErr result (EndsLooking file.now) }
{
    let tokens = expanded_tokens(alloc, file)?;
    let tree = parse(alloc, &tokens)?;
    let checked = check(alloc, &tokens, &tree)?;
    let program = program(alloc, checked)?;
    Ok(program)
}

/// What `check` writes of a file that is a program.
fn text_of_check(alloc: Global, file: &[u8]) -> Result<Vec<u8>, Ending>
    ensures text { IfOk result (λ text. IsTextOfCheck file.now text.items) }
    ensures ended { IfErr result (EndsLooking file.now) }
{
    let _program = program_of_language(alloc, file)?;
    let text = Vec::from_slice(alloc, b"accepted\n")?;
    Ok(text)
}

/// What `code` writes of a file that is a program: the listing of its code.
fn text_of_code(alloc: Global, file: &[u8]) -> Result<Vec<u8>, Ending>
    ensures text { IfOk result (λ text. HasListing file.now text.items) }
    ensures ended { IfErr result (EndsLooking file.now) }
{
    let program = program_of_language(alloc, file)?;
    let code = compile(alloc, &program)?;
    let text = listing(alloc, &code)?;
    Ok(text)
}

/// How checking a file ends. Where it is a program, that is put out.
pub fn check_of_file(alloc: Global, file: &[u8], output: &mut Vec<u8>) -> Ending
    requires { output.old.items ≡ [] }
    ensures { EndsCheck file.now result output.new.items }
{
    match text_of_check(alloc, file) {
        Ok(text) => {
            *output = text;
            Ending::Listed
        }
        Err(cause) => cause,
    }
}

/// How listing a file's code ends. Where it is a program, the listing is put out.
pub fn code_of_file(alloc: Global, file: &[u8], output: &mut Vec<u8>) -> Ending
    requires { output.old.items ≡ [] }
    ensures { EndsCode file.now result output.new.items }
{
    match text_of_code(alloc, file) {
        Ok(text) => {
            *output = text;
            Ending::Listed
        }
        Err(cause) => cause,
    }
}
