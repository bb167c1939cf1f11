//! The whole: a file's tokens and its tree, to the parts of the program that it is, or the first
//! rule that it breaks.
//!
//! Which locals have their address taken and how functions' types are numbered decides of trees,
//! and only a file's end tells it. So a file is read twice, as the definition reads it: the first
//! time no local has its address taken and each type has its own number, and the second time by
//! what the first one tells.

ghost use Rattle.std.specs.Prelude.{◌≡◌, map, IfOk, IfErr};
ghost use Rattle.c_check.specs.Answers.{IsChecked, IsRefusal};
ghost use Rattle.c_check.specs.Rounds.{tokens_of};
ghost use Rattle.c_check.specs.Tokens.{plain_tokens};

use crate::known::known_at;
use crate::reading::read;
use crate::tokens::library_of;
use c_file_rules::Made;
use c_lexer::Tokens;
use c_names::{Kinds, facts_of};
use c_objects::statics_of;
use c_rules::CheckFault;
use c_syntax::File;
use c_tree::FunctionDef;
use filc_num::StaticDef;
use std::alloc::{AllocError, Global};

/// A file that breaks no rule: the parts of its program.
#[derive(Drop)]
pub struct CheckedFile {
    /// The functions with bodies, each at its number.
    pub functions: Vec<FunctionDef>,
    /// The static objects, each at its number.
    pub statics: Vec<StaticDef>,
    /// The number of `main`.
    pub main: u32,
}

/// The functions alone.
fn functions_of(alloc: Global, made: Vec<Made>) -> Result<Vec<FunctionDef>, AllocError>
    ensures { IfOk result (λ list. list.items ≡ map (λ m. m.function) made.items) }
{
    made.into_iter().map(|one| one.function).collect(alloc)
}

/// The parts of the program that a file is (C11 6.7 to 6.9), or the first rule that it breaks,
/// with the line of the first token of the construct that breaks it.
///
/// Constructs come in the order of their last tokens, the inner one first, and the rules of the
/// whole file behind them. Of several rules that one construct breaks the one with the lowest
/// number decides.
pub fn check(alloc: Global, tokens: &Tokens, file: &File) -> Result<CheckedFile, CheckFault>
    ensures checked { IfOk result
        (IsChecked (tokens_of (plain_tokens tokens.now)) file.now) }
    ensures refused { IfErr result
        (IsRefusal (tokens_of (plain_tokens tokens.now)) file.now) }
{
    let library = library_of(alloc, tokens)?;
    let mut facts = facts_of(alloc, file, library, Kinds::Own)?;
    let mut first = read(&mut facts, tokens, file, &[])?;
    let known = known_at(alloc, &mut first.state, first.functions.as_slice())?;
    facts.kinds = Kinds::Listed(known.kinds);
    let homes = known.homes.as_slice();
    let last = read(&mut facts, tokens, file, homes)?;
    let statics = statics_of(alloc, &last.state)?;
    let functions = functions_of(alloc, last.functions)?;
    Ok(CheckedFile {
        functions,
        statics,
        main: last.main,
    })
}
