//! The phases before the parser.

ghost use Rattle.std.specs.Prelude.{◌≡◌, ◌≢◌, Err, IfErr, IfOk, Ok};
ghost use Rattle.c_lexer.specs.Source.{without_splices};
ghost use Rattle.c_preproc.specs.Expansion.{with_digits};
ghost use Rattle.c_front.specs.Phases.{expanded_tokens_of};

use crate::fault::FrontFault;
use c_lexer::{Tokens, lex};
use c_preproc::preprocess;
use std::alloc::Global;

/// The tokens of a file, with its directives carried out and its macros expanded.
///
/// A refusal has the kind and the line of the fault of the first phase that has one; that of a file
/// that is too long has line 1.
pub fn expanded_tokens(alloc: Global, file: &[u8]) -> Result<Tokens, FrontFault>
    ensures list { IfOk result (λ tokens. expanded_tokens_of file.now ≡ Ok tokens.list.items) }
    ensures bytes { IfOk result (λ tokens.
        tokens.bytes.items ≡ with_digits (without_splices file.now)) }
    ensures fault { IfErr result (λ fault. fault ≢ FrontFault.NoMemory
        → expanded_tokens_of file.now ≡ Err fault) }
{
    let tokens = lex(alloc, file)?;
    let expanded = preprocess(alloc, &tokens)?;
    Ok(expanded)
}
