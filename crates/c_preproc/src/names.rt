//! Directives that define macros: `define` and `undef`.

ghost use Rattle.std.specs.Prelude.{◌≡◌, Ok, Err, MatchOption};
ghost use Rattle.std.specs.Option.{option_map};
ghost use Rattle.c_preproc.specs.Expansion.{define, has_parameters, hash_line, only_name, or_directive, undefine};
ghost use Rattle.c_preproc.specs.Macros.{macro_of};
ghost use Rattle.c_preproc.specs.Outcomes.{Gives, and_then};
ghost use Rattle.c_preproc.specs.Code.Seen.{seen};
ghost use Rattle.c_preproc.specs.Texts.{same_tokens, text_of};

use crate::fault::PreFault;
use crate::macros::Macros;
use crate::state::State;
use crate::texts::{are_same_tokens, is_name, is_punctuator, text_of};
use c_lexer::Token;
use std::alloc::Global;

/// Exactly one name.
pub fn only_name(tokens: &[Token]) -> Option<Token>
    ensures { result ≡ only_name tokens.now }
{
    match *tokens {
        [name] if is_name(name) => Some(name),
        _ => None,
    }
}

/// The line of the first `#`, which has no place in a macro's tokens.
fn hash_line(bytes: &[u8], tokens: &[Token]) -> Option<u32>
    ensures { result ≡ hash_line bytes.now tokens.now }
{
    for token in tokens {
        if is_punctuator(bytes, *token, b"#") {
            return Some(token.line);
        }
    }
    None
}

/// Whether a parenthesis stands directly behind the name, as of a macro with parameters.
fn has_parameters(bytes: &[u8], name: Token, tokens: &[Token]) -> bool
    ensures { result ≡ has_parameters bytes.now name tokens.now }
{
    match *tokens {
        [] => false,
        [token, ..] => is_punctuator(bytes, token, b"(") && token.start == name.end,
    }
}

/// Whether the macro of this name has these tokens, if there is one.
fn is_same_body(macros: &Macros, name: Token, body: &[Token]) -> Option<bool>
    ensures { let bytes = macros.now.bytes in
        result ≡ option_map
        (λ old. same_tokens bytes old.body body.now) (macro_of macros.now.macros (text_of bytes name)) }
{
    let bytes = macros.bytes();
    let old = macros.body_of(text_of(bytes, name))?;
    Some(are_same_tokens(bytes, old, body))
}

/// No `#`, or the fault of its line.
fn no_hash(hash: Option<u32>) -> Result<(), PreFault>
    ensures clean { MatchOption hash (result ≡ Ok tt) (λ at. result ≡ Err (PreFault.Directive at)) }
{
    match hash {
        Some(at) => Err(PreFault::Directive(at)),
        None => Ok(()),
    }
}

/// `define`: a second definition has the same tokens, and changes nothing.
pub fn define(alloc: Global, state: &mut State, line: u32, tokens: &[Token]) -> Result<(), PreFault>
    ensures { Gives (define line (seen state.old) tokens.now) (λ _. seen state.new) result }
{
    let Some((name, body)) = tokens.split_first() else {
        return Err(PreFault::Directive(line));
    };
    let bytes = state.macros.bytes();
    if !is_name(*name) || has_parameters(bytes, *name, body) {
        return Err(PreFault::Directive(line));
    }
    let hash = hash_line(bytes, body);
    match is_same_body(&state.macros, *name, body) {
        Some(true) => no_hash(hash),
        Some(false) => Err(PreFault::Directive(line)),
        None => {
            no_hash(hash)?;
            state.macros.define_name(alloc, *name, body)?;
            Ok(())
        }
    }
}

/// `undef`.
pub fn undefine(state: &mut State, line: u32, tokens: &[Token]) -> Result<(), PreFault>
    ensures { let old = seen state.old in
        Gives (and_then (or_directive line (only_name tokens.now)) (λ name. Ok (undefine old name)))
        (λ _. seen state.new) result }
{
    let Some(name) = only_name(tokens) else {
        return Err(PreFault::Directive(line));
    };
    state.macros.undefine(name);
    Ok(())
}
