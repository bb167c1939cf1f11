//! One directive after another: what each changes, and the tokens between them.

ghost use Rattle.std.specs.Prelude.{◌≡◌, [], Ok, List};
ghost use Rattle.c_preproc.specs.Directives.{blocks_of};
ghost use Rattle.c_preproc.specs.Expansion.{State as DefinedState, after_blocks, after_directive, after_token, carry_out, pass_over};
ghost use Rattle.c_preproc.specs.Outcomes.{Gives};
ghost use Rattle.c_preproc.specs.Code.Seen.{seen};

use crate::conditionals::{else_if, else_of, end_if, is_active, open_by_name, open_group, open_if};
use crate::directives::{DirectiveWord, directive_length, directive_word};
use crate::expansion::append_expansion;
use crate::fault::PreFault;
use crate::macros::Macros;
use crate::names::{define, undefine};
use crate::state::{Group, State};
use crate::texts::is_punctuator;
use c_lexer::{Token, TokenKind};
use std::alloc::Global;

/// A directive in an active group.
fn carry_out(
    alloc: Global,
    state: &mut State,
    line: u32,
    word: DirectiveWord,
    tokens: &[Token],
) -> Result<(), PreFault>
    ensures { Gives (carry_out line (seen state.old) word tokens.now)
        (λ _. seen state.new) result }
{
    match word {
        DirectiveWord::Nothing | DirectiveWord::Pragma => Ok(()),
        DirectiveWord::Include => Err(PreFault::Header(line)),
        DirectiveWord::Define => define(alloc, state, line, tokens),
        DirectiveWord::Undefine => undefine(state, line, tokens),
        DirectiveWord::If => open_if(alloc, state, line, tokens),
        DirectiveWord::IfDefined => open_by_name(true, state, line, tokens),
        DirectiveWord::IfUndefined => open_by_name(false, state, line, tokens),
        DirectiveWord::ElseIf => else_if(alloc, state, line, tokens),
        DirectiveWord::Else => else_of(state, line, tokens),
        DirectiveWord::EndIf => end_if(state, line, tokens),
        DirectiveWord::Unknown => Err(PreFault::Directive(line)),
    }
}

/// A directive in a group that isn't active: only nesting counts.
fn pass_over(
    alloc: Global,
    state: &mut State,
    line: u32,
    word: DirectiveWord,
    tokens: &[Token],
) -> Result<(), PreFault>
    ensures { Gives (pass_over line (seen state.old) word tokens.now)
        (λ _. seen state.new) result }
{
    match word {
        DirectiveWord::If | DirectiveWord::IfDefined | DirectiveWord::IfUndefined => {
            open_group(state, Group::Outside)?;
            Ok(())
        }
        DirectiveWord::ElseIf => else_if(alloc, state, line, tokens),
        DirectiveWord::Else => else_of(state, line, tokens),
        DirectiveWord::EndIf => end_if(state, line, tokens),
        _ => Ok(()),
    }
}

/// The directive of this line, which has these tokens behind its `#`.
fn after_directive(
    alloc: Global,
    state: &mut State,
    line: u32,
    tokens: &[Token],
) -> Result<(), PreFault>
    ensures { Gives (after_directive line (seen state.old) tokens.now)
        (λ _. seen state.new) result }
{
    let word = directive_word(state.macros.bytes(), tokens);
    let (_, behind) = tokens.split_at(tokens.len().min(1));
    if is_active(&state.groups) {
        carry_out(alloc, state, line, word, behind)
    } else {
        pass_over(alloc, state, line, word, behind)
    }
}

/// A token that is no part of a directive: appends what it expands to, if it is in an active group.
fn after_token(state: &mut State, token: Token) -> Result<(), PreFault>
    ensures { Gives (after_token (seen state.old) token) (λ _. seen state.new) result }
{
    if !is_active(&state.groups) && !matches!(token.kind, TokenKind::End) {
        return Ok(());
    }
    if is_punctuator(state.macros.bytes(), token, b"#") {
        return Err(PreFault::Directive(token.line));
    }
    append_expansion(&mut state.macros, token, &mut state.out)
}

/// Carries out the directives of a token list and expands its other tokens, up to the first fault. Another
/// list would go on with the state that is left.
fn carry_tokens(alloc: Global, state: &mut State, tokens: &[Token]) -> Result<(), PreFault>
    ensures { let old = seen state.old in
        Gives (after_blocks old (blocks_of old.definitions.bytes 0 tokens.now))
        (λ _. seen state.new) result }
{
    let mut rest = tokens;
    while let Some((token, behind)) = rest.split_first() {
        match directive_length(state.macros.bytes(), *token, behind) {
            None => {
                after_token(state, *token)?;
                rest = behind;
            }
            Some(count) => {
                let (line, after) = behind.split_at(count);
                after_directive(alloc, state, token.line, line)?;
                rest = after;
            }
        }
    }
    Ok(())
}

/// The state when a whole list is carried out, or the first fault that isn't one of balance.
pub fn carry(alloc: Global, macros: Macros, tokens: &[Token]) -> Result<State, PreFault>
    ensures { let first : DefinedState = record { definitions = macros; groups = []; out = [] } in
        Gives (after_blocks first (blocks_of macros.bytes 0 tokens.now)) seen result }
{
    let mut state = State {
        macros,
        groups: Vec::new(alloc),
        out: Vec::new(alloc),
    };
    carry_tokens(alloc, &mut state, tokens)?;
    Ok(state)
}
