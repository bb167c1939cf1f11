//! Conditions: each `defined` decided, macros expanded in what is left, and the value of that.

ghost use Rattle.std.specs.Prelude.{◌≡◌, ◌≤◌, ◌<◌, ◌^◌, length, IfSome};
ghost use Rattle.c_preproc.specs.Expansion.{operand_of_defined, condition_of, decided_of, or_directive, truth_token};
ghost use Rattle.c_preproc.specs.Outcomes.{Gives};

use crate::condition_reader::holds;
use crate::expansion::append_expansions;
use crate::fault::PreFault;
use crate::macros::Macros;
use crate::texts::{is_name, is_punctuator, is_word};
use c_lexer::{Token, TokenKind};
use std::alloc::Global;

/// The name that `defined` asks for, and the number of tokens behind `defined` that do so.
fn operand_of_defined(bytes: &[u8], tokens: &[Token]) -> Option<(Token, usize)>
    ensures value { result ≡ operand_of_defined bytes.now tokens.now }
    ensures within { IfSome result (λ a. a.1 ≤ length tokens.now) }
{
    match *tokens {
        [name, ..] if is_name(name) => Some((name, 1)),
        [left, name, right, ..]
            if is_punctuator(bytes, left, b"(")
                && is_name(name)
                && is_punctuator(bytes, right, b")") => { Some((name, 3)) }
        _ => None,
    }
}

/// The number that a `defined` stands for: one of the last two bytes, a 1 and a 0.
fn truth_token(bytes: &[u8], holds: bool, token: Token) -> Token
    requires digits { 2 ≤ length bytes.now }
    requires small { length bytes.now < 2 ^ 32 }
    ensures { result ≡ truth_token bytes.now holds token }
{
    let back = if holds { 2 } else { 1 };
    let start = (bytes.len() - back) as u32;
    Token {
        kind: TokenKind::Number,
        start,
        end: start + 1,
        ..token
    }
}

/// The tokens of a condition, with each `defined` decided.
fn decide(
    alloc: Global,
    macros: &Macros,
    line: u32,
    tokens: &[Token],
) -> Result<Vec<Token>, PreFault>
    ensures { Gives (or_directive line (decided_of macros.now 0 tokens.now))
        (λ decided. decided.items) result }
{
    let bytes = macros.bytes();
    let mut decided = Vec::new(alloc);
    let mut rest = tokens;
    while let Some((token, behind)) = rest.split_first() {
        if !is_word(bytes, *token, b"defined") {
            decided.push(*token)?;
            rest = behind;
            continue;
        }
        let Some((name, count)) = operand_of_defined(bytes, behind) else {
            return Err(PreFault::Directive(line));
        };
        decided.push(truth_token(bytes, macros.is_defined(name), *token))?;
        let (_, after) = behind.split_at(count);
        rest = after;
    }
    Ok(decided)
}

/// Whether a condition holds.
pub fn condition_of(
    alloc: Global,
    macros: &mut Macros,
    line: u32,
    tokens: &[Token],
) -> Result<bool, PreFault>
    ensures same { macros.new ≡ macros.old }
    ensures holds { Gives (condition_of macros.old line tokens.now) (λ holds. holds) result }
{
    let decided = decide(alloc, macros, line, tokens)?;
    let mut expanded = Vec::new(alloc);
    append_expansions(macros, &decided, &mut expanded)?;
    match holds(alloc, macros.bytes(), &expanded)? {
        Some(holds) => Ok(holds),
        None => Err(PreFault::Directive(line)),
    }
}
