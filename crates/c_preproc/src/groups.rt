//! Conditional groups, by nesting alone.

ghost use Rattle.std.specs.Prelude.{◌≡◌, [], IfOk, OnOk, reverse};
ghost use Rattle.c_preproc.specs.Directives.{blocks_of};
ghost use Rattle.c_preproc.specs.Groups.{earlier, fault_line, opens_after, outermost, step_of, step_of_part, unbalanced_line, with_else, with_if};

use crate::directives::{DirectiveWord, directive_length, directive_word};
use c_lexer::Token;
use std::alloc::{AllocError, Global};

/// An `if` that is open: its line, and whether its `else` came.
#[derive(Clone, Copy)]
pub struct Open {
    pub line: u32,
    pub has_else: bool,
}

/// What a directive means for the balance: nothing, a fault on its line, or a fault behind which
/// nothing counts, since no `if` is opened.
#[derive(Clone, Copy)]
pub enum Step {
    Balanced,
    Misplaced,
    Alone,
}

fn earlier(a: Option<u32>, b: Option<u32>) -> Option<u32>
    ensures { result ≡ earlier a b }
{
    match (a, b) {
        (Some(a), Some(b)) => Some(a.min(b)),
        (Some(a), None) => Some(a),
        (None, b) => b,
    }
}

/// The line of the outermost `if` that has no end.
fn outermost(opens: &[Open]) -> Option<u32>
    ensures { result ≡ outermost (reverse opens.now) }
{
    match opens.first() {
        None => None,
        Some(first) => Some(first.line),
    }
}

/// A part of the innermost `if`: misplaced behind its `else`.
fn step_of_part(opens: &[Open]) -> Step
    ensures { result ≡ step_of_part (reverse opens.now) }
{
    match opens.last() {
        None => Step::Alone,
        Some(innermost) if innermost.has_else => Step::Misplaced,
        Some(_) => Step::Balanced,
    }
}

/// What a directive means for the open `if`s, innermost last.
fn step_of(word: DirectiveWord, opens: &[Open]) -> Step
    ensures { result ≡ step_of word (reverse opens.now) }
{
    match word {
        DirectiveWord::ElseIf | DirectiveWord::Else => step_of_part(opens),
        DirectiveWord::EndIf if opens.is_empty() => Step::Alone,
        _ => Step::Balanced,
    }
}

/// The line of a directive that is out of place.
fn fault_line(step: Step, line: u32) -> Option<u32>
    ensures { result ≡ fault_line step line }
{
    match step {
        Step::Balanced => None,
        Step::Misplaced | Step::Alone => Some(line),
    }
}

fn open_if(opens: &mut Vec<Open>, line: u32) -> Result<(), AllocError>
    ensures { OnOk result (reverse opens.new.items ≡ with_if line (reverse opens.old.items)) }
{
    opens.push(Open {
        line,
        has_else: false,
    })?;
    Ok(())
}

fn add_else(opens: &mut Vec<Open>) -> Result<(), AllocError>
    ensures { OnOk result (reverse opens.new.items ≡ with_else (reverse opens.old.items)) }
{
    if let Some(innermost) = opens.pop() {
        opens.push(Open {
            line: innermost.line,
            has_else: true,
        })?;
    }
    Ok(())
}

/// Opens and ends `if`s as a directive does.
fn nest(opens: &mut Vec<Open>, word: DirectiveWord, line: u32) -> Result<(), AllocError>
    ensures { OnOk result
        (reverse opens.new.items ≡ opens_after line word (reverse opens.old.items)) }
{
    match word {
        DirectiveWord::If | DirectiveWord::IfDefined | DirectiveWord::IfUndefined => {
            open_if(opens, line)
        }
        DirectiveWord::Else => add_else(opens),
        DirectiveWord::EndIf => {
            let _ = opens.pop();
            Ok(())
        }
        _ => Ok(()),
    }
}

/// The first line that is out of balance.
pub fn unbalanced_line(
    alloc: Global,
    bytes: &[u8],
    tokens: &[Token],
) -> Result<Option<u32>, AllocError>
    ensures { IfOk result (λ line. line
        ≡ unbalanced_line bytes.now [] (blocks_of bytes.now 0 tokens.now)) }
{
    let mut opens = Vec::new(alloc);
    let mut least = None;
    let mut rest = tokens;
    while let Some((hash, behind)) = rest.split_first() {
        let Some(count) = directive_length(bytes, *hash, behind) else {
            rest = behind;
            continue;
        };
        let (line, after) = behind.split_at(count);
        let word = directive_word(bytes, line);
        let step = step_of(word, &opens);
        least = earlier(least, fault_line(step, hash.line));
        if let Step::Alone = step {
            return Ok(least);
        }
        nest(&mut opens, word, hash.line)?;
        rest = after;
    }
    Ok(earlier(least, outermost(&opens)))
}
