//! What a file expands to, as a text.

use anyhow::{Context, Result};
use c_lexer::{Tokens, lex};
use c_preproc::{PreFault, preprocess};
use std::alloc::{AllocError, Global};

/// A text of a row, in which a backslash and a letter stand for one character.
pub fn unescaped(alloc: Global, text: &str) -> Result<String, AllocError> {
    let mut out = String::new(alloc);
    let mut is_escaped = false;
    for letter in text.chars() {
        if is_escaped {
            is_escaped = false;
            out.push(match letter {
                'n' => '\n',
                't' => '\t',
                other => other,
            })?;
        } else if letter == '\\' {
            is_escaped = true;
        } else {
            out.push(letter)?;
        }
    }
    Ok(out)
}

/// The line and the text of each token but the End.
fn shown(alloc: Global, tokens: &Tokens) -> Result<String, AllocError> {
    let mut out = String::new(alloc);
    for token in &tokens.list {
        let text = tokens
            .bytes
            .get(token.start as usize..token.end as usize)
            .unwrap_or(&[]);
        if !text.is_empty() {
            let line = token.line;
            write!(out, " {line}:")?;
        }
        for b in text {
            out.push(char::from(*b))?;
        }
    }
    Ok(out)
}

/// What a file expands to, or its fault.
pub fn file_answer(alloc: Global, file: &str) -> Result<String> {
    let tokens = lex(alloc, file.as_bytes()).context("no tokens")?;
    let answer = match preprocess(alloc, &tokens) {
        Ok(expanded) => shown(alloc, &expanded)?,
        Err(fault) => format!(in alloc; " {fault:?}")?,
    };
    Ok(answer)
}

/// A fault on line 3 as it is printed.
pub fn fault_answer(alloc: Global, kind: &str) -> Result<String> {
    let fault = match kind {
        "Directive" => PreFault::Directive(3),
        "Header" => PreFault::Header(3),
        "Unbalanced" => PreFault::Unbalanced(3),
        _ => PreFault::Expanded(3),
    };
    Ok(format!(in alloc; " {fault}")?)
}
