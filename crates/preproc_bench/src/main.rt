//! Expands a file's tokens so many times, and prints how many there are then: what `bench/preprocess`
//! measures. With `list` in place of a number it prints the text of each token on a line of its own.
#![tactic(auto)]

use anyhow::{Context, Result};
use c_lexer::{Token, Tokens};
use std::alloc::{AllocError, Global};
use std::{env, fs};

fn expand(alloc: Global, tokens: &Tokens) -> Result<Tokens> {
    match c_preproc::preprocess(alloc, tokens) {
        Ok(expanded) => Ok(expanded),
        Err(fault) => anyhow::bail!("{fault}"),
    }
}

fn text_of(alloc: Global, tokens: &Tokens, token: &Token) -> Result<String, AllocError> {
    let mut text = String::new(alloc);
    let bytes = tokens.bytes.get(token.start as usize..token.end as usize);
    for b in bytes.unwrap_or(&[]) {
        text.push(char::from(*b))?;
    }
    Ok(text)
}

fn main(rt: HostRuntime) -> Result<()> {
    let mut words = env::args(&rt)?;
    let _program = words.next();
    let path = words.next().context("no file is named")?;
    let passes = words.next().context("no number of passes")?;
    let file = fs::read(&rt, path.as_str())?;
    let tokens = match c_lexer::lex(rt.alloc(), &file) {
        Ok(tokens) => tokens,
        Err(fault) => anyhow::bail!("{fault}"),
    };
    if passes.as_str() == "list" {
        let expanded = expand(rt.alloc(), &tokens)?;
        for token in &expanded.list {
            let text = text_of(rt.alloc(), &expanded, token)?;
            println!(rt; "{text}")?;
        }
        return Ok(());
    }
    let passes: u32 = passes.as_str().parse().context("the passes are no number")?;
    let mut count = 0;
    for _ in 0..passes {
        count = expand(rt.alloc(), &tokens)?.list.len();
    }
    println!(rt; "{count} tokens")?;
    Ok(())
}
