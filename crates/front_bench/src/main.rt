//! Carries a file to its parser so many times, and prints how many tokens the grammar sees then:
//! what `bench/front` measures.
#![tactic(auto)]

use anyhow::{Context, Result};
use c_front::{FrontFault, expanded_tokens};
use c_parts::Lexeme;
use c_terminals::lexemes;
use std::alloc::Global;
use std::{env, fs};

/// The tokens of a file as the grammar sees them.
fn seen(alloc: Global, file: &[u8]) -> Result<Vec<Lexeme>> {
    let tokens = match expanded_tokens(alloc, file) {
        Ok(tokens) => tokens,
        Err(FrontFault::Refused(refusal)) => anyhow::bail!("{refusal}"),
        Err(FrontFault::NoMemory) => anyhow::bail!("no memory"),
    };
    Ok(lexemes(alloc, &tokens)?)
}

fn main(rt: HostRuntime) -> Result<()> {
    let mut words = env::args(&rt)?;
    let _program = words.next();
    let path = words.next().context("no file is named")?;
    let passes = words.next().context("no number of passes")?;
    let passes: u32 = passes.as_str().parse().context("the passes are no number")?;
    let file = fs::read(&rt, path.as_str())?;
    let mut count = 0;
    for _ in 0..passes {
        count = seen(rt.alloc(), &file)?.len();
    }
    println!(rt; "{count} tokens")?;
    Ok(())
}
