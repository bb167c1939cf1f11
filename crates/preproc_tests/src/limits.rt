//! Lists that are as long as a list may be, and files of a megabyte.

use crate::answers::file_answer;
use anyhow::{Context, Result};
use c_lexer::lex;
use c_preproc::preprocess;
use std::alloc::{AllocError, Global};

/// 23 lines of macros, each of them twice the one before it, the last of 4,194,304 tokens; and then more.
fn doubling(alloc: Global, more: &str) -> Result<String, AllocError> {
    let mut file = String::from_str(alloc, "#define a0 x\n")?;
    for half in 0..22u32 {
        let whole = half + 1;
        writeln!(file, "#define a{whole} a{half} a{half}")?;
    }
    file.push_str(more)?;
    Ok(file)
}

/// What they expand to with these lines behind them.
pub fn doubling_answer(alloc: Global, more: &str) -> Result<String> {
    let file = doubling(alloc, more)?;
    file_answer(alloc, file.as_str())
}

/// How many tokens they expand to with these lines behind them.
pub fn doubling_length(alloc: Global, more: &str) -> Result<String> {
    let file = doubling(alloc, more)?;
    let tokens = lex(alloc, file.as_bytes()).context("no tokens")?;
    let expanded = preprocess(alloc, &tokens).context("a fault")?;
    Ok(format!(in alloc; " {} tokens", expanded.list.len())?)
}

/// A condition: a text so many times, a 1 behind them, and another text as often.
pub fn nesting_answer(alloc: Global, count: u32, before: &str, after: &str) -> Result<String> {
    let mut file = String::from_str(alloc, "#if ")?;
    for _ in 0..count {
        file.push_str(before)?;
    }
    file.push_str("1")?;
    for _ in 0..count {
        file.push_str(after)?;
    }
    file.push_str("\nx\n#endif\n")?;
    file_answer(alloc, file.as_str())
}

/// So many macros, each of them twice the one before it, of which the first is nothing.
pub fn nothing_answer(alloc: Global, count: u32) -> Result<String> {
    let mut file = String::from_str(alloc, "#define e0\n")?;
    for half in 0..count {
        let whole = u64::from(half) + 1;
        writeln!(file, "#define e{whole} e{half} e{half}")?;
    }
    writeln!(file, "e{count} x\n#if e{count} 1\ny\n#endif")?;
    file_answer(alloc, file.as_str())
}

/// Two chains of so many macros, each of which is the one before it.
pub fn chain_answer(alloc: Global, count: u32) -> Result<String> {
    let mut file = String::from_str(alloc, "#define e0\n#define a0 x\n")?;
    for last in 0..count {
        let next = u64::from(last) + 1;
        writeln!(file, "#define e{next} e{last}\n#define a{next} a{last}")?;
    }
    write!(file, "e{count} a{count}")?;
    file_answer(alloc, file.as_str())
}
