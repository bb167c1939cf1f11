//! Carries out the rows of a file, and prints each with its answer: files with what they expand to, or their fault.
//!
//! The contract of `c_preproc::preprocess` says that a list expands as the rules say; these rows say that the rules mean
//! C. A row is a kind, a name and texts, with a tab between them; in texts `\n`, `\t` and `\\` stand for one character.
#![tactic(auto)]

mod answers;
mod limits;

use crate::answers::{fault_answer, file_answer, unescaped};
use crate::limits::{
    chain_answer, doubling_answer, doubling_length, nesting_answer, nothing_answer,
};
use anyhow::{Context, Result};
use std::alloc::Global;
use std::{env, fs};

/// A field of a row as a number.
fn number(field: &str) -> Result<u32> {
    Ok(field.parse().context("no number")?)
}

/// What a row of this kind with these texts comes to.
fn answer(alloc: Global, kind: &str, fields: &[&str]) -> Result<String> {
    match (kind, fields) {
        ("file", [_, file]) => file_answer(alloc, &unescaped(alloc, file)?),
        ("doubling", [_, more]) => doubling_answer(alloc, &unescaped(alloc, more)?),
        ("doubling length", [_, more]) => doubling_length(alloc, &unescaped(alloc, more)?),
        ("nesting", [_, count, before, after]) => {
            nesting_answer(alloc, number(count)?, before, after)
        }
        ("nothing", [_, count]) => nothing_answer(alloc, number(count)?),
        ("chains", [_, count]) => chain_answer(alloc, number(count)?),
        ("fault", [kind]) => fault_answer(alloc, kind),
        _ => Ok(format!(in alloc; " no such row")?),
    }
}

/// The texts of a row, which stand between tabs.
fn fields_of<'a>(alloc: Global, row: &'a str) -> Result<Vec<&'a str>> {
    let mut fields = Vec::new(alloc);
    for field in row.split('\t') {
        fields.push(field)?;
    }
    Ok(fields)
}

fn main(rt: HostRuntime) -> Result<()> {
    let mut words = env::args(&rt)?;
    let _program = words.next();
    let path = words.next().context("no file is named")?;
    let rows = fs::read_to_string(&rt, path.as_str())?;
    for row in rows.as_str().lines() {
        let fields = fields_of(rt.alloc(), row)?;
        if let Some((kind, texts)) = fields.as_slice().split_first() {
            if kind.starts_with("#") {
                println!(rt; "{row}")?;
            } else {
                let answer = answer(rt.alloc(), kind, texts)?;
                println!(rt; "{row}\t=>{answer}")?;
            }
        }
    }
    Ok(())
}
