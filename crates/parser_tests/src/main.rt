//! Carries out the rows of a file, and prints each with its answer: texts with their trees, or where they are refused.
//!
//! The contracts of `c_expr_parser::expression` and `c_file_parser::file` say that a list is read as the grammar says;
//! these rows say that the grammar means C. A row is a kind and its texts, with a tab between them.
#![tactic(auto)]

mod answers;
mod lexemes;
mod tree_text;

use crate::answers::{
    block_answer, chain_answer, file_answer, nest_answer, operator_answer, tree_answer,
    typedef_answer,
};
use anyhow::{Context, Result};
use std::alloc::Global;
use std::{env, fs};

/// A field of a row as a number.
fn number(field: &str) -> Result<u32> {
    Ok(field.parse().context("no number")?)
}

/// What a row of this kind with these texts comes to.
fn answer(alloc: Global, kind: &str, fields: &[&str]) -> Result<String> {
    let answer = match (kind, fields) {
        ("tree", [text]) => tree_answer(alloc, text)?,
        ("typedef", [text]) => typedef_answer(alloc, text)?,
        ("operator", [text]) => operator_answer(alloc, text)?,
        ("file", [text]) => file_answer(alloc, text)?,
        ("nest", [count, before, middle, behind]) => {
            nest_answer(alloc, number(count)?, before, middle, behind)?
        }
        ("blocks", [count, word, closing]) => block_answer(alloc, number(count)?, word, closing)?,
        ("chain", [count, words]) => chain_answer(alloc, number(count)?, words)?,
        _ => format!(in alloc; "no such row")?,
    };
    Ok(answer)
}

/// The texts of a row, which stand between tabs.
fn fields_of<'a>(alloc: Global, row: &'a str) -> Result<Vec<&'a str>> {
    let mut fields = Vec::new(alloc);
    for field in row.split('\t') {
        fields.push(field)?;
    }
    Ok(fields)
}

fn main(rt: HostRuntime) -> Result<()> {
    let mut words = env::args(&rt)?;
    let _program = words.next();
    let path = words.next().context("no file is named")?;
    let rows = fs::read_to_string(&rt, path.as_str())?;
    for row in rows.as_str().lines() {
        let fields = fields_of(rt.alloc(), row)?;
        if let Some((kind, texts)) = fields.as_slice().split_first() {
            if kind.starts_with("#") {
                println!(rt; "{row}")?;
            } else {
                let answer = answer(rt.alloc(), kind, texts)?;
                println!(rt; "{row}\t=> {answer}")?;
            }
        }
    }
    Ok(())
}
