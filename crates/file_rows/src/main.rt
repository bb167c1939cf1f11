//! Carries out the rows of a file, and prints each with its answer: of a whole file `accepted` or its refusal, of a
//! row of code the listing as well.
//!
//! The contracts say that a file is answered, and that its code plays it, as the definitions say; these rows say that
//! the definitions mean C. A row is a kind and its texts, with a tab between them; in texts `\n`, `\t` and `\\` stand
//! for one character.
#![tactic(auto)]

mod answers;
mod generated;
mod texts;

use crate::answers::{file_answer, listing_answer};
use crate::generated::{file_of_items, file_of_nesting};
use crate::texts::plain_text;
use anyhow::{Context, Result};
use std::alloc::Global;
use std::{env, fs};

/// A field of a row as a number.
fn number(field: &str) -> Result<u32> {
    Ok(field.parse().context("no number")?)
}

/// The file of a row of this kind with these texts, where it is one.
fn file_of(alloc: Global, kind: &str, fields: &[&str]) -> Result<Option<String>> {
    let file = match (kind, fields) {
        ("file" | "code", [_, text]) => plain_text(alloc, text)?,
        ("case", [text]) => plain_text(alloc, text)?,
        ("repeat", [_, before, count, item, behind]) => {
            file_of_items(alloc, number(count)?, before, item, behind)?
        }
        ("nest", [_, before, count, open, middle, close, behind]) => {
            file_of_nesting(
                alloc,
                number(count)?,
                before,
                (*open, *middle, *close),
                behind,
            )?
        }
        _ => return Ok(None),
    };
    Ok(Some(file))
}

/// What a row comes to.
fn answer(alloc: Global, kind: &str, fields: &[&str]) -> Result<String> {
    match file_of(alloc, kind, fields)? {
        Some(file) if kind == "code" => Ok(listing_answer(alloc, file.as_bytes())?),
        Some(file) => Ok(file_answer(alloc, file.as_bytes())?),
        None => Ok(format!(in alloc; "no such row")?),
    }
}

/// The texts of a row, which stand between tabs.
fn fields_of<'a>(alloc: Global, row: &'a str) -> Result<Vec<&'a str>> {
    let mut fields = Vec::new(alloc);
    for field in row.split('\t') {
        fields.push(field)?;
    }
    Ok(fields)
}

fn main(rt: HostRuntime) -> Result<()> {
    let mut words = env::args(&rt)?;
    let _program = words.next();
    let path = words.next().context("no file is named")?;
    let rows = fs::read_to_string(&rt, path.as_str())?;
    for row in rows.as_str().lines() {
        let fields = fields_of(rt.alloc(), row)?;
        if let Some((kind, texts)) = fields.as_slice().split_first() {
            if kind.starts_with("#") {
                println!(rt; "{row}")?;
            } else {
                let answer = answer(rt.alloc(), kind, texts)?;
                println!(rt; "{row}\t=> {answer}")?;
            }
        }
    }
    Ok(())
}
