//! Files as long as a file may be, or as deep as one may nest.

use crate::texts::plain_text;
use std::alloc::{AllocError, Global};

/// An item for each index below the count. In it `@` is the index, and `$` the next one.
fn items_of(alloc: Global, count: u32, item: &str) -> Result<String, AllocError> {
    let mut out = String::new(alloc);
    for index in 0..count {
        let next = u64::from(index) + 1;
        for letter in item.chars() {
            if letter == '@' {
                write!(out, "{index}")?;
            } else if letter == '$' {
                write!(out, "{next}")?;
            } else {
                out.push(letter)?;
            }
        }
    }
    Ok(out)
}

/// A text so many times.
fn texts_of(alloc: Global, count: u32, text: &str) -> Result<String, AllocError> {
    let mut out = String::new(alloc);
    for _ in 0..count {
        out.push_str(text)?;
    }
    Ok(out)
}

/// A text before, so many items, and a text behind.
pub fn file_of_items(
    alloc: Global,
    count: u32,
    before: &str,
    item: &str,
    behind: &str,
) -> Result<String, AllocError> {
    let mut file = plain_text(alloc, before)?;
    file.push_str(items_of(alloc, count, item)?.as_str())?;
    file.push_str(plain_text(alloc, behind)?.as_str())?;
    Ok(file)
}

/// A text before, an opening so many times, a middle, a closing as many times, and a text behind.
pub fn file_of_nesting(
    alloc: Global,
    count: u32,
    before: &str,
    nest: (&str, &str, &str),
    behind: &str,
) -> Result<String, AllocError> {
    let mut file = plain_text(alloc, before)?;
    file.push_str(texts_of(alloc, count, nest.0)?.as_str())?;
    file.push_str(nest.1)?;
    file.push_str(texts_of(alloc, count, nest.2)?.as_str())?;
    file.push_str(plain_text(alloc, behind)?.as_str())?;
    Ok(file)
}
