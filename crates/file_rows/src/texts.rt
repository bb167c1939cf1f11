//! The texts of a row.

use std::alloc::{AllocError, Global};

/// A text of a row, in which a backslash and a letter stand for one character.
pub fn plain_text(alloc: Global, text: &str) -> Result<String, AllocError> {
    let mut out = String::new(alloc);
    let mut is_escaped = false;
    for letter in text.chars() {
        if is_escaped {
            is_escaped = false;
            out.push(match letter {
                'n' => '\n',
                't' => '\t',
                other => other,
            })?;
        } else if letter == '\\' {
            is_escaped = true;
        } else {
            out.push(letter)?;
        }
    }
    Ok(out)
}
