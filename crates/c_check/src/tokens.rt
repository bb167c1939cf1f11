//! What tokens mean, by their numbers.

ghost use Rattle.std.specs.Prelude.{◌≡◌, IfOk};
ghost use Rattle.c_file_rules.specs.Files.{body_spelled};
ghost use Rattle.c_check.specs.Tokens.{plain_tokens, text_at, number_at, character_at, bytes_at};
ghost use Rattle.c_check.specs.Tokens.{text_between, library_flags, is_spelled};

use c_file_rules::Numbering;
use c_lexer::{Tokens, read_character, read_number, read_text};
use filc_num::CIntType;
use sqlite_items::Items;
use std::alloc::{AllocError, Global};

/// What a token is spelled by.
pub fn spelling(tokens: &Tokens, token: u32) -> &[u8]
    ensures { result.now ≡ text_at (plain_tokens tokens.now) token }
{
    match tokens.list.get(token as usize) {
        None => &[],
        Some(token) => {
            let bytes = &tokens.bytes;
            let end = bytes.len().min(token.end as usize);
            let start = end.min(token.start as usize);
            &bytes[start..end]
        }
    }
}

/// The type and the value of a number.
pub fn number(tokens: &Tokens, token: u32) -> (CIntType, u64)
    ensures { result ≡ number_at (plain_tokens tokens.now) token }
{
    match read_number(spelling(tokens, token)) {
        None => (CIntType::Int, 0),
        Some(number) => (number.c_type, number.value),
    }
}

/// The value of a character.
pub fn character(tokens: &Tokens, token: u32) -> u64
    ensures { result ≡ character_at (plain_tokens tokens.now) token }
{
    match read_character(spelling(tokens, token)) {
        None => 0,
        Some(value) => value,
    }
}

/// The bytes of one text.
fn bytes_at(alloc: Global, tokens: &Tokens, token: u32) -> Result<Vec<u8>, AllocError>
    ensures { IfOk result (λ bytes. bytes.items ≡ bytes_at (plain_tokens tokens.now) token) }
{
    match read_text(alloc, spelling(tokens, token))? {
        None => Ok(Vec::new(alloc)),
        Some(bytes) => Ok(bytes),
    }
}

/// The bytes of the texts from one token to another, which are one.
pub fn text(alloc: Global, tokens: &Tokens, first: u32, last: u32) -> Result<Items<u8>, AllocError>
    ensures { IfOk result (λ bytes. bytes ≡ text_between (plain_tokens tokens.now) first last) }
{
    let mut bytes = Vec::new(alloc);
    if last < first {
        return Ok(Items::from_vec(bytes));
    }
    'texts: for token in first..last {
        let mut more = bytes_at(alloc, tokens, token)?;
        bytes.append(&mut more)?;
    }
    let mut more = bytes_at(alloc, tokens, last)?;
    bytes.append(&mut more)?;
    Ok(Items::from_vec(bytes))
}

/// Of each token whether it comes from a header of the library.
pub fn library_of(alloc: Global, tokens: &Tokens) -> Result<Vec<bool>, AllocError>
    ensures { IfOk result (λ flags. flags.items ≡ library_flags (plain_tokens tokens.now)) }
{
    tokens.list.iter().map(|token| token.library).collect(alloc)
}

/// Whether a name is spelled so, where there is one.
fn is_spelled(tokens: &Tokens, name: Option<u32>, letters: &[u8]) -> bool
    ensures { result ≡ is_spelled (text_at (plain_tokens tokens.now)) letters.now name }
{
    match name {
        None => false,
        Some(name) => spelling(tokens, name) == letters,
    }
}

/// The number of the first function with a body that is spelled so.
pub fn body_spelled(tokens: &Tokens, bodies: &Numbering, letters: &[u8]) -> Option<u32>
    ensures { result ≡ body_spelled (text_at (plain_tokens tokens.now)) letters.now 0 bodies.now }
{
    'bodies: for number in 0..bodies.len() {
        if is_spelled(tokens, bodies.at(number), letters) {
            return Some(number);
        }
    }
    None
}
