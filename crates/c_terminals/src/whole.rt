//! The whole list, and the line of a token.

ghost use Rattle.std.specs.Prelude.{◌≡◌, ◌≤◌, ◌<◌, ◌^◌, ◌+◌, IfOk, OnOk, Some, length, map, slice_get, take};
ghost use Rattle.c_terminals.specs.Lexemes.{lexeme_of, lexemes_of, line_of};
ghost use Rattle.c_terminals.specs.Lexemes as spec;
ghost use Rattle.c_terminals.specs.Places.{IsNumbered};

use crate::numbers::{number_of, same_before};
use crate::texts::{is_name, text_of};
use crate::words::terminal_of;
use c_lexer::{Token, Tokens};
use c_parts::Lexeme;
use std::alloc::{AllocError, Global};
use std::collections::BTreeMap;

/// The most tokens of a list, so that the number of each is a `u32`.
const MOST_TOKENS: usize = 4_294_967_295;

/// The number of the token of this number, whose text is looked up if it is a word.
fn number_at(
    alloc: Global,
    places: &mut BTreeMap<Vec<u8>, u32>,
    tokens: &Tokens,
    place: usize,
    token: Token,
) -> Result<u32, AllocError>
    requires there { slice_get tokens.now.list.items place ≡ Some token }
    requires small { place < 2 ^ 32 }
    requires numbered { IsNumbered tokens.now.bytes.items tokens.now.list.items place places.old }
    ensures number { IfOk result (λ number.
        number ≡ spec.number_of tokens.now.bytes.items tokens.now.list.items token) }
    ensures numbered { OnOk result
        (IsNumbered tokens.now.bytes.items tokens.now.list.items (place + 1) places.new) }
{
    if !is_name(token) {
        return Ok(0);
    }
    let text = text_of(&tokens.bytes, token);
    let number = number_of(alloc, places, text, place as u32)?;
    Ok(number)
}

/// Keeps the number of a word for the byte where it begins.
fn keep_place(met: &mut [u32], token: Token, place: usize)
    requires { place < 2 ^ 32 }
{
    let start = token.start as usize;
    if start < met.len() {
        met[start] = place as u32;
    }
}

/// The lexeme of a token, after those of the tokens before it. `met` has a number for each byte, by
/// which an earlier word at the same bytes may be found: its text is not looked up again.
fn read_next(
    alloc: Global,
    places: &mut BTreeMap<Vec<u8>, u32>,
    met: &mut [u32],
    tokens: &Tokens,
    lexemes: &[Lexeme],
    token: Token,
) -> Result<Lexeme, AllocError>
    requires there { slice_get tokens.now.list.items (length lexemes.now) ≡ Some token }
    requires small { length lexemes.now < 2 ^ 32 }
    requires so_far { lexemes.now
        ≡ map (lexeme_of tokens.now.bytes.items tokens.now.list.items)
        (take (length lexemes.now) tokens.now.list.items) }
    requires numbered { IsNumbered tokens.now.bytes.items tokens.now.list.items
        (length lexemes.now) places.old }
    ensures lexeme { IfOk result (λ lexeme.
        lexeme ≡ lexeme_of tokens.now.bytes.items tokens.now.list.items token) }
    ensures numbered { OnOk result (IsNumbered tokens.now.bytes.items tokens.now.list.items
        (length lexemes.now + 1) places.new) }
{
    let place = lexemes.len();
    match same_before(met, &tokens.list, place, token) {
        Some(earlier) => {
            let before = lexemes[earlier];
            Ok(Lexeme {
                terminal: before.terminal,
                name: before.name,
                line: token.line,
            })
        }
        None => {
            let name = number_at(alloc, places, tokens, place, token)?;
            keep_place(met, token, place);
            Ok(Lexeme {
                terminal: terminal_of(&tokens.bytes, token),
                name,
                line: token.line,
            })
        }
    }
}

/// The tokens of a list as the grammar sees them, one for each.
///
/// A word has the number of the first token with its text. More than 4,294,967,295 tokens are want
/// of memory. Memory is taken for the list, for each different word, and four bytes for each byte.
pub fn lexemes(alloc: Global, tokens: &Tokens) -> Result<Vec<Lexeme>, AllocError>
    ensures list { IfOk result (λ lexemes.
        lexemes.items ≡ lexemes_of tokens.now.bytes.items tokens.now.list.items) }
    ensures fits { IfOk result (λ lexemes. length lexemes.items < 2 ^ 32) }
{
    let tokens_number = tokens.list.len();
    if tokens_number > MOST_TOKENS {
        return Err(AllocError);
    }
    let mut places = BTreeMap::new(alloc);
    let mut met = vec![in alloc; 0u32; tokens.bytes.len()]?;
    let mut lexemes = Vec::new(alloc);
    for place in 0..tokens_number {
        let token = tokens.list[place];
        let lexeme = read_next(alloc, &mut places, &mut met, tokens, &lexemes, token)?;
        lexemes.push(lexeme)?;
    }
    Ok(lexemes)
}

/// The line of the token of this number, or of the last token where there are not so many.
pub fn line_at(tokens: &Tokens, place: usize) -> u32
    ensures { result ≡ line_of tokens.now.list.items place }
{
    match tokens.list.get(place) {
        Some(token) => token.line,
        None => match tokens.list.last() {
            Some(token) => token.line,
            None => 1,
        },
    }
}
