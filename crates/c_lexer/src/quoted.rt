//! Character constants and texts: where they end, and the bytes that they write.

ghost use Rattle.std.specs.Prelude.{◌≡◌, ◌+◌, ◌-◌, ◌*◌, ◌<◌, ◌≤◌, Bool, true, false, take, drop, length, IfSome, IfOk};
ghost use Rattle.std.specs.Option.{option_map};
ghost use Rattle.std.specs.Vec.{vec_items};
ghost use Rattle.c_lexer.specs.Quoted.{closing, closes, escapes, simple_escape, element, element_with_code, escape_of, element_of, values_of, body_of, text_of, signed_char, character_of};

use crate::numbers::read_digits;
use std::alloc::{AllocError, Global};

/// A byte or an escape: the byte that it writes, and how many bytes write it.
#[derive(Clone, Copy)]
pub struct Element {
    pub value: u8,
    pub size: usize,
}

fn closes(escaped: bool, quote: u8, b: u8) -> bool
    ensures { result ≡ closes escaped quote b }
{
    !escaped && b == quote
}

fn escapes(escaped: bool, b: u8) -> bool
    ensures { result ≡ escapes escaped b }
{
    !escaped && b == b'\\'
}

/// How many bytes stand before the closing quote; None where the line ends first.
pub fn closing(quote: u8, rest: &[u8]) -> Option<usize>
    ensures value { result ≡ closing false quote rest.now }
    ensures within { IfSome result (λ before. before < length rest.now) }
{
    let mut escaped = false;
    for (before, b) in rest.iter().enumerate() {
        if *b == b'\n' {
            return None;
        }
        if closes(escaped, quote, *b) {
            return Some(before);
        }
        escaped = escapes(escaped, *b);
    }
    None
}

fn simple_escape(b: u8) -> Option<u8>
    ensures { result ≡ simple_escape b }
{
    match b {
        b'\'' | b'"' | b'?' | b'\\' => Some(b),
        b'a' => Some(7),
        b'b' => Some(8),
        b't' => Some(b'\t'),
        b'n' => Some(b'\n'),
        b'v' => Some(11),
        b'f' => Some(12),
        b'r' => Some(b'\r'),
        _ => None,
    }
}

/// The byte that the digits of the base write, at least one, behind the bytes `before` them.
fn element_with_code(base: u64, before: usize, text: &[u8]) -> Option<Element>
    requires low { 1 ≤ base }
    requires high { base ≤ 16 }
    requires room { before ≤ 2 }
    ensures value { result ≡ element_with_code base before text.now }
    ensures within { IfSome result (λ e. (before < e.size) × (e.size ≤ before + length text.now)) }
{
    let digits = read_digits(base, text);
    if digits.count == 0 {
        return None;
    }
    let value = digits.value?;
    if value >= 256 {
        return None;
    }
    Some(Element {
        value: value as u8,
        size: before + digits.count,
    })
}

/// The escape whose backslash stands before these bytes.
fn escape(text: &[u8]) -> Option<Element>
    ensures value { result ≡ escape_of text.now }
    ensures within { IfSome result (λ e. (1 ≤ e.size) × (e.size ≤ 1 + length text.now)) }
{
    match *text {
        [] => None,
        [b'x', ..] => element_with_code(16, 2, &text[1..]),
        [b'0'..=b'7', ..] => element_with_code(8, 1, &text[..text.len().min(3)]),
        [b, ..] => {
            let value = simple_escape(b)?;
            Some(Element { value, size: 2 })
        }
    }
}

/// The byte or escape that begins with `b`, before the rest.
#[tactic(auto, unfolding(crate::specs::Quoted::element_of))]
fn read_element(b: u8, rest: &[u8]) -> Option<Element>
    ensures value { result ≡ element_of b rest.now }
    ensures within { IfSome result (λ e. (1 ≤ e.size) × (e.size ≤ 1 + length rest.now)) }
{
    if b == b'\\' {
        escape(rest)
    } else {
        Some(Element { value: b, size: 1 })
    }
}

/// How many bytes the text between quotes writes; None where an escape is none.
pub fn count_values(body: &[u8]) -> Option<usize>
    ensures { result ≡ option_map length (values_of 0 body.now) }
{
    let mut count = 0;
    let mut at = 0;
    while at < body.len() {
        let (_, rest) = body.split_at(at + 1);
        let e = read_element(body[at], rest)?;
        at += e.size;
        count += 1;
    }
    Some(count)
}

/// What stands between the quotes of a token's text.
fn body(text: &[u8]) -> &[u8]
    ensures { result.now ≡ body_of text.now }
{
    if text.len() < 2 {
        &[]
    } else {
        &text[1..text.len() - 1]
    }
}

/// The value of a character token's text: an `int` with the value of a signed char, sign-extended
/// to 64 bits. None where the text isn't one byte or escape between quotes.
pub fn read_character(text: &[u8]) -> Option<u64>
    ensures { result ≡ character_of text.now }
{
    let body = body(text);
    if body.is_empty() {
        return None;
    }
    let (_, rest) = body.split_at(1);
    let e = read_element(body[0], rest)?;
    if e.size == body.len() {
        Some(signed_char(e.value))
    } else {
        None
    }
}

fn signed_char(b: u8) -> u64
    ensures { result ≡ signed_char b }
{
    if b < 128 {
        u64::from(b)
    } else {
        u64::from(b) + (u64::MAX - 255)
    }
}

/// The bytes that a text token's text writes, without the zero byte that C adds. None where it
/// isn't bytes and escapes between quotes.
pub fn read_text(alloc: Global, text: &[u8]) -> Result<Option<Vec<u8>>, AllocError>
    ensures { IfOk result (λ bytes. option_map vec_items bytes ≡ text_of text.now) }
{
    let body = body(text);
    let mut bytes = Vec::new(alloc);
    let mut at = 0;
    while at < body.len() {
        let (_, rest) = body.split_at(at + 1);
        match read_element(body[at], rest) {
            None => return Ok(None),
            Some(e) => {
                bytes.push(e.value)?;
                at += e.size;
            }
        }
    }
    Ok(Some(bytes))
}
