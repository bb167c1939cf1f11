//! What stands at the front of the bytes: white space, a comment, the longest token, or a fault.

ghost use Rattle.std.specs.Prelude.{◌≡◌, ◌+◌, ◌<◌, ◌≤◌, Bool, true, false, length, drop, take, slice_index, IfSome, ◌==◌, ◌^◌};
ghost use Rattle.std.specs.Option.{option_map, option_and_then};
ghost use Rattle.std.specs.List.{prefix_len, position_or_len};
ghost use Rattle.c_lexer.specs.Classes.{is_word, is_number_byte, is_letter, line_feed};
ghost use Rattle.c_lexer.specs.Quoted.{closing, values_of};
ghost use Rattle.c_lexer.specs.Front.{name_front, number_front, quoted_front, quoted_kind, quoted_token, comment_rest, ends_comment, slash_front, punct_front, front_of, more_of, gives_end};
ghost use Rattle.c_lexer.specs.List.{is_end};
ghost use Rattle.c_lexer.specs.Punct.{punct_length};

use crate::classes::{is_blank, is_letter, is_number_byte, is_word};
use crate::numbers::read_number;
use crate::punct::punct_length;
use crate::quoted::{closing, count_values};
use crate::token::TokenKind;

/// What stands at the front, and how many bytes it takes behind its first.
#[derive(Clone, Copy)]
pub enum Front {
    /// A line feed.
    LineEnd,
    /// Other white space, or a comment.
    Blank(usize),
    /// The longest token.
    Token(TokenKind, usize),
    /// A byte that begins no token, or a name that isn't the user's.
    Bad,
    /// A text, a character constant or a comment without its end.
    Unclosed,
    /// A number, a text or a character constant that is none.
    Literal,
}

/// Reads what stands at the front of the bytes. In a header of the library names may begin with
/// `__filc_`.
#[tactic(auto, unfolding(crate::specs::Front::front_of))]
pub fn read_front(library: bool, text: &[u8]) -> Front
    requires { 0 < length text.now }
    ensures value { result ≡ front_of library (slice_index text.now 0) (drop 1 text.now) }
    ensures within { more_of result < length text.now }
    ensures no_end { gives_end result ≡ false }
{
    let first = text[0];
    let (_, rest) = text.split_at(1);
    if first == b'\n' {
        Front::LineEnd
    } else if is_blank(first) {
        Front::Blank(0)
    } else if is_letter(first) {
        name_front(library, text, rest)
    } else if first.is_ascii_digit() {
        number_front(text, rest)
    } else if first == b'/' {
        slash_front(rest)
    } else if first == b'"' || first == b'\'' {
        quoted_front(first, rest)
    } else {
        punct_front(first, rest)
    }
}

fn name_front(library: bool, text: &[u8], rest: &[u8]) -> Front
    ensures value { result ≡ name_front library text.now rest.now }
    ensures within { more_of result ≤ length rest.now }
    ensures no_end { gives_end result ≡ false }
{
    if !library && text.starts_with(b"__filc_") {
        return Front::Bad;
    }
    Front::Token(TokenKind::Name, word_length(rest))
}

fn number_front(text: &[u8], rest: &[u8]) -> Front
    requires { length text.now ≡ length rest.now + 1 }
    ensures value { result ≡ number_front text.now rest.now }
    ensures within { more_of result ≤ length rest.now }
    ensures no_end { gives_end result ≡ false }
{
    let more = number_length(rest);
    match read_number(&text[..more + 1]) {
        Some(_) => Front::Token(TokenKind::Number, more),
        None => Front::Literal,
    }
}

fn punct_front(first: u8, rest: &[u8]) -> Front
    ensures value { result ≡ punct_front (punct_length first rest.now) }
    ensures within { more_of result ≤ length rest.now }
    ensures no_end { gives_end result ≡ false }
{
    match punct_length(first, rest) {
        0 => Front::Bad,
        size => Front::Token(TokenKind::Punct, size - 1),
    }
}

fn slash_front(rest: &[u8]) -> Front
    ensures value { result ≡ slash_front rest.now }
    ensures within { more_of result ≤ length rest.now }
    ensures no_end { gives_end result ≡ false }
{
    match *rest {
        [b'*', ..] => match comment_rest(&rest[1..]) {
            Some(more) => Front::Blank(more + 1),
            None => Front::Unclosed,
        },
        [b'/', ..] => Front::Blank(line_length(&rest[1..]) + 1),
        _ => punct_front(b'/', rest),
    }
}

fn quoted_kind(quote: u8, count: usize) -> Option<TokenKind>
    ensures value { result ≡ quoted_kind quote count }
    ensures no_end { IfSome result (λ kind. is_end kind ≡ false) }
{
    if quote == b'"' {
        Some(TokenKind::Text)
    } else if count == 1 {
        Some(TokenKind::Character)
    } else {
        None
    }
}

fn quoted_front(quote: u8, rest: &[u8]) -> Front
    ensures value { result ≡ quoted_front quote rest.now (closing false quote rest.now) }
    ensures within { more_of result ≤ length rest.now }
    ensures no_end { gives_end result ≡ false }
{
    match closing(quote, rest) {
        None => Front::Unclosed,
        Some(before) => quoted_token(quote, before, &rest[..before]),
    }
}

/// The text or character constant whose quotes have these bytes between them.
fn quoted_token(quote: u8, before: usize, body: &[u8]) -> Front
    requires { before < 2 ^ 63 }
    ensures value { result
        ≡ quoted_token (before + 1) (option_and_then (quoted_kind quote) (option_map length (values_of 0 body.now))) }
    ensures within { more_of result ≤ before + 1 }
    ensures no_end { gives_end result ≡ false }
{
    match count_values(body).and_then(|count| quoted_kind(quote, count)) {
        Some(kind) => Front::Token(kind, before + 1),
        None => Front::Literal,
    }
}

/// How many bytes at the front go on with a name.
fn word_length(text: &[u8]) -> usize
    ensures value { result ≡ prefix_len is_word text.now }
    ensures within { result ≤ length text.now }
{
    for (i, b) in text.iter().enumerate() {
        if !is_word(*b) {
            return i;
        }
    }
    text.len()
}

/// How many bytes at the front go on with a number.
fn number_length(text: &[u8]) -> usize
    ensures value { result ≡ prefix_len is_number_byte text.now }
    ensures within { result ≤ length text.now }
{
    for (i, b) in text.iter().enumerate() {
        if !is_number_byte(*b) {
            return i;
        }
    }
    text.len()
}

/// How many bytes stand before the end of the line.
fn line_length(text: &[u8]) -> usize
    ensures value { result ≡ position_or_len (λ b. b == line_feed) text.now }
    ensures within { result ≤ length text.now }
{
    for (i, b) in text.iter().enumerate() {
        if *b == b'\n' {
            return i;
        }
    }
    text.len()
}

fn ends_comment(starred: bool, b: u8) -> bool
    ensures { result ≡ ends_comment starred b }
{
    starred && b == b'/'
}

/// How many bytes a comment goes on, up to and with its end; None where the file ends first.
fn comment_rest(text: &[u8]) -> Option<usize>
    ensures value { result ≡ comment_rest false text.now }
    ensures within { IfSome result (λ size. size ≤ length text.now) }
{
    let mut starred = false;
    for (i, b) in text.iter().enumerate() {
        if ends_comment(starred, *b) {
            return Some(i + 1);
        }
        starred = *b == b'*';
    }
    None
}
