//! The lexemes of a file, one after another.

ghost use Rattle.std.specs.Prelude.{List, ◌==◌, ◌&&◌, ◌≤◌, ◌≡◌, ◌∷◌, [], ◌+◌, ◌<◌, ◌^◌, length, IfSome, IfNone, MatchOption, true, false};
ghost use Rattle.form_reader.specs.Lexemes.{Lexeme, is_blank, is_digit, is_letter, is_word, begins, line_after, lexemes};
ghost use Rattle.form_reader.specs.Tokens.{lexeme_of};
ghost use Rattle.form_reader.specs.Grammar.{front_line};
ghost use Rattle.std.specs.List.{prefix_len};

use std::marker::Model;

/// A lexeme with the line in which it begins.
#[derive(Clone, Copy, Debug)]
pub enum Token<'a> {
    /// A run of letters, digits and underscores.
    Run(&'a [u8], u32),
    /// Any other byte that is no blank.
    Mark(u8, u32),
    /// Two minus signs with nothing between them.
    Twin(u32),
}

fn is_blank(byte: u8) -> bool
    ensures { result ≡ is_blank byte }
{
    byte == b' ' || byte == b'\n'
}

/// Whether the byte is a digit.
pub fn is_digit(byte: u8) -> bool
    ensures { result ≡ is_digit byte }
{
    byte.is_ascii_digit()
}

/// Whether the byte is a letter.
pub fn is_letter(byte: u8) -> bool
    ensures { result ≡ is_letter byte }
{
    byte.is_ascii_alphabetic()
}

/// Whether the first byte is a letter.
pub fn begins_with_letter(bytes: &[u8]) -> bool
    ensures { result ≡ begins is_letter bytes.now }
{
    match bytes {
        [first, ..] => is_letter(*first),
        [] => false,
    }
}

fn is_word(byte: u8) -> bool
    ensures { result ≡ is_word byte }
{
    byte.is_ascii_alphanumeric() || byte == b'_'
}

fn line_after(byte: u8, line: u32) -> u32
    requires { line + 1 < 2 ^ 32 }
    ensures { result ≡ line_after byte line }
{
    if byte == b'\n' { line + 1 } else { line }
}

/// How many bytes of a run stand at the front.
fn run_length(bytes: &[u8]) -> usize
    ensures { result ≡ prefix_len is_word bytes.now }
{
    bytes.iter().take_while(|byte| is_word(**byte)).count()
}

/// What follows the blanks at the front, and its line.
fn after_blanks(bytes: &[u8], line: u32) -> (&[u8], u32)
    requires { line + length bytes.now < 2 ^ 32 }
    ensures same { lexemes line bytes.now ≡ lexemes result.1 result.0.now }
    ensures none { begins is_blank result.0.now ≡ false }
    ensures room { result.1 + length result.0.now < 2 ^ 32 }
{
    let mut rest = bytes;
    let mut line = line;
    while let Some((first, after)) = rest.split_first()
        && is_blank(*first)
    {
        line = line_after(*first, line);
        rest = after;
    }
    (rest, line)
}

/// The run at the front, and what follows it.
fn run_at(bytes: &[u8], line: u32) -> (Token<'_>, &[u8])
    requires { begins is_word bytes.now ≡ true }
    ensures front { lexemes line bytes.now ≡ lexeme_of result.0 ∷ lexemes line result.1.now }
    ensures rest { length result.1.now ≤ length bytes.now }
{
    let (run, rest) = bytes.split_at(run_length(bytes));
    (Token::Run(run, line), rest)
}

/// The lexeme of a byte that is of no run and no blank, with the bytes after it.
fn mark_at<'a>(first: u8, after: &'a [u8], line: u32) -> Token<'a>
    requires visible { is_blank first ≡ false }
    requires mark { is_word first ≡ false }
    ensures { lexemes line (first ∷ after.now) ≡ lexeme_of result ∷ lexemes line after.now }
{
    if is_twin(first, after) {
        Token::Twin(line)
    } else {
        Token::Mark(first, line)
    }
}

fn is_twin(first: u8, after: &[u8]) -> bool
    ensures { result ≡ (first == 45 && begins (λ next. next == 45) after.now) }
{
    match after {
        [next, ..] => first == b'-' && *next == b'-',
        [] => false,
    }
}

/// The lexeme at the front, what follows it, and the line there.
fn lexeme_at(bytes: &[u8], line: u32) -> Option<(Token<'_>, &[u8], u32)>
    requires { line + length bytes.now < 2 ^ 32 }
    ensures found { IfSome result (λ found. lexemes line bytes.now ≡ lexeme_of found.0 ∷ lexemes found.2 found.1.now) }
    ensures room { IfSome result (λ found. found.2 + length found.1.now < 2 ^ 32) }
    ensures none { IfNone result (lexemes line bytes.now ≡ []) }
{
    let (bytes, line) = after_blanks(bytes, line);
    match bytes {
        [] => None,
        [first, ..] if is_word(*first) => {
            let (token, rest) = run_at(bytes, line);
            Some((token, rest, line))
        }
        [first, after @ ..] => Some((mark_at(*first, after, line), after, line)),
    }
}

/// The lexemes of a file that are left, as contracts see it.
#[derive(Drop)]
pub struct Tokens<'a> {
    rest: &'a [u8],
    line: u32,
}

impl<'a> Model for Tokens<'a> {
    ghost use Rattle.std.specs.Prelude.{List, ◌+◌, ◌<◌, ◌^◌, length};
    ghost use Rattle.form_reader.specs.Lexemes.{Lexeme, lexemes};

    ghost Value = { List Lexeme };

    ghost view = { λ t. lexemes t.line t.rest.now };

    ghost invariant = { λ t. t.line + length t.rest.now < 2 ^ 32 };
}

impl<'a> Tokens<'a> {
    /// The lexemes of a whole file.
    pub fn new(file: &'a [u8]) -> Self
        requires { length file.now < 2 ^ 31 }
        ensures { result ≡ lexemes 1 file.now }
    {
        Tokens {
            rest: file,
            line: 1,
        }
    }

    /// The next lexeme, which stays.
    pub fn peek(&self) -> Option<Token<'a>>
        ensures found { IfSome result (λ token. (rest : List Lexeme) × (self.now ≡ lexeme_of token ∷ rest)) }
        ensures none { IfNone result (self.now ≡ []) }
    {
        let (token, _, _) = lexeme_at(self.rest, self.line)?;
        Some(token)
    }

    /// The line of the next lexeme, or 0 at the end.
    pub fn line(&self) -> u32
        ensures { result ≡ front_line self.now }
    {
        match self.peek() {
            Some(Token::Run(_, line) | Token::Mark(_, line) | Token::Twin(line)) => line,
            None => 0,
        }
    }

    /// Takes the next lexeme, or nothing at the end.
    pub fn next(&mut self) -> Option<Token<'a>>
        ensures found { IfSome result (λ token. self.old ≡ lexeme_of token ∷ self.new) }
        ensures none { IfNone result ((self.old ≡ []) × (self.new ≡ [])) }
    {
        let (token, rest, line) = lexeme_at(self.rest, self.line)?;
        self.rest = rest;
        self.line = line;
        Some(token)
    }
}
