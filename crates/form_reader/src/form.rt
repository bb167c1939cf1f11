//! The reader: a descent with one lexeme ahead.

ghost use Rattle.std.specs.Prelude.{◌≡◌, ◌≤◌, ℕ, List, [], ◌∷◌, ◌++◌, length, map, IfSome, IfNone, IsTrue, ◌↔◌, true, false, codes};
ghost use Rattle.std.specs.Fmt.{decimal};
ghost use Rattle.std.specs.Str.Parse.{digits_value};
ghost use Rattle.form_reader.specs.Lexemes.{Lexeme, Mark, is_digit};
ghost use Rattle.form_reader.specs.Numerals.{IsNumeral};
ghost use Rattle.std.specs.List.{list_all};
ghost use Rattle.form_reader.specs.Form.{text_of};
ghost use Rattle.form_reader.specs.Tokens.{lexeme_of};

use crate::lexemes::{Token, Tokens, is_digit};
use std::alloc::{AllocError, AllocFailed};

/// The most bytes of a file.
pub const MOST_BYTES: usize = 1_048_576;

/// The greatest number, which is the greatest `int`.
pub const MOST_NUMBER: u32 = 2_147_483_647;

/// The most that a file nests, the braces of `main` among it.
pub const MOST_NESTING: u32 = 200;

/// The most values of a function: a frame has so many registers.
pub const MOST_VALUES: u32 = 256;

/// The words of C that are letters alone, and the names of the two functions.
pub const RESERVED: [&[u8]; 36] = [
    b"auto",
    b"break",
    b"case",
    b"char",
    b"const",
    b"continue",
    b"default",
    b"do",
    b"double",
    b"else",
    b"enum",
    b"extern",
    b"float",
    b"for",
    b"goto",
    b"if",
    b"inline",
    b"int",
    b"long",
    b"register",
    b"restrict",
    b"return",
    b"short",
    b"signed",
    b"sizeof",
    b"static",
    b"struct",
    b"switch",
    b"typedef",
    b"union",
    b"unsigned",
    b"void",
    b"volatile",
    b"while",
    b"main",
    b"putchar",
];

/// The declaration of `putchar`, lexeme by lexeme.
pub const INTRO: [&[u8]; 7] = [b"int", b"putchar", b"(", b"int", b"c", b")", b";"];

/// The head of `main`, lexeme by lexeme.
pub const HEAD: [&[u8]; 6] = [b"int", b"main", b"(", b"void", b")", b"{"];

/// Why a file was not read.
#[derive(Clone, Copy, Debug, PartialEq, Eq)]
pub enum ReadFault {
    /// The file hasn't the form.
    NotForm,
    /// There is no memory for its tree. It says nothing of the file.
    NoMemory,
}

impl From<AllocError> for ReadFault {
    ghost use Rattle.form_reader.specs.declared.form.ReadFault.TheVariants.{NoMemory};

    ghost from_gives = { λ _ fault. fault ≡ NoMemory };

    fn from(_error: AllocError) -> ReadFault {
        ReadFault::NoMemory
    }
}

impl<T: Drop> From<AllocFailed<T>> for ReadFault {
    ghost use Rattle.form_reader.specs.declared.form.ReadFault.TheVariants.{NoMemory};

    ghost from_gives = { λ _ fault. fault ≡ NoMemory };

    fn from(_error: AllocFailed<T>) -> ReadFault {
        ReadFault::NoMemory
    }
}

/// The bytes of a token.
pub fn is_text(token: Token<'_>, text: &[u8]) -> bool
    ensures { IsTrue result ↔ (text_of (lexeme_of token.entry) ≡ text.now) }
{
    match token {
        Token::Run(bytes, _) => bytes == text,
        Token::Mark(byte, _) => [byte].as_slice() == text,
        Token::Twin(_) => b"--".as_slice() == text,
    }
}

/// Takes the next lexeme, and tells whether it is this one.
pub fn takes(tokens: &mut Tokens<'_>, text: &[u8]) -> bool
    ensures yes { IsTrue result → (taken : Lexeme) × (tokens.old ≡ taken ∷ tokens.new) × (text_of taken ≡ text.now) }
    ensures no { result ≡ false → (first : Lexeme) (rest : List Lexeme) → tokens.old ≡ first ∷ rest → text_of first ≡ text.now → ⊥ }
{
    match tokens.next() {
        Some(token) => is_text(token, text),
        None => false,
    }
}

/// Takes the next lexeme, and tells whether it is this mark.
pub fn takes_mark(tokens: &mut Tokens<'_>, mark: u8) -> bool
    ensures yes { IsTrue result → (line : ℕ) × (tokens.old ≡ Mark mark line ∷ tokens.new) }
    ensures no { result ≡ false → (line : ℕ) (rest : List Lexeme) → tokens.old ≡ Mark mark line ∷ rest → ⊥ }
{
    match tokens.next() {
        Some(Token::Mark(byte, _)) => byte == mark,
        Some(Token::Run(_, _) | Token::Twin(_)) => false,
        None => false,
    }
}

/// Takes these lexemes, one after another, and tells whether they stood there.
pub fn takes_all(tokens: &mut Tokens<'_>, texts: &[&[u8]]) -> bool
    ensures yes { IsTrue result → (taken : List Lexeme) × (tokens.old ≡ taken ++ tokens.new) × (map text_of taken ≡ map (λ text. text.now) texts.now) }
    ensures no { result ≡ false → (front rest : List Lexeme) → tokens.old ≡ front ++ rest → map text_of front ≡ map (λ text. text.now) texts.now → ⊥ }
{
    for text in texts {
        if !takes(tokens, text) {
            return false;
        }
    }
    true
}

fn all_digits(bytes: &[u8]) -> bool
    ensures { result ≡ list_all is_digit bytes.now }
{
    bytes.iter().all(|byte| is_digit(*byte))
}

/// Whether these are one to ten digits with no leading zero.
fn is_numeral(digits: &[u8]) -> bool
    ensures { IsTrue result ↔ IsNumeral digits.now }
{
    if digits.is_empty() || digits.len() > 10 {
        return false;
    }
    (digits[0] != b'0' || digits.len() == 1) && all_digits(digits)
}

/// The number that one to ten digits spell.
fn value_of(digits: &[u8]) -> u64
    requires { IsNumeral digits.now }
    ensures { result ≡ digits_value 10 digits.now }
{
    let mut value: u64 = 0;
    for digit in digits {
        value = value * 10 + u64::from(*digit - b'0');
    }
    value
}

/// The number that digits spell: in decimal, with no leading zero, and one that an `int` holds.
pub fn number_of(digits: &[u8]) -> Option<u32>
    ensures found { IfSome result (λ n. (n ≤ MOST_NUMBER) × (digits.now ≡ decimal n)) }
    ensures none { IfNone result ((n : ℕ) → n ≤ MOST_NUMBER → digits.now ≡ decimal n → ⊥) }
{
    if !is_numeral(digits) {
        return None;
    }
    let value = value_of(digits);
    if value > u64::from(MOST_NUMBER) {
        return None;
    }
    Some(value as u32)
}
