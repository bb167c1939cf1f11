//! Lexemes of words, for tables: a text has a space between its tokens.

use c_parts::{Lexeme, Terminal};
use std::alloc::{AllocError, Global};

/// The words of the tables that are neither names nor numbers nor texts.
const WORDS: [(&str, Terminal); 68] = [
    ("typedef", Terminal::Typedef),
    ("void", Terminal::Void),
    ("_Static_assert", Terminal::StaticAssert),
    ("if", Terminal::If),
    ("else", Terminal::Else),
    ("while", Terminal::While),
    ("do", Terminal::Do),
    ("for", Terminal::For),
    ("switch", Terminal::Switch),
    ("case", Terminal::Case),
    ("default", Terminal::Default),
    ("break", Terminal::Break),
    ("continue", Terminal::Continue),
    ("return", Terminal::Return),
    ("int", Terminal::Int),
    ("char", Terminal::Char),
    ("const", Terminal::Const),
    ("struct", Terminal::Struct),
    ("enum", Terminal::Enum),
    ("_Atomic", Terminal::Atomic),
    ("sizeof", Terminal::Sizeof),
    ("_Alignof", Terminal::Alignof),
    ("(", Terminal::LeftParen),
    (")", Terminal::RightParen),
    ("[", Terminal::LeftBracket),
    ("]", Terminal::RightBracket),
    ("{", Terminal::LeftBrace),
    ("}", Terminal::RightBrace),
    (";", Terminal::Semicolon),
    (",", Terminal::Comma),
    (":", Terminal::Colon),
    ("?", Terminal::Question),
    (".", Terminal::Dot),
    ("->", Terminal::Arrow),
    ("++", Terminal::Increment),
    ("--", Terminal::Decrement),
    ("&", Terminal::Ampersand),
    ("*", Terminal::Star),
    ("+", Terminal::Plus),
    ("-", Terminal::Minus),
    ("~", Terminal::Tilde),
    ("!", Terminal::Exclamation),
    ("/", Terminal::Slash),
    ("%", Terminal::Percent),
    ("<<", Terminal::ShiftLeft),
    (">>", Terminal::ShiftRight),
    ("<", Terminal::Less),
    (">", Terminal::Greater),
    ("<=", Terminal::LessEqual),
    (">=", Terminal::GreaterEqual),
    ("==", Terminal::EqualEqual),
    ("!=", Terminal::NotEqual),
    ("^", Terminal::Caret),
    ("|", Terminal::Bar),
    ("&&", Terminal::AndAnd),
    ("||", Terminal::BarBar),
    ("=", Terminal::Equal),
    ("*=", Terminal::StarEqual),
    ("/=", Terminal::SlashEqual),
    ("%=", Terminal::PercentEqual),
    ("+=", Terminal::PlusEqual),
    ("-=", Terminal::MinusEqual),
    ("<<=", Terminal::ShiftLeftEqual),
    (">>=", Terminal::ShiftRightEqual),
    ("&=", Terminal::AmpersandEqual),
    ("^=", Terminal::CaretEqual),
    ("|=", Terminal::BarEqual),
    ("#", Terminal::Other),
];

fn terminal(word: &str) -> Terminal {
    for (text, terminal) in &WORDS {
        if *text == word {
            return *terminal;
        }
    }
    match word.as_bytes().first() {
        Some(b'0'..=b'9') => Terminal::Number,
        Some(b'"') => Terminal::Text,
        Some(b'\'') => Terminal::Character,
        _ => Terminal::Name,
    }
}

/// The number of a name is its first letter.
pub fn name(word: &str) -> u32 {
    match word.as_bytes().first() {
        Some(letter) => u32::from(*letter),
        None => 0,
    }
}

/// The lexeme of a word, on line 1.
fn lexeme(word: &str) -> Lexeme {
    Lexeme {
        terminal: terminal(word),
        name: name(word),
        line: 1,
    }
}

/// The words of a text.
pub fn words<'a>(alloc: Global, text: &'a str) -> Result<Vec<&'a str>, AllocError> {
    let mut words = Vec::new(alloc);
    for word in text.split(' ') {
        if !word.is_empty() {
            words.push(word)?;
        }
    }
    Ok(words)
}

/// The lexemes of words, with the End behind them.
pub fn lexemes(alloc: Global, words: &[&str]) -> Result<Vec<Lexeme>, AllocError> {
    let mut tokens = Vec::new(alloc);
    for word in words {
        tokens.push(lexeme(word))?;
    }
    tokens.push(end())?;
    Ok(tokens)
}

/// The lexemes of a text's words, behind those that are there.
pub fn push_words(tokens: &mut Vec<Lexeme>, text: &str) -> Result<(), AllocError> {
    for word in text.split(' ') {
        if !word.is_empty() {
            tokens.push(lexeme(word))?;
        }
    }
    Ok(())
}

pub fn end() -> Lexeme {
    Lexeme {
        terminal: Terminal::End,
        name: 0,
        line: 1,
    }
}
