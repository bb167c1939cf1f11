//! The terminals of keywords and of punctuators.

ghost use Rattle.std.specs.Prelude.{◌≡◌, map};
ghost use Rattle.c_terminals.specs.Words.{look_up, of_word, of_punctuator};
ghost use Rattle.c_terminals.specs.Lexemes.{terminal_of};

use crate::texts::{is_same_text, text_of};
use c_lexer::{Token, TokenKind};
use c_parts::Terminal;

/// The keywords, in the order of C11 6.4.1.
const KEYWORDS: [(&[u8], Terminal); 44] = [
    (b"auto", Terminal::Auto),
    (b"break", Terminal::Break),
    (b"case", Terminal::Case),
    (b"char", Terminal::Char),
    (b"const", Terminal::Const),
    (b"continue", Terminal::Continue),
    (b"default", Terminal::Default),
    (b"do", Terminal::Do),
    (b"double", Terminal::Other),
    (b"else", Terminal::Else),
    (b"enum", Terminal::Enum),
    (b"extern", Terminal::Extern),
    (b"float", Terminal::Other),
    (b"for", Terminal::For),
    (b"goto", Terminal::Other),
    (b"if", Terminal::If),
    (b"inline", Terminal::Inline),
    (b"int", Terminal::Int),
    (b"long", Terminal::Long),
    (b"register", Terminal::Register),
    (b"restrict", Terminal::Restrict),
    (b"return", Terminal::Return),
    (b"short", Terminal::Short),
    (b"signed", Terminal::Signed),
    (b"sizeof", Terminal::Sizeof),
    (b"static", Terminal::Static),
    (b"struct", Terminal::Struct),
    (b"switch", Terminal::Switch),
    (b"typedef", Terminal::Typedef),
    (b"union", Terminal::Union),
    (b"unsigned", Terminal::Unsigned),
    (b"void", Terminal::Void),
    (b"volatile", Terminal::Volatile),
    (b"while", Terminal::While),
    (b"_Alignas", Terminal::Other),
    (b"_Alignof", Terminal::Alignof),
    (b"_Atomic", Terminal::Atomic),
    (b"_Bool", Terminal::Bool),
    (b"_Complex", Terminal::Other),
    (b"_Generic", Terminal::Other),
    (b"_Imaginary", Terminal::Other),
    (b"_Noreturn", Terminal::NoReturn),
    (b"_Static_assert", Terminal::StaticAssert),
    (b"_Thread_local", Terminal::Other),
];

/// The punctuators, in the order of C11 6.4.6, without the digraphs and `##`.
const PUNCTUATORS: [(&[u8], Terminal); 47] = [
    (b"[", Terminal::LeftBracket),
    (b"]", Terminal::RightBracket),
    (b"(", Terminal::LeftParen),
    (b")", Terminal::RightParen),
    (b"{", Terminal::LeftBrace),
    (b"}", Terminal::RightBrace),
    (b".", Terminal::Dot),
    (b"->", Terminal::Arrow),
    (b"++", Terminal::Increment),
    (b"--", Terminal::Decrement),
    (b"&", Terminal::Ampersand),
    (b"*", Terminal::Star),
    (b"+", Terminal::Plus),
    (b"-", Terminal::Minus),
    (b"~", Terminal::Tilde),
    (b"!", Terminal::Exclamation),
    (b"/", Terminal::Slash),
    (b"%", Terminal::Percent),
    (b"<<", Terminal::ShiftLeft),
    (b">>", Terminal::ShiftRight),
    (b"<", Terminal::Less),
    (b">", Terminal::Greater),
    (b"<=", Terminal::LessEqual),
    (b">=", Terminal::GreaterEqual),
    (b"==", Terminal::EqualEqual),
    (b"!=", Terminal::NotEqual),
    (b"^", Terminal::Caret),
    (b"|", Terminal::Bar),
    (b"&&", Terminal::AndAnd),
    (b"||", Terminal::BarBar),
    (b"?", Terminal::Question),
    (b":", Terminal::Colon),
    (b";", Terminal::Semicolon),
    (b"...", Terminal::Other),
    (b"=", Terminal::Equal),
    (b"*=", Terminal::StarEqual),
    (b"/=", Terminal::SlashEqual),
    (b"%=", Terminal::PercentEqual),
    (b"+=", Terminal::PlusEqual),
    (b"-=", Terminal::MinusEqual),
    (b"<<=", Terminal::ShiftLeftEqual),
    (b">>=", Terminal::ShiftRightEqual),
    (b"&=", Terminal::AmpersandEqual),
    (b"^=", Terminal::CaretEqual),
    (b"|=", Terminal::BarEqual),
    (b",", Terminal::Comma),
    (b"#", Terminal::Other),
];

/// The terminal of a text in a table, or this one where it is not there.
fn look_up(mut table: &[(&[u8], Terminal)], otherwise: Terminal, text: &[u8]) -> Terminal
    ensures { let entries = map (λ entry. (entry.0.now, entry.1)) table.entry.now in
        result ≡ look_up entries otherwise text.now }
{
    while let [entry, rest @ ..] = table {
        if is_same_text(entry.0, text) {
            return entry.1;
        }
        table = rest;
    }
    otherwise
}

fn of_word(text: &[u8]) -> Terminal
    ensures { result ≡ of_word text.now }
{
    look_up(&KEYWORDS, Terminal::Name, text)
}

fn of_punctuator(text: &[u8]) -> Terminal
    ensures { result ≡ of_punctuator text.now }
{
    look_up(&PUNCTUATORS, Terminal::Other, text)
}

/// What a token is to the grammar.
pub fn terminal_of(bytes: &[u8], token: Token) -> Terminal
    ensures { result ≡ terminal_of bytes.now token }
{
    match token.kind {
        TokenKind::Name => of_word(text_of(bytes, token)),
        TokenKind::Punct => of_punctuator(text_of(bytes, token)),
        TokenKind::Number => Terminal::Number,
        TokenKind::Character => Terminal::Character,
        TokenKind::Text => Terminal::Text,
        TokenKind::End => Terminal::End,
    }
}
