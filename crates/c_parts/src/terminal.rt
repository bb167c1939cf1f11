//! The terminals of the grammar: what a token is, but for its text.

ghost use Rattle.std.specs.Prelude.{◌≡◌};
ghost use Rattle.c_parts.specs.Terminals.{code};

/// A terminal. Every keyword and every punctuator is one, and so is each kind of token with a text of
/// its own.
#[derive(Clone, Copy, Debug, PartialEq, Eq)]
pub enum Terminal {
    /// A name that is no typedef where it stands.
    Name,
    /// A name that is a typedef in scope, where the specifiers before it have no type. No token is one
    /// by itself.
    TypedefName,
    /// A name that is a typedef in scope, where the specifiers before it have a type: it can only be
    /// declared. No token is one by itself.
    TypedefBehindType,
    Number,
    Character,
    Text,
    /// The end of the file.
    End,
    // Storage classes and function specifiers.
    Typedef,
    Extern,
    Static,
    Auto,
    Register,
    Inline,
    NoReturn,
    // Qualifiers. `_Atomic` is one, and with parentheses behind it a type.
    Const,
    Volatile,
    Restrict,
    Atomic,
    // Types.
    Void,
    Char,
    Short,
    Int,
    Long,
    Signed,
    Unsigned,
    Bool,
    Struct,
    Union,
    Enum,
    // Operators that are words.
    Sizeof,
    Alignof,
    StaticAssert,
    // Statements.
    If,
    Else,
    While,
    Do,
    For,
    Switch,
    Case,
    Default,
    Break,
    Continue,
    Return,
    // Brackets and separators.
    LeftParen,
    /// A `(` right behind `_Atomic`. No token is one by itself.
    AtomicParen,
    RightParen,
    LeftBracket,
    RightBracket,
    LeftBrace,
    RightBrace,
    Semicolon,
    Comma,
    /// A `,` right behind another. No token is one by itself.
    SecondComma,
    Colon,
    Question,
    Dot,
    Arrow,
    // Operators.
    Increment,
    Decrement,
    Ampersand,
    Star,
    Plus,
    Minus,
    Tilde,
    Exclamation,
    Slash,
    Percent,
    ShiftLeft,
    ShiftRight,
    Less,
    Greater,
    LessEqual,
    GreaterEqual,
    EqualEqual,
    NotEqual,
    Caret,
    Bar,
    AndAnd,
    BarBar,
    // Assignments.
    Equal,
    StarEqual,
    SlashEqual,
    PercentEqual,
    PlusEqual,
    MinusEqual,
    ShiftLeftEqual,
    ShiftRightEqual,
    AmpersandEqual,
    CaretEqual,
    BarEqual,
    /// A punctuator or keyword of C that no production has, as `#`, `...`, `goto` and `float`.
    Other,
}

/// The number of a terminal, from 0, in the order of the enum.
pub fn code(terminal: Terminal) -> u8
    ensures { result ≡ code terminal }
{
    terminal as u8
}
