//! Sets of terminals, each by the name that it has in the grammar.

ghost use Rattle.std.specs.Prelude.{◌≡◌};
ghost use Rattle.c_syntax.specs.Grammar as spec;

use c_parts::Terminal;

/// What an expression begins with.
pub const EXPRESSION_STARTS: [Terminal; 15] = [
    Terminal::Name,
    Terminal::Number,
    Terminal::Character,
    Terminal::Text,
    Terminal::LeftParen,
    Terminal::Increment,
    Terminal::Decrement,
    Terminal::Ampersand,
    Terminal::Star,
    Terminal::Plus,
    Terminal::Minus,
    Terminal::Tilde,
    Terminal::Exclamation,
    Terminal::Sizeof,
    Terminal::Alignof,
];

/// What a prefix operator begins with.
pub const PREFIXES: [Terminal; 10] = [
    Terminal::Increment,
    Terminal::Decrement,
    Terminal::Ampersand,
    Terminal::Star,
    Terminal::Plus,
    Terminal::Minus,
    Terminal::Tilde,
    Terminal::Exclamation,
    Terminal::Sizeof,
    Terminal::Alignof,
];

/// What a primary expression begins with.
pub const PRIMARY_STARTS: [Terminal; 5] = [
    Terminal::Name,
    Terminal::Number,
    Terminal::Character,
    Terminal::Text,
    Terminal::LeftParen,
];

/// What an operator behind its operand begins with.
pub const POSTFIX_OPERATORS: [Terminal; 6] = [
    Terminal::LeftBracket,
    Terminal::LeftParen,
    Terminal::Dot,
    Terminal::Arrow,
    Terminal::Increment,
    Terminal::Decrement,
];

pub const UNARY_OPERATORS: [Terminal; 6] = [
    Terminal::Ampersand,
    Terminal::Star,
    Terminal::Plus,
    Terminal::Minus,
    Terminal::Tilde,
    Terminal::Exclamation,
];

/// What specifiers begin with, as it is looked for behind a parenthesis.
pub const SPECIFIER_STARTS: [Terminal; 24] = [
    Terminal::TypedefName,
    Terminal::TypedefBehindType,
    Terminal::Atomic,
    Terminal::Enum,
    Terminal::Typedef,
    Terminal::Extern,
    Terminal::Static,
    Terminal::Auto,
    Terminal::Register,
    Terminal::Inline,
    Terminal::NoReturn,
    Terminal::Const,
    Terminal::Volatile,
    Terminal::Restrict,
    Terminal::Void,
    Terminal::Char,
    Terminal::Short,
    Terminal::Int,
    Terminal::Long,
    Terminal::Signed,
    Terminal::Unsigned,
    Terminal::Bool,
    Terminal::Struct,
    Terminal::Union,
];

/// A name where it is declared, or where it stands behind `.`, `->`, `struct`, `union` or `enum`.
pub const ANY_NAME: [Terminal; 3] = [
    Terminal::Name,
    Terminal::TypedefName,
    Terminal::TypedefBehindType,
];

pub const ASSIGNING: [Terminal; 11] = [
    Terminal::Equal,
    Terminal::StarEqual,
    Terminal::SlashEqual,
    Terminal::PercentEqual,
    Terminal::PlusEqual,
    Terminal::MinusEqual,
    Terminal::ShiftLeftEqual,
    Terminal::ShiftRightEqual,
    Terminal::AmpersandEqual,
    Terminal::CaretEqual,
    Terminal::BarEqual,
];

/// The storage classes.
pub const STORAGE_WORDS: [Terminal; 5] = [
    Terminal::Typedef,
    Terminal::Extern,
    Terminal::Static,
    Terminal::Auto,
    Terminal::Register,
];

/// The qualifiers but for `_Atomic`.
pub const QUALIFIER_WORDS: [Terminal; 3] = [
    Terminal::Const,
    Terminal::Volatile,
    Terminal::Restrict,
];

/// The qualifiers of a pointer.
pub const QUALIFIERS: [Terminal; 4] = [
    Terminal::Atomic,
    Terminal::Const,
    Terminal::Volatile,
    Terminal::Restrict,
];

/// Words that are types or parts of their names.
pub const BASIC_WORDS: [Terminal; 8] = [
    Terminal::Void,
    Terminal::Char,
    Terminal::Short,
    Terminal::Int,
    Terminal::Long,
    Terminal::Signed,
    Terminal::Unsigned,
    Terminal::Bool,
];

/// What a specifier begins with.
pub const SPECIFIERS: [Terminal; 23] = [
    Terminal::Typedef,
    Terminal::Extern,
    Terminal::Static,
    Terminal::Auto,
    Terminal::Register,
    Terminal::Inline,
    Terminal::NoReturn,
    Terminal::Const,
    Terminal::Volatile,
    Terminal::Restrict,
    Terminal::Void,
    Terminal::Char,
    Terminal::Short,
    Terminal::Int,
    Terminal::Long,
    Terminal::Signed,
    Terminal::Unsigned,
    Terminal::Bool,
    Terminal::TypedefName,
    Terminal::Atomic,
    Terminal::Struct,
    Terminal::Union,
    Terminal::Enum,
];

/// What specifiers begin with, where others stand before.
pub const SPECIFIED: [Terminal; 25] = [
    Terminal::TypedefName,
    Terminal::TypedefBehindType,
    Terminal::Typedef,
    Terminal::Extern,
    Terminal::Static,
    Terminal::Auto,
    Terminal::Register,
    Terminal::Inline,
    Terminal::NoReturn,
    Terminal::Const,
    Terminal::Volatile,
    Terminal::Restrict,
    Terminal::Void,
    Terminal::Char,
    Terminal::Short,
    Terminal::Int,
    Terminal::Long,
    Terminal::Signed,
    Terminal::Unsigned,
    Terminal::Bool,
    Terminal::TypedefName,
    Terminal::Atomic,
    Terminal::Struct,
    Terminal::Union,
    Terminal::Enum,
];

/// What a member begins with.
pub const MEMBERS: [Terminal; 26] = [
    Terminal::TypedefName,
    Terminal::TypedefBehindType,
    Terminal::Typedef,
    Terminal::Extern,
    Terminal::Static,
    Terminal::Auto,
    Terminal::Register,
    Terminal::Inline,
    Terminal::NoReturn,
    Terminal::Const,
    Terminal::Volatile,
    Terminal::Restrict,
    Terminal::Void,
    Terminal::Char,
    Terminal::Short,
    Terminal::Int,
    Terminal::Long,
    Terminal::Signed,
    Terminal::Unsigned,
    Terminal::Bool,
    Terminal::TypedefName,
    Terminal::Atomic,
    Terminal::Struct,
    Terminal::Union,
    Terminal::Enum,
    Terminal::StaticAssert,
];

/// The name of a declarator.
pub const DECLARED_NAME: [Terminal; 2] = [Terminal::Name, Terminal::TypedefBehindType];

/// What an inner abstract declarator begins with.
pub const ABSTRACT_INSIDE: [Terminal; 3] = [
    Terminal::Star,
    Terminal::LeftParen,
    Terminal::LeftBracket,
];

/// What an inner declarator of a parameter begins with.
pub const PARAMETER_INSIDE: [Terminal; 4] = [
    Terminal::Name,
    Terminal::Star,
    Terminal::LeftParen,
    Terminal::LeftBracket,
];

/// What a parameter may have behind its pointers.
pub const PARAMETER_CORE: [Terminal; 4] = [
    Terminal::Name,
    Terminal::TypedefBehindType,
    Terminal::LeftBracket,
    Terminal::LeftParen,
];

/// The operators that stand between operands of a level, from the tightest.
pub fn operators_over(level: u32) -> &'static [Terminal]
    ensures { result.now ≡ spec.operators_over level }
{
    match level {
        0 => &[Terminal::Star, Terminal::Slash, Terminal::Percent],
        1 => &[Terminal::Plus, Terminal::Minus],
        2 => &[Terminal::ShiftLeft, Terminal::ShiftRight],
        3 => &[
            Terminal::Less,
            Terminal::Greater,
            Terminal::LessEqual,
            Terminal::GreaterEqual,
        ],
        4 => &[Terminal::EqualEqual, Terminal::NotEqual],
        5 => &[Terminal::Ampersand],
        6 => &[Terminal::Caret],
        7 => &[Terminal::Bar],
        8 => &[Terminal::AndAnd],
        _ => &[Terminal::BarBar],
    }
}
