//! Words and operators, as nodes of the tree have them.

ghost use Rattle.std.specs.Prelude.{◌≡◌};
ghost use Rattle.c_syntax.specs.Words as words;

use c_parts::Terminal;
use filc_num::BinOp;

/// A storage class.
#[derive(Clone, Copy, Debug, PartialEq, Eq)]
pub enum Storage {
    Typedef,
    Extern,
    Static,
    Auto,
    Register,
}

/// A function specifier.
#[derive(Clone, Copy, Debug, PartialEq, Eq)]
pub enum FunctionSpecifier {
    Inline,
    NoReturn,
}

/// A qualifier.
#[derive(Clone, Copy, Debug, PartialEq, Eq)]
pub enum Qualifier {
    Const,
    Volatile,
    Restrict,
    Atomic,
}

/// A word that is a type, or a part of its name.
#[derive(Clone, Copy, Debug, PartialEq, Eq)]
pub enum BasicType {
    Void,
    Char,
    Short,
    Int,
    Long,
    Signed,
    Unsigned,
    Bool,
}

/// Whether a record's members lie one behind the other.
#[derive(Clone, Copy, Debug, PartialEq, Eq)]
pub enum RecordKind {
    Struct,
    Union,
}

/// An operator before its operand. `sizeof` and `_Alignof` are expressions of their own.
#[derive(Clone, Copy, Debug, PartialEq, Eq)]
pub enum Prefix {
    Increment,
    Decrement,
    AddressOf,
    Dereference,
    Plus,
    Minus,
    Complement,
    Not,
}

/// An operator between two operands.
#[derive(Clone, Copy, Debug, PartialEq, Eq)]
pub enum Operator {
    Binary(BinOp),
    LogicalAnd,
    LogicalOr,
}

/// The storage class that a terminal is; of all that are none, `Typedef`.
pub fn storage_of(terminal: Terminal) -> Storage
    ensures { result ≡ words.storage_of terminal }
{
    match terminal {
        Terminal::Extern => Storage::Extern,
        Terminal::Static => Storage::Static,
        Terminal::Auto => Storage::Auto,
        Terminal::Register => Storage::Register,
        _ => Storage::Typedef,
    }
}

/// The function specifier that a terminal is; of all that are none, `Inline`.
pub fn function_of(terminal: Terminal) -> FunctionSpecifier
    ensures { result ≡ words.function_of terminal }
{
    match terminal {
        Terminal::NoReturn => FunctionSpecifier::NoReturn,
        _ => FunctionSpecifier::Inline,
    }
}

/// The qualifier that a terminal is; of all that are none, `Const`.
pub fn qualifier_of(terminal: Terminal) -> Qualifier
    ensures { result ≡ words.qualifier_of terminal }
{
    match terminal {
        Terminal::Volatile => Qualifier::Volatile,
        Terminal::Restrict => Qualifier::Restrict,
        Terminal::Atomic => Qualifier::Atomic,
        _ => Qualifier::Const,
    }
}

/// The word of a type that a terminal is; of all that are none, `Void`.
pub fn basic_of(terminal: Terminal) -> BasicType
    ensures { result ≡ words.basic_of terminal }
{
    match terminal {
        Terminal::Char => BasicType::Char,
        Terminal::Short => BasicType::Short,
        Terminal::Int => BasicType::Int,
        Terminal::Long => BasicType::Long,
        Terminal::Signed => BasicType::Signed,
        Terminal::Unsigned => BasicType::Unsigned,
        Terminal::Bool => BasicType::Bool,
        _ => BasicType::Void,
    }
}

/// `Union` for its word, and else `Struct`.
pub fn record_of(terminal: Terminal) -> RecordKind
    ensures { result ≡ words.record_of terminal }
{
    match terminal {
        Terminal::Union => RecordKind::Union,
        _ => RecordKind::Struct,
    }
}

/// The operator that a terminal is before an operand; of all that are none, `Increment`.
pub fn prefix_of(terminal: Terminal) -> Prefix
    ensures { result ≡ words.prefix_of terminal }
{
    match terminal {
        Terminal::Decrement => Prefix::Decrement,
        Terminal::Ampersand => Prefix::AddressOf,
        Terminal::Star => Prefix::Dereference,
        Terminal::Plus => Prefix::Plus,
        Terminal::Minus => Prefix::Minus,
        Terminal::Tilde => Prefix::Complement,
        Terminal::Exclamation => Prefix::Not,
        _ => Prefix::Increment,
    }
}

/// The operator that a terminal is between operands; of all that are none, `LogicalOr`.
pub fn operator_of(terminal: Terminal) -> Operator
    ensures { result ≡ words.operator_of terminal }
{
    match terminal {
        Terminal::Star => Operator::Binary(BinOp::Mul),
        Terminal::Slash => Operator::Binary(BinOp::Div),
        Terminal::Percent => Operator::Binary(BinOp::Rem),
        Terminal::Plus => Operator::Binary(BinOp::Add),
        Terminal::Minus => Operator::Binary(BinOp::Sub),
        Terminal::ShiftLeft => Operator::Binary(BinOp::Shl),
        Terminal::ShiftRight => Operator::Binary(BinOp::Shr),
        Terminal::Less => Operator::Binary(BinOp::Lt),
        Terminal::LessEqual => Operator::Binary(BinOp::Le),
        Terminal::Greater => Operator::Binary(BinOp::Gt),
        Terminal::GreaterEqual => Operator::Binary(BinOp::Ge),
        Terminal::EqualEqual => Operator::Binary(BinOp::Eq),
        Terminal::NotEqual => Operator::Binary(BinOp::Ne),
        Terminal::Ampersand => Operator::Binary(BinOp::And),
        Terminal::Caret => Operator::Binary(BinOp::Xor),
        Terminal::Bar => Operator::Binary(BinOp::Or),
        Terminal::AndAnd => Operator::LogicalAnd,
        _ => Operator::LogicalOr,
    }
}

/// The operator that an assignment computes; None for `=`.
pub fn assigned_of(terminal: Terminal) -> Option<BinOp>
    ensures { result ≡ words.assigned_of terminal }
{
    match terminal {
        Terminal::StarEqual => Some(BinOp::Mul),
        Terminal::SlashEqual => Some(BinOp::Div),
        Terminal::PercentEqual => Some(BinOp::Rem),
        Terminal::PlusEqual => Some(BinOp::Add),
        Terminal::MinusEqual => Some(BinOp::Sub),
        Terminal::ShiftLeftEqual => Some(BinOp::Shl),
        Terminal::ShiftRightEqual => Some(BinOp::Shr),
        Terminal::AmpersandEqual => Some(BinOp::And),
        Terminal::CaretEqual => Some(BinOp::Xor),
        Terminal::BarEqual => Some(BinOp::Or),
        _ => None,
    }
}
