//! What a condition is made of: operands, and punctuators by their texts.
//!
//! Read `specs/Condition.antt` first: its tables say which text stands for what. They are the ones here.

ghost use Rattle.std.specs.Prelude.{◌≡◌};
ghost use Rattle.std.specs.List.{list_any};
ghost use Rattle.c_lexer.specs.Number.{is_u};
ghost use Rattle.c_preproc.specs.Condition.{arithmetic_of, constant, is_unsigned, item_of_kind, joint_of, operation, precedence, precedence_of_operator, punctuator_of, separator_of, sign_of};
ghost use Rattle.c_preproc.specs.Texts.{text_of};

use crate::texts::{is_same_text, text_of};
use c_lexer::{Token, TokenKind, read_character, read_number};
use filc_num::BinOp;

/// A value: whether it is unsigned, and its 64 bits. A division or a shift may have none.
#[derive(Clone, Copy)]
pub struct Value {
    pub unsigned: bool,
    pub bits: Option<u64>,
}

/// A sign before an operand.
#[derive(Clone, Copy)]
pub enum Sign {
    Plus,
    Minus,
    Complement,
    Not,
}

/// What joins two operands.
#[derive(Clone, Copy)]
pub enum Joint {
    Operator(BinOp),
    Both,
    Either,
}

/// What parts operands without joining two.
#[derive(Clone, Copy)]
pub enum Separator {
    Open,
    Close,
    Question,
    Colon,
}

/// What a punctuator may stand for: `+` is a sign where an operand begins, and an operator behind one.
#[derive(Clone, Copy)]
pub struct Punctuator {
    pub separator: Option<Separator>,
    pub sign: Option<Sign>,
    pub joint: Option<Joint>,
}

/// A token of a condition.
#[derive(Clone, Copy)]
pub enum Item {
    Operand(Value),
    Punctuator(Punctuator),
}

/// The level of what joins two operands, from `||` at 2 to `*` at 11: level 1 is that of a choice.
pub fn precedence(joint: Joint) -> u8
    ensures { result ≡ precedence joint }
{
    match joint {
        Joint::Either => 2,
        Joint::Both => 3,
        Joint::Operator(op) => precedence_of_operator(op),
    }
}

fn precedence_of_operator(op: BinOp) -> u8
    ensures { result ≡ precedence_of_operator op }
{
    match op {
        BinOp::Or => 4,
        BinOp::Xor => 5,
        BinOp::And => 6,
        BinOp::Eq | BinOp::Ne => 7,
        BinOp::Lt | BinOp::Gt | BinOp::Le | BinOp::Ge => 8,
        BinOp::Shl | BinOp::Shr => 9,
        BinOp::Add | BinOp::Sub => 10,
        BinOp::Mul | BinOp::Div | BinOp::Rem => 11,
    }
}

fn separator_of(text: &[u8]) -> Option<Separator>
    ensures { result ≡ separator_of text.now }
{
    if is_same_text(text, b"(") {
        Some(Separator::Open)
    } else if is_same_text(text, b")") {
        Some(Separator::Close)
    } else if is_same_text(text, b"?") {
        Some(Separator::Question)
    } else if is_same_text(text, b":") {
        Some(Separator::Colon)
    } else {
        None
    }
}

fn sign_of(text: &[u8]) -> Option<Sign>
    ensures { result ≡ sign_of text.now }
{
    if is_same_text(text, b"+") {
        Some(Sign::Plus)
    } else if is_same_text(text, b"-") {
        Some(Sign::Minus)
    } else if is_same_text(text, b"~") {
        Some(Sign::Complement)
    } else if is_same_text(text, b"!") {
        Some(Sign::Not)
    } else {
        None
    }
}

fn operation(op: BinOp) -> Option<Joint>
    ensures { result ≡ operation op }
{
    Some(Joint::Operator(op))
}

fn joint_of(text: &[u8]) -> Option<Joint>
    ensures { result ≡ joint_of text.now }
{
    if is_same_text(text, b"||") {
        Some(Joint::Either)
    } else if is_same_text(text, b"&&") {
        Some(Joint::Both)
    } else if is_same_text(text, b"|") {
        operation(BinOp::Or)
    } else if is_same_text(text, b"^") {
        operation(BinOp::Xor)
    } else if is_same_text(text, b"&") {
        operation(BinOp::And)
    } else if is_same_text(text, b"==") {
        operation(BinOp::Eq)
    } else if is_same_text(text, b"!=") {
        operation(BinOp::Ne)
    } else if is_same_text(text, b"<") {
        operation(BinOp::Lt)
    } else if is_same_text(text, b">") {
        operation(BinOp::Gt)
    } else if is_same_text(text, b"<=") {
        operation(BinOp::Le)
    } else if is_same_text(text, b">=") {
        operation(BinOp::Ge)
    } else if is_same_text(text, b"<<") {
        operation(BinOp::Shl)
    } else if is_same_text(text, b">>") {
        operation(BinOp::Shr)
    } else {
        arithmetic_of(text)
    }
}

fn arithmetic_of(text: &[u8]) -> Option<Joint>
    ensures { result ≡ arithmetic_of text.now }
{
    if is_same_text(text, b"+") {
        operation(BinOp::Add)
    } else if is_same_text(text, b"-") {
        operation(BinOp::Sub)
    } else if is_same_text(text, b"*") {
        operation(BinOp::Mul)
    } else if is_same_text(text, b"/") {
        operation(BinOp::Div)
    } else if is_same_text(text, b"%") {
        operation(BinOp::Rem)
    } else {
        None
    }
}

/// What the text of a punctuator may stand for.
fn punctuator_of(text: &[u8]) -> Punctuator
    ensures { result ≡ punctuator_of text.now }
{
    Punctuator {
        separator: separator_of(text),
        sign: sign_of(text),
        joint: joint_of(text),
    }
}

fn constant(unsigned: bool, bits: u64) -> Item
    ensures { result ≡ constant unsigned bits }
{
    Item::Operand(Value {
        unsigned,
        bits: Some(bits),
    })
}

/// The item of a token: a name that is left over is 0, and a text is none.
pub fn item_of(bytes: &[u8], token: Token) -> Option<Item>
    ensures { result ≡ item_of_kind token.kind (text_of bytes.now token) }
{
    item_of_kind(token.kind, text_of(bytes, token))
}

fn item_of_kind(kind: TokenKind, text: &[u8]) -> Option<Item>
    ensures { result ≡ item_of_kind kind text.now }
{
    match kind {
        TokenKind::Name => Some(constant(false, 0)),
        TokenKind::Number => {
            let number = read_number(text)?;
            Some(constant(is_unsigned(text, number.value), number.value))
        }
        TokenKind::Character => {
            let value = read_character(text)?;
            Some(constant(false, value))
        }
        TokenKind::Punct => Some(Item::Punctuator(punctuator_of(text))),
        TokenKind::Text | TokenKind::End => None,
    }
}

/// A number is unsigned where it has a u, or where 64 signed bits don't hold it.
fn is_unsigned(text: &[u8], value: u64) -> bool
    ensures { result ≡ is_unsigned text.now value }
{
    has_u(text) || value >= 1 << 63
}

fn has_u(text: &[u8]) -> bool
    ensures { result ≡ list_any is_u text.now }
{
    text.iter().any(|b| *b == b'u' || *b == b'U')
}
