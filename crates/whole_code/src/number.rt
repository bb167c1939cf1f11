//! The numbers that stand for operators and types in instructions.

ghost use Rattle.std.specs.Prelude.{◌≡◌, ◌<◌, IsTrue};
ghost use Rattle.filc_num.specs.Integers.{is_promoted};
ghost use Rattle.whole_code.specs.Numbers.{operator_at, operator_number, type_at, type_number};
ghost use Rattle.whole_code.specs.Numbers.{IsOperatorNumber, IsTypeNumber, IsArithmeticNumber};

use filc_num::{BinOp, IntType};

/// The number that stands for taking the value as it is, in place of an operator.
pub const SET: u32 = 16;

/// The number of an operator, which stands for it again.
pub fn operator_number(op: BinOp) -> u32
    ensures value { result ≡ operator_number op }
    ensures operator { operator_at result ≡ op }
    ensures within { IsOperatorNumber result }
{
    op as u32
}

/// The operator of a number.
pub fn operator_at(number: u32) -> BinOp
    requires { IsOperatorNumber number }
    ensures { result ≡ operator_at number }
{
    match number {
        0 => BinOp::Add,
        1 => BinOp::Sub,
        2 => BinOp::Mul,
        3 => BinOp::Div,
        4 => BinOp::Rem,
        5 => BinOp::And,
        6 => BinOp::Or,
        7 => BinOp::Xor,
        8 => BinOp::Shl,
        9 => BinOp::Shr,
        10 => BinOp::Lt,
        11 => BinOp::Le,
        12 => BinOp::Gt,
        13 => BinOp::Ge,
        14 => BinOp::Eq,
        _ => BinOp::Ne,
    }
}

/// The number of a type, which stands for it again; it is that of one for arithmetic where the type
/// is.
pub fn type_number(ty: IntType) -> u32
    ensures value { result ≡ type_number ty }
    ensures same { type_at result ≡ ty }
    ensures within { IsTypeNumber result }
    ensures arithmetic { IsTrue (is_promoted ty) → IsArithmeticNumber result }
{
    ty as u32
}

/// The type of a number; that of one for arithmetic is such a type.
pub fn type_at(number: u32) -> IntType
    requires { IsTypeNumber number }
    ensures same { result ≡ type_at number }
    ensures arithmetic { IsArithmeticNumber number → IsTrue (is_promoted result) }
{
    match number {
        0 => IntType::Bool,
        1 => IntType::I8,
        2 => IntType::U8,
        3 => IntType::I16,
        4 => IntType::U16,
        5 => IntType::I32,
        6 => IntType::U32,
        7 => IntType::I64,
        _ => IntType::U64,
    }
}
