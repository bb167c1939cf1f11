//! Operators before an operand (C11 6.5.3): their values, where the operand is one that they take.

ghost use Rattle.std.specs.Prelude.{◌≡◌, IsTrue, IfOk};
ghost use Rattle.filc_num.specs.CIntTypes.{int_type_of};
ghost use Rattle.filc_num.specs.Integers.{is_promoted};
ghost use Rattle.c_expr_rules.specs.IntegerTypes.{promotion};
ghost use Rattle.c_expr_rules.specs.Operators.{kind_in, negative, complement, plus, known_test, test_tree, negation};

use c_expr_rules::{
    Known, Made, Typed, integer_as, is_pointer, kind_of_value, kind_value, operate, promote,
    then_do,
};
use c_tree::Operation;
use c_types::CType;
use filc_num::{BinOp, CIntType, IntType};
use std::alloc::{AllocError, Global};

/// The type to which the operand's value is promoted: operations are computed in it.
fn promoted_kind(typed: &Typed) -> CIntType
    ensures kind { result ≡ promotion (kind_in typed.now) }
    ensures promoted { IsTrue (is_promoted (int_type_of result)) }
{
    promote(kind_of_value(typed))
}

/// `-`
pub fn negative(alloc: Global, line: u32, typed: Typed) -> Result<Typed, AllocError>
    ensures { IfOk result (λ t. t ≡ negative line typed) }
{
    let kind = promoted_kind(&typed);
    let ty = kind.int_type();
    let known = operate(BinOp::Sub, ty, Known::Integer(0), typed.known);
    let made = then_do(alloc, line, Operation::Negate(ty), typed.made)?;
    Ok(kind_value(kind, line, made, known))
}

/// `~`
pub fn complement(alloc: Global, line: u32, typed: Typed) -> Result<Typed, AllocError>
    ensures { IfOk result (λ t. t ≡ complement line typed) }
{
    let kind = promoted_kind(&typed);
    let ty = kind.int_type();
    let known = operate(BinOp::Xor, ty, typed.known, Known::Integer(u64::MAX));
    let made = then_do(alloc, line, Operation::Complement(ty), typed.made)?;
    Ok(kind_value(kind, line, made, known))
}

/// `+` gives the promoted value.
pub fn plus(alloc: Global, line: u32, typed: Typed) -> Result<Typed, AllocError>
    ensures { IfOk result (λ t. t ≡ plus line typed) }
{
    let kind = promoted_kind(&typed);
    let from = kind_of_value(&typed);
    let mut promoted = integer_as(alloc, CType::Integer(kind), kind, from, typed)?;
    promoted.line = line;
    Ok(promoted)
}

/// What is known of a value where only matters whether it is 0: of a pointer nothing.
pub fn known_test(typed: &Typed) -> Known
    ensures { result ≡ known_test typed.now }
{
    if is_pointer(typed.ty) {
        Known::Nothing
    } else {
        typed.known
    }
}

/// A value where only matters whether it is 0: of a pointer, whether it isn't null.
pub fn test_tree(alloc: Global, typed: Typed) -> Result<Made, AllocError>
    ensures { IfOk result (λ m. m ≡ test_tree typed) }
{
    if is_pointer(typed.ty) {
        let line = typed.line;
        then_do(alloc, line, Operation::ToInteger(IntType::Bool), typed.made)
    } else {
        Ok(typed.made)
    }
}

/// `!` gives an int.
pub fn negation(alloc: Global, line: u32, typed: Typed) -> Result<Typed, AllocError>
    ensures { IfOk result (λ t. t ≡ negation line typed) }
{
    let ty = promoted_kind(&typed).int_type();
    let known = operate(BinOp::Eq, ty, known_test(&typed), Known::Integer(0));
    let test = test_tree(alloc, typed)?;
    let made = then_do(alloc, line, Operation::Not(ty), test)?;
    Ok(kind_value(CIntType::Int, line, made, known))
}
