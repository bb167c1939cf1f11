//! `&&` and `||` (C11 6.5.13, 6.5.14), and the comma (6.5.17).

ghost use Rattle.std.specs.Prelude.{◌≡◌, IfOk};
ghost use Rattle.c_expr_rules.specs.Outcomes as o;
ghost use Rattle.filc_num.specs.declared.c_int_type.CIntType.TheVariants.{Int};
ghost use Rattle.c_tree.specs.declared.expr.Expr.TheVariants as tree;
ghost use Rattle.c_expr_rules.specs.TypedExpressions.{made_of, kind_value};
ghost use Rattle.c_expr_rules.specs.Expressions.{first_test, with_test, second};
ghost use Rattle.c_expr_rules.specs.Views.{checked};

use crate::unary::{known_test, test_tree};
use c_expr_rules::{
    Found, Known, Tests, Typed, by_rules, folding, is_scalar, kind_value, made_of, operand_of,
    part_value, tree_of, with_operand,
};
use c_rules::Rule;
use c_tree::{Expr, Operation};
use filc_num::CIntType;
use sqlite_items::Items;
use std::alloc::{AllocError, Global};

/// The first operand.
pub fn first_test(alloc: Global, first: Typed) -> Result<Tests, AllocError>
    ensures { IfOk result (λ t. (s : o.State) → t ≡ first_test s first) }
{
    let known = known_test(&first);
    let is_scalar = is_scalar(first.ty);
    let test = test_tree(alloc, first)?;
    Ok(Tests {
        operands: operand_of(alloc, test)?,
        known,
        is_scalar,
    })
}

/// A further operand.
pub fn with_test(
    alloc: Global,
    line: u32,
    all: bool,
    tests: Tests,
    operand: Typed,
) -> Result<Found<Tests>, AllocError>
    ensures { IfOk result (λ found. (s : o.State) → checked s found
        ≡ with_test line all tests s operand) }
{
    let Tests {
        mut operands,
        known,
        is_scalar: were_scalar,
    } = tests;
    let rules = [(Rule::BadOperand, !(were_scalar && is_scalar(operand.ty)))];
    let known = folding::logic(all, known, known_test(&operand));
    let test = test_tree(alloc, operand)?;
    operands.push(tree_of(alloc, test)?)?;
    let found = Tests {
        operands,
        known,
        is_scalar: true,
    };
    Ok(by_rules(line, &rules, found))
}

/// What all operands together give: an int.
pub fn logic(alloc: Global, line: u32, all: bool, tests: Tests) -> Typed
    ensures { result
        ≡ kind_value Int line (made_of line (tree.Logic line all tests.operands)) tests.known }
{
    let Tests {
        operands,
        known,
        ..
    } = tests;
    let tree = Expr::Logic {
        line,
        all,
        operands,
    };
    kind_value(CIntType::Int, line, made_of(alloc, line, tree), known)
}

/// A comma's value comes from its second operand.
pub fn second(alloc: Global, line: u32, x: Typed, y: Typed) -> Result<Typed, AllocError>
    ensures { IfOk result (λ t. t ≡ second line x y) }
{
    let (ty, of_register) = (y.ty, y.of_register);
    let made = with_operand(alloc, line, Operation::Second, x.made, y.made)?;
    Ok(part_value(ty, line, made, Known::Nothing, of_register))
}
