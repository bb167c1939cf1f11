//! Trees, as long as operations are added to them.

ghost use Rattle.std.specs.Prelude.{◌≡◌, ◌==◌, [], ◌∷◌, if◌then◌else◌, IfOk};
ghost use Rattle.c_expr_rules.specs.TypedExpressions.{tree_of, made_of, leaf, with_operation};

use c_tree::{Expr, Link, Operation};
use sqlite_items::{Boxed, Items};
use std::alloc::{AllocError, Global};

/// The first expression of a chain and its links. `line` is the chain's.
#[derive(Drop)]
pub struct Made {
    pub line: u32,
    pub first: Expr,
    pub links: Items<Link>,
}

/// A tree to which nothing is added yet.
pub fn made_of(alloc: Global, line: u32, first: Expr) -> Made
    ensures { result ≡ made_of line first }
{
    Made {
        line,
        first,
        links: Items::new(alloc),
    }
}

/// An operation without operands.
pub fn leaf(alloc: Global, line: u32, op: Operation) -> Made
    ensures { result ≡ leaf line op }
{
    let operands = Items::new(alloc);
    made_of(alloc, line, Expr::Apply { line, op, operands })
}

/// The whole tree.
pub fn tree_of(alloc: Global, made: Made) -> Result<Expr, AllocError>
    ensures { IfOk result (λ tree. tree ≡ tree_of made) }
{
    let Made { line, first, links } = made;
    if links.is_empty() {
        return Ok(first);
    }
    let first = Boxed::new(alloc, first)?;
    Ok(Expr::Chain { line, first, links })
}

/// The tree as the one operand of an operation.
pub fn operand_of(alloc: Global, made: Made) -> Result<Items<Expr>, AllocError>
    ensures { IfOk result (λ operands. operands ≡ tree_of made ∷ []) }
{
    let mut operands = Items::new(alloc);
    operands.push(tree_of(alloc, made)?)?;
    Ok(operands)
}

/// The tree as the beginning of a chain of this line: the links of a chain have its line, and on another line a new
/// chain begins.
fn chain_on(alloc: Global, line: u32, made: Made) -> Result<Made, AllocError>
    ensures { IfOk result (λ m. m
        ≡ (if line == made.line then made else made_of line (tree_of made))) }
{
    if line == made.line {
        return Ok(made);
    }
    let first = tree_of(alloc, made)?;
    Ok(made_of(alloc, line, first))
}

/// An operation with the tree as its first operand.
pub fn with_operation(
    alloc: Global,
    line: u32,
    op: Operation,
    operands: Items<Expr>,
    made: Made,
) -> Result<Made, AllocError>
    ensures { IfOk result (λ m. m ≡ with_operation line op operands made) }
{
    let mut chain = chain_on(alloc, line, made)?;
    chain.links.push(Link { op, operands })?;
    Ok(chain)
}

/// An operation on the tree alone.
pub fn then_do(alloc: Global, line: u32, op: Operation, made: Made) -> Result<Made, AllocError>
    ensures { IfOk result (λ m. m ≡ with_operation line op [] made) }
{
    with_operation(alloc, line, op, Items::new(alloc), made)
}

/// An operation on the tree and another one.
pub fn with_operand(
    alloc: Global,
    line: u32,
    op: Operation,
    made: Made,
    operand: Made,
) -> Result<Made, AllocError>
    ensures { IfOk result (λ m. m
        ≡ with_operation line op (tree_of operand ∷ []) made) }
{
    let operands = operand_of(alloc, operand)?;
    with_operation(alloc, line, op, operands, made)
}
