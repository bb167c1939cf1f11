//! Whether an expression keeps what an expression keeps.

ghost use Rattle.std.specs.Prelude.{◌<◌, ◌↔◌, IsTrue, All, length};
ghost use Rattle.c_tree.specs.Operands.{OpFits};
ghost use Rattle.c_tree.specs.Fits.{IsPutOut, PieceFits, ExprFits};
ghost use Rattle.program_fits.specs.Lists.{LinkFits};

use crate::operation::op_fits;
use crate::outline::{Names, Place};
use c_tree::{Expr, Link, Operation, Piece};

/// Whether an operand is one of so many, but not the first.
fn is_put_out(operands: usize, operand: u32) -> bool
    ensures { IsTrue result ↔ IsPutOut operands operand }
{
    operand > 0 && (operand as usize) < operands
}

/// Whether a piece of what `printf` puts out fits so many operands.
fn piece_fits(names: &Names, operands: usize, piece: Piece) -> bool
    ensures { IsTrue result ↔ PieceFits names.now operands piece }
{
    match piece {
        Piece::Byte(_) => true,
        Piece::Out(operand) => is_put_out(operands, operand),
        Piece::Put {
            function,
            operand,
            radix,
        } => is_put_out(operands, operand) && names.puts(function, radix),
    }
}

/// Whether each piece fits so many operands.
fn pieces_fit(names: &Names, operands: usize, pieces: &[Piece]) -> bool
    ensures { IsTrue result ↔ All (PieceFits names.now operands) pieces.now }
{
    pieces
        .iter()
        .all(|piece| piece_fits(names, operands, *piece))
}

/// Whether each operand fits.
#[cycle(expression)]
fn operands_fit(names: &Names, here: &Place, operands: &[Expr]) -> bool
    ensures { IsTrue result ↔ All (ExprFits names.now here.now) operands.now }
{
    for operand in operands {
        if !expr_fits(names, here, operand) {
            return false;
        }
    }
    true
}

/// Whether a link of a chain fits.
#[cycle(expression)]
fn link_fits(names: &Names, here: &Place, link: &Link) -> bool
    ensures { IsTrue result ↔ LinkFits names.now here.now link.now }
{
    let operands = link.operands.as_slice();
    op_fits(names, here, link.op, operands.len() + 1) && operands_fit(names, here, operands)
}

/// Whether each link of a chain fits.
#[cycle(expression)]
fn links_fit(names: &Names, here: &Place, links: &[Link]) -> bool
    ensures { IsTrue result ↔ All (LinkFits names.now here.now) links.now }
{
    for link in links {
        if !link_fits(names, here, link) {
            return false;
        }
    }
    true
}

/// Whether an operation fits its operands, and each of them fits.
#[cycle(expression)]
fn apply_fits(names: &Names, here: &Place, op: Operation, operands: &[Expr]) -> bool
    ensures { IsTrue result ↔ (OpFits names.now here.now op (length operands.now)
        × All (ExprFits names.now here.now) operands.now) }
{
    op_fits(names, here, op, operands.len()) && operands_fit(names, here, operands)
}

/// Whether what a chain begins with fits, and each of its links.
#[cycle(expression)]
fn chain_fits(names: &Names, here: &Place, first: &Expr, links: &[Link]) -> bool
    ensures { IsTrue result ↔ (ExprFits names.now here.now first.now
        × All (LinkFits names.now here.now) links.now) }
{
    expr_fits(names, here, first) && links_fit(names, here, links)
}

/// Whether there are operands, and each of them fits.
#[cycle(expression)]
fn some_fit(names: &Names, here: &Place, operands: &[Expr]) -> bool
    ensures { IsTrue result
        ↔ ((0 < length operands.now) × All (ExprFits names.now here.now) operands.now) }
{
    operands.len() > 0 && operands_fit(names, here, operands)
}

/// Whether a test and two values fit.
#[cycle(expression)]
fn choice_fits(names: &Names, here: &Place, test: &Expr, one: &Expr, other: &Expr) -> bool
    ensures { IsTrue result ↔ (ExprFits names.now here.now test.now
        × (ExprFits names.now here.now one.now × ExprFits names.now here.now other.now)) }
{
    expr_fits(names, here, test) && expr_fits(names, here, one) && expr_fits(names, here, other)
}

/// Whether what `printf` puts out fits, behind the lock that its first operand points to.
#[cycle(expression)]
fn print_fits(names: &Names, here: &Place, operands: &[Expr], pieces: &[Piece]) -> bool
    ensures { IsTrue result ↔ ((0 < length operands.now)
        × (All (ExprFits names.now here.now) operands.now
        × All (PieceFits names.now (length operands.now)) pieces.now)) }
{
    operands.len() > 0
        && operands_fit(names, here, operands)
        && pieces_fit(names, operands.len(), pieces)
}

/// Whether an expression fits where it stands.
#[cycle(expression)]
pub fn expr_fits(names: &Names, here: &Place, expr: &Expr) -> bool
    ensures { IsTrue result ↔ ExprFits names.now here.now expr.now }
{
    match expr {
        Expr::Apply { op, operands, .. } => apply_fits(names, here, *op, operands.as_slice()),
        Expr::Chain { first, links, .. } => {
            chain_fits(names, here, first.get(), links.as_slice())
        }
        Expr::Logic { operands, .. } => some_fit(names, here, operands.as_slice()),
        Expr::Choose {
            test,
            then,
            otherwise,
            ..
        } => choice_fits(names, here, test.get(), then.get(), otherwise.get()),
        Expr::Print {
            operands,
            pieces,
            ..
        } => print_fits(names, here, operands.as_slice(), pieces.as_slice()),
    }
}
