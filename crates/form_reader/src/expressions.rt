//! Expressions: a descent by the ranks of the operators.

ghost use Rattle.std.specs.Prelude.{◌≡◌, ℕ, suc, ◌+◌, ◌<◌, ◌≤◌, false, List, [], ◌∷◌, ◌++◌, Option, Some, None, length, map, position, IfSome, IfNone, true};
ghost use Rattle.std.specs.List.{list_all};
ghost use Rattle.std.specs.Borrow.{Bor};
ghost use Rattle.std.specs.Str.{bytes_eq};
ghost use Rattle.form_tree.specs.declared.expr.Expr.{Expr};
ghost use Rattle.form_reader.specs.Lexemes.{Lexeme, Run, Mark, begins, is_letter};
ghost use Rattle.form_reader.specs.Tokens.{lexeme_of};
ghost use Rattle.form_reader.specs.Grammar.{operator_of, AreLinks, IsLeaf, IsOfRank, IsPrefix};
ghost use Rattle.form_reader.specs.Reading.{Reads, HasNoOperator, EndsRank};

use crate::form::{ReadFault, number_of, takes_mark};
use crate::lexemes::{Token, Tokens, begins_with_letter};
use filc_num::{BinOp, IntType};
use form_tree::{Expr, Link};
use sqlite_items::{Boxed, Items};
use std::alloc::Global;

fn first_place_of(names: &[&[u8]], name: &[u8]) -> Option<usize>
    ensures { result ≡ position (λ (other : Bor (List ℕ)). bytes_eq other.now name.now) names.now }
{
    names.iter().position(|other| *other == name)
}

/// The place of a name among the declared ones.
pub fn place_of(names: &[&[u8]], name: &[u8]) -> Option<usize>
    ensures place { result ≡ position (λ other. bytes_eq other name.now) (map (λ n. n.now) names.now) }
    ensures within { IfSome result (λ place. place < length names.now) }
{
    first_place_of(names, name)
}

/// The local that a name stands for.
fn name_leaf(names: &[&[u8]], bytes: &[u8], line: u32) -> Option<Expr>
    requires few { length names.now ≤ 256 }
    requires letter { begins is_letter bytes.now ≡ true }
    ensures found { IfSome result (λ e. IsLeaf (map (λ n. n.now) names.now) e (Run bytes.now line ∷ [])) }
    ensures only { IfSome result (λ f. (e : Expr) → IsLeaf (map (λ n. n.now) names.now) e (Run bytes.now line ∷ []) → f ≡ e) }
    ensures none { IfNone result ((e : Expr) → IsLeaf (map (λ n. n.now) names.now) e (Run bytes.now line ∷ []) → ⊥) }
{
    let local = place_of(names, bytes)? as u32;
    Some(Expr::Local {
        line,
        ty: IntType::I32,
        local,
    })
}

/// A number, or the name of a local.
fn leaf(names: &[&[u8]], bytes: &[u8], line: u32) -> Option<Expr>
    requires { length names.now ≤ 256 }
    ensures found { IfSome result (λ e. IsLeaf (map (λ n. n.now) names.now) e (Run bytes.now line ∷ [])) }
    ensures only { IfSome result (λ f. (e : Expr) → IsLeaf (map (λ n. n.now) names.now) e (Run bytes.now line ∷ []) → f ≡ e) }
    ensures none { IfNone result ((e : Expr) → IsLeaf (map (λ n. n.now) names.now) e (Run bytes.now line ∷ []) → ⊥) }
{
    if begins_with_letter(bytes) {
        return name_leaf(names, bytes, line);
    }
    let number = number_of(bytes)?;
    Some(Expr::Number {
        line,
        ty: IntType::I32,
        value: u64::from(number),
    })
}

/// The rank of what no operator but a prefix stands in.
const PREFIX: u32 = 0;

/// The rank of the comparisons, the highest.
pub const COMPARISON: u32 = 3;

/// The operator of a rank that is written so.
fn operator_of(rank: u32, byte: u8) -> Option<BinOp>
    ensures { result ≡ operator_of rank byte }
{
    match (rank, byte) {
        (1, b'*') => Some(BinOp::Mul),
        (2, b'+') => Some(BinOp::Add),
        (2, b'-') => Some(BinOp::Sub),
        (3, b'<') => Some(BinOp::Lt),
        _ => None,
    }
}

/// The operator of a rank that stands at the front.
fn operator_at(tokens: &Tokens<'_>, rank: u32) -> Option<BinOp>
    ensures found { IfSome result (λ op. (byte line : ℕ) × (rest : List Lexeme) × (tokens.now ≡ Mark byte line ∷ rest) × (operator_of rank byte ≡ Some op)) }
    ensures none { IfNone result (HasNoOperator rank tokens.now) }
{
    match tokens.peek() {
        Some(Token::Mark(byte, _)) => operator_of(rank, byte),
        _ => None,
    }
}

/// Operators of one rank, each with its operand, as many as there are.
#[cycle(expression)]
fn links(
    alloc: Global,
    tokens: &mut Tokens<'_>,
    names: &[&[u8]],
    room: u32,
    below: u32,
) -> Result<Items<Link>, ReadFault>
    requires few { length names.now ≤ 256 }
    requires rank { below < 3 }
    requires room { room ≤ 200 }
    ensures { Reads (AreLinks (suc below) (IsOfRank below (IsPrefix (map (λ n. n.now) names.now) room))) (EndsRank (suc below)) result tokens.old tokens.new }
{
    let mut links = Items::new(alloc);
    while let Some(op) = operator_at(tokens, below + 1) {
        tokens.next();
        let operand = expression(alloc, tokens, names, room, below)?;
        links.push(Link {
            op,
            ty: IntType::I32,
            operand,
        })?;
    }
    Ok(links)
}

/// Operands with operators of a rank between them, or one operand alone.
#[cycle(expression)]
pub fn expression(
    alloc: Global,
    tokens: &mut Tokens<'_>,
    names: &[&[u8]],
    room: u32,
    rank: u32,
) -> Result<Expr, ReadFault>
    requires few { length names.now ≤ 256 }
    requires rank { rank ≤ 3 }
    requires room { room ≤ 200 }
    ensures { Reads (IsOfRank rank (IsPrefix (map (λ n. n.now) names.now) room)) (EndsRank rank) result tokens.old tokens.new }
{
    if rank == PREFIX {
        return prefixed(alloc, tokens, names, room);
    }
    let line = tokens.line();
    let first = expression(alloc, tokens, names, room, rank - 1)?;
    let links = links(alloc, tokens, names, room, rank - 1)?;
    if links.is_empty() {
        return Ok(first);
    }
    Ok(Expr::Chain {
        line,
        first: Boxed::new(alloc, first)?,
        links,
    })
}

/// A leaf, an expression in brackets, or a minus sign with its operand.
#[cycle(expression)]
fn prefixed(
    alloc: Global,
    tokens: &mut Tokens<'_>,
    names: &[&[u8]],
    room: u32,
) -> Result<Expr, ReadFault>
    requires few { length names.now ≤ 256 }
    requires room { room ≤ 200 }
    ensures { Reads (IsPrefix (map (λ n. n.now) names.now) room) (EndsRank 0) result tokens.old tokens.new }
{
    match tokens.next() {
        Some(Token::Run(bytes, line)) => leaf(names, bytes, line).ok_or(ReadFault::NotForm),
        Some(Token::Mark(byte, line)) => marked(alloc, tokens, names, room, byte, line),
        Some(Token::Twin(_)) => Err(ReadFault::NotForm),
        None => Err(ReadFault::NotForm),
    }
}

/// What stands behind a mark that was taken: an expression in brackets, or the operand of a minus sign.
#[cycle(expression)]
fn marked(
    alloc: Global,
    tokens: &mut Tokens<'_>,
    names: &[&[u8]],
    room: u32,
    byte: u8,
    line: u32,
) -> Result<Expr, ReadFault>
    requires few { length names.now ≤ 256 }
    requires room { room ≤ 200 }
    ensures { Reads (IsPrefix (map (λ n. n.now) names.now) room) (EndsRank 0) result (Mark byte line ∷ tokens.old) tokens.new }
{
    if room == 0 {
        return Err(ReadFault::NotForm);
    }
    if byte == b'(' {
        let inner = expression(alloc, tokens, names, room - 1, COMPARISON)?;
        if takes_mark(tokens, b')') {
            return Ok(inner);
        }
        return Err(ReadFault::NotForm);
    }
    if byte == b'-' {
        let operand = prefixed(alloc, tokens, names, room - 1)?;
        return Ok(Expr::Negate {
            line,
            ty: IntType::I32,
            operand: Boxed::new(alloc, operand)?,
        });
    }
    Err(ReadFault::NotForm)
}
