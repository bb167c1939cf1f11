//! Statements: the first lexeme tells which it is.

ghost use Rattle.std.specs.Prelude.{◌≡◌, ℕ, ◌-◌, ◌<◌, ◌≤◌, List, [], ◌∷◌, length, map, codes, IsTrue, true, false};
ghost use Rattle.form_reader.specs.Lexemes.{Lexeme, Run, Mark};
ghost use Rattle.form_reader.specs.Grammar.{AreStmts, IsClosed, IsExpr, IsStmt, is_keyword};
ghost use Rattle.form_reader.specs.Reading.{Reads, EndsRank, EndsAnywhere, EndsBlock};

use crate::expressions::{COMPARISON, expression, place_of};
use crate::form::{ReadFault, takes_mark};
use crate::lexemes::{Token, Tokens};
use form_tree::{Expr, Stmt};
use sqlite_items::{Boxed, Items};
use std::alloc::Global;

/// An expression and the mark that closes it.
fn closed(
    alloc: Global,
    tokens: &mut Tokens<'_>,
    names: &[&[u8]],
    room: u32,
    mark: u8,
) -> Result<Expr, ReadFault>
    requires few { length names.now ≤ 256 }
    requires room { room ≤ 200 }
    requires mark { (line : ℕ) (rest : List Lexeme) → EndsRank 3 (Mark mark line ∷ rest) }
    ensures { Reads (IsClosed mark (IsExpr (map (λ n. n.now) names.now) room)) EndsAnywhere result tokens.old tokens.new }
{
    let value = expression(alloc, tokens, names, room, COMPARISON)?;
    if takes_mark(tokens, mark) {
        return Ok(value);
    }
    Err(ReadFault::NotForm)
}

/// An assignment, whose name was taken.
fn assigned(
    alloc: Global,
    tokens: &mut Tokens<'_>,
    names: &[&[u8]],
    room: u32,
    name: &[u8],
    line: u32,
) -> Result<Stmt, ReadFault>
    requires few { length names.now ≤ 256 }
    requires room { room ≤ 200 }
    requires some { 0 < room }
    requires name { is_keyword name.now ≡ false }
    ensures { (putchar : _) → Reads (IsStmt (map (λ n. n.now) names.now) putchar room) EndsAnywhere result (Run name.now line ∷ tokens.old) tokens.new }
{
    let Some(local) = place_of(names, name) else {
        return Err(ReadFault::NotForm);
    };
    if !takes_mark(tokens, b'=') {
        return Err(ReadFault::NotForm);
    }
    let value = closed(alloc, tokens, names, room - 1, b';')?;
    Ok(Stmt::Assign {
        line,
        local: local as u32,
        value,
    })
}

/// A call of `putchar`, whose name was taken.
fn put(
    alloc: Global,
    tokens: &mut Tokens<'_>,
    names: &[&[u8]],
    putchar: bool,
    room: u32,
    line: u32,
) -> Result<Stmt, ReadFault>
    requires few { length names.now ≤ 256 }
    requires room { room ≤ 200 }
    requires some { 0 < room }
    ensures { Reads (IsStmt (map (λ n. n.now) names.now) putchar room) EndsAnywhere result (Run (codes "putchar") line ∷ tokens.old) tokens.new }
{
    if !putchar {
        return Err(ReadFault::NotForm);
    }
    if !takes_mark(tokens, b'(') {
        return Err(ReadFault::NotForm);
    }
    let value = closed(alloc, tokens, names, room - 1, b')')?;
    if !takes_mark(tokens, b';') {
        return Err(ReadFault::NotForm);
    }
    Ok(Stmt::PutChar { line, value })
}

/// Whether the next lexeme is the brace that closes a block.
fn is_at_brace(tokens: &Tokens<'_>) -> bool
    ensures yes { IsTrue result → (line : ℕ) × (rest : List Lexeme) × (tokens.now ≡ Mark 125 line ∷ rest) }
    ensures no { result ≡ false → (line : ℕ) (rest : List Lexeme) → tokens.now ≡ Mark 125 line ∷ rest → ⊥ }
{
    match tokens.peek() {
        Some(Token::Mark(byte, _)) => byte == b'}',
        Some(Token::Run(_, _) | Token::Twin(_)) => false,
        None => false,
    }
}

/// Statements up to the brace that closes them.
#[cycle(statement)]
pub fn statements(
    alloc: Global,
    tokens: &mut Tokens<'_>,
    names: &[&[u8]],
    putchar: bool,
    room: u32,
) -> Result<Items<Stmt>, ReadFault>
    requires few { length names.now ≤ 256 }
    requires room { room ≤ 200 }
    ensures { Reads (AreStmts (IsStmt (map (λ n. n.now) names.now) putchar room)) EndsBlock result tokens.old tokens.new }
{
    let mut list = Items::new(alloc);
    while !is_at_brace(tokens) {
        let next = statement(alloc, tokens, names, putchar, room)?;
        list.push(next)?;
    }
    Ok(list)
}

/// A statement.
#[cycle(statement)]
fn statement(
    alloc: Global,
    tokens: &mut Tokens<'_>,
    names: &[&[u8]],
    putchar: bool,
    room: u32,
) -> Result<Stmt, ReadFault>
    requires few { length names.now ≤ 256 }
    requires room { room ≤ 200 }
    ensures { Reads (IsStmt (map (λ n. n.now) names.now) putchar room) EndsAnywhere result tokens.old tokens.new }
{
    match tokens.next() {
        Some(Token::Run(word, line)) => worded(alloc, tokens, names, putchar, room, word, line),
        Some(Token::Mark(byte, line)) => marked(alloc, tokens, names, putchar, room, byte, line),
        Some(Token::Twin(_)) => Err(ReadFault::NotForm),
        None => Err(ReadFault::NotForm),
    }
}

/// A statement whose first word was taken.
#[cycle(statement)]
fn worded(
    alloc: Global,
    tokens: &mut Tokens<'_>,
    names: &[&[u8]],
    putchar: bool,
    room: u32,
    word: &[u8],
    line: u32,
) -> Result<Stmt, ReadFault>
    requires few { length names.now ≤ 256 }
    requires room { room ≤ 200 }
    ensures { Reads (IsStmt (map (λ n. n.now) names.now) putchar room) EndsAnywhere result (Run word.now line ∷ tokens.old) tokens.new }
{
    if word == b"return".as_slice() {
        let value = closed(alloc, tokens, names, room, b';')?;
        return Ok(Stmt::Return { line, value });
    }
    if room == 0 {
        return Err(ReadFault::NotForm);
    }
    if word == b"while".as_slice() {
        return looped(alloc, tokens, names, putchar, room, line);
    }
    if word == b"putchar".as_slice() {
        return put(alloc, tokens, names, putchar, room, line);
    }
    assigned(alloc, tokens, names, room, word, line)
}

/// A loop, whose first word was taken.
#[cycle(statement)]
fn looped(
    alloc: Global,
    tokens: &mut Tokens<'_>,
    names: &[&[u8]],
    putchar: bool,
    room: u32,
    line: u32,
) -> Result<Stmt, ReadFault>
    requires few { length names.now ≤ 256 }
    requires room { room ≤ 200 }
    requires some { 0 < room }
    ensures { Reads (IsStmt (map (λ n. n.now) names.now) putchar room) EndsAnywhere result (Run (codes "while") line ∷ tokens.old) tokens.new }
{
    if !takes_mark(tokens, b'(') {
        return Err(ReadFault::NotForm);
    }
    let test = closed(alloc, tokens, names, room - 1, b')')?;
    let body = statement(alloc, tokens, names, putchar, room - 1)?;
    Ok(Stmt::While {
        line,
        test,
        body: Boxed::new(alloc, body)?,
    })
}

/// A statement whose first mark was taken: nothing, or a block.
#[cycle(statement)]
fn marked(
    alloc: Global,
    tokens: &mut Tokens<'_>,
    names: &[&[u8]],
    putchar: bool,
    room: u32,
    byte: u8,
    line: u32,
) -> Result<Stmt, ReadFault>
    requires few { length names.now ≤ 256 }
    requires room { room ≤ 200 }
    ensures { Reads (IsStmt (map (λ n. n.now) names.now) putchar room) EndsAnywhere result (Mark byte line ∷ tokens.old) tokens.new }
{
    if byte == b';' {
        return Ok(Stmt::Empty);
    }
    if byte != b'{' {
        return Err(ReadFault::NotForm);
    }
    if room == 0 {
        return Err(ReadFault::NotForm);
    }
    let body = statements(alloc, tokens, names, putchar, room - 1)?;
    if !takes_mark(tokens, b'}') {
        return Err(ReadFault::NotForm);
    }
    Ok(Stmt::Block {
        locals: Items::new(alloc),
        body,
    })
}
