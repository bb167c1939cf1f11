//! What each kind of row comes to, as a text.

ghost use Rattle.c_cursor.specs.Input.{Gives, answer};
ghost use Rattle.c_syntax.specs.Grammar.{inner};
ghost use Rattle.c_expr_parser.specs.Opened.{opened_read};

use crate::lexemes::{end, lexemes, name, push_words, words};
use crate::tree_text::tree_text;
use c_cursor::{Cursor, Fault};
use c_expr_parser::{Grammar, Opened, Refusal, What, construct, expression};
use c_file_parser::file;
use c_parts::{Binding, Lexeme};
use c_syntax::{Expr, ExprKind};
use std::alloc::{AllocError, Global};

/// The tree of tokens; so many that their numbers do not fit are refused as memory is.
fn read(alloc: Global, tokens: &[Lexeme]) -> Result<Expr, Refusal> {
    if tokens.len() < 1 << 32 {
        expression(alloc, tokens)
    } else {
        Err(Refusal::NoMemory)
    }
}

/// The tree of a text, or why it is refused and at which token.
pub fn tree_answer(alloc: Global, text: &str) -> Result<String, AllocError> {
    let words = words(alloc, text)?;
    let tokens = lexemes(alloc, &words)?;
    match read(alloc, &tokens) {
        Ok(tree) => tree_text(alloc, &words, &tree),
        Err(refusal) => format!(in alloc; "{refusal:?}"),
    }
}

/// What stands inside of a construct.
fn construct_inside(
    alloc: Global,
    cursor: &mut Cursor<'_>,
    room: u32,
    what: What,
) -> Result<Opened, Fault>
    ensures { Gives (answer (opened_read what (inner room)) cursor.old) result cursor.new }
{
    construct(alloc, cursor, room, what)
}

/// The tree of a text where `T` is a typedef, or the token that is refused.
pub fn typedef_answer(alloc: Global, text: &str) -> Result<String, AllocError> {
    let words = words(alloc, text)?;
    let tokens = lexemes(alloc, &words)?;
    if tokens.len() >= 1 << 32 {
        return format!(in alloc; "too long");
    }
    let mut cursor = Cursor::new(alloc, &tokens);
    cursor.declare(Binding {
        name: name("T"),
        is_typedef: true,
    })?;
    let grammar = Grammar {
        alloc,
        room: 200,
        inner: construct_inside,
    };
    let read = grammar.expression(&mut cursor);
    let place = tokens.len().saturating_sub(cursor.remaining());
    match read {
        Ok(tree) if cursor.remaining() == 1 => tree_text(alloc, &words, &tree),
        Ok(_) => format!(in alloc; "left {place}"),
        Err(fault) => format!(in alloc; "{fault:?} {place}"),
    }
}

/// The operator of a text's tree, as it prints for debugging.
pub fn operator_answer(alloc: Global, text: &str) -> Result<String, AllocError> {
    let words = words(alloc, text)?;
    let tokens = lexemes(alloc, &words)?;
    match read(alloc, &tokens) {
        Ok(tree) => operator_of(alloc, &tree),
        Err(refusal) => format!(in alloc; "{refusal:?}"),
    }
}

fn operator_of(alloc: Global, tree: &Expr) -> Result<String, AllocError> {
    let mut out = String::new(alloc);
    match &tree.kind {
        ExprKind::Prefix { operator, .. } => write!(out, "{operator:?}")?,
        ExprKind::Assign { operator, .. } => write!(out, "{operator:?}")?,
        ExprKind::Chain { links, .. } => {
            for link in links.as_slice() {
                write!(out, "{:?}", link.operator)?;
            }
        }
        _ => {}
    }
    Ok(out)
}

/// How many items a list of tokens has as a file, or why it is refused and at which token.
fn items_of(alloc: Global, tokens: &[Lexeme]) -> Result<String, AllocError> {
    if tokens.len() >= 1 << 32 {
        return format!(in alloc; "too long");
    }
    match file(alloc, tokens) {
        Ok(file) => format!(in alloc; "{}", file.items.len()),
        Err(refusal) => format!(in alloc; "{refusal:?}"),
    }
}

/// The same of a text.
pub fn file_answer(alloc: Global, text: &str) -> Result<String, AllocError> {
    let words = words(alloc, text)?;
    let tokens = lexemes(alloc, &words)?;
    items_of(alloc, &tokens)
}

/// The words so many times.
fn repeat(tokens: &mut Vec<Lexeme>, words: &str, count: u32) -> Result<(), AllocError> {
    for _ in 0..count {
        push_words(tokens, words)?;
    }
    Ok(())
}

/// Whether the words of `before` so many times, `middle`, and `behind` as many times are an expression.
pub fn nest_answer(
    alloc: Global,
    count: u32,
    before: &str,
    middle: &str,
    behind: &str,
) -> Result<String, AllocError> {
    let mut tokens = Vec::new(alloc);
    repeat(&mut tokens, before, count)?;
    push_words(&mut tokens, middle)?;
    repeat(&mut tokens, behind, count)?;
    tokens.push(end())?;
    match read(alloc, &tokens) {
        Ok(_) => format!(in alloc; "read"),
        Err(refusal) => format!(in alloc; "{refusal:?}"),
    }
}

/// A function with the word so many times in its body, and as many times what closes it.
pub fn block_answer(
    alloc: Global,
    count: u32,
    word: &str,
    closing: &str,
) -> Result<String, AllocError> {
    let mut tokens = Vec::new(alloc);
    push_words(&mut tokens, "int f ( void ) {")?;
    repeat(&mut tokens, word, count)?;
    repeat(&mut tokens, closing, count)?;
    push_words(&mut tokens, "}")?;
    tokens.push(end())?;
    items_of(alloc, &tokens)
}

/// How many times something stands behind the first operand.
fn links(tree: &Expr) -> usize {
    match &tree.kind {
        ExprKind::Chain { links, .. } => links.len(),
        ExprKind::Postfix { operators, .. } => operators.len(),
        ExprKind::Comma { rest, .. } => rest.len(),
        _ => 0,
    }
}

/// A name, and the words behind it so many times: how many of them its tree has.
pub fn chain_answer(alloc: Global, count: u32, words: &str) -> Result<String, AllocError> {
    let mut tokens = Vec::new(alloc);
    push_words(&mut tokens, "a")?;
    repeat(&mut tokens, words, count)?;
    tokens.push(end())?;
    match read(alloc, &tokens) {
        Ok(tree) => format!(in alloc; "{}", links(&tree)),
        Err(refusal) => format!(in alloc; "{refusal:?}"),
    }
}
