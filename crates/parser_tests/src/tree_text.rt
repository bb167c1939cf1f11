//! A tree as a text: each node that holds others stands in braces, and a type between `<` and `>`.

use c_parts::Span;
use c_syntax::{Expr, ExprKind, Postfix, PostfixKind};
use std::alloc::{AllocError, Global};

/// What is still to be shown.
#[derive(Clone, Copy)]
enum Step<'a> {
    Text(&'a str),
    Words(Span),
    Tree(&'a Expr),
}

/// The tree as a text. The list of what is to be shown grows with the tree, and no call's depth does.
pub fn tree_text<'a>(
    alloc: Global,
    words: &'a [&'a str],
    tree: &'a Expr,
) -> Result<String, AllocError> {
    let mut out = String::new(alloc);
    let mut steps = Vec::new(alloc);
    steps.push(Step::Tree(tree))?;
    for _ in 0..1_000_000 {
        match steps.pop() {
            None => return Ok(out),
            Some(Step::Text(text)) => out.push_str(text)?,
            Some(Step::Words(span)) => show_words(&mut out, words, span)?,
            Some(Step::Tree(tree)) => {
                let mut parts = parts(alloc, words, tree)?;
                parts.reverse();
                steps.append(&mut parts)?;
            }
        }
    }
    Ok(out)
}

fn show_words(out: &mut String, words: &[&str], span: Span) -> Result<(), AllocError> {
    for place in span.first..=span.last {
        if place > span.first {
            out.push_str(" ")?;
        }
        out.push_str(word(words, place))?;
    }
    Ok(())
}

fn word<'a>(words: &[&'a str], place: u32) -> &'a str {
    match words.get(place as usize) {
        Some(word) => word,
        None => "?",
    }
}

/// What a tree consists of, in the order of its tokens.
fn parts<'a>(
    alloc: Global,
    words: &[&'a str],
    tree: &'a Expr,
) -> Result<Vec<Step<'a>>, AllocError> {
    let operator = Step::Text(word(words, tree.span.first));
    let parts = match &tree.kind {
        ExprKind::Name(_) | ExprKind::Number | ExprKind::Character | ExprKind::Text => {
            vec![in alloc; Step::Words(tree.span)]?
        }
        ExprKind::Parens(inner) => {
            vec![in alloc; Step::Text("("), Step::Tree(inner.get()), Step::Text(")")]?
        }
        ExprKind::Prefix { operand, .. } | ExprKind::SizeofExpr(operand) => {
            let operand = Step::Tree(operand.get());
            vec![in alloc;
                Step::Text("{"),
                operator,
                Step::Text(" "),
                operand,
                Step::Text("}"),
            ]?
        }
        ExprKind::SizeofType(ty) | ExprKind::AlignofType(ty) => {
            let ty = Step::Words(ty.get().span);
            vec![in alloc;
                Step::Text("{"),
                operator,
                Step::Text("<"),
                ty,
                Step::Text(">}"),
            ]?
        }
        ExprKind::Cast { ty, operand } => {
            let ty = Step::Words(ty.get().span);
            let operand = Step::Tree(operand.get());
            vec![in alloc;
                Step::Text("{<"),
                ty,
                Step::Text("> "),
                operand,
                Step::Text("}"),
            ]?
        }
        ExprKind::Conditional { .. } | ExprKind::Assign { .. } => three(alloc, words, &tree.kind)?,
        ExprKind::Chain { .. } | ExprKind::Comma { .. } | ExprKind::Postfix { .. } => {
            list_text(alloc, words, &tree.kind)?
        }
    };
    Ok(parts)
}

/// The same of a conditional and of an assignment.
fn three<'a>(
    alloc: Global,
    words: &[&'a str],
    kind: &'a ExprKind,
) -> Result<Vec<Step<'a>>, AllocError> {
    let mut parts = vec![in alloc; Step::Text("{")]?;
    match kind {
        ExprKind::Conditional {
            condition,
            then,
            otherwise,
        } => {
            parts.push(Step::Tree(condition.get()))?;
            parts.push(Step::Text(" ? "))?;
            parts.push(Step::Tree(then.get()))?;
            parts.push(Step::Text(" : "))?;
            parts.push(Step::Tree(otherwise.get()))?;
        }
        ExprKind::Assign { target, value, .. } => {
            let behind = target.get().span.last.saturating_add(1);
            parts.push(Step::Tree(target.get()))?;
            parts.push(Step::Text(" "))?;
            parts.push(Step::Text(word(words, behind)))?;
            parts.push(Step::Text(" "))?;
            parts.push(Step::Tree(value.get()))?;
        }
        _ => {}
    }
    parts.push(Step::Text("}"))?;
    Ok(parts)
}

/// The same of what holds a list.
fn list_text<'a>(
    alloc: Global,
    words: &[&'a str],
    kind: &'a ExprKind,
) -> Result<Vec<Step<'a>>, AllocError> {
    let mut parts = vec![in alloc; Step::Text("{")]?;
    match kind {
        ExprKind::Chain { first, links } => {
            parts.push(Step::Tree(first.get()))?;
            for link in links.as_slice() {
                parts.push(Step::Text(" "))?;
                parts.push(Step::Text(word(words, link.span.first)))?;
                parts.push(Step::Text(" "))?;
                parts.push(Step::Tree(&link.operand))?;
            }
        }
        ExprKind::Comma { first, rest } => {
            parts.push(Step::Tree(first.get()))?;
            push_separated(&mut parts, ", ", rest.as_slice())?;
        }
        ExprKind::Postfix { operand, operators } => {
            parts.push(Step::Tree(operand.get()))?;
            for operator in operators.as_slice() {
                behind(&mut parts, operator)?;
            }
        }
        _ => {}
    }
    parts.push(Step::Text("}"))?;
    Ok(parts)
}

/// Trees, with this before each.
fn push_separated<'a>(
    parts: &mut Vec<Step<'a>>,
    before: &'a str,
    trees: &'a [Expr],
) -> Result<(), AllocError> {
    for tree in trees {
        parts.push(Step::Text(before))?;
        parts.push(Step::Tree(tree))?;
    }
    Ok(())
}

/// An operator behind its operand.
fn behind<'a>(parts: &mut Vec<Step<'a>>, operator: &'a Postfix) -> Result<(), AllocError> {
    match &operator.kind {
        PostfixKind::Index(index) => {
            parts.push(Step::Text("["))?;
            parts.push(Step::Tree(index.get()))?;
            parts.push(Step::Text("]"))?;
        }
        PostfixKind::Call(arguments) => {
            parts.push(Step::Text("("))?;
            push_separated(parts, " ", arguments.as_slice())?;
            parts.push(Step::Text(" )"))?;
        }
        PostfixKind::Member(_)
        | PostfixKind::Arrow(_)
        | PostfixKind::Increment
        | PostfixKind::Decrement => parts.push(Step::Words(operator.span))?,
    }
    Ok(())
}
