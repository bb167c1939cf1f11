//! The locals that `main` declares.

ghost use Rattle.std.specs.Prelude.{◌≡◌, ◌≤◌, ◌<◌, ℕ, List, [], ◌∷◌, ◌++◌, length, map, IfSome, IfNone, IfOk, IfErr, IsTrue, ◌↔◌, true, false};
ghost use Rattle.std.specs.List.{list_all};
ghost use Rattle.form_tree.specs.declared.stmt.LocalDef.{LocalDef};
ghost use Rattle.form_reader.specs.declared.form.ReadFault.TheVariants.{NoMemory};
ghost use Rattle.form_reader.specs.Lexemes.{Lexeme, is_letter};
ghost use Rattle.form_reader.specs.Form.{IsName, IsNew, PlainDeclared, plain_declared, local_of, declaration, AreDeclarations};
ghost use Rattle.form_reader.specs.Reading.{EndsDeclarations, IsReadAs};

use crate::expressions::place_of;
use crate::form::{RESERVED, ReadFault, takes_mark};
use crate::lexemes::{Token, Tokens, is_letter};
use filc_num::IntType;
use form_tree::LocalDef;
use sqlite_items::Items;
use std::alloc::Global;
use std::marker::Model;

/// The most locals that are read: more would not leave a register for a value.
pub const MOST_LOCALS: usize = 256;

/// The locals that `main` declares, each at its number, and their names.
#[derive(Drop)]
pub struct Declared<'a> {
    names: Vec<&'a [u8]>,
    locals: Items<LocalDef>,
}

impl<'a> Model for Declared<'a> {
    ghost use Rattle.std.specs.Prelude.{map};
    ghost use Rattle.form_reader.specs.Form.{PlainDeclared, plain_declared};

    ghost Value = { PlainDeclared };

    ghost view = { λ d. plain_declared (map (λ n. n.now) d.names.items) d.locals };
}

impl<'a> Declared<'a> {
    /// No local.
    pub fn new(alloc: Global) -> Self
        ensures { result ≡ plain_declared [] [] }
    {
        Declared {
            names: Vec::new(alloc),
            locals: Items::new(alloc),
        }
    }

    /// The names, each at its local's number.
    pub fn names(&self) -> &[&'a [u8]]
        ensures { map (λ n. n.now) result.now ≡ self.now.names }
    {
        &self.names
    }

    /// One more local, an `int`.
    pub fn add(&mut self, name: &'a [u8], line: u32) -> Result<(), ReadFault>
        requires { length self.old.names < 256 }
        ensures added { IfOk result (λ _. self.new ≡ plain_declared (self.old.names ++ (name.now ∷ [])) (self.old.locals ++ (local_of line (length self.old.names) ∷ []))) }
        ensures failed { IfErr result (λ fault. fault ≡ NoMemory) }
    {
        let local = self.names.len() as u32;
        self.names.push(name)?;
        self.locals.push(LocalDef {
            line,
            local,
            ty: IntType::I32,
        })?;
        Ok(())
    }

    /// The locals alone.
    pub fn into_locals(self) -> Items<LocalDef>
        ensures { result ≡ self.entry.locals }
    {
        self.locals
    }
}

fn all_letters(bytes: &[u8]) -> bool
    ensures { result ≡ list_all is_letter bytes.now }
{
    bytes.iter().all(|byte| is_letter(*byte))
}

/// Whether one of these names is this one.
fn is_among(names: &[&[u8]], name: &[u8]) -> bool
    ensures yes { IsTrue result → IsNew (map (λ n. n.now) names.now) name.now → ⊥ }
    ensures no { result ≡ false → IsNew (map (λ n. n.now) names.now) name.now }
{
    place_of(names, name).is_some()
}

/// Whether these bytes may be the name of a local.
fn is_name(bytes: &[u8]) -> bool
    ensures { IsTrue result ↔ IsName bytes.now }
{
    !bytes.is_empty() && all_letters(bytes) && !is_among(&RESERVED, bytes)
}

/// Whether the next lexeme is an `int`.
fn is_at_declaration(tokens: &Tokens<'_>) -> bool
    ensures yes { IsTrue result → EndsDeclarations tokens.now → ⊥ }
    ensures no { result ≡ false → EndsDeclarations tokens.now }
{
    match tokens.peek() {
        Some(Token::Run(word, _)) => word == b"int".as_slice(),
        Some(Token::Mark(_, _) | Token::Twin(_)) => false,
        None => false,
    }
}

/// One declaration: its name, and the line of that.
fn declaration<'a>(tokens: &mut Tokens<'a>) -> Option<(&'a [u8], u32)>
    ensures found { IfSome result (λ n. (first end : ℕ) × (tokens.old ≡ declaration first n.0.now n.1 end ++ tokens.new)) }
    ensures none { IfNone result ((first line end : ℕ) (name : List ℕ) (rest : List Lexeme) → tokens.old ≡ declaration first name line end ++ rest → ⊥) }
{
    let Some(Token::Run(word, _)) = tokens.next() else {
        return None;
    };
    if word != b"int".as_slice() {
        return None;
    }
    let Some(Token::Run(name, line)) = tokens.next() else {
        return None;
    };
    if takes_mark(tokens, b';') {
        return Some((name, line));
    }
    None
}

/// The declarations in front of the statements.
pub fn declarations<'a>(alloc: Global, tokens: &mut Tokens<'a>) -> Result<Declared<'a>, ReadFault>
    ensures found { IfOk result (λ d. (here : List Lexeme) × AreDeclarations [] d.names d.locals here × (tokens.old ≡ here ++ tokens.new) × (length d.names ≤ 256)) }
    ensures only { (d : PlainDeclared) (here rest : List Lexeme) → AreDeclarations [] d.names d.locals here → length d.names ≤ 256 → EndsDeclarations rest → tokens.old ≡ here ++ rest → IsReadAs result tokens.new d rest }
{
    let mut declared = Declared::new(alloc);
    while is_at_declaration(tokens) {
        let Some((name, line)) = declaration(tokens) else {
            return Err(ReadFault::NotForm);
        };
        if declared.names().len() == MOST_LOCALS {
            return Err(ReadFault::NotForm);
        }
        if !is_name(name) {
            return Err(ReadFault::NotForm);
        }
        if is_among(declared.names(), name) {
            return Err(ReadFault::NotForm);
        }
        declared.add(name, line)?;
    }
    Ok(declared)
}
