//! The macros that are defined, and how one is found.
//!
//! Each definition is an entry, and the index has the place of the newest entry of each name. An
//! entry that the index does not lead to is not defined any more: nothing reads it again.

ghost use Rattle.std.specs.Prelude.{◌≡◌, ◌∷◌, ◌++◌, ◌+◌, ◌<◌, ◌≤◌, ◌^◌, [], IfOk, OnErr, OnOk, None, length, vec_len};
ghost use Rattle.std.specs.Option.{option_copied, option_map};
ghost use Rattle.c_preproc.specs.Code.Expander.{Appends};
ghost use Rattle.c_preproc.specs.Expansion.{filc_macro, is_defined, token_limit, with_digits};
ghost use Rattle.c_preproc.specs.Macros.{Macro, expansion_of_token, macro_of, without};
ghost use Rattle.c_preproc.specs.Texts.{text_of};

use crate::expander::{Expander, Fit};
use crate::name_filter::NameFilter;
use crate::texts::text_of;
use c_lexer::{Token, TokenKind};
use std::alloc::{AllocError, Global};
use std::collections::BTreeMap;
use std::marker::Model;

/// A definition: a name, and the tokens that it stands for.
#[derive(Drop)]
pub struct Entry {
    pub name: Vec<u8>,
    pub body: Vec<Token>,
}

/// The entries, in the order of their definitions, and which of them are defined.
#[derive(Drop)]
pub struct Table {
    pub entries: Vec<Entry>,
    pub index: BTreeMap<Vec<u8>, usize>,
}

impl Table {
    ghost use Rattle.std.specs.Prelude.{◌≡◌, None, cond};
    ghost use Rattle.c_preproc.specs.Texts.{is_name, text_of};
    ghost use Rattle.c_preproc.specs.Code.Table.{place_of};

    /// The place of the entry of a name that is defined.
    pub fn find(&self, name: &[u8]) -> Option<usize>
        ensures { result ≡ place_of self.now.index name.now }
    {
        self.index.get(name).copied()
    }

    /// The place of the entry that the token names.
    pub fn entry_of(&self, bytes: &[u8], token: Token) -> Option<usize>
        ensures { result
            ≡ cond (is_name token) (place_of self.now.index (text_of bytes.now token)) None }
    {
        if matches!(token.kind, TokenKind::Name) {
            self.find(text_of(bytes, token))
        } else {
            None
        }
    }
}

/// The macros that are defined, and the bytes of which all tokens are slices: those of the file, and the
/// 1 and the 0 that a `defined` stands for.
#[derive(Drop)]
pub struct Macros {
    bytes: Vec<u8>,
    table: Table,
    expander: Expander,
    names: NameFilter,
}

impl Model for Macros {
    ghost use Rattle.c_preproc.specs.Macros.{Definitions};
    ghost use Rattle.c_preproc.specs.Code.Table.{place_of};
    ghost use Rattle.c_preproc.specs.Code.Defined.{IsDefined, definitions_of};

    ghost Value = { Definitions };

    ghost view = { λ m. definitions_of m.bytes m.table };

    ghost invariant = { λ m. IsDefined m.bytes m.table m.expander m.names };
}

impl Macros {
    /// No macros, and these bytes.
    fn empty(alloc: Global, bytes: Vec<u8>) -> Result<Macros, AllocError>
        requires digits { 2 ≤ vec_len bytes }
        requires small { vec_len bytes < 2 ^ 32 }
        ensures bytes { IfOk result (λ macros. macros.bytes ≡ bytes.items) }
        ensures macros { IfOk result (λ macros. macros.macros ≡ []) }
    {
        Ok(Macros {
            bytes,
            table: Table {
                entries: Vec::new(alloc),
                index: BTreeMap::new(alloc),
            },
            expander: Expander::new(alloc),
            names: NameFilter::new(alloc)?,
        })
    }

    /// `__FILC__` alone, which is 1.
    pub fn new(alloc: Global, file: &[u8]) -> Result<Macros, AllocError>
        requires { length file.now + 2 < 2 ^ 32 }
        ensures bytes { IfOk result (λ macros. macros.bytes ≡ with_digits file.now) }
        ensures macros { IfOk result (λ macros. macros.macros ≡ filc_macro file.now ∷ []) }
    {
        let start = file.len() as u32;
        let one = Token {
            kind: TokenKind::Number,
            line: 0,
            start,
            end: start + 1,
            first: false,
            library: false,
        };
        let mut bytes = Vec::from_slice(alloc, file)?;
        bytes.push(b'1')?;
        bytes.push(b'0')?;
        let mut macros = Macros::empty(alloc, bytes)?;
        macros.define(alloc, b"__FILC__", &[one])?;
        Ok(macros)
    }

    /// The bytes of which all tokens are slices.
    pub fn bytes(&self) -> &[u8]
        ensures bytes { result.now ≡ self.now.bytes }
        ensures digits { 2 ≤ length self.now.bytes }
        ensures small { length self.now.bytes < 2 ^ 32 }
    {
        self.bytes.as_slice()
    }

    /// The bytes alone.
    pub fn into_bytes(self) -> Vec<u8>
        ensures { result.items ≡ self.bytes }
    {
        self.bytes
    }

    /// The tokens that the name stands for.
    pub fn body_of(&self, name: &[u8]) -> Option<&[Token]>
        ensures { option_copied result ≡ option_map
            (λ macro. macro.body) (macro_of self.now.macros name.now) }
    {
        let place = self.table.find(name)?;
        Some(self.table.entries[place].body.as_slice())
    }

    /// Whether a macro has the name.
    pub fn is_defined(&self, name: Token) -> bool
        ensures { result ≡ is_defined self.now name }
    {
        self.body_of(text_of(&self.bytes, name)).is_some()
    }

    /// Defines a macro that isn't defined. What is kept stays so where no macro's tokens have the name.
    fn define(&mut self, alloc: Global, name: &[u8], body: &[Token]) -> Result<(), AllocError>
        requires { macro_of self.old.macros name.now ≡ None }
        ensures bytes { self.new.bytes ≡ self.old.bytes }
        ensures ok { OnOk result (self.new.macros
            ≡ record { name = name.now; body = body.now } ∷ self.old.macros) }
        ensures err { OnErr result (self.new.macros ≡ self.old.macros) }
    {
        let key = Vec::from_slice(alloc, name)?;
        let entry = Entry {
            name: Vec::from_slice(alloc, name)?,
            body: Vec::from_slice(alloc, body)?,
        };
        let place = self.table.entries.len();
        self.expander.forget_where(self.names.may_have(name));
        self.names.add_all(&self.bytes, body);
        self.expander.grow()?;
        self.table.entries.push(entry)?;
        self.table.index.insert(key, place)?;
        Ok(())
    }

    /// Defines the macro of a token's name, which isn't defined.
    pub fn define_name(
        &mut self,
        alloc: Global,
        name: Token,
        body: &[Token],
    ) -> Result<(), AllocError>
        requires { macro_of self.old.macros (text_of self.old.bytes name) ≡ None }
        ensures bytes { self.new.bytes ≡ self.old.bytes }
        ensures ok { OnOk result (self.new.macros
            ≡ record { name = text_of self.old.bytes name; body = body.now } ∷ self.old.macros) }
    {
        let name = Vec::from_slice(alloc, text_of(&self.bytes, name))?;
        self.define(alloc, &name, body)
    }

    /// No macro has the token's name any more. What is kept stays so where no macro's tokens have
    /// the name.
    pub fn undefine(&mut self, name: Token)
        ensures bytes { self.new.bytes ≡ self.old.bytes }
        ensures macros { self.new.macros ≡ without self.old.macros (text_of self.old.bytes name) }
    {
        let name = text_of(&self.bytes, name);
        self.expander.forget_where(self.names.may_have(name));
        let _ = self.table.index.remove(name);
    }

    /// Appends what the token expands to, if the list isn't too long then.
    pub fn expand(&mut self, token: Token, out: &mut Vec<Token>) -> Result<Fit, AllocError>
        ensures same { self.new ≡ self.old }
        ensures expansion { let more = expansion_of_token self.old.bytes self.old.macros token in
            IfOk result (λ fit. Appends fit token_limit more out.old.items out.new.items) }
    {
        self.expander.expand(&self.table, &self.bytes, token, out)
    }
}
