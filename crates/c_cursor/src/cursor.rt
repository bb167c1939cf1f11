//! A cursor over tokens, which knows the names in scope and the specifiers before it.

ghost use Rattle.std.specs.Prelude.{◌≡◌, ◌^◌, ◌<◌, ◌-◌, ◌||◌, false, IfOk, OnOk, length, [], ◌∷◌};
ghost use Rattle.std.specs.List.{list_any};
ghost use Rattle.c_parts.specs.Kinds as sets;
ghost use Rattle.c_parts.specs.Production as production;
ghost use Rattle.c_parts.specs.Production.{two_of, line_at};
ghost use Rattle.c_parts.specs.Reading.{ahead, ahead_two, deep_if};
ghost use Rattle.c_parts.specs.Scopes as scopes;
ghost use Rattle.c_parts.specs.Terminals as terminals;
ghost use Rattle.c_cursor.specs.Input as spec;
ghost use Rattle.c_cursor.specs.Input.{Gives, answer, in_state};

use crate::fault::Fault;
use crate::marks::{Before, Start};
use crate::names::Names;
use c_parts::{Binding, Lexeme, Span, Terminal, code};
use sqlite_items::Items;
use std::alloc::{AllocError, Global};
use std::marker::Model;

/// Tokens, of which those before the next are taken.
#[derive(Drop)]
pub struct Cursor<'a> {
    tokens: &'a [Lexeme],
    place: u32,
    behind: Terminal,
    before: Before,
    names: Names,
}

impl<'a> Model for Cursor<'a> {
    ghost use Rattle.c_cursor.specs.Input.{Input};
    ghost use Rattle.c_cursor.specs.Cursor.{input_of, IsInside};

    ghost Value = { Input };

    ghost view = { input_of };

    ghost invariant = { IsInside };
}

impl<'a> Cursor<'a> {
    /// A cursor at the first of these tokens.
    pub fn new(alloc: Global, tokens: &'a [Lexeme]) -> Cursor<'a>
        requires { length tokens.now < 2 ^ 32 }
        ensures rest { result.rest ≡ tokens.now }
        ensures state { result.state ≡ spec.start_of tokens.now }
    {
        Cursor {
            tokens,
            place: 0,
            behind: Terminal::End,
            before: Before {
                typed: false,
                typedef: false,
            },
            names: Names::new(alloc),
        }
    }

    /// What a token is, where it stands behind another.
    #[tactic(auto, using(crate::proofs::Ahead::kind_other), unfolding(c_parts::specs::Kinds::kind))]
    fn kind_behind(&self, behind: Terminal, token: Lexeme) -> Terminal
        ensures { result ≡ sets.kind (spec.behind behind self.now.state) token }
    {
        match token.terminal {
            Terminal::Name if !self.names.is_typedef(token.name) => Terminal::Name,
            Terminal::Name if self.before.typed => Terminal::TypedefBehindType,
            Terminal::Name => Terminal::TypedefName,
            Terminal::LeftParen if is(behind, Terminal::Atomic) => Terminal::AtomicParen,
            Terminal::Comma if is(behind, Terminal::Comma) => Terminal::SecondComma,
            terminal => terminal,
        }
    }

    /// What a token is, where it stands next.
    fn kind(&self, token: Lexeme) -> Terminal
        ensures { result ≡ sets.kind self.now.state token }
    {
        self.kind_behind(self.behind, token)
    }

    /// Whether the next token is of one of these kinds.
    #[tactic(auto, using(crate::proofs::Ahead::ahead_some, crate::proofs::Ahead::ahead_none))]
    pub fn next_is(&self, kinds: &[Terminal]) -> bool
        ensures { result ≡ ahead (sets.has kinds.now) self.now.state self.now.rest }
    {
        match self.tokens.get(self.place as usize) {
            None => false,
            Some(token) => is_one_of(kinds, self.kind(*token)),
        }
    }

    /// Whether the next token is of one of the first kinds, and the one behind it of one of the second.
    #[tactic(auto, using(crate::proofs::Ahead::two_some, crate::proofs::Ahead::two_none, crate::proofs::Ahead::two_last))]
    pub fn next_two_are(&self, first: &[Terminal], second: &[Terminal]) -> bool
        ensures { result ≡ ahead_two (two_of first.now second.now) self.now.state self.now.rest }
    {
        let place = self.place as usize;
        match (self.tokens.get(place), self.tokens.get(place + 1)) {
            (Some(token), Some(behind)) => {
                is_one_of(first, self.kind(*token))
                    && is_one_of(second, self.kind_behind(token.terminal, *behind))
            }
            _ => false,
        }
    }

    /// A token of one of these kinds.
    pub fn take(&mut self, kinds: &[Terminal]) -> Result<Lexeme, Fault>
        ensures { Gives (answer (production.lexeme kinds.now).read self.old) result self.new }
    {
        if !self.next_is(kinds) {
            return Err(Fault::Syntax);
        }
        match self.tokens.get(self.place as usize) {
            None => Err(Fault::Syntax),
            Some(token) => {
                self.place += 1;
                self.behind = token.terminal;
                Ok(*token)
            }
        }
    }

    /// The token of this kind.
    pub fn sign(&mut self, terminal: Terminal) -> Result<(), Fault>
        ensures { Gives (answer (production.sign terminal).read self.old) result self.new }
    {
        self.take(&[terminal])?;
        Ok(())
    }

    /// Where a node begins that begins with the next token.
    #[tactic(auto, using(crate::proofs::Ahead::line_some, crate::proofs::Ahead::line_none))]
    pub fn start(&self) -> Start
        ensures { result ≡ spec.start_at self.now.state }
    {
        match self.tokens.get(self.place as usize) {
            None => Start {
                line: 0,
                first: self.place,
            },
            Some(token) => Start {
                line: token.line,
                first: self.place,
            },
        }
    }

    /// The span of a node that ends with the token before.
    pub fn span(&self, start: Start) -> Span
        ensures { result ≡ spec.span_from start self.now }
    {
        Span {
            line: start.line,
            first: start.first,
            last: self.place.saturating_sub(1),
        }
    }

    /// How many tokens are left.
    pub fn remaining(&self) -> usize
        ensures { result ≡ length self.now.rest }
    {
        self.tokens.len() - self.place as usize
    }

    /// Whether the specifiers before have the word `typedef`.
    pub fn is_typedef(&self) -> bool
        ensures { result ≡ self.now.state.typedef }
    {
        self.before.typedef
    }

    /// The specifier before is a type, or is the word `typedef`.
    pub fn specify(&mut self, is_type: bool, is_typedef: bool)
        ensures { self.new ≡ in_state self.old (spec.specified is_type is_typedef self.old.state) }
    {
        self.before = Before {
            typed: self.before.typed || is_type,
            typedef: self.before.typedef || is_typedef,
        };
    }

    /// Specifiers begin. What those before had is given back.
    pub fn begin_specifiers(&mut self) -> Before
        ensures before { result ≡ spec.before_of self.old.state }
        ensures none { self.new ≡ in_state self.old (scopes.with_specifiers self.old.state false false) }
    {
        let before = self.before;
        self.before = Before {
            typed: false,
            typedef: false,
        };
        before
    }

    /// What specifiers were for has ended: those before it count again.
    pub fn end_specifiers(&mut self, before: Before)
        ensures { self.new ≡ in_state self.old (scopes.with_specifiers self.old.state before.typed before.typedef) }
    {
        self.before = before;
    }

    /// A name is declared in the innermost scope.
    pub fn declare(&mut self, binding: Binding) -> Result<(), AllocError>
        ensures { OnOk result (self.new ≡ in_state self.old (spec.declared (binding ∷ []) self.old.state)) }
    {
        self.names.declare(binding)
    }

    /// A scope of its own is entered.
    pub fn enter(&mut self) -> Result<(), AllocError>
        ensures entered { OnOk result (self.new ≡ in_state self.old (scopes.entered [] self.old.state)) }
        ensures some { 0 < length self.old.state.scopes }
    {
        self.names.enter()
    }

    /// The innermost scope is left.
    pub fn leave(&mut self)
        requires { 0 < length (scopes.outer_scopes self.old.state.scopes) }
        ensures { self.new ≡ in_state self.old (spec.left_scope self.old.state) }
    {
        self.names.leave();
    }

    /// The innermost scope is left, and what it declared is given, the last first.
    pub fn close(&mut self, alloc: Global) -> Result<Items<Binding>, AllocError>
        requires { 0 < length (scopes.outer_scopes self.old.state.scopes) }
        ensures scope { IfOk result (λ scope. scope ≡ scopes.innermost self.old.state.scopes) }
        ensures left { OnOk result (self.new ≡ in_state self.old (spec.left_scope self.old.state)) }
    {
        self.names.close(alloc)
    }

    /// Why a construct is refused that begins with one of these kinds, where no more may be open.
    pub fn refusal(&self, kinds: &[Terminal]) -> Fault
        ensures { result ≡ spec.fault_of (deep_if (sets.has kinds.now) self.now.state self.now.rest) }
    {
        if self.next_is(kinds) {
            Fault::Deep
        } else {
            Fault::Syntax
        }
    }
}

/// Whether two terminals are one.
fn is(a: Terminal, b: Terminal) -> bool
    ensures { result ≡ terminals.is a b }
{
    code(a) == code(b)
}

fn any_is(kinds: &[Terminal], kind: Terminal) -> bool
    ensures { result ≡ list_any (λ other. terminals.is kind other) kinds.now }
{
    kinds.iter().any(|other| is(kind, *other))
}

/// Whether a terminal is one of these.
#[tactic(auto, using(crate::proofs::Ahead::any_member))]
fn is_one_of(kinds: &[Terminal], kind: Terminal) -> bool
    ensures { result ≡ sets.member kind kinds.now }
{
    any_is(kinds, kind)
}
