//! What constructs before leave for those after.

ghost use Rattle.std.specs.Prelude.{◌≡◌, take, OnOk};
ghost use Rattle.c_expr_rules.specs.Expressions.{with_used, with_literal, with_taken};
ghost use Rattle.c_expr_rules.specs.Views.{seen_state, IsMarkOf, Grows};

use crate::above::{Filled, Placed};
use c_scope::{Scopes, Space};
use c_tree::{Declared, LocalDef};
use c_types::{Part, Types};
use sqlite_items::Items;
use std::alloc::AllocError;
use std::collections::BTreeMap;

/// A member: its name's number, its type with qualifiers, and its offset.
#[derive(Clone, Copy, Debug, PartialEq, Eq)]
pub struct MemberPlace {
    pub name: u32,
    pub part: Part,
    pub offset: u64,
}

/// The members of a structure or union, and whether one of them is const, an array of const elements, or an
/// aggregate with such a member.
#[derive(Drop)]
pub struct Contents {
    pub members: Items<MemberPlace>,
    pub has_const: bool,
}

/// A text that became a static object, by its number.
#[derive(Drop)]
pub struct Literal {
    pub number: u32,
    pub bytes: Items<u8>,
}

/// What constructs before leave for those after. Each list has the last one last.
#[derive(Drop)]
pub struct State {
    pub scopes: Scopes,
    pub types: Types,
    /// The members of a structure or union, by the number of its type.
    pub contents: BTreeMap<u32, Contents>,
    /// The number of the next static object.
    pub next_static: u32,
    pub literals: Vec<Literal>,
    /// Objects and functions that are used, as they were declared by then.
    pub used: Vec<Declared>,
    /// Locals whose address is taken.
    pub taken: Vec<u32>,
    /// The number of a function's next local.
    pub next_local: u32,
    /// The locals of its innermost block so far.
    pub locals: Vec<LocalDef>,
    /// Static objects without texts.
    pub placed: Vec<Placed>,
    /// What initialisers give them.
    pub filled: Vec<Filled>,
}

/// How far the lists of a state go, and the number of its next static object.
#[derive(Clone, Copy, Debug, PartialEq, Eq)]
pub struct Mark {
    pub next_static: u32,
    pub literals: usize,
    pub used: usize,
    pub taken: usize,
}

impl State {
    /// What a name stands for, by its letters.
    pub fn look_up(&self, letters: &[u8]) -> Option<Declared>
        ensures { result ≡ (seen_state self.now).visible letters.now }
    {
        match self.scopes.look_up(Space::Ordinary, letters) {
            Ok(declared) => Some(*declared),
            Err(_) => None,
        }
    }

    /// An object or a function is used.
    pub fn use_declared(&mut self, declared: Declared) -> Result<(), AllocError>
        ensures ok { OnOk result
            (seen_state self.new ≡ with_used declared (seen_state self.old)) }
        ensures grows { OnOk result (Grows self.old self.new) }
    {
        self.used.push(declared)?;
        Ok(())
    }

    /// The address of a local is taken, where it is one.
    pub fn take_address(&mut self, local: Option<u32>) -> Result<(), AllocError>
        ensures ok { OnOk result
            (seen_state self.new ≡ with_taken local (seen_state self.old)) }
        ensures grows { OnOk result (Grows self.old self.new) }
    {
        if let Some(local) = local {
            self.taken.push(local)?;
        }
        Ok(())
    }

    /// A text becomes a static object.
    pub fn add_literal(&mut self, bytes: Items<u8>) -> Result<(), AllocError>
        ensures ok { OnOk result
            (seen_state self.new ≡ with_literal bytes (seen_state self.old)) }
        ensures grows { OnOk result (Grows self.old self.new) }
    {
        let Some(next) = self.next_static.checked_add(1) else {
            return Err(AllocError);
        };
        let number = self.next_static;
        self.literals.push(Literal { number, bytes })?;
        self.next_static = next;
        Ok(())
    }

    /// How far the lists go.
    pub fn mark(&self) -> Mark
        ensures { IsMarkOf self.now result }
    {
        Mark {
            next_static: self.next_static,
            literals: self.literals.len(),
            used: self.used.len(),
            taken: self.taken.len(),
        }
    }

    /// Takes back what an operand that isn't evaluated used, made and took.
    pub fn take_back(&mut self, mark: Mark)
        ensures rest { self.new ≡ record self.old {
          next_static = mark.next_static;
          literals = self.new.literals;
          used = self.new.used;
          taken = self.new.taken;
        } }
        ensures literals { self.new.literals.items ≡ take mark.literals self.old.literals.items }
        ensures used { self.new.used.items ≡ take mark.used self.old.used.items }
        ensures taken { self.new.taken.items ≡ take mark.taken self.old.taken.items }
    {
        self.next_static = mark.next_static;
        self.literals.truncate(mark.literals);
        self.used.truncate(mark.used);
        self.taken.truncate(mark.taken);
    }
}
