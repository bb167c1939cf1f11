//! The typedef names in scope, by a table with an undo list.
//!
//! The table has for each name the innermost scope that declares it, and whether as a typedef. Each
//! declaration is remembered with what the table had before, so a scope is left by taking back its
//! declarations. So a look-up takes one step, and a scope as many as it has declarations.

ghost use Rattle.std.specs.Prelude.{◌≡◌, ℕ, ◌<◌, IfNone, IfOk, IfSome, OnOk, OnErr, length, [], ◌∷◌};
ghost use Rattle.c_cursor.specs.Names as spec;
ghost use Rattle.c_parts.specs.Scopes as scopes;

use c_parts::Binding;
use sqlite_items::Items;
use std::alloc::{AllocError, Global};
use std::marker::Model;

/// What the table has of a name: whether a scope declares it, the number of the innermost that does,
/// the outermost being 0, and whether it is a typedef.
#[derive(Clone, Copy, Debug, PartialEq, Eq)]
pub struct Meaning {
    pub is_declared: bool,
    pub depth: usize,
    pub is_typedef: bool,
}

/// What has to be taken back.
#[derive(Clone, Copy, Debug, PartialEq, Eq)]
pub enum Entry {
    /// A scope was entered.
    Opens,
    /// A name was declared, of which the table had this before.
    Binds { binding: Binding, was: Meaning },
}

/// The scopes, the innermost first.
#[derive(Drop)]
pub struct Names {
    table: Vec<Meaning>,
    entries: Vec<Entry>,
    depth: usize,
}

impl Model for Names {
    ghost use Rattle.std.specs.Prelude.{List};
    ghost use Rattle.c_parts.specs.Scopes.{Scope};
    ghost use Rattle.c_cursor.specs.Names.{scopes_of, IsNames};

    ghost Value = { List Scope };

    ghost view = { λ n. scopes_of n.entries.items };

    ghost invariant = { λ n. IsNames n.table.items n.entries.items n.depth };
}

impl Names {
    /// One scope, of the file, that declares nothing.
    pub fn new(alloc: Global) -> Names
        ensures { result ≡ [] ∷ [] }
    {
        Names {
            table: Vec::new(alloc),
            entries: Vec::new(alloc),
            depth: 0,
        }
    }

    fn meaning(&self, name: u32) -> Meaning
        ensures { result ≡ spec.meaning name self.now }
    {
        self.table.get(name as usize).copied().unwrap_or(Meaning {
            is_declared: false,
            depth: 0,
            is_typedef: false,
        })
    }

    /// Whether a name is a typedef.
    #[tactic(auto, using(crate::proofs::Meanings::meaning_typedef))]
    pub fn is_typedef(&self, name: u32) -> bool
        ensures { result ≡ scopes.is_typedef name self.now }
    {
        self.meaning(name).is_typedef
    }

    /// A scope of its own is entered.
    pub fn enter(&mut self) -> Result<(), AllocError>
        ensures ok { OnOk result (self.new ≡ [] ∷ self.old) }
        ensures some { 0 < length self.old }
        ensures err { OnErr result (self.new ≡ self.old) }
    {
        self.entries.push(Entry::Opens)?;
        let _entries = self.entries.len();
        self.depth += 1;
        Ok(())
    }

    /// What the table is to have of a name, once it is declared in the innermost scope.
    fn meaning_with(&self, binding: Binding) -> Meaning
        ensures { result ≡ spec.meaning binding.name (scopes.with_names (binding ∷ []) self.now) }
    {
        let was = self.meaning(binding.name);
        let depth = self.depth;
        if was.is_declared && was.depth == depth && was.is_typedef {
            return Meaning {
                is_declared: true,
                depth,
                is_typedef: true,
            };
        }
        Meaning {
            is_declared: true,
            depth,
            is_typedef: binding.is_typedef,
        }
    }

    /// A name is declared in the innermost scope.
    pub fn declare(&mut self, binding: Binding) -> Result<(), AllocError>
        ensures ok { OnOk result (self.new ≡ scopes.with_names (binding ∷ []) self.old) }
        ensures err { OnErr result (self.new ≡ self.old) }
    {
        let was = self.meaning(binding.name);
        let meaning = self.meaning_with(binding);
        reach(&mut self.table, binding.name)?;
        self.entries.push(Entry::Binds { binding, was })?;
        self.table[binding.name as usize] = meaning;
        Ok(())
    }

    /// The last declaration of the innermost scope is taken back, or where it has none the scope is left.
    fn take_back(&mut self) -> Option<Binding>
        requires { 0 < length (scopes.outer_scopes self.old) }
        ensures some { IfSome result (λ b. self.old ≡ scopes.with_names (b ∷ []) self.new) }
        ensures none { IfNone result (self.old ≡ [] ∷ self.new) }
    {
        match self.entries.pop() {
            None => unreachable!(),
            Some(Entry::Opens) => {
                self.depth -= 1;
                None
            }
            Some(Entry::Binds { binding, was }) => {
                self.table[binding.name as usize] = was;
                Some(binding)
            }
        }
    }

    /// The innermost scope is left.
    pub fn leave(&mut self)
        requires { 0 < length (scopes.outer_scopes self.old) }
        ensures { self.new ≡ scopes.outer_scopes self.old }
    {
        'names: while let Some(_binding) = self.take_back() {}
    }

    /// The innermost scope is left, and what it declared is given, the last first.
    pub fn close(&mut self, alloc: Global) -> Result<Items<Binding>, AllocError>
        requires { 0 < length (scopes.outer_scopes self.old) }
        ensures scope { IfOk result (λ scope. scope ≡ scopes.innermost self.old) }
        ensures left { OnOk result (self.new ≡ scopes.outer_scopes self.old) }
    {
        let mut scope = Items::new(alloc);
        'names: while let Some(binding) = self.take_back() {
            scope.push(binding)?;
        }
        Ok(scope)
    }
}

/// Fills up the table, so that it has an entry for a name.
fn reach(table: &mut Vec<Meaning>, name: u32) -> Result<(), AllocError>
    ensures same { (x : ℕ) → spec.meaning_at table.new.items x ≡ spec.meaning_at table.old.items x }
    ensures reached { OnOk result (name < length table.new.items) }
{
    if table.len() <= name as usize {
        table.resize(
            name as usize + 1,
            Meaning {
                is_declared: false,
                depth: 0,
                is_typedef: false,
            },
        )?;
    }
    Ok(())
}
