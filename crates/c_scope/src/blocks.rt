//! The declarations of one name space: a symbol table whose newest declaration of each name is found by a
//! search tree, and in which each declaration remembers the one that it hides.
//!
//! Declarations stand in one stack. A declaration is pushed, and its name leads to it. When its block is
//! left, it is popped, and its name leads to the declaration that it hid. So a look-up and a declaration
//! search one tree, and leaving a block takes the time of the declarations in it.

ghost use Rattle.std.specs.Prelude.{◌≡◌, ◌-◌, ◌<◌, ◌≤◌, IsSome, reverse, drop, length, vec_len};
ghost use Rattle.std.specs.BTreeMap.{get_by};
ghost use Rattle.std.specs.Cmp.Lexicographic.{slice_cmp};
ghost use Rattle.std.specs.Ordering.{nat_cmp};
ghost use Rattle.c_scope.specs.Stacks.{newest_known, Changes, IsIndexed};

use c_tree::Declared;
use std::alloc::{AllocError, Global};
use std::collections::BTreeMap;
use std::marker::Model;

/// A declaration: its name, what it stands for, and the index of the declaration that it hides.
#[derive(Drop)]
pub struct Declaration {
    pub name: Vec<u8>,
    pub what: Declared,
    pub hidden: Option<usize>,
}

/// Which declaration is the newest of each name.
type Newest = BTreeMap<Vec<u8>, Option<usize>>;

/// The declarations of one name space. Contracts see the list of the open blocks, the innermost first.
#[derive(Drop)]
pub struct Blocks {
    alloc: Global,
    /// Those of all open blocks, the oldest first.
    declarations: Vec<Declaration>,
    newest: Newest,
    /// Where the declarations of each block but the file's begin, the outermost first.
    starts: Vec<usize>,
}

impl Model for Blocks {
    ghost use Rattle.std.specs.Prelude.{List, reverse};
    ghost use Rattle.c_scope.specs.Blocks.{Naming};
    ghost use Rattle.c_scope.specs.Stacks.{IsStack, blocks_of, newest_known};

    ghost Value = { List (List Naming) };

    ghost view = { λ b. blocks_of (reverse b.starts.items) (reverse b.declarations.items) };

    ghost invariant = { λ b. IsStack (newest_known b.newest) (reverse b.declarations.items)
        (reverse b.starts.items) };
}

impl Blocks {
    ghost use Rattle.std.specs.Prelude.{◌≡◌, ◌<◌, [], ◌∷◌, length, map, reverse, OnOk, OnErr};
    ghost use Rattle.std.specs.Option.{option_copied};
    ghost use Rattle.c_scope.specs.Blocks.{declared_in, visible, innermost, outer_blocks, with_declaration, without_newest};
    ghost use Rattle.c_scope.specs.Stacks.{naming_of};

    /// The file's block alone, without declarations.
    pub fn new(alloc: Global) -> Blocks
        ensures { result ≡ [] ∷ [] }
    {
        Blocks {
            alloc,
            declarations: Vec::new(alloc),
            newest: BTreeMap::new(alloc),
            starts: Vec::new(alloc),
        }
    }

    /// What a name stands for, as the innermost block that declares it has it.
    pub fn find(&self, name: &[u8]) -> Option<&Declared>
        ensures { option_copied result ≡ visible name.now self.now }
    {
        let index = index_of(&self.newest, name)?;
        Some(&self.declarations[index].what)
    }

    /// What a name stands for, where the innermost block declares it.
    pub fn find_here(&self, name: &[u8]) -> Option<&Declared>
        ensures { option_copied result ≡ declared_in name.now (innermost self.now) }
    {
        let start = self.starts.last().copied().unwrap_or(0);
        let index = index_of(&self.newest, name)?;
        if index < start {
            return None;
        }
        Some(&self.declarations[index].what)
    }

    /// The declarations of the innermost block, the oldest first.
    pub fn innermost(&self) -> &[Declaration]
        ensures { map naming_of (reverse result.now) ≡ innermost self.now }
    {
        let start = self.starts.last().copied().unwrap_or(0);
        behind(&self.declarations, start)
    }

    /// Opens a block.
    pub fn enter(&mut self) -> Result<(), AllocError>
        ensures ok { OnOk result (self.new ≡ [] ∷ self.old) }
        ensures err { OnErr result (self.new ≡ self.old) }
    {
        self.starts.push(self.declarations.len())?;
        Ok(())
    }

    /// Closes the innermost block, which isn't the file's.
    pub fn leave(&mut self)
        requires { 1 < length self.old }
        ensures { self.new ≡ outer_blocks self.old }
    {
        if let Some(start) = self.starts.pop() {
            forget_from(&mut self.declarations, &mut self.newest, start);
        }
    }

    /// Takes the newest declaration of the innermost block back.
    pub fn take_back(&mut self)
        requires { 0 < length (innermost self.old) }
        ensures { self.new ≡ without_newest self.old }
    {
        forget(&mut self.declarations, &mut self.newest);
    }

    /// Adds a declaration to the innermost block.
    pub fn declare(&mut self, name: &[u8], what: Declared) -> Result<(), AllocError>
        ensures ok { OnOk result
            (self.new ≡ with_declaration (record { name = name.now; what = what }) self.old) }
        ensures err { OnErr result (self.new ≡ self.old) }
    {
        let key = Vec::from_slice(self.alloc, name)?;
        let declaration = Declaration {
            name: Vec::from_slice(self.alloc, name)?,
            what,
            hidden: index_of(&self.newest, name),
        };
        let index = self.declarations.len();
        self.declarations.push(declaration)?;
        if self.newest.insert(key, Some(index)).is_err() {
            let _ = self.declarations.pop();
            return Err(AllocError);
        }
        Ok(())
    }
}

/// The declarations from this index on.
fn behind(declarations: &[Declaration], start: usize) -> &[Declaration]
    requires { start ≤ length declarations.now }
    ensures { result.now ≡ drop start declarations.now }
{
    &declarations[start..]
}

/// The index of the newest declaration of a name.
fn index_of(newest: &Newest, name: &[u8]) -> Option<usize>
    ensures { result ≡ newest_known newest.now name.now }
{
    newest.get(name).copied().flatten()
}

/// Lets a name that is known lead to another declaration.
fn set_newest(newest: &mut Newest, name: &[u8], index: Option<usize>)
    requires { IsSome (get_by (λ key. slice_cmp nat_cmp name.now key.items) newest.old) }
    ensures { Changes (newest_known newest.old) (newest_known newest.new) name.now index }
{
    if let Some(slot) = newest.get_mut(name) {
        *slot = index;
    }
}

/// Takes the newest declaration away.
fn forget(declarations: &mut Vec<Declaration>, newest: &mut Newest)
    requires indexed { IsIndexed (newest_known newest.old) (reverse declarations.old.items) }
    requires some { 0 < vec_len declarations.old }
    ensures indexed { IsIndexed (newest_known newest.new) (reverse declarations.new.items) }
    ensures newest { reverse declarations.new.items ≡ drop 1 (reverse declarations.old.items) }
{
    if let Some(declaration) = declarations.pop() {
        set_newest(newest, declaration.name.as_slice(), declaration.hidden);
    }
}

/// Takes the declarations from this index on away.
fn forget_from(declarations: &mut Vec<Declaration>, newest: &mut Newest, start: usize)
    requires indexed { IsIndexed (newest_known newest.old) (reverse declarations.old.items) }
    requires within { start ≤ vec_len declarations.old }
    ensures indexed { IsIndexed (newest_known newest.new) (reverse declarations.new.items) }
    ensures rest { reverse declarations.new.items
        ≡ drop (vec_len declarations.old - start) (reverse declarations.old.items) }
    ensures len { vec_len declarations.new ≡ start }
{
    while declarations.len() > start {
        forget(declarations, newest);
    }
}
