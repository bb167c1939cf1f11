//! The scopes of a file: two name spaces, blocks, and the names with linkage.

ghost use Rattle.std.specs.Prelude.{◌≡◌, ◌<◌, length, map, reverse, OnOk, IfOk, IfErr};
ghost use Rattle.c_scope.specs.Blocks.{with_declaration, with_declarations};
ghost use Rattle.c_scope.specs.Scopes.{with_linked, space_of};
ghost use Rattle.c_scope.specs.Stacks.{naming_of};

use crate::again::{declaration, has_its_linkage};
use crate::blocks::{Blocks, Declaration};
use crate::space::{DeclareFault, Space, Unknown};
use c_tree::Declared;
use std::alloc::{AllocError, Global};
use std::marker::Model;

/// What names stand for where the checker is: in the open blocks, and as the declarations with linkage have
/// it, also those of blocks that were left.
#[derive(Drop)]
pub struct Scopes {
    ordinary: Blocks,
    tags: Blocks,
    linked: Blocks,
}

impl Model for Scopes {
    ghost use Rattle.c_scope.specs.Pairs.{IsPaired};
    ghost use Rattle.c_scope.specs.Scopes.{Names};

    ghost Value = { Names };

    ghost view = { λ s. record { ordinary = s.ordinary; tags = s.tags; linked = s.linked } };

    ghost invariant = { λ s. IsPaired s.ordinary s.tags };
}

/// What one scope declares, the oldest first. Contracts see it with the newest first.
#[derive(Drop)]
pub struct Scope {
    ordinary: Vec<Declaration>,
    tags: Vec<Declaration>,
}

impl Model for Scope {
    ghost use Rattle.std.specs.Prelude.{map, reverse};
    ghost use Rattle.c_scope.specs.Scopes.{InnerNames};
    ghost use Rattle.c_scope.specs.Stacks.{naming_of};

    ghost Value = { InnerNames };

    ghost view = { λ s. record { ordinary = map naming_of (reverse s.ordinary.items); tags = map naming_of (reverse s.tags.items) } };
}

impl Scopes {
    ghost use Rattle.std.specs.Prelude.{◌≡◌, ◌<◌, length, map, reverse, Some, None, Ok, Err, IfOk, OnOk, OnErr, IsSomeAnd};
    ghost use Rattle.std.specs.Option.{option_copied};
    ghost use Rattle.c_scope.specs.Blocks.{visible, declared_in, innermost};
    ghost use Rattle.c_scope.specs.Scopes.{no_names, with_block, without_block, with_scope, innermost_scope, blocks_in, declaration_in, with_name, space_of};
    ghost use Rattle.c_scope.specs.Stacks.{naming_of};

    /// The file's scope, without names.
    pub fn new(alloc: Global) -> Result<Scopes, AllocError>
        ensures { IfOk result (λ scopes. scopes ≡ no_names) }
    {
        Ok(Scopes {
            ordinary: Blocks::new(alloc),
            tags: Blocks::new(alloc),
            linked: Blocks::new(alloc),
        })
    }

    /// Opens a block.
    pub fn enter(&mut self) -> Result<(), AllocError>
        ensures ok { OnOk result (self.new ≡ with_block self.old) }
        ensures inside { OnOk result (1 < length self.new.ordinary) }
        ensures err { OnErr result (self.new ≡ self.old) }
    {
        self.ordinary.enter()?;
        if self.tags.enter().is_err() {
            self.ordinary.leave();
            return Err(AllocError);
        }
        Ok(())
    }

    /// Closes the innermost block, which isn't the file's.
    pub fn leave(&mut self)
        requires { 1 < length self.old.ordinary }
        ensures { self.new ≡ without_block self.old }
    {
        self.ordinary.leave();
        self.tags.leave();
    }

    /// Closes the innermost block, which isn't the file's, and gives what it declared.
    pub fn leave_with(&mut self, alloc: Global) -> Result<Scope, AllocError>
        requires { 1 < length self.old.ordinary }
        ensures scope { IfOk result (λ scope. scope ≡ innermost_scope self.old) }
        ensures ok { OnOk result (self.new ≡ without_block self.old) }
        ensures err { OnErr result (self.new ≡ self.old) }
    {
        let scope = Scope {
            ordinary: copy_of(alloc, self.ordinary.innermost())?,
            tags: copy_of(alloc, self.tags.innermost())?,
        };
        self.leave();
        Ok(scope)
    }

    /// Opens a block that declares what this scope declares. A refusal leaves a block open that declares
    /// some of it.
    pub fn enter_with(&mut self, scope: &Scope) -> Result<(), AllocError>
        ensures scope { OnOk result (self.new ≡ with_scope scope.now self.old) }
        ensures inside { OnOk result (1 < length self.new.ordinary) }
    {
        self.enter()?;
        declare_each(&mut self.ordinary, &scope.ordinary)?;
        declare_each(&mut self.tags, &scope.tags)
    }

    /// What the declarations of a name with linkage have declared, also those of blocks that were left.
    pub fn look_up_linked(&self, name: &[u8]) -> Option<&Declared>
        ensures { option_copied result ≡ visible name.now self.now.linked }
    {
        self.linked.find(name)
    }

    /// The declarations with linkage, the oldest first, also those of blocks that were left.
    pub fn linked(&self) -> &[Declaration]
        ensures { map naming_of (reverse result.now) ≡ innermost self.now.linked }
    {
        self.linked.innermost()
    }

    /// What a name stands for, as the innermost block that declares it has it.
    pub fn look_up(&self, space: Space, name: &[u8]) -> Result<&Declared, Unknown>
        ensures found { IfOk result
            (λ d. visible name.now (blocks_in space self.now) ≡ Some d.now) }
        ensures unknown { OnErr result (visible name.now (blocks_in space self.now) ≡ None) }
    {
        self.blocks(space).find(name).ok_or(Unknown)
    }

    /// What a name stands for, where the innermost block declares it.
    pub fn look_up_here(&self, space: Space, name: &[u8]) -> Option<&Declared>
        ensures { option_copied result
            ≡ declared_in name.now (innermost (blocks_in space self.now)) }
    {
        self.blocks(space).find_here(name)
    }

    /// How many declarations the innermost block has in a name space.
    pub fn count_here(&self, space: Space) -> usize
        ensures { result ≡ length (innermost (blocks_in space self.now)) }
    {
        self.blocks(space).innermost().len()
    }

    fn blocks(&self, space: Space) -> &Blocks
        ensures { result.now ≡ blocks_in space self.now }
    {
        match space {
            Space::Ordinary => &self.ordinary,
            Space::Tag => &self.tags,
        }
    }

    /// Declares a name in the innermost block, in the name space of what it stands for. A refusal changes nothing.
    #[tactic(auto, using(crate::proofs::SameLengths::declared_depth))]
    pub fn declare(&mut self, space: Space, name: &[u8], what: Declared) -> Result<(), DeclareFault>
        requires { space ≡ space_of what }
        ensures ok { OnOk result (IsSomeAnd (declaration_in self.old space name.now what)
            (λ d. self.new ≡ with_name space (record { name = name.now; what = d }) self.old)) }
        ensures again { result ≡ Err DeclareFault.Again
            → declaration_in self.old space name.now what ≡ None }
        ensures err { OnErr result (self.new ≡ self.old) }
        ensures depth { length self.new.ordinary ≡ length self.old.ordinary }
    {
        let here = self.look_up_here(space, name).copied();
        let linked = self.linked.find(name).copied();
        let Some(declared) = declaration(here, linked, what) else {
            return Err(DeclareFault::Again);
        };
        match space {
            Space::Ordinary => declare_linked(&mut self.ordinary, &mut self.linked, name, declared),
            Space::Tag => declare_linked(&mut self.tags, &mut self.linked, name, declared),
        }
    }
}

/// The name space of what a name stands for (C11 6.2.3): tags have one of their own.
pub fn space_of(declared: Declared) -> Space
    ensures { result ≡ space_of declared }
{
    match declared {
        Declared::Object(_)
        | Declared::Function(_)
        | Declared::Typedef(_)
        | Declared::Constant(_) => Space::Ordinary,
        Declared::Tag(_) => Space::Tag,
    }
}

/// Declares a name in the innermost of these blocks, and as what its declarations with linkage declare.
fn declare_linked(
    blocks: &mut Blocks,
    linked: &mut Blocks,
    name: &[u8],
    declared: Declared,
) -> Result<(), DeclareFault>
    requires { 0 < length blocks.old }
    ensures blocks { OnOk result
        (blocks.new ≡ with_declaration (record { name = name.now; what = declared }) blocks.old) }
    ensures linked { OnOk result
        (linked.new ≡ with_linked (record { name = name.now; what = declared }) linked.old) }
    ensures err { IfErr result
        (λ fault. (fault ≡ DeclareFault.NoMemory) × (blocks.new ≡ blocks.old) × (linked.new ≡ linked.old)) }
{
    if blocks.declare(name, declared).is_err() {
        return Err(DeclareFault::NoMemory);
    }
    if has_its_linkage(declared) && linked.declare(name, declared).is_err() {
        blocks.take_back();
        return Err(DeclareFault::NoMemory);
    }
    Ok(())
}

/// A copy of declarations.
fn copy_of(alloc: Global, declarations: &[Declaration]) -> Result<Vec<Declaration>, AllocError>
    ensures { IfOk result
        (λ list. map naming_of (reverse list.items) ≡ map naming_of (reverse declarations.now)) }
{
    let mut list = Vec::new(alloc);
    for declaration in declarations {
        let name = Vec::from_slice(alloc, declaration.name.as_slice())?;
        list.push(Declaration {
            name,
            what: declaration.what,
            hidden: None,
        })?;
    }
    Ok(list)
}

/// Declares these in the innermost block, the oldest first.
fn declare_each(blocks: &mut Blocks, declarations: &[Declaration]) -> Result<(), AllocError>
    requires { 0 < length blocks.old }
    ensures ok { OnOk result (blocks.new
        ≡ with_declarations (map naming_of (reverse declarations.now)) blocks.old) }
    ensures length { length blocks.new ≡ length blocks.old }
{
    for declaration in declarations {
        blocks.declare(declaration.name.as_slice(), declaration.what)?;
    }
    Ok(())
}
