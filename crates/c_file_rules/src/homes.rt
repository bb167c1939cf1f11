//! The locals of a function whose address is taken.

use sqlite_items::Items;
use std::alloc::{AllocError, Global};
use std::collections::BTreeMap;
use std::marker::Model;

/// The locals of a function whose address is taken somewhere in it. Contracts see the list in which they were met.
#[derive(Drop)]
pub struct Homes {
    locals: Items<u32>,
    known: BTreeMap<u32, ()>,
}

impl Model for Homes {
    ghost use Rattle.std.specs.Prelude.{ℕ, List};
    ghost use Rattle.c_file_rules.specs.Indexes.{IsIndexOf, own};

    ghost Value = { List ℕ };

    ghost view = { λ h. h.locals };

    ghost invariant = { λ h. IsIndexOf own h.locals h.known };
}

impl Homes {
    ghost use Rattle.std.specs.Prelude.{◌≡◌, [], ◌∷◌, ◌++◌, IfOk, IsTrue, ◌↔◌, OnOk, OnErr};
    ghost use Rattle.c_file_rules.specs.Kinds.{is_among};

    /// None.
    pub fn new(alloc: Global) -> Homes
        ensures { result ≡ [] }
    {
        Homes {
            locals: Items::new(alloc),
            known: BTreeMap::new(alloc),
        }
    }

    /// These locals.
    pub fn of(alloc: Global, locals: &[u32]) -> Result<Homes, AllocError>
        ensures { IfOk result (λ homes. homes ≡ locals.now) }
    {
        let mut homes = Homes::new(alloc);
        for local in locals {
            homes.push(*local)?;
        }
        Ok(homes)
    }

    /// Adds a local.
    fn push(&mut self, local: u32) -> Result<(), AllocError>
        ensures ok { OnOk result (self.new ≡ self.old ++ local ∷ []) }
        ensures err { OnErr result (self.new ≡ self.old) }
    {
        self.locals.push(local)?;
        if self.known.insert(local, ()).is_err() {
            let _ = self.locals.pop();
            return Err(AllocError);
        }
        Ok(())
    }

    /// Whether a local is one of them.
    pub fn has(&self, local: u32) -> bool
        ensures { result ≡ is_among local self.now }
    {
        self.known.contains_key(&local)
    }

    /// Whether there is none.
    pub fn is_empty(&self) -> bool
        ensures { IsTrue result ↔ (self.now ≡ []) }
    {
        self.locals.is_empty()
    }
}
