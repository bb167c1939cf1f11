//! The cases of a switch, in their order, and by their values.

use c_tree::Case;
use sqlite_items::Items;
use std::alloc::{AllocError, Global};
use std::collections::BTreeMap;
use std::marker::Model;

/// The cases of a switch so far. Contracts see their list. To ask whether a value is there searches a tree.
#[derive(Drop)]
pub struct Cases {
    cases: Items<Case>,
    values: BTreeMap<u64, ()>,
}

impl Model for Cases {
    ghost use Rattle.std.specs.Prelude.{List};
    ghost use Rattle.c_tree.specs.declared.stmt.Case.{Case};
    ghost use Rattle.c_file_rules.specs.Indexes.{IsIndexOf, value_of_case};

    ghost Value = { List Case };

    ghost view = { λ c. c.cases };

    ghost invariant = { λ c. IsIndexOf value_of_case c.cases c.values };
}

impl Cases {
    ghost use Rattle.std.specs.Prelude.{◌≡◌, [], ◌∷◌, ◌++◌, ◌==◌, OnOk, OnErr};
    ghost use Rattle.std.specs.List.{list_any};

    /// No case yet.
    pub fn new(alloc: Global) -> Cases
        ensures { result ≡ [] }
    {
        Cases {
            cases: Items::new(alloc),
            values: BTreeMap::new(alloc),
        }
    }

    /// Whether a case has this value.
    pub fn has(&self, value: u64) -> bool
        ensures { result ≡ list_any (λ c. c.value == value) self.now }
    {
        self.values.contains_key(&value)
    }

    /// Adds a case.
    pub fn push(&mut self, case: Case) -> Result<(), AllocError>
        ensures ok { OnOk result (self.new ≡ self.old ++ case ∷ []) }
        ensures err { OnErr result (self.new ≡ self.old) }
    {
        self.cases.push(case)?;
        if self.values.insert(case.value, ()).is_err() {
            let _ = self.cases.pop();
            return Err(AllocError);
        }
        Ok(())
    }

    /// The list of the cases.
    pub fn into_items(self) -> Items<Case>
        ensures { result ≡ self }
    {
        self.cases
    }
}
