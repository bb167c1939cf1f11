//! The members of a structure or union, in their order, and by their names.

use c_types::Part;
use sqlite_items::Items;
use std::alloc::{AllocError, Global};
use std::collections::BTreeMap;
use std::marker::Model;

/// A member: the number of its name, and its type.
#[derive(Clone, Copy, Debug, PartialEq, Eq)]
pub struct MemberSeen {
    pub name: u32,
    pub part: Part,
}

/// The members of a structure or union so far. Contracts see their list. To ask for a name searches a tree.
#[derive(Drop)]
pub struct MemberList {
    members: Items<MemberSeen>,
    names: BTreeMap<u32, ()>,
}

impl Model for MemberList {
    ghost use Rattle.std.specs.Prelude.{List};
    ghost use Rattle.c_file_rules.specs.declared.member_list.MemberSeen.{MemberSeen};
    ghost use Rattle.c_file_rules.specs.MemberNames.{IsIndexOf, name_of_member};

    ghost Value = { List MemberSeen };

    ghost view = { λ l. l.members };

    ghost invariant = { λ l. IsIndexOf name_of_member l.members l.names };
}

impl MemberList {
    ghost use Rattle.std.specs.Prelude.{◌≡◌, [], ◌∷◌, ◌++◌, OnOk, OnErr};
    ghost use Rattle.c_file_rules.specs.Tags.{has_member};

    /// No member yet.
    pub fn new(alloc: Global) -> MemberList
        ensures { result ≡ [] }
    {
        MemberList {
            members: Items::new(alloc),
            names: BTreeMap::new(alloc),
        }
    }

    /// Whether a member has this name.
    pub fn has(&self, name: u32) -> bool
        ensures { result ≡ has_member name self.now }
    {
        self.names.contains_key(&name)
    }

    /// Adds a member.
    pub fn push(&mut self, member: MemberSeen) -> Result<(), AllocError>
        ensures ok { OnOk result (self.new ≡ self.old ++ member ∷ []) }
        ensures err { OnErr result (self.new ≡ self.old) }
    {
        self.members.push(member)?;
        if self.names.insert(member.name, ()).is_err() {
            let _ = self.members.pop();
            return Err(AllocError);
        }
        Ok(())
    }

    /// The members, in their order.
    pub fn as_slice(&self) -> &[MemberSeen]
        ensures { result.now ≡ self.now }
    {
        self.members.as_slice()
    }
}

/// The members of a structure or union so far, and whether a tag or a constant is declared in them.
#[derive(Drop)]
pub struct MembersSeen {
    pub members: MemberList,
    pub declares: bool,
}
