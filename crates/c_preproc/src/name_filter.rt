//! A Bloom filter of one hash: a set of names that may seem to have more than were put in, and never has less.

ghost use Rattle.std.specs.Prelude.{◌≡◌, true};
ghost use Rattle.c_preproc.specs.Code.NameFilter.{AreIn, IsMore, is_in, may_have, slot_of};

use crate::texts::{is_name, text_of};
use c_lexer::Token;
use std::alloc::{AllocError, Global};

/// The number of slots.
const SLOTS: usize = 262_144;

/// Whether a name of each slot was put in.
#[derive(Drop)]
pub struct NameFilter {
    pub slots: Vec<bool>,
}

/// The slot of a name.
fn slot_of(name: &[u8]) -> usize
    ensures { result ≡ slot_of name.now }
{
    let mut slot = 0;
    for b in name {
        slot = (slot * 31 + usize::from(*b)) % SLOTS;
    }
    slot
}

impl NameFilter {
    /// No name is in it.
    pub fn new(alloc: Global) -> Result<NameFilter, AllocError> {
        Ok(NameFilter {
            slots: vec![in alloc; false; SLOTS]?,
        })
    }

    /// Whether the name may have been put in: never no where it was.
    pub fn may_have(&self, name: &[u8]) -> bool
        ensures { result ≡ may_have self.now.slots.items name.now }
    {
        let slot = slot_of(name);
        slot >= self.slots.len() || self.slots[slot]
    }

    /// Puts a name in.
    fn add(&mut self, name: &[u8])
        ensures more { IsMore self.old.slots.items self.new.slots.items }
        ensures added { may_have self.new.slots.items name.now ≡ true }
    {
        let slot = slot_of(name);
        if slot < self.slots.len() {
            self.slots[slot] = true;
        }
    }

    /// Puts a token in, if it is a name.
    fn add_token(&mut self, bytes: &[u8], token: Token)
        ensures more { IsMore self.old.slots.items self.new.slots.items }
        ensures added { is_in self.new.slots.items bytes.now token ≡ true }
    {
        if is_name(token) {
            self.add(text_of(bytes, token));
        }
    }

    /// Puts the names among tokens in.
    pub fn add_all(&mut self, bytes: &[u8], tokens: &[Token])
        ensures more { IsMore self.old.slots.items self.new.slots.items }
        ensures added { AreIn self.new.slots.items bytes.now tokens.now }
    {
        for token in tokens {
            self.add_token(bytes, *token);
        }
    }
}
