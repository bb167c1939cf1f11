//! Numbers of things by the list in which they first stand: of functions by their names, and of functions' types.

use sqlite_items::Items;
use std::alloc::{AllocError, Global};
use std::collections::BTreeMap;
use std::marker::Model;

/// A list has no more, so that each place is a number of 32 bits.
const MOST_NUMBERS: usize = 4_294_967_295;

/// A list of numbers, of each of which its first place is its own number. Contracts see the list.
#[derive(Drop)]
pub struct Numbering {
    list: Items<u32>,
    /// The first place of each.
    places: BTreeMap<u32, u32>,
}

impl Model for Numbering {
    ghost use Rattle.std.specs.Prelude.{ℕ, List};
    ghost use Rattle.c_file_rules.specs.Places.{IsPlacedBy};

    ghost Value = { List ℕ };

    ghost view = { λ n. n.list };

    ghost invariant = { λ n. IsPlacedBy n.list n.places };
}

impl Numbering {
    ghost use Rattle.std.specs.Prelude.{◌≡◌, [], ◌∷◌, ◌++◌, length, slice_get, OnOk, OnErr};
    ghost use Rattle.c_file_rules.specs.Files.{place_from, number_or};
    ghost use Rattle.c_file_rules.specs.Kinds.{is_among, with_kind};

    /// Nothing is numbered.
    pub fn new(alloc: Global) -> Numbering
        ensures { result ≡ [] }
    {
        Numbering {
            list: Items::new(alloc),
            places: BTreeMap::new(alloc),
        }
    }

    /// How many the list has.
    pub fn len(&self) -> u32
        ensures { result ≡ length self.now }
    {
        self.list.len() as u32
    }

    /// The first place of one.
    pub fn place_of(&self, one: u32) -> Option<u32>
        ensures { result ≡ place_from 0 one self.now }
    {
        self.places.get(&one).copied()
    }

    /// The first place of one, or one behind the last where it isn't there.
    pub fn number_of(&self, one: u32) -> u32
        ensures { result ≡ number_or (length self.now) (place_from 0 one self.now) }
    {
        match self.place_of(one) {
            Some(place) => place,
            None => self.len(),
        }
    }

    /// Whether the list has one.
    pub fn has(&self, one: u32) -> bool
        ensures { result ≡ is_among one self.now }
    {
        self.places.contains_key(&one)
    }

    /// What stands at a place.
    pub fn at(&self, place: u32) -> Option<u32>
        ensures { result ≡ slice_get self.now place }
    {
        self.list.get(place as usize).copied()
    }

    /// Adds one to the list.
    pub fn push(&mut self, one: u32) -> Result<(), AllocError>
        ensures ok { OnOk result (self.new ≡ self.old ++ one ∷ []) }
        ensures err { OnErr result (self.new ≡ self.old) }
    {
        let length = self.list.len();
        if length >= MOST_NUMBERS {
            return Err(AllocError);
        }
        self.list.push(one)?;
        if self.places.contains_key(&one) {
            return Ok(());
        }
        if self.places.insert(one, length as u32).is_err() {
            let _ = self.list.pop();
            return Err(AllocError);
        }
        Ok(())
    }

    /// Adds one, where it isn't there yet.
    pub fn add(&mut self, one: u32) -> Result<(), AllocError>
        ensures ok { OnOk result (self.new ≡ with_kind self.old one) }
        ensures err { OnErr result (self.new ≡ self.old) }
    {
        if self.has(one) {
            Ok(())
        } else {
            self.push(one)
        }
    }
}
