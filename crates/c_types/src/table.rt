//! The table of a file's types: each type once, by its number.
//!
//! A file can nest types a million deep, and by typedefs of typedefs make one whose parts are 3^k where
//! they are copied. Here a type is one entry that names its parts by number, so making, comparing and
//! dropping a type take no walk.

ghost use Rattle.std.specs.Prelude.{◌≡◌};
ghost use Rattle.c_types.specs.Tables.{tag_type};

use crate::ctype::{CType, Extent, Part};
use crate::derivation::Derivation;
use crate::entry::{Entry, Tag};
use bitflags::Flags;
use filc_num::CIntType;
use std::alloc::{AllocError, Global};
use std::collections::BTreeMap;
use std::marker::Model;

/// The types of a file, and the lists of their functions' parameters. Contracts see the list of entries.
#[derive(Drop)]
pub struct Types {
    entries: Vec<Entry>,
    numbers: BTreeMap<Entry, u32>,
}

impl Model for Types {
    ghost use Rattle.std.specs.Prelude.{List};
    ghost use Rattle.c_types.specs.declared.entry.Entry.{Entry};
    ghost use Rattle.c_types.specs.Whole.{IsTable};

    ghost Value = { List Entry };

    ghost view = { λ t. t.entries.items };

    ghost invariant = { λ t. IsTable t.entries.items t.numbers };
}

impl Types {
    ghost use Rattle.std.specs.Prelude.{◌≡◌, ◌⊎◌, ◌↔◌, ℕ, [], ◌++◌, ◌∷◌, ◌==◌, length, slice_get, slice_set, All, IfOk, IfSome, OnOk, OnErr, IsTrue};
    ghost use Rattle.c_types.specs.declared.entry.Entry.{Entry};
    ghost use Rattle.c_types.specs.declared.entry.Entry.TheVariants.{OfType};
    ghost use Rattle.c_types.specs.declared.ctype.CType.TheVariants.{Void, Integer};
    ghost use Rattle.c_types.specs.Tables.{is_derived, tag_type};
    ghost use Rattle.c_types.specs.Declarators.{Keeps};
    ghost use Rattle.std.specs.List.{list_all};
    ghost use Rattle.c_types.specs.Extensions.{with_entry, new_tag_type, is_part, is_type_entry, is_list_entry, knows_list};
    ghost use Rattle.c_types.specs.Whole.{IsPart, IsTypeAt, IsListAt, DerivationFits, EntryFits, IsWhole};

    /// A table without types.
    pub fn new(alloc: Global) -> Types
        ensures { result ≡ [] }
    {
        Types {
            entries: Vec::new(alloc),
            numbers: BTreeMap::new(alloc),
        }
    }

    /// What a number names. What it names itself is there, and of the right kind.
    pub fn get(&self, number: u32) -> Option<Entry>
        ensures value { result ≡ slice_get self.now number }
        ensures fits { IfSome result (EntryFits self.now) }
    {
        self.entries.get(number as usize).copied()
    }

    /// How many numbers name something. No two name the same: two types are the same type exactly where
    /// their numbers are equal (C11 6.2.7).
    pub fn len(&self) -> usize
        ensures len { result ≡ length self.now }
        ensures once { (e : Entry) (i j : ℕ) → slice_get self.now i ≡ Some e
            → slice_get self.now j ≡ Some e → i ≡ j }
        ensures whole { IsWhole self.now }
    {
        self.entries.len()
    }

    /// Whether the table has no type yet.
    pub fn is_empty(&self) -> bool
        ensures { result ≡ (length self.now == 0) }
    {
        self.entries.is_empty()
    }

    /// Whether a part is one of this table, in its one form.
    pub fn is_part(&self, part: Part) -> bool
        ensures there { IsTrue result ↔ IsPart self.now part }
        ensures value { result ≡ is_part self.now part }
    {
        match self.get(part.number) {
            Some(Entry::OfType(CType::ArrayOf(_) | CType::Function(_))) => {
                part.qualifiers.bits() == 0
            }
            Some(Entry::OfType(_)) => true,
            Some(Entry::NoParameters | Entry::Parameters(..)) | None => false,
        }
    }

    /// Whether numbers are those of types.
    pub fn are_types(&self, numbers: &[u32]) -> bool
        ensures there { IsTrue result ↔ All (IsTypeAt self.now) numbers.now }
        ensures value { result ≡ list_all (λ n. is_type_entry (slice_get self.now n)) numbers.now }
    {
        numbers.iter().all(|number| self.is_type(*number))
    }

    /// Whether a number is that of a type.
    pub fn is_type(&self, number: u32) -> bool
        ensures there { IsTrue result ↔ IsTypeAt self.now number }
        ensures value { result ≡ is_type_entry (slice_get self.now number) }
    {
        match self.get(number) {
            Some(Entry::OfType(_)) => true,
            Some(Entry::NoParameters | Entry::Parameters(..)) | None => false,
        }
    }

    /// Whether a number is that of a list of parameters.
    pub fn is_list(&self, number: u32) -> bool
        ensures there { IsTrue result ↔ IsListAt self.now number }
        ensures value { result ≡ is_list_entry (slice_get self.now number) }
    {
        match self.get(number) {
            Some(Entry::NoParameters | Entry::Parameters(..)) => true,
            Some(Entry::OfType(_)) | None => false,
        }
    }

    /// Whether the list of parameters that a derivation names, if it does, is one of this table.
    pub fn knows_list_of(&self, derivation: Derivation) -> bool
        ensures there { IsTrue result ↔ DerivationFits self.now derivation }
        ensures value { result ≡ knows_list self.now derivation }
    {
        match derivation {
            Derivation::Function { parameters, .. } => self.is_list(parameters),
            Derivation::Pointer(_)
            | Derivation::Array(_)
            | Derivation::OpenArray
            | Derivation::BadArray
            | Derivation::BadFunction(_) => true,
        }
    }

    /// Whether the lists of parameters that derivations name are this table's.
    pub fn knows_lists_of(&self, derivations: &[Derivation]) -> bool
        ensures there { IsTrue result ↔ All (DerivationFits self.now) derivations.now }
        ensures value { result ≡ list_all (knows_list self.now) derivations.now }
    {
        derivations.iter().all(|d| self.knows_list_of(*d))
    }

    /// The number of void.
    pub fn void_type(&mut self) -> Result<u32, AllocError>
        ensures number { IfOk result (λ n. slice_get self.new n ≡ Some (OfType Void)) }
        ensures gives { IfOk result (λ n. n ≡ (with_entry self.old (OfType Void)).1) }
        ensures grown { OnOk result (self.new ≡ (with_entry self.old (OfType Void)).0) }
        ensures kept { Keeps self.old self.new }
        ensures err { OnErr result (self.new ≡ self.old) }
    {
        self.number_of(Entry::OfType(CType::Void))
    }

    /// The number of an integer type.
    pub fn integer_type(&mut self, kind: CIntType) -> Result<u32, AllocError>
        ensures number { IfOk result (λ n. slice_get self.new n ≡ Some (OfType (Integer kind))) }
        ensures gives { IfOk result (λ n. n ≡ (with_entry self.old (OfType (Integer kind))).1) }
        ensures grown { OnOk result (self.new ≡ (with_entry self.old (OfType (Integer kind))).0) }
        ensures kept { Keeps self.old self.new }
        ensures err { OnErr result (self.new ≡ self.old) }
    {
        self.number_of(Entry::OfType(CType::Integer(kind)))
    }

    /// The number of a type that is made from others, or of a list of parameters: always the same one. It is
    /// put in where it isn't there yet.
    pub(crate) fn number_of(&mut self, entry: Entry) -> Result<u32, AllocError>
        requires derived { IsTrue (is_derived entry) }
        requires fits { EntryFits self.old entry }
        ensures number { IfOk result (λ n. slice_get self.new n ≡ Some entry) }
        ensures table { (self.new ≡ self.old) ⊎ (self.new ≡ self.old ++ entry ∷ []) }
        ensures gives { IfOk result (λ n. n ≡ (with_entry self.old entry).1) }
        ensures grown { OnOk result (self.new ≡ (with_entry self.old entry).0) }
        ensures kept { Keeps self.old self.new }
        ensures err { OnErr result (self.new ≡ self.old) }
    {
        if let Some(number) = self.numbers.get(&entry).copied() {
            return Ok(number);
        }
        let Ok(number) = u32::try_from(self.entries.len()) else {
            return Err(AllocError);
        };
        if self.entries.push(entry).is_err() {
            return Err(AllocError);
        }
        if self.numbers.insert(entry, number).is_err() {
            let _ = self.entries.pop();
            return Err(AllocError);
        }
        Ok(number)
    }

    /// A new structure, union or enumeration without contents, by its number: a type of its own
    /// (C11 6.7.2.3p5).
    pub fn declare(&mut self, tag: Tag) -> Result<u32, AllocError>
        ensures number { IfOk result (λ n. n ≡ length self.old) }
        ensures entry { IfOk result (λ n.
            self.new ≡ self.old ++ OfType (tag_type tag n None) ∷ []) }
        ensures grown { OnOk result (self.new ≡ (new_tag_type self.old tag).0) }
        ensures err { OnErr result (self.new ≡ self.old) }
    {
        let Ok(number) = u32::try_from(self.entries.len()) else {
            return Err(AllocError);
        };
        if self
            .entries
            .push(Entry::OfType(type_of_tag(tag, number, None)))
            .is_err()
        {
            return Err(AllocError);
        }
        Ok(number)
    }

    /// Gives a structure or union the size and alignment of its contents.
    pub fn complete(&mut self, tag: Tag, number: u32, contents: Extent)
        requires { slice_get self.old number ≡ Some (OfType (tag_type tag number None)) }
        ensures { self.new
            ≡ slice_set self.old number (OfType (tag_type tag number (Some contents))) }
    {
        self.entries[number as usize] = Entry::OfType(type_of_tag(tag, number, Some(contents)));
    }
}

/// The type that a tag names, with the extent of its contents once it has some.
fn type_of_tag(tag: Tag, number: u32, contents: Option<Extent>) -> CType
    ensures { result ≡ tag_type tag number contents }
{
    match tag {
        Tag::Structure => CType::Structure(number, contents),
        Tag::Union => CType::Union(number, contents),
        Tag::Enumeration => CType::Enumeration(number),
    }
}
