//! What the memory has: words, integers, and the reasons against a pointer.

ghost use Rattle.std.specs.Prelude.{◌≡◌, ◌↔◌, ◌<◌, IsTrue};
ghost use Rattle.ideal_machine.specs.Memory.{object_at, word_at};
ghost use Rattle.ideal_machine.specs.Words.{is_within, integer_at};
ghost use Rattle.ideal_machine.specs.Refusals.{check_refusal, void_refusal, bytes_behind};
ghost use Rattle.ideal_machine.specs.Names.{NamesFreed, IsShown, IsFoundAs};
ghost use Rattle.ideal_machine.specs.Allows.{IsAccess, HasWord};

use crate::ideal::Ideal;
use crate::object::{Object, Word, ZERO};
use filc_num::{Reason, get_bytes, is_width};
use ideal_machine::{Access, Found, Half};

impl Ideal {
    /// A word of an object, of zeros where there is none.
    pub fn word_at(&self, object: u64, word: u64) -> Word
        ensures { result ≡ word_at self.now object word }
    {
        match self.objects.get(object as usize) {
            Some(object) => object.word(word),
            None => ZERO,
        }
    }

    /// Whether the object has this word.
    pub fn has_word(&self, object: u64, word: u32) -> bool
        ensures { IsTrue result ↔ HasWord self.now object word }
    {
        match self.objects.get(object as usize) {
            Some(object) => (word as usize) < object.word_count(),
            None => false,
        }
    }

    /// Whether an access of a width that there is lies inside its object and is aligned.
    pub fn is_access(&self, access: &Access) -> bool
        ensures { IsTrue result ↔ IsAccess self.now access.now }
    {
        is_width(access.width)
            && access.offset % u64::from(access.width) == 0
            && self.is_inside(access)
    }

    /// Whether the object has the bytes of an access.
    fn is_inside(&self, access: &Access) -> bool
        requires { 0 < access.now.width }
        ensures { result ≡ is_within (object_at self.now access.now.object).bytes
            access.now.offset access.now.width }
    {
        match self.objects.get(access.object as usize) {
            Some(object) => object.holds(access.offset, access.width),
            None => false,
        }
    }

    /// The integer that an access finds.
    pub fn integer_at(&self, access: &Access) -> u64
        requires { IsAccess self.now access.now }
        ensures { result ≡ integer_at self.now access.now }
    {
        let word = self.word_at(access.object, access.offset / 8);
        get_bytes(word.integer, (access.offset % 8) as u32, access.width)
    }

    /// Why a pointer can't be used so.
    pub fn check_refusal(&self, half: Half, address: u64, width: u32, write: bool) -> Option<Reason>
        requires { 0 < width }
        ensures { result ≡ check_refusal self.now half address width write }
    {
        match half {
            Half::Nothing => Some(Reason::NoCapability),
            Half::Function(_) => Some(Reason::FunctionData),
            Half::Freed => Some(Reason::Freed),
            Half::Object(number) => match self.objects.get(number as usize) {
                Some(object) => object.access_refusal(address, width, write),
                None => Some(Reason::Freed),
            },
        }
    }

    /// Why a pointer can't be freed.
    pub fn void_refusal(&self, half: Half, address: u64) -> Option<Reason>
        ensures { result ≡ void_refusal self.now half address }
    {
        match half {
            Half::Nothing => Some(Reason::NoCapability),
            Half::Function(_) => Some(Reason::FunctionData),
            Half::Freed => Some(Reason::Freed),
            Half::Object(number) => match self.objects.get(number as usize) {
                Some(object) => object.free_refusal(address),
                None => Some(Reason::Freed),
            },
        }
    }

    /// The bytes of the object of a half.
    pub fn bytes_behind(&self, half: Half) -> u64
        ensures { result ≡ bytes_behind self.now half }
    {
        match half {
            Half::Object(number) => self.objects.get(number as usize).map_or(0, Object::bytes),
            _ => 0,
        }
    }

    /// Whether a half names an object that was freed.
    fn names_freed(&self, half: Half) -> bool
        ensures { IsTrue result ↔ NamesFreed self.now half }
    {
        match half {
            Half::Object(number) => match self.objects.get(number as usize) {
                Some(object) => object.is_freed(),
                None => false,
            },
            _ => false,
        }
    }

    /// Whether a half may be shown so: as it is, or as Freed where its object was freed.
    pub fn is_shown(&self, half: Half, shown: Half) -> bool
        ensures { IsTrue result ↔ IsShown self.now half shown }
    {
        shown == half || (shown == Half::Freed && self.names_freed(half))
    }

    /// Whether what a word has may be shown so; of a pair its number.
    pub fn is_found_as(&self, stored: Found, shown: Found) -> bool
        ensures { IsTrue result ↔ IsFoundAs self.now stored shown }
    {
        match (stored, shown) {
            (Found::Plain(half), Found::Plain(shown)) => self.is_shown(half, shown),
            _ => shown == stored,
        }
    }
}
