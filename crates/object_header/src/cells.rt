//! The cells of the heap: which class a request gets, and where each cell lies.
//!
//! A piece of work that goes through cells keeps a copy of this, and no reference to the map.
ghost use Rattle.std.specs.Prelude.{◌≡◌, ℕ, ◌+◌, ◌^◌, ◌<◌, ◌≤◌, ◌↔◌, List, length, take, All, Some, IfSome, IsNone};
ghost use Rattle.object_header.specs.WordMap.{words_together, class_at, cell_size, class_size, cell_offset, IsCell};

use crate::words::HEADER;

/// The most classes that a map can have.
pub const MOST_CLASSES: usize = 14;

/// Where the cells of each class lie.
#[derive(Clone, Copy)]
pub struct Cells {
    pub(crate) start: u64,
    pub(crate) count: u32,
    pub(crate) classes: [(u32, u32); MOST_CLASSES],
    ghost few: { count ≤ 14 },
    ghost small: { start + words_together (take count classes) < 2 ^ 60 },
}

impl Cells {
    ghost use Rattle.object_header.specs.HeapCells.{classes_in, start_of, IsLeastClass};

    /// Cells of these classes, pairs of payload words and a number of cells, from a place on.
    pub fn new(start: u64, classes: &[(u32, u32)]) -> Cells
        requires few { length classes.now ≤ 14 }
        requires small { start + words_together classes.now < 2 ^ 60 }
        ensures start { start_of result ≡ start }
        ensures classes { classes_in result ≡ classes.now }
    {
        let mut kept = [(0, 0); MOST_CLASSES];
        kept[..classes.len()].copy_from_slice(classes);
        Cells {
            start,
            count: classes.len() as u32,
            classes: kept,
        }
    }

    /// How many classes there are.
    pub fn class_count(&self) -> u32
        ensures { result ≡ length (classes_in self.now) }
    {
        self.count
    }

    /// How many payload words a cell of the class has.
    pub fn payload_words(&self, class: u32) -> u32
        requires { class < length (classes_in self.now) }
        ensures { result ≡ (class_at (classes_in self.now) class).0 }
    {
        self.class(class).0
    }

    /// How many cells the class has.
    pub fn cell_count(&self, class: u32) -> u32
        requires { class < length (classes_in self.now) }
        ensures { result ≡ (class_at (classes_in self.now) class).1 }
    {
        self.class(class).1
    }

    /// How many words a cell of the class takes, with its header.
    pub fn size(&self, class: u32) -> u64
        requires { class < length (classes_in self.now) }
        ensures { result ≡ cell_size (class_at (classes_in self.now) class) }
    {
        u64::from(self.payload_words(class)) + HEADER
    }

    /// The least class whose cells hold that many words.
    pub fn class_of(&self, words: u64) -> Option<u32>
        ensures least { IfSome result (IsLeastClass (classes_in self.now) words) }
        ensures none { IsNone result ↔ All (λ class. class.0 < words) (classes_in self.now) }
    {
        for class in 0..self.class_count() {
            if words <= u64::from(self.payload_words(class)) {
                return Some(class);
            }
        }
        None
    }

    /// The place of a cell: that of its first payload word.
    pub fn cell_place(&self, class: u32, cell: u32) -> u64
        requires { IsCell (classes_in self.now) class cell }
        ensures { result ≡ start_of self.now + cell_offset (classes_in self.now) class cell + 5 }
    {
        let mut start = self.start;
        for before in 0..class {
            start += self.together(before);
        }
        start + u64::from(cell) * self.size(class) + HEADER
    }

    /// The cell that has this place.
    pub fn cell_of(&self, place: u64) -> Option<(u32, u32)>
        ensures cell { IfSome result (λ at. IsCell (classes_in self.now) at.0 at.1) }
        ensures place { IfSome result (λ at.
            start_of self.now + cell_offset (classes_in self.now) at.0 at.1 + 5 ≡ place) }
        ensures inverse { (class cell : ℕ) → IsCell (classes_in self.now) class cell →
            start_of self.now + cell_offset (classes_in self.now) class cell + 5 ≡ place →
            result ≡ Some (class, cell) }
    {
        let at = place.checked_sub(HEADER)?.checked_sub(self.start)?;
        let mut start = 0;
        for class in 0..self.class_count() {
            let size = self.size(class);
            let end = start + self.together(class);
            if at < end {
                let into = at - start;
                return if into % size == 0 {
                    Some((class, (into / size) as u32))
                } else {
                    None
                };
            }
            start = end;
        }
        None
    }

    /// The class's payload words and its number of cells.
    fn class(&self, class: u32) -> (u32, u32)
        requires { class < length (classes_in self.now) }
        ensures { result ≡ class_at (classes_in self.now) class }
    {
        self.classes[class as usize]
    }

    /// How many words the class's cells take, with their headers.
    pub(crate) fn together(&self, class: u32) -> u64
        requires { class < length (classes_in self.now) }
        ensures size { result ≡ class_size (class_at (classes_in self.now) class) }
        ensures few { (class_at (classes_in self.now) class).1 < 2 ^ 32 }
    {
        u64::from(self.cell_count(class)) * self.size(class)
    }
}
