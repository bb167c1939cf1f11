//! Size classes: which cell a request of so many words gets, and where each cell lies.
//!
//! The heap hands out cells of a few fixed sizes, so that a cell that is swept can be handed out
//! again at once, and free lists never split or join. This crate has the classes of the two heaps.
//! The arithmetic of a choice is that of the map of words (`object_header::Cells`), for cells that
//! begin at the heap's start.
//!
//! Read `specs/Classes.antt` first, and then `specs/WordMap.antt` of object_header.
#![tactic(auto)]

ghost use Rattle.std.specs.Prelude.{◌≡◌, ℕ, ◌+◌, ◌^◌, ◌<◌, ◌≤◌, ◌↔◌, length, All, IfSome, IsNone, Some, IsTrue};
ghost use Rattle.std.specs.List.{zip};
ghost use Rattle.object_header.specs.HeapCells.{classes_in, start_of, IsLeastClass};
ghost use Rattle.object_header.specs.WordMap.{ascends, class_at, cell_offset, words_together, IsCell, IsWordOf};
ghost use Rattle.size_class.specs.Classes.{normal_classes, small_classes};

#[cfg(test)]
mod tests;

use object_header::Cells;

/// The classes of a heap, from the smallest cells up.
#[derive(Clone, Copy)]
pub struct Classes<const N: usize> {
    /// The payload words of a cell of each class.
    pub words: [u32; N],
    /// How many cells each class has.
    pub cells: [u32; N],
    ghost few: { N ≤ 14 },
    ghost ascending: { IsTrue (ascends (zip words cells)) },
    ghost small: { words_together (zip words cells) < 2 ^ 60 },
}

/// A table of classes: the payload words of each by its number of cells.
macro_rules! classes {
    ($($words:literal by $cells:literal),*) => {
        Classes { words: [$($words),*], cells: [$($cells),*] }
    };
}

/// The classes of the normal heap.
pub fn normal() -> Classes<12>
    ensures classes { zip result.words result.cells ≡ normal_classes }
    ensures together { words_together (zip result.words result.cells) ≡ 814884 }
{
    classes!(
        2 by 8192, 4 by 8192, 8 by 4096, 16 by 4096, 32 by 2048, 64 by 1024,
        128 by 512, 256 by 256, 512 by 128, 1024 by 64, 4096 by 16, 16384 by 4
    )
}

/// The classes of a small heap, which is soon full.
pub fn small() -> Classes<6>
    ensures classes { zip result.words result.cells ≡ small_classes }
    ensures together { words_together (zip result.words result.cells) ≡ 1248 }
{
    classes!(2 by 8, 4 by 8, 8 by 8, 16 by 8, 32 by 8, 64 by 8)
}

impl<const N: usize> Classes<N> {
    /// The classes as pairs, as `object_header::Map::new` takes them.
    pub fn pairs(&self) -> [(u32, u32); N]
        ensures { result ≡ zip self.now.words self.now.cells }
    {
        let mut pairs = [(0, 0); N];
        for class in 0..N {
            pairs[class] = (self.words[class], self.cells[class]);
        }
        pairs
    }

    /// The least class whose cells hold that many words.
    pub fn class_of(&self, words: u64) -> Option<u32>
        ensures least { IfSome result (IsLeastClass (zip self.now.words self.now.cells) words) }
        ensures none { IsNone result
            ↔ All (λ class. class.0 < words) (zip self.now.words self.now.cells) }
    {
        self.heap_cells().class_of(words)
    }

    /// The first payload word of a cell, counted from the heap's start.
    pub fn cell_at(&self, class: u32, cell: u32) -> u64
        requires { IsCell (zip self.now.words self.now.cells) class cell }
        ensures start { result ≡ cell_offset (zip self.now.words self.now.cells) class cell + 5 }
        ensures inside { result + (class_at (zip self.now.words self.now.cells) class).0
            ≤ words_together (zip self.now.words self.now.cells) }

        // Two cells share no word.
        ensures apart { (other_class other_cell word : ℕ) →
            IsCell (zip self.now.words self.now.cells) other_class other_cell →
            IsWordOf (zip self.now.words self.now.cells) class cell word →
            IsWordOf (zip self.now.words self.now.cells) other_class other_cell word →
            (other_class ≡ class) × (other_cell ≡ cell) }
    {
        self.heap_cells().cell_place(class, cell)
    }

    /// The cell whose first payload word this is, counted from the heap's start.
    pub fn cell_of(&self, word: u64) -> Option<(u32, u32)>
        ensures cell { IfSome result (λ at.
            IsCell (zip self.now.words self.now.cells) at.0 at.1) }
        ensures start { IfSome result (λ at.
            cell_offset (zip self.now.words self.now.cells) at.0 at.1 + 5 ≡ word) }
        ensures inverse { (class cell : ℕ) →
            IsCell (zip self.now.words self.now.cells) class cell →
            cell_offset (zip self.now.words self.now.cells) class cell + 5 ≡ word →
            result ≡ Some (class, cell) }
    {
        self.heap_cells().cell_of(word)
    }

    /// The cells, from the heap's start on.
    fn heap_cells(&self) -> Cells
        ensures start { start_of result ≡ 0 }
        ensures classes { classes_in result ≡ zip self.now.words self.now.cells }
    {
        Cells::new(0, &self.pairs())
    }
}
