//! The map: where each word of the heap lies.
ghost use Rattle.std.specs.Prelude.{◌≡◌, ◌<◌, ◌^◌, length, IfOk, if◌then◌else◌};
ghost use Rattle.object_header.specs.HeapCells.{classes_in, start_of};
ghost use Rattle.object_header.specs.WordMap.{Static, StaticTable, IsWellFormed, IsPartition, layout_of, words_of, statics_start, cells_start, place_of_site, place_of, static_at};

use crate::cells::Cells;
use crate::words::{HEADER, StaticSize, output_place};
use std::alloc::{AllocError, Global};
use std::marker::Model;

/// Where each word of the heap lies.
#[derive(Drop)]
pub struct Map {
    slots: u32,
    out_words: u32,
    statics: Vec<StaticSize>,
    places: Vec<u64>,
    cells: Cells,
}

impl Model for Map {
    ghost use Rattle.object_header.specs.WordMap.{Layout};

    ghost Value = { Layout };

    ghost use Rattle.object_header.specs.KeptMap.{layout_in, IsKept};

    ghost view = { layout_in };

    ghost invariant = { IsKept };
}

impl Map {
    /// The map of so many slots and output words, of these statics, and of cells of these classes,
    /// which are pairs of payload words and a number of cells.
    pub fn new(
        alloc: Global,
        slots: u32,
        out_words: u32,
        statics: &[StaticSize],
        classes: &[(u32, u32)],
    ) -> Result<Map, AllocError>
        requires { IsWellFormed (layout_of slots out_words statics.now classes.now) }
        ensures { IfOk result (λ map. map ≡ layout_of slots out_words statics.now classes.now) }
    {
        let mut places = Vec::new(alloc);
        let mut next = output_place(slots, out_words);
        for size in statics {
            places.push(next + HEADER)?;
            next += size.total();
        }
        Ok(Map {
            slots,
            out_words,
            statics: Vec::from_slice(alloc, statics)?,
            places,
            cells: Cells::new(next, classes),
        })
    }

    /// How many thread slots there are.
    pub fn slots(&self) -> u32
        ensures { result ≡ self.now.slots }
    {
        self.slots
    }

    /// How many output words there are.
    pub fn out_words(&self) -> u32
        ensures { result ≡ self.now.out_words }
    {
        self.out_words
    }

    /// The sizes of the static objects.
    pub fn statics(&self) -> &[StaticSize]
        ensures { result.now ≡ self.now.statics }
    {
        self.statics.as_slice()
    }

    /// The place of a static object: that of its first payload word.
    pub fn static_place(&self, index: u32) -> u64
        requires { index < length self.now.statics }
        ensures { result ≡ place_of_site self.now (Static index) }
    {
        self.places[index as usize]
    }

    /// The place of the first word of a static's table, or 0 where it has none.
    pub fn static_table(&self, index: u32) -> u64
        requires { index < length self.now.statics }
        ensures { result ≡ (if (static_at self.now.statics index).table
            then place_of self.now (StaticTable index 0) else 0) }
    {
        let size = self.statics[index as usize];
        if size.table {
            self.static_place(index) + u64::from(size.words)
        } else {
            0
        }
    }

    /// Where the first static object begins, with its header.
    pub fn statics_start(&self) -> u64
        ensures { result ≡ statics_start self.now }
    {
        output_place(self.slots, self.out_words)
    }

    /// Where the statics end, and the first cell begins, with its header.
    pub fn cells_start(&self) -> u64
        ensures { result ≡ cells_start self.now }
    {
        self.cells.start
    }

    /// The cells of the heap.
    pub fn cells(&self) -> Cells
        ensures start { start_of result ≡ cells_start self.now }
        ensures classes { classes_in result ≡ self.now.classes }
        ensures well_formed { IsWellFormed self.now }
    {
        self.cells
    }

    /// How many words there are. The parts of the map are disjoint and cover them.
    pub fn words(&self) -> u64
        ensures words { result ≡ words_of self.now }
        ensures well_formed { IsWellFormed self.now }
        ensures partition { IsPartition self.now }
    {
        let mut words = self.cells.start;
        for class in 0..self.cells.class_count() {
            words += self.cells.together(class);
        }
        words
    }
}
