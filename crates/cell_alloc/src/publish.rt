//! Publishing a claimed cell.
ghost use Rattle.std.specs.Prelude.{◌≡◌, ℕ, ◌+◌, ◌*◌, ◌^◌, ◌<◌, ◌≤◌, length};
ghost use Rattle.object_header.specs.WordMap.{Cell, IsCell, class_at, place_of_site};
ghost use Rattle.cell_alloc.specs.Publish.{clear_from, publish, publish_next, publish_work};

use heap_words::{Piece, Step, WordOp};
use object_header::{
    CellState, HeaderWord, Kind, Map, header_place, size_word, state_word, word_place,
};

/// What a `Publish` stores next.
#[derive(Clone, Copy, Debug, PartialEq, Eq)]
pub enum PublishStage {
    /// No link.
    ClearLink,
    /// The bytes and the kind.
    SetSize,
    /// No table.
    ClearTable,
    /// 0 in the payload word of this number.
    ClearWord(u32),
    /// The colour, as the mark.
    SetMark,
    /// The state of a live cell.
    SetState,
}

/// Makes an object of a claimed cell. All its words are cleared, also those behind its bytes.
///
/// The mark comes after the table word and the payload: a cell that has this cycle's mark names
/// nothing from an earlier life. The state comes last: a live cell has its mark.
#[derive(Clone, Copy, Debug, PartialEq, Eq)]
pub struct Publish {
    pub cell: u64,
    pub bytes: u64,
    pub kind: Kind,
    pub colour: u64,
    /// How many payload words the cell has.
    pub payload: u32,
    pub stage: PublishStage,
}

#[tactic(auto, unfolding(crate::specs::Publish::publish_next))]
impl Publish {
    /// Makes an object of the cell at this place, of so many bytes. Where the class of the cell is
    /// known, `in_class` finds the number of its words at once.
    pub fn new(map: &Map, cell: u64, bytes: u64, kind: Kind, colour: u64) -> Publish
        ensures asked { result ≡ publish result.payload cell bytes kind colour }
        ensures payload { (class number : ℕ) → IsCell map.now.classes class number →
            cell ≡ place_of_site map.now (Cell class number) →
            result.payload ≡ (class_at map.now.classes class).0 }
    {
        let cells = map.cells();
        let payload = match cells.cell_of(cell) {
            Some((class, _)) => cells.payload_words(class),
            None => 0,
        };
        Publish {
            cell,
            bytes,
            kind,
            colour,
            payload,
            stage: PublishStage::ClearLink,
        }
    }

    /// Makes an object of a cell of this class, of so many bytes. The cell holds them.
    pub fn in_class(
        map: &Map,
        class: u32,
        cell: u64,
        bytes: u64,
        kind: Kind,
        colour: u64,
    ) -> Publish
        requires class { class < length map.now.classes }
        requires fits { bytes ≤ 8 * (class_at map.now.classes class).0 }
        ensures asked { result ≡ publish (class_at map.now.classes class).0 cell bytes kind colour }
        ensures going { result.bytes < 2 ^ 60 }
    {
        let cells = map.cells();
        Publish {
            cell,
            bytes,
            kind,
            colour,
            payload: cells.payload_words(class),
            stage: PublishStage::ClearLink,
        }
    }

    /// What it stores after this.
    fn next_stage(self) -> PublishStage
        ensures { result ≡ (publish_next self.payload self.stage).piece }
    {
        match self.stage {
            PublishStage::ClearLink => PublishStage::SetSize,
            PublishStage::SetSize => PublishStage::ClearTable,
            PublishStage::ClearTable => self.clear_from(0),
            PublishStage::ClearWord(word) => self.clear_from(word.saturating_add(1)),
            PublishStage::SetMark | PublishStage::SetState => PublishStage::SetState,
        }
    }

    /// Clears the payload from this word on, and sets the mark where there is no such word.
    fn clear_from(self, word: u32) -> PublishStage
        ensures { result ≡ clear_from self.payload word }
    {
        if word < self.payload {
            PublishStage::ClearWord(word)
        } else {
            PublishStage::SetMark
        }
    }
}

#[tactic(auto, unfolding(crate::specs::Publish::stage_place, crate::specs::Publish::stage_word, crate::specs::Publish::publish_next))]
impl Piece for Publish {
    type Out = ();

    ghost work = { publish_work };

    ghost is_going = { λ piece. piece.bytes < 2 ^ 60 };

    fn next(&self) -> WordOp {
        let header = |word| header_place(self.cell, word);
        match self.stage {
            PublishStage::ClearLink => WordOp::Store(header(HeaderWord::Link), 0),
            PublishStage::SetSize => {
                WordOp::Store(header(HeaderWord::Size), size_word(self.bytes, self.kind))
            }
            PublishStage::ClearTable => WordOp::Store(header(HeaderWord::Table), 0),
            PublishStage::ClearWord(word) => WordOp::Store(word_place(self.cell, word), 0),
            PublishStage::SetMark => WordOp::Store(header(HeaderWord::Mark), self.colour),
            PublishStage::SetState => {
                WordOp::Store(header(HeaderWord::State), state_word(CellState::Live))
            }
        }
    }

    fn take(&mut self, _answer: u64) -> Step<()> {
        let told = if self.stage == PublishStage::SetState {
            Step::Done(())
        } else {
            Step::More
        };
        self.stage = self.next_stage();
        told
    }

    ghost keeps_going = { λ piece answer going goes_on. going };
}
