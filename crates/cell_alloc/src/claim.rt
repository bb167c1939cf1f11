//! Claiming a cell.
ghost use Rattle.std.specs.Prelude.{◌≡◌, ◌<◌, length};
ghost use Rattle.cell_alloc.specs.Claim.{claim, claim_place, claim_work, pass_over};

use heap_words::{Piece, Step, WordOp};
use object_header::{CellState, Collect, HeaderWord, Map, header_place, state_word};

/// What a `Claim` does next with the cell that it is at.
#[derive(Clone, Copy, Debug, PartialEq, Eq)]
pub enum ClaimStage {
    /// It loads the state.
    Looking,
    /// It found the state of a free cell, and exchanges it for that of a claimed one.
    Taking,
}

/// Goes through the cells of a class and claims the first one that it finds free.
///
/// It makes one pass, whatever `collect` says. `Demand` and `Always` are kept for passes after a
/// cycle that the piece asks for, which it doesn't ask for yet.
#[derive(Clone, Copy, Debug, PartialEq, Eq)]
pub struct Claim {
    /// The place of the class's first cell.
    pub first: u64,
    /// How many words a cell takes, with its header.
    pub size: u64,
    /// How many cells the class has.
    pub cells: u32,
    /// The number of the cell that it is at.
    pub cell: u32,
    pub stage: ClaimStage,
    pub collect: Collect,
}

impl Claim {
    /// Claims a cell of this class.
    pub fn new(map: &Map, class: u32, collect: Collect) -> Claim
        requires { class < length map.now.classes }
        ensures { result ≡ claim map.now class collect }
    {
        let cells = map.cells();
        Claim {
            first: cells.cell_place(class, 0),
            size: cells.size(class),
            cells: cells.cell_count(class),
            cell: 0,
            stage: ClaimStage::Looking,
            collect,
        }
    }

    /// The place of the cell that it is at, reckoned in 64 bits.
    fn place(&self) -> u64
        ensures { result ≡ claim_place self.now }
    {
        self.first
            .wrapping_add(u64::from(self.cell).wrapping_mul(self.size))
    }

    /// Goes on to the next cell, and is done behind the last one.
    #[tactic(auto, unfolding(crate::specs::Claim::pass_over))]
    fn pass_over(&mut self) -> Step<Option<u64>>
        ensures state { self.new ≡ (pass_over self.old).piece }
        ensures told { result ≡ (pass_over self.old).told }
    {
        if u64::from(self.cell) + 1 < u64::from(self.cells) {
            self.cell += 1;
            self.stage = ClaimStage::Looking;
            Step::More
        } else {
            Step::Done(None)
        }
    }
}

#[tactic(auto, unfolding(crate::specs::Claim::claim_op, crate::specs::Claim::take_free))]
impl Piece for Claim {
    type Out = Option<u64>;

    ghost work = { claim_work };

    ghost is_going = { λ piece. Unit {0} };

    fn next(&self) -> WordOp {
        let state = header_place(self.place(), HeaderWord::State);
        match self.stage {
            ClaimStage::Looking => WordOp::Load(state),
            ClaimStage::Taking => WordOp::Exchange(
                state,
                state_word(CellState::Free),
                state_word(CellState::Claimed),
            ),
        }
    }

    fn take(&mut self, answer: u64) -> Step<Option<u64>> {
        if answer != state_word(CellState::Free) {
            return self.pass_over();
        }
        match self.stage {
            ClaimStage::Looking => {
                self.stage = ClaimStage::Taking;
                Step::More
            }
            ClaimStage::Taking => Step::Done(Some(self.place())),
        }
    }

    ghost keeps_going = { λ piece answer going goes_on. tt };
}
