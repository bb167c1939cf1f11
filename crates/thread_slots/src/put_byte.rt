//! A byte of the output.
ghost use Rattle.std.specs.Prelude.{◌≡◌};
ghost use Rattle.thread_slots.specs.PutByte.{put_byte, put_work, look_at};

use filc_num::Reason;
use heap_words::{Piece, Step, WordOp};
use object_header::{FixedWord, fixed_place, output_place, output_word};

/// Which operation comes next.
#[derive(Clone, Copy, Debug, PartialEq, Eq)]
pub enum PutStage {
    /// The load of the hint.
    LoadHint,
    /// The load of this output word, to see whether it is taken.
    LoadWord(u32),
    /// The exchange that takes it.
    TakeWord(u32),
    /// The store of the hint, after this word was taken.
    StoreHint(u32),
}

/// Takes the first output word that isn't taken, and then moves the hint behind it.
///
/// The hint comes last, so that each word below it is taken at all times. It may fall where several
/// threads store it, and then some words are looked at once more.
#[derive(Clone, Copy, Debug, PartialEq, Eq)]
pub struct PutByte {
    pub slots: u32,
    pub out_words: u32,
    pub byte: u8,
    pub stage: PutStage,
}

impl PutByte {
    /// Puts the byte out, in a map with so many slots and output words.
    pub fn new(slots: u32, out_words: u32, byte: u8) -> PutByte
        ensures { result ≡ put_byte slots out_words byte }
    {
        PutByte {
            slots,
            out_words,
            byte,
            stage: PutStage::LoadHint,
        }
    }

    /// Goes on with this output word, or gives up where there is none.
    #[tactic(auto, unfolding(crate::specs::PutByte::look_at))]
    fn look_at(&mut self, index: u64) -> Step<Result<(), Reason>>
        ensures state { self.new
            ≡ record self.old { stage = (look_at self.old.out_words self.old.stage index).piece } }
        ensures told { result ≡ (look_at self.old.out_words self.old.stage index).told }
    {
        if index < u64::from(self.out_words) {
            self.stage = PutStage::LoadWord(index as u32);
            Step::More
        } else {
            Step::Done(Err(Reason::OutputLimit))
        }
    }
}

#[tactic(auto, unfolding(crate::specs::PutByte::put_place, crate::specs::PutByte::put_op, crate::specs::PutByte::put_next))]
impl Piece for PutByte {
    type Out = Result<(), Reason>;

    ghost work = { put_work };

    ghost is_going = { λ piece. Unit {0} };

    fn next(&self) -> WordOp {
        match self.stage {
            PutStage::LoadHint => WordOp::Load(fixed_place(FixedWord::OutputHint)),
            PutStage::LoadWord(index) => WordOp::Load(output_place(self.slots, index)),
            PutStage::TakeWord(index) => {
                WordOp::Exchange(output_place(self.slots, index), 0, output_word(self.byte))
            }
            PutStage::StoreHint(index) => {
                WordOp::Store(fixed_place(FixedWord::OutputHint), u64::from(index) + 1)
            }
        }
    }

    fn take(&mut self, answer: u64) -> Step<Result<(), Reason>> {
        match self.stage {
            PutStage::LoadHint => self.look_at(answer),
            PutStage::LoadWord(index) if answer == 0 => {
                self.stage = PutStage::TakeWord(index);
                Step::More
            }
            PutStage::TakeWord(index) if answer == 0 => {
                self.stage = PutStage::StoreHint(index);
                Step::More
            }
            PutStage::LoadWord(index) | PutStage::TakeWord(index) => {
                self.look_at(u64::from(index) + 1)
            }
            PutStage::StoreHint(_) => Step::Done(Ok(())),
        }
    }

    ghost keeps_going = { λ piece answer going goes_on. tt };
}
