//! Getting the half of an object's word.
ghost use Rattle.std.specs.Prelude.{◌≡◌};
ghost use Rattle.aux_words.specs.ReadHalf.{read_half, read_work};

use heap_words::{Piece, Step, WordOp};
use object_header::{HeaderWord, header_place, word_place};

/// Loads the object's table word, and then the word's half in the table.
#[derive(Clone, Copy, Debug, PartialEq, Eq)]
pub struct ReadHalf {
    pub object: u64,
    pub word: u32,
    /// The table, once it is loaded.
    pub table: Option<u64>,
}

impl ReadHalf {
    /// Gets the half of this word of the object.
    pub fn new(object: u64, word: u32) -> ReadHalf
        ensures { result ≡ read_half object word }
    {
        ReadHalf {
            object,
            word,
            table: None,
        }
    }
}

#[tactic(auto, unfolding(crate::specs::HalfSteps::half_place, crate::specs::ReadHalf::read_next))]
impl Piece for ReadHalf {
    type Out = u64;

    ghost work = { read_work };

    ghost is_going = { λ piece. Unit {0} };

    fn next(&self) -> WordOp {
        WordOp::Load(match self.table {
            None => header_place(self.object, HeaderWord::Table),
            Some(table) => word_place(table, self.word),
        })
    }

    fn take(&mut self, answer: u64) -> Step<u64> {
        match self.table {
            Some(_) => Step::Done(answer),
            None if answer == 0 => Step::Done(0),
            None => {
                self.table = Some(answer);
                Step::More
            }
        }
    }

    ghost keeps_going = { λ piece answer going goes_on. tt };
}
