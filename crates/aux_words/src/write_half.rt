//! Setting the half of an object's word.
ghost use Rattle.std.specs.Prelude.{◌≡◌, None, Some};
ghost use Rattle.aux_words.specs.WriteHalf.{write_half, write_work};

use heap_words::{Piece, Step, WordOp};
use object_header::{HeaderWord, header_place, word_place};

/// Loads the object's table word, and then stores the word's half in the table.
#[derive(Clone, Copy, Debug, PartialEq, Eq)]
pub struct WriteHalf {
    pub object: u64,
    pub word: u32,
    /// The word of the capability that is stored.
    pub cap: u64,
    /// The table, once it is known.
    pub table: Option<u64>,
}

impl WriteHalf {
    /// Sets the half of this word of the object. An object with no table has halves that are 0.
    pub fn new(object: u64, word: u32, cap: u64) -> WriteHalf
        ensures { result ≡ write_half object word cap None }
    {
        WriteHalf {
            object,
            word,
            cap,
            table: None,
        }
    }

    /// Sets the half of this word of an object whose table is known, by one store.
    pub fn at_table(object: u64, table: u64, word: u32, cap: u64) -> WriteHalf
        ensures { result ≡ write_half object word cap (Some table) }
    {
        WriteHalf {
            object,
            word,
            cap,
            table: Some(table),
        }
    }
}

#[tactic(auto, unfolding(crate::specs::HalfSteps::half_place, crate::specs::WriteHalf::write_op, crate::specs::WriteHalf::write_next))]
impl Piece for WriteHalf {
    type Out = ();

    ghost work = { write_work };

    ghost is_going = { λ piece. Unit {0} };

    fn next(&self) -> WordOp {
        match self.table {
            None => WordOp::Load(header_place(self.object, HeaderWord::Table)),
            Some(table) => WordOp::Store(word_place(table, self.word), self.cap),
        }
    }

    fn take(&mut self, answer: u64) -> Step<()> {
        match self.table {
            Some(_) => Step::Done(()),
            None if answer == 0 => Step::Done(()),
            None => {
                self.table = Some(answer);
                Step::More
            }
        }
    }

    ghost keeps_going = { λ piece answer going goes_on. tt };
}
