//! A byte of the input.
ghost use Rattle.std.specs.Prelude.{◌≡◌};
ghost use Rattle.thread_slots.specs.GetByte.{get_byte, get_work};

use heap_words::{Piece, Step, WordOp};
use object_header::{FixedWord, fixed_place};

/// Loads the number of bytes that were got, and exchanges it for the next one. Where the exchange
/// is lost, another thread got the byte of that number, and the piece begins again.
#[derive(Clone, Copy, Debug, PartialEq, Eq)]
pub struct GetByte {
    pub length: u64,
    /// The number that was found, while its byte isn't got.
    pub found: Option<u64>,
}

impl GetByte {
    /// Gets the number of the next byte of an input of so many.
    pub fn new(length: u64) -> GetByte
        ensures { result ≡ get_byte length }
    {
        GetByte {
            length,
            found: None,
        }
    }
}

#[tactic(auto, unfolding(crate::specs::GetByte::get_op, crate::specs::GetByte::get_next))]
impl Piece for GetByte {
    type Out = Option<u64>;

    ghost work = { get_work };

    ghost is_going = { λ piece. Unit {0} };

    fn next(&self) -> WordOp {
        let place = fixed_place(FixedWord::InputCount);
        match self.found {
            None => WordOp::Load(place),
            Some(byte) => WordOp::Exchange(place, byte, byte.wrapping_add(1)),
        }
    }

    fn take(&mut self, answer: u64) -> Step<Option<u64>> {
        match self.found {
            None if answer < self.length => {
                self.found = Some(answer);
                Step::More
            }
            None => Step::Done(None),
            Some(byte) if answer == byte => Step::Done(Some(byte)),
            Some(_) => {
                self.found = None;
                Step::Waits
            }
        }
    }

    ghost keeps_going = { λ piece answer going goes_on. tt };
}
