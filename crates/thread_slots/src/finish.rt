//! Ending the run.
ghost use Rattle.std.specs.Prelude.{◌≡◌, ◌≢◌};
ghost use Rattle.object_header.specs.Codings.{exit_code};
ghost use Rattle.object_header.specs.declared.codings.ExitWord.TheVariants.{Unset};
ghost use Rattle.thread_slots.specs.Finish.{finish, finish_work};

use heap_words::{Piece, Step, WordOp};
use object_header::{FixedWord, fixed_place};

/// Exchanges the exit word, so that a run ends in one way, whoever else wants to end it too.
#[derive(Clone, Copy, Debug, PartialEq, Eq)]
pub struct Finish {
    pub word: u64,
}

impl Finish {
    /// Ends the run with this exit word, unless it has ended.
    pub fn new(word: u64) -> Finish
        requires { word ≢ exit_code Unset }
        ensures { result ≡ finish word }
    {
        Finish { word }
    }
}

impl Piece for Finish {
    type Out = bool;

    ghost work = { finish_work };

    ghost is_going = { λ piece. Unit {0} };

    fn next(&self) -> WordOp {
        WordOp::Exchange(fixed_place(FixedWord::Exit), 0, self.word)
    }

    fn take(&mut self, answer: u64) -> Step<bool> {
        Step::Done(answer == 0)
    }

    ghost keeps_going = { λ piece answer going goes_on. tt };
}
