//! Installing a table.
ghost use Rattle.std.specs.Prelude.{◌≡◌, ◌≢◌};
ghost use Rattle.aux_words.specs.Install.{install, install_work};

use heap_words::{Piece, Step, WordOp};
use object_header::{HeaderWord, header_place};

/// Exchanges the object's table word, so that of two threads that bring a table one wins, and the
/// other goes on with the winner's.
#[derive(Clone, Copy, Debug, PartialEq, Eq)]
pub struct Install {
    pub object: u64,
    pub table: u64,
}

impl Install {
    /// Makes this the object's table, unless it has one. No object is its own table: a half would
    /// be stored over an integer then.
    pub fn new(object: u64, table: u64) -> Install
        requires { object ≢ table }
        ensures { result ≡ install object table }
    {
        Install { object, table }
    }
}

#[tactic(auto, unfolding(crate::specs::Install::install_out))]
impl Piece for Install {
    type Out = u64;

    ghost work = { install_work };

    ghost is_going = { λ piece. Unit {0} };

    fn next(&self) -> WordOp {
        WordOp::Exchange(header_place(self.object, HeaderWord::Table), 0, self.table)
    }

    fn take(&mut self, answer: u64) -> Step<u64> {
        Step::Done(if answer == 0 { self.table } else { answer })
    }

    ghost keeps_going = { λ piece answer going goes_on. tt };
}
