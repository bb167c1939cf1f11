//! Making an object void.
ghost use Rattle.std.specs.Prelude.{◌≡◌};
ghost use Rattle.free_redirect.specs.VoidObject.{void_object, void_work};

use filc_num::Reason;
use heap_words::{Piece, Step, WordOp};
use object_header::{HeaderWord, VOID_BIT, header_place};

/// Sets the void bit of the object's state, and tells whether it was set.
#[derive(Clone, Copy, Debug, PartialEq, Eq)]
pub struct VoidObject {
    pub object: u64,
}

impl VoidObject {
    /// Makes the object void.
    pub fn new(object: u64) -> VoidObject
        ensures { result ≡ void_object object }
    {
        VoidObject { object }
    }
}

#[tactic(auto, unfolding(crate::specs::VoidObject::void_out))]
impl Piece for VoidObject {
    type Out = Result<(), Reason>;

    ghost work = { void_work };

    ghost is_going = { λ piece. Unit {0} };

    fn next(&self) -> WordOp {
        WordOp::Or(header_place(self.object, HeaderWord::State), VOID_BIT)
    }

    fn take(&mut self, answer: u64) -> Step<Result<(), Reason>> {
        Step::Done(if answer & VOID_BIT == 0 {
            Ok(())
        } else {
            Err(Reason::Freed)
        })
    }

    ghost keeps_going = { λ piece answer going goes_on. tt };
}
