//! Pieces of work, which make one operation at a time.
ghost use Rattle.std.specs.Prelude.{◌≡◌, ℕ, IfSome};
ghost use Rattle.heap_words.specs.Alone.{IsGoingOn, FinishesWithin};
ghost use Rattle.heap_words.specs.Work.{Work};

use crate::{PlainWords, WordOp, Words};

/// What a piece tells where it has taken an answer in.
#[derive(Clone, Copy, Debug, PartialEq, Eq)]
pub enum Step<T> {
    /// It goes on.
    More,
    /// It goes on, but this answer showed that what it waits for isn't there yet.
    Waits,
    /// It is done.
    Done(T),
}

/// A piece of work on words. It knows none: it says what it wants next, and takes the answer in.
pub trait Piece {
    type Out;

    // what it wants, and what becomes of it by an answer
    ghost work: { Work Self Self.Out };

    // it can go on; a piece that is done need not be able to
    ghost is_going: { Self → Type 0 };

    /// The operation that it makes next.
    fn next(&self) -> WordOp
        requires { is_going self.now }
        ensures { result ≡ work.wants self.now };

    /// Takes in the answer of that operation.
    fn take(&mut self, answer: u64) -> Step<Self::Out>
        requires { is_going self.old }
        ensures state { self.new ≡ (work.takes self.old answer).piece }
        ensures told { result ≡ (work.takes self.old answer).told };

    ghost keeps_going: { (piece : Self) (answer : ℕ) → is_going piece →
        IsGoingOn (work.takes piece answer).told → is_going (work.takes piece answer).piece };
}

/// Makes a piece's steps on words that nobody else changes, so many or until it is done, and gives
/// what it told. It stops without an answer where a step would lie outside of the words.
pub fn try_alone<P: Piece>(piece: &mut P, words: &mut PlainWords, steps: u64) -> Option<P::Out>
    requires { P.is_going piece.old }
    ensures { IfSome result (λ out. FinishesWithin P.work steps piece.old words.old out words.new) }
{
    for _ in 0..steps {
        let op = piece.next();
        if op.place() >= words.len() {
            return None;
        }
        let answer = words.apply(op);
        if let Step::Done(out) = piece.take(answer) {
            return Some(out);
        }
    }
    None
}
