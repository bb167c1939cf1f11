//! Words that operations are made on.
ghost use Rattle.std.specs.Prelude.{◌≡◌, ℕ, ◌<◌, List, length, replicate, slice_index, IfOk, vec_len};
ghost use Rattle.heap_words.specs.Operations.{place_of, answer_of, words_after};
ghost use Rattle.heap_words.specs.declared.op.WordOp.{WordOp};

use crate::WordOp;
use std::alloc::{AllocError, Global};
use std::marker::Model;

/// Words that can be changed by one operation at a time.
///
/// Who holds a `Words` may not see the words themselves, since others may change them too. So what
/// an operation means is a relation: what there was before, the answer, and what there is then.
pub trait Words {
    ghost size: { Self → ℕ };

    // the caller may make this operation now
    ghost allows: { Self → WordOp → Type 0 };

    // before, the operation, its answer, and after
    ghost makes: { Self → WordOp → ℕ → Self → Type 0 };

    /// How many words there are.
    fn len(&self) -> u64
        ensures { result ≡ size self.now };

    /// Makes the operation and gives the old word, or 0 where it is a store.
    fn apply(&mut self, op: WordOp) -> u64
        requires inside { place_of op < size self.old }
        requires allowed { allows self.old op }
        ensures { makes self.old op result self.new };
}

/// Words that nobody else changes.
#[derive(Drop)]
pub struct PlainWords {
    list: Vec<u64>,
}

impl Model for PlainWords {
    ghost Value = { List ℕ };

    ghost view = { λ words. words.list.items };
}

impl PlainWords {
    /// So many words, all 0.
    pub fn new(alloc: Global, len: u64) -> Result<PlainWords, AllocError>
        ensures { IfOk result (λ words. words ≡ replicate len 0) }
    {
        Ok(PlainWords {
            list: vec![in alloc; 0; len as usize]?,
        })
    }

    /// The words of a list.
    pub fn of_list(list: Vec<u64>) -> PlainWords
        ensures { result ≡ list.items }
    {
        PlainWords { list }
    }

    /// The words as a list.
    pub fn into_list(self) -> Vec<u64>
        ensures { result.items ≡ self }
    {
        let PlainWords { list } = self;
        list
    }

    /// The words, in their order.
    pub fn as_slice(&self) -> &[u64]
        ensures { result.now ≡ self.now }
    {
        self.list.as_slice()
    }

    /// The word at a place.
    pub fn word(&self, place: u64) -> u64
        requires { place < length self.now }
        ensures { result ≡ slice_index self.now place }
    {
        self.list[place as usize]
    }
}

impl Words for PlainWords {
    ghost size = { λ words. length words };

    ghost allows = { λ words op. Unit {0} };

    ghost makes = { λ words op answer next.
        (answer ≡ answer_of op words) × (next ≡ words_after op words) };

    fn len(&self) -> u64 {
        self.list.len() as u64
    }

    fn apply(&mut self, op: WordOp) -> u64 {
        let word = &mut self.list[op.place() as usize];
        let old = *word;
        *word = op.word_after(old);
        op.answer_at(old)
    }
}
