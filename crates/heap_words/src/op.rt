//! One operation on one word.
ghost use Rattle.std.specs.Prelude.{◌≡◌};
ghost use Rattle.heap_words.specs.Operations.{place_of, word_after, answer_at};

/// One operation on one word. The place comes first.
#[derive(Clone, Copy, Debug, PartialEq, Eq)]
pub enum WordOp {
    /// Leaves the word.
    Load(u64),
    /// Stores the number.
    Store(u64, u64),
    /// Stores the number.
    Swap(u64, u64),
    /// Adds the number, in 64 bits.
    Add(u64, u64),
    /// Sets the bits of the number.
    Or(u64, u64),
    /// Stores the number where it is the greater one.
    Max(u64, u64),
    /// Stores the second number where the word is the first one.
    Exchange(u64, u64, u64),
}

impl WordOp {
    /// The place of its word.
    pub fn place(self) -> u64
        ensures { result ≡ place_of self }
    {
        match self {
            WordOp::Load(place)
            | WordOp::Store(place, _)
            | WordOp::Swap(place, _)
            | WordOp::Add(place, _)
            | WordOp::Or(place, _)
            | WordOp::Max(place, _)
            | WordOp::Exchange(place, _, _) => place,
        }
    }

    /// What it leaves of a word.
    pub fn word_after(self, word: u64) -> u64
        ensures { result ≡ word_after self word }
    {
        match self {
            WordOp::Load(_) => word,
            WordOp::Store(_, new) | WordOp::Swap(_, new) => new,
            WordOp::Add(_, number) => word.wrapping_add(number),
            WordOp::Or(_, bits) => word | bits,
            WordOp::Max(_, number) => word.max(number),
            WordOp::Exchange(_, expected, new) => { if word == expected { new } else { word } }
        }
    }

    /// What it answers where it found a word: the word, and 0 where it is a store.
    pub fn answer_at(self, word: u64) -> u64
        ensures { result ≡ answer_at self word }
    {
        match self {
            WordOp::Store(_, _) => 0,
            _ => word,
        }
    }
}
