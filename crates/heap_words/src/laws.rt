//! Laws of the operations. Each is the contract of a function that does nothing.
ghost use Rattle.std.specs.Prelude.{ℕ, List};
ghost use Rattle.heap_words.specs.Operations.{words_after, AreWords, FitsWord};
ghost use Rattle.heap_words.specs.declared.op.WordOp.{WordOp};

/// An operation whose numbers are below 2^64 leaves words that are below 2^64.
pub fn words_stay_words()
    ensures { (op : WordOp) (words : List ℕ) → FitsWord op → AreWords words →
        AreWords (words_after op words) }
{}
