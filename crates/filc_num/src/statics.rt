//! Static objects: their sizes and first contents.

ghost use Rattle.std.specs.Prelude.{◌≡◌, vec_len, replicate, IfOk, MatchResult};
ghost use Rattle.filc_num.specs.Statics.{payload_words_of};

use std::alloc::{AllocError, Global};

/// What a pointer in a static object's first contents names. An integer has `None`.
#[derive(Clone, Copy, Debug, PartialEq, Eq)]
pub enum StaticHalf {
    None,
    /// The static object of this number.
    Object(u32),
    /// The function of this number.
    Function(u32),
}

/// A static object's size in bytes and its first contents, word by word: an integer and a half.
///
/// Where a word's half isn't `None`, its integer is an offset, to be added to the address of what the
/// half names.
#[derive(Debug, Drop)]
pub struct StaticDef {
    pub bytes: u64,
    /// Whether the object is a string literal, which nothing may write.
    pub literal: bool,
    pub words: Vec<u64>,
    pub halves: Vec<StaticHalf>,
    pub ghost a_word_each: { vec_len words ≡ payload_words_of bytes },
    pub ghost a_half_each: { vec_len halves ≡ payload_words_of bytes },
}

impl StaticDef {
    /// An object of zeros.
    pub fn zeros(alloc: Global, bytes: u64, literal: bool) -> Result<StaticDef, AllocError>
        ensures size { IfOk result (λ d. d.bytes ≡ bytes) }
        ensures kind { IfOk result (λ d. d.literal ≡ literal) }
        ensures words { IfOk result (λ d. d.words.items ≡ replicate (payload_words_of bytes) 0) }
        ensures halves { IfOk result (λ d. d.halves.items
            ≡ replicate (payload_words_of bytes) StaticHalf.None) }
    {
        let count = bytes.div_ceil(8) as usize;
        let words = vec![in alloc; 0; count]?;
        let halves = vec![in alloc; StaticHalf::None; count]?;
        Ok(StaticDef {
            bytes,
            literal,
            words,
            halves,
        })
    }
}

impl Clone for StaticDef {
    ghost use Rattle.filc_num.specs.StaticDefs.{IsCopy};

    ghost is_clone = { IsCopy };

    fn clone(&self) -> Result<StaticDef, AllocError> {
        let words = self.words.clone()?;
        let halves = self.halves.clone()?;
        Ok(StaticDef {
            bytes: self.bytes,
            literal: self.literal,
            words,
            halves,
        })
    }
}
