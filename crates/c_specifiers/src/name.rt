//! Finding the row of a list of words.

ghost use Rattle.std.specs.Prelude.{◌≡◌, ◌==◌, count_by};
ghost use Rattle.c_specifiers.specs.Specifiers.{same_words, type_of_words, type_in_rows, is_word, as_often, character_rows, short_rows, int_rows, long_rows, long_long_rows};

use BasicType::{Bool, Char, Int, Long, Short, Signed, Unsigned, Void};
use c_syntax::BasicType;
use c_types::CType;
use filc_num::CIntType;

/// The type that these words name in any order, or nothing where they name none.
pub fn type_named(words: &[BasicType]) -> Option<CType>
    ensures { result ≡ type_of_words words.now }
{
    let character = character_type(words);
    let short = short_type(words);
    let int = int_type(words);
    let long = long_type(words);
    let long_long = long_long_type(words);
    character.or(short).or(int).or(long).or(long_long)
}

/// The row of void, `_Bool` and the characters.
fn character_type(words: &[BasicType]) -> Option<CType>
    ensures { result ≡ type_in_rows character_rows words.now }
{
    if have_same_words(&[Void], words) {
        return Some(CType::Void);
    }
    if have_same_words(&[Bool], words) {
        return Some(CType::Integer(CIntType::Bool));
    }
    if have_same_words(&[Char], words) {
        return Some(CType::Integer(CIntType::Char));
    }
    if have_same_words(&[Signed, Char], words) {
        return Some(CType::Integer(CIntType::SignedChar));
    }
    if have_same_words(&[Unsigned, Char], words) {
        return Some(CType::Integer(CIntType::UnsignedChar));
    }
    None
}

/// The row of the short types.
fn short_type(words: &[BasicType]) -> Option<CType>
    ensures { result ≡ type_in_rows short_rows words.now }
{
    if have_same_words(&[Short], words) {
        return Some(CType::Integer(CIntType::Short));
    }
    if have_same_words(&[Signed, Short], words) {
        return Some(CType::Integer(CIntType::Short));
    }
    if have_same_words(&[Short, Int], words) {
        return Some(CType::Integer(CIntType::Short));
    }
    if have_same_words(&[Signed, Short, Int], words) {
        return Some(CType::Integer(CIntType::Short));
    }
    if have_same_words(&[Unsigned, Short], words) {
        return Some(CType::Integer(CIntType::UnsignedShort));
    }
    if have_same_words(&[Unsigned, Short, Int], words) {
        return Some(CType::Integer(CIntType::UnsignedShort));
    }
    None
}

/// The row of `int` and `unsigned int`.
fn int_type(words: &[BasicType]) -> Option<CType>
    ensures { result ≡ type_in_rows int_rows words.now }
{
    if have_same_words(&[Int], words) {
        return Some(CType::Integer(CIntType::Int));
    }
    if have_same_words(&[Signed], words) {
        return Some(CType::Integer(CIntType::Int));
    }
    if have_same_words(&[Signed, Int], words) {
        return Some(CType::Integer(CIntType::Int));
    }
    if have_same_words(&[Unsigned], words) {
        return Some(CType::Integer(CIntType::UnsignedInt));
    }
    if have_same_words(&[Unsigned, Int], words) {
        return Some(CType::Integer(CIntType::UnsignedInt));
    }
    None
}

/// The row of the long types.
fn long_type(words: &[BasicType]) -> Option<CType>
    ensures { result ≡ type_in_rows long_rows words.now }
{
    if have_same_words(&[Long], words) {
        return Some(CType::Integer(CIntType::Long));
    }
    if have_same_words(&[Signed, Long], words) {
        return Some(CType::Integer(CIntType::Long));
    }
    if have_same_words(&[Long, Int], words) {
        return Some(CType::Integer(CIntType::Long));
    }
    if have_same_words(&[Signed, Long, Int], words) {
        return Some(CType::Integer(CIntType::Long));
    }
    if have_same_words(&[Unsigned, Long], words) {
        return Some(CType::Integer(CIntType::UnsignedLong));
    }
    if have_same_words(&[Unsigned, Long, Int], words) {
        return Some(CType::Integer(CIntType::UnsignedLong));
    }
    None
}

/// The row of the long long types.
fn long_long_type(words: &[BasicType]) -> Option<CType>
    ensures { result ≡ type_in_rows long_long_rows words.now }
{
    if have_same_words(&[Long, Long], words) {
        return Some(CType::Integer(CIntType::LongLong));
    }
    if have_same_words(&[Signed, Long, Long], words) {
        return Some(CType::Integer(CIntType::LongLong));
    }
    if have_same_words(&[Long, Long, Int], words) {
        return Some(CType::Integer(CIntType::LongLong));
    }
    if have_same_words(&[Signed, Long, Long, Int], words) {
        return Some(CType::Integer(CIntType::LongLong));
    }
    if have_same_words(&[Unsigned, Long, Long], words) {
        return Some(CType::Integer(CIntType::UnsignedLongLong));
    }
    if have_same_words(&[Unsigned, Long, Long, Int], words) {
        return Some(CType::Integer(CIntType::UnsignedLongLong));
    }
    None
}

/// Whether two lists have each word as often as each other.
#[tactic(auto, unfolding(crate::specs::Specifiers::same_words))]
fn have_same_words(a: &[BasicType], b: &[BasicType]) -> bool
    ensures { result ≡ same_words a.now b.now }
{
    let void = is_as_often(Void, a, b);
    let char = is_as_often(Char, a, b);
    let short = is_as_often(Short, a, b);
    let int = is_as_often(Int, a, b);
    let long = is_as_often(Long, a, b);
    let signed = is_as_often(Signed, a, b);
    let unsigned = is_as_often(Unsigned, a, b);
    let bool = is_as_often(Bool, a, b);
    void && char && short && int && long && signed && unsigned && bool
}

fn is_as_often(word: BasicType, a: &[BasicType], b: &[BasicType]) -> bool
    ensures { result ≡ (count_by (is_word word) a.now == count_by (is_word word) b.now) }
{
    count_of(word, a) == count_of(word, b)
}

/// How often a word stands in a list.
fn count_of(word: BasicType, words: &[BasicType]) -> usize
    ensures { result ≡ count_by (is_word word) words.now }
{
    words.iter().filter(|other| is_same(word, **other)).count()
}

fn is_same(a: BasicType, b: BasicType) -> bool
    ensures { result ≡ is_word a b }
{
    matches!(
        (a, b),
        (BasicType::Void, BasicType::Void)
            | (BasicType::Char, BasicType::Char)
            | (BasicType::Short, BasicType::Short)
            | (BasicType::Int, BasicType::Int)
            | (BasicType::Long, BasicType::Long)
            | (BasicType::Signed, BasicType::Signed)
            | (BasicType::Unsigned, BasicType::Unsigned)
            | (BasicType::Bool, BasicType::Bool)
    )
}
