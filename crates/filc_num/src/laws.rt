//! Laws of conversion, of the operators and of the bytes of a word. Each is the contract of a function
//! that does nothing.

ghost use Rattle.std.specs.Prelude.{◌≡◌, ◌≢◌, ◌↔◌, ◌+◌, ◌%◌, ◌*◌, ◌^◌, ◌<◌, ◌≤◌, ℕ, ℤ, ◌≤ℤ◌, IfOk, IsOkAnd, IsTrue};
ghost use Rattle.filc_num.specs.Integers.{width_of, bytes_of, count_of, least_of, greatest_of, value_of, IsValue, convert_of, wrap, HasNoQuotient, is_comparison, result_type_of, binary_of};
ghost use Rattle.filc_num.specs.WordBytes.{bytes_of as bytes_in, with_bytes, IsApart};

use crate::integer::{ArithFault, BinOp, IntType};

/// A conversion gives the one value of the type that is congruent to `v`, and leaves a value as it is.
pub fn conversion_gives_the_congruent_value(v: u64, ty: IntType)
    ensures value { IsValue ty (convert_of v ty) }
    ensures stays { IsValue ty v → convert_of v ty ≡ v }
    ensures congruent { ty ≢ IntType.Bool → convert_of v ty % count_of ty ≡ v % count_of ty }
    ensures only { ty ≢ IntType.Bool
        → ((u : ℕ) → IsValue ty u → u % count_of ty ≡ v % count_of ty → u ≡ convert_of v ty) }
{}

/// Conversions in a row: by way of a type that is no narrower nothing is lost, so a value that is widened
/// comes back, and one that a wider type has stands for the same integer there.
pub fn conversions_in_a_row(v: u64, from: IntType, ty: IntType)
    ensures twice { from ≢ IntType.Bool → ty ≢ IntType.Bool → width_of ty ≤ width_of from
        → convert_of (convert_of v from) ty ≡ convert_of v ty }
    ensures back { IsValue from v → ty ≢ IntType.Bool → width_of from ≤ width_of ty
        → convert_of (convert_of v ty) from ≡ v }
    ensures widened { IsValue from v → least_of ty ≤ℤ least_of from
        → greatest_of from ≤ℤ greatest_of ty → convert_of v ty ≡ v }
    ensures same_integer { IsValue from v → least_of ty ≤ℤ least_of from
        → greatest_of from ≤ℤ greatest_of ty → value_of ty v ≡ value_of from v }
{}

/// Each integer from the least to the greatest has one value, to which it is wrapped.
pub fn values_stand_for_the_integers_of_the_range(ty: IntType)
    ensures wraps { (z : ℤ) → IsValue ty (wrap ty z) }
    ensures exact { (z : ℤ) → least_of ty ≤ℤ z → z ≤ℤ greatest_of ty → value_of ty (wrap ty z) ≡ z }
    ensures one { (u v : ℕ) → IsValue ty u → IsValue ty v → value_of ty u ≡ value_of ty v → u ≡ v }
{}

/// A value is told by its low bytes, as many as an object of its type has.
pub fn low_bytes_tell_the_value(v: u64, ty: IntType)
    ensures { IsValue ty v → convert_of (v % 2 ^ (8 * bytes_of ty)) ty ≡ v }
{}

/// An operator gives a value of its result's type, and a comparison gives 0 or 1.
pub fn operators_give_values(op: BinOp, ty: IntType, a: u64, b: u64)
    ensures value { IfOk (binary_of op ty a b) (IsValue (result_type_of op ty)) }
    ensures truth { IsTrue (is_comparison op) → IsOkAnd (binary_of op ty a b) (λ n. n ≤ 1) }
{}

/// When `/`, `%` and the shifts have no result.
pub fn errors_come_by_the_rule(ty: IntType, a: u64, b: u64)
    requires left { IsValue ty a }
    requires right { IsValue ty b }
    ensures quotient { (binary_of BinOp.Div ty a b ≡ Err ArithFault.Divide)
        ↔ HasNoQuotient ty (value_of ty a) (value_of ty b) }
    ensures remainder { (binary_of BinOp.Rem ty a b ≡ Err ArithFault.Divide)
        ↔ HasNoQuotient ty (value_of ty a) (value_of ty b) }
    ensures left_shift { (binary_of BinOp.Shl ty a b ≡ Err ArithFault.Shift) ↔ (width_of ty ≤ b) }
    ensures right_shift { (binary_of BinOp.Shr ty a b ≡ Err ArithFault.Shift) ↔ (width_of ty ≤ b) }
{}

/// Bytes that were put in a word are read back, every other byte stays, and the word has no more than
/// eight bytes. Where nothing changes, the word stays.
pub fn bytes_of_a_word_are_apart(
    word: u64,
    offset: u32,
    width: u32,
    value: u64,
    other: u32,
    size: u32,
)
    requires { offset + width ≤ 8 }
    ensures got { bytes_in (with_bytes word offset width value) offset width ≡ value % 256 ^ width }
    ensures apart { IsApart offset width other size
        → bytes_in (with_bytes word offset width value) other size ≡ bytes_in word other size }
    ensures same { with_bytes word offset width (bytes_in word offset width) ≡ word }
    ensures fits { with_bytes word offset width value < 2 ^ 64 }
{}
