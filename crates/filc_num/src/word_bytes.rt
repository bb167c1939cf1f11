//! Bytes within a word of eight: they are read, and others are put in their place.

ghost use Rattle.std.specs.Prelude.{◌≡◌, ◌↔◌, ◌+◌, ◌%◌, ◌^◌, ◌<◌, ◌≤◌, IsTrue};
ghost use Rattle.filc_num.specs.WordBytes.{bytes_of, with_bytes, IsWidth};

/// Whether an access may have this width in bytes.
pub fn is_width(width: u32) -> bool
    ensures { IsTrue result ↔ IsWidth width }
{
    matches!(width, 1 | 2 | 4 | 8)
}

/// The number that `width` bytes of a word are, from byte `offset` on, the lowest first.
pub fn get_bytes(word: u64, offset: u32, width: u32) -> u64
    requires width { IsWidth width }
    requires inside { offset + width ≤ 8 }
    ensures exact { result ≡ bytes_of word offset width }
    ensures fits { result < 256 ^ width }
{
    low_bytes(word >> (8 * offset), width)
}

/// The word with the low bytes of a value from byte `offset` on; its other bytes stay.
pub fn put_bytes(word: u64, offset: u32, width: u32, value: u64) -> u64
    requires width { IsWidth width }
    requires inside { offset + width ≤ 8 }
    ensures { result ≡ with_bytes word offset width value }
{
    let old = get_bytes(word, offset, width) << (8 * offset);
    let new = low_bytes(value, width) << (8 * offset);
    word - old + new
}

/// The low bytes of a value.
fn low_bytes(value: u64, width: u32) -> u64
    requires { IsWidth width }
    ensures exact { result ≡ value % 256 ^ width }
    ensures fits { result < 256 ^ width }
{
    value & (u64::MAX >> (64 - 8 * width))
}
