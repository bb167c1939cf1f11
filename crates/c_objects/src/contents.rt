//! What a static object has in the beginning, byte by byte.
//!
//! Each byte is set by the first of an initialiser's fills that has it. Fills are gone through from the last to the first,
//! so the first is set last, and each byte of each fill is touched once.

ghost use Rattle.std.specs.Prelude.{◌≡◌, ◌+◌, ◌*◌, ◌≤◌, length, slice_set, IfOk, OnOk};
ghost use Rattle.c_file_rules.specs.Files.{IsStatic};
ghost use Rattle.c_file_rules.specs.Statics.{byte_fills, static_with};
ghost use Rattle.c_objects.specs.Contents.{half_set, BytesPut, HalvesPut, BytesFilled, HalvesFilled, word_at, words_at};

use c_expr_rules::Fill;
use filc_num::{StaticDef, StaticHalf};
use std::alloc::{AllocError, Global};

/// Sets a byte, where there is one.
#[tactic(auto, using(std::proofs::lemmas::List::set_past))]
fn set_byte(bytes: &mut Vec<u8>, place: u64, byte: u8)
    ensures { bytes.new.items ≡ slice_set bytes.old.items place byte }
{
    if place < bytes.len() as u64 {
        bytes[place as usize] = byte;
    }
}

/// Sets the half of a word, where there is one.
#[tactic(auto, using(std::proofs::lemmas::List::set_past))]
fn set_word_half(halves: &mut Vec<StaticHalf>, word: u64, half: StaticHalf)
    ensures { halves.new.items ≡ slice_set halves.old.items word half }
{
    if word < halves.len() as u64 {
        halves[word as usize] = half;
    }
}

/// Sets the half of the word that begins at a place, where one does.
fn set_half(halves: &mut Vec<StaticHalf>, place: u64, half: StaticHalf)
    ensures { halves.new.items ≡ half_set halves.old.items place half }
{
    if place % 8 == 0 {
        set_word_half(halves, place / 8, half);
    }
}

/// Sets the bytes of a fill.
fn put(bytes: &mut Vec<u8>, halves: &mut Vec<StaticHalf>, fill: &Fill) -> Result<(), AllocError>
    ensures bytes { OnOk result (BytesPut bytes.old.items bytes.new.items fill.now) }
    ensures halves { OnOk result (HalvesPut halves.old.items halves.new.items fill.now) }
{
    let mut rest = fill.value;
    'bytes: for index in 0..fill.bytes {
        let place = fill.offset.checked_add(index).ok_or(AllocError)?;
        set_byte(bytes, place, (rest % 256) as u8);
        set_half(halves, place, fill.half);
        rest /= 256;
    }
    Ok(())
}

/// Sets the bytes of all fills, of which the first that has a byte sets it.
fn put_all(
    bytes: &mut Vec<u8>,
    halves: &mut Vec<StaticHalf>,
    fills: &[Fill],
) -> Result<(), AllocError>
    ensures bytes { OnOk result (BytesFilled bytes.old.items bytes.new.items fills.now) }
    ensures halves { OnOk result (HalvesFilled halves.old.items halves.new.items fills.now) }
{
    let mut index = fills.len();
    'fills: while 0 < index {
        index -= 1;
        put(bytes, halves, &fills[index])?;
    }
    Ok(())
}

/// The number of the four bytes from a place on, little-endian.
fn four_bytes(bytes: &[u8], place: usize) -> u32
    requires { place + 4 ≤ length bytes.now }
    ensures { result ≡ word_at bytes.now 4 place }
{
    let low = u32::from(bytes[place]) + 256 * u32::from(bytes[place + 1]);
    let high = u32::from(bytes[place + 2]) + 256 * u32::from(bytes[place + 3]);
    low + 65_536 * high
}

/// The word of the eight bytes from a place on, little-endian.
fn word_of(bytes: &[u8], place: usize) -> u64
    requires { place + 8 ≤ length bytes.now }
    ensures { result ≡ word_at bytes.now 8 place }
{
    let low = four_bytes(bytes, place);
    let high = four_bytes(bytes, place + 4);
    u64::from(low) + 4_294_967_296 * u64::from(high)
}

/// The words of bytes.
fn words_of(alloc: Global, bytes: &[u8], count: usize) -> Result<Vec<u64>, AllocError>
    requires { length bytes.now ≡ 8 * count }
    ensures { IfOk result (λ words. words.items ≡ words_at bytes.now count 0) }
{
    let mut words = Vec::new(alloc);
    'words: for index in 0..count {
        words.push(word_of(bytes, index * 8))?;
    }
    Ok(words)
}

/// A static object of so many bytes with these fills.
pub fn static_with(
    alloc: Global,
    literal: bool,
    bytes: u64,
    fills: &[Fill],
) -> Result<StaticDef, AllocError>
    ensures { IfOk result (IsStatic (static_with literal bytes fills.now)) }
{
    let count = bytes.div_ceil(8) as usize;
    let length = count.checked_mul(8).ok_or(AllocError)?;
    let mut image = vec![in alloc; 0u8; length]?;
    let mut halves = vec![in alloc; StaticHalf::None; count]?;
    put_all(&mut image, &mut halves, fills)?;
    let words = words_of(alloc, image.as_slice(), count)?;
    Ok(StaticDef {
        bytes,
        literal,
        words,
        halves,
    })
}

/// The bytes of a text as fills.
pub fn byte_fills(alloc: Global, bytes: &[u8]) -> Result<Vec<Fill>, AllocError>
    ensures { IfOk result (λ fills. fills.items ≡ byte_fills 0 bytes.now) }
{
    let mut fills = Vec::new(alloc);
    'bytes: for index in 0..bytes.len() {
        fills.push(Fill {
            offset: index as u64,
            bytes: 1,
            value: u64::from(bytes[index]),
            half: StaticHalf::None,
        })?;
    }
    Ok(fills)
}
