//! The memory before the first event: the static objects at their addresses, and a started `main`.

ghost use Rattle.std.specs.Prelude.{◌≡◌, ◌+◌, ◌<◌, ◌≤◌, ◌^◌, ◌∷◌, length, replicate, IfOk};
ghost use Rattle.filc_num.specs.StaticDefs.{plain_static};
ghost use Rattle.ideal_machine.specs.Beginning.{words_of_static, static_address, address_sum};
ghost use Rattle.ideal_machine.specs.Beginning.{first_word, first_words, static_object, static_objects};
ghost use Rattle.ideal_machine.specs.Beginning.{main_slot, fresh_slot, function_address, first_memory};
ghost use Rattle.ideal_step.specs.Statics.{first_world, plain_statics, HaveAddresses, AreAddresses};

use crate::ideal::{Ideal, SLOTS};
use crate::object::{Object, Word};
use crate::slot::{Slot, State};
use filc_num::{StaticDef, StaticHalf};
use ideal_machine::{Found, Half};
use std::alloc::{AllocError, Global};

/// The address of the first static object: it lies behind 8 words, 6 for each slot, one for each byte of
/// output, and 5 of its own.
const FIRST_STATIC: u64 = 65_536 + 8 * (8 + 6 * 8 + 1_048_576 + 5);

/// How many words a static object takes up: 5, its own, and as many unless it is a literal.
fn words_of_static(object: &StaticDef) -> u64
    ensures { result ≡ words_of_static (plain_static object.now) }
{
    let words = object.bytes.div_ceil(8);
    if object.literal {
        5 + words
    } else {
        5 + words + words
    }
}

/// The addresses of static objects, and last the one behind them.
fn static_addresses(alloc: Global, statics: &[StaticDef]) -> Result<Vec<u64>, AllocError>
    requires { HaveAddresses (plain_statics statics.now) }
    ensures { IfOk result (λ addresses. AreAddresses (plain_statics statics.now) addresses.items) }
{
    let mut addresses = Vec::new(alloc);
    let mut address = FIRST_STATIC;
    addresses.push(address)?;
    for object in statics {
        address += 8 * words_of_static(object);
        addresses.push(address)?;
    }
    Ok(addresses)
}

/// The address of a static object. A number of none has the one behind them.
fn address_of_static(addresses: &[u64], statics: &[StaticDef], number: u32) -> u64
    requires { AreAddresses (plain_statics statics.now) addresses.now }
    ensures { result ≡ static_address first_world (plain_statics statics.now) number }
{
    addresses[(number as usize).min(statics.len())]
}

/// A word of a static object. With a half, its number is an offset from the address of what that names.
fn first_word(addresses: &[u64], statics: &[StaticDef], number: u64, half: StaticHalf) -> Word
    requires { AreAddresses (plain_statics statics.now) addresses.now }
    ensures { result ≡ first_word first_world (plain_statics statics.now) number half }
{
    match half {
        StaticHalf::None => Word {
            integer: number,
            half: Found::Plain(Half::Nothing),
        },
        StaticHalf::Object(object) => Word {
            integer: address_of_static(addresses, statics, object).wrapping_add(number),
            half: Found::Plain(Half::Object(u64::from(object))),
        },
        StaticHalf::Function(function) => Word {
            integer: (16 * (u64::from(function) + 1)).wrapping_add(number),
            half: Found::Plain(Half::Function(function)),
        },
    }
}

/// The slots: `main` is started in the first, and no thread has had the others.
fn first_slots(alloc: Global, main: u32) -> Result<Vec<Slot>, AllocError>
    ensures { IfOk result (λ slots. slots.items ≡ main_slot main ∷ replicate 7 fresh_slot) }
{
    let mut slots = Vec::new(alloc);
    slots.push(Slot {
        generation: 0,
        state: State::Started(main, 0, Half::Nothing),
    })?;
    for _number in 0..SLOTS - 1 {
        slots.push(Slot {
            generation: 0,
            state: State::Free,
        })?;
    }
    Ok(slots)
}

/// The first contents of a static object, word by word.
fn first_words(
    alloc: Global,
    addresses: &[u64],
    statics: &[StaticDef],
    object: &StaticDef,
) -> Result<Vec<Word>, AllocError>
    requires { AreAddresses (plain_statics statics.now) addresses.now }
    ensures { IfOk result (λ words. words.items
        ≡ first_words first_world (plain_statics statics.now) (plain_static object.now)) }
{
    let mut words = Vec::new(alloc);
    for index in 0..object.words.len() {
        let number = object.words[index];
        words.push(first_word(addresses, statics, number, object.halves[index]))?;
    }
    Ok(words)
}

/// The static object of this number.
fn static_object(
    alloc: Global,
    addresses: &[u64],
    statics: &[StaticDef],
    number: usize,
    object: &StaticDef,
) -> Result<Object, AllocError>
    requires addresses { AreAddresses (plain_statics statics.now) addresses.now }
    requires there { number < length statics.now }
    ensures { IfOk result (λ made. made ≡ static_object first_world (plain_statics statics.now)
        number (plain_static object.now)) }
{
    let words = first_words(alloc, addresses, statics, object)?;
    Ok(Object::of_static(addresses[number], object.bytes, object.literal, words))
}

/// The static objects at their addresses.
fn static_objects(alloc: Global, statics: &[StaticDef]) -> Result<Vec<Object>, AllocError>
    requires { HaveAddresses (plain_statics statics.now) }
    ensures { IfOk result (λ objects. objects.items
        ≡ static_objects first_world (plain_statics statics.now)) }
{
    let addresses = static_addresses(alloc, statics)?;
    let mut objects = Vec::new(alloc);
    for number in 0..statics.len() {
        let object = &statics[number];
        objects.push(static_object(alloc, addresses.as_slice(), statics, number, object)?)?;
    }
    Ok(objects)
}

impl Ideal {
    /// The memory of a program with these static objects, whose `main` has this number.
    pub fn new(alloc: Global, statics: &[StaticDef], main: u32) -> Result<Ideal, AllocError>
        requires { HaveAddresses (plain_statics statics.now) }
        ensures { IfOk result (λ ideal. ideal
            ≡ first_memory first_world (plain_statics statics.now) main) }
    {
        Ok(Ideal {
            objects: static_objects(alloc, statics)?,
            pairs: Vec::new(alloc),
            output: Vec::new(alloc),
            input_taken: 0,
            cycles: 0,
            slots: first_slots(alloc, main)?,
            finish: None,
        })
    }
}
