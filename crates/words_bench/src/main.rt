//! Makes so many operations on words, or steps of pieces, and prints the sum of the answers: what
//! `bench/words` measures.
#![tactic(auto)]

ghost use Rattle.std.specs.Prelude.{◌≡◌};
ghost use Rattle.heap_words.specs.Operations.{place_of};

use anyhow::{Context, Result};
use aux_words::{ReadHalf, WriteHalf};
use heap_words::{PlainWords, WordOp, Words, try_alone};
use object_header::{HeaderWord, header_place};
use std::alloc::{AllocError, Global};
use std::env;

/// How many words the heap of the usual size has.
const WORDS: u64 = 814_884;

/// From one operation's place to the next one's, so that they lie far apart.
const STRIDE: u64 = 524_287;

/// An object, and where its table begins.
const OBJECT: u64 = 1_000;

const TABLE: u64 = 400_000;

/// How many words the table has.
const TABLE_WORDS: u32 = 131_072;

/// The seven operations in turn.
fn operation(step: u64, place: u64) -> WordOp
    ensures { place_of result ≡ place }
{
    match step % 7 {
        0 => WordOp::Load(place),
        1 => WordOp::Store(place, step),
        2 => WordOp::Swap(place, step),
        3 => WordOp::Add(place, step),
        4 => WordOp::Or(place, step),
        5 => WordOp::Max(place, step),
        _ => WordOp::Exchange(place, 0, step),
    }
}

/// So many operations at scattered places.
fn operations(words: &mut PlainWords, steps: u64) -> u64 {
    let mut sum: u64 = 0;
    let mut place = 0;
    for step in 0..steps {
        if place < words.len() {
            sum = sum.wrapping_add(words.apply(operation(step, place)));
        }
        place = (place % WORDS + STRIDE) % WORDS;
    }
    sum
}

/// So many halves that are set and got; each takes four steps.
fn halves(words: &mut PlainWords, halves: u64) -> u64 {
    let mut sum: u64 = 0;
    for step in 0..halves {
        let word = (step % u64::from(TABLE_WORDS)) as u32;
        let _ = try_alone(&mut WriteHalf::new(OBJECT, word, step), words, 2);
        if let Some(half) = try_alone(&mut ReadHalf::new(OBJECT, word), words, 2) {
            sum = sum.wrapping_add(half);
        }
    }
    sum
}

/// The sum of the answers of the work with this name.
fn measured(alloc: Global, work: &str, steps: u64) -> Result<Option<u64>, AllocError> {
    let mut words = PlainWords::new(alloc, WORDS)?;
    Ok(match work {
        "operations" => Some(operations(&mut words, steps)),
        "halves" => {
            let place = header_place(OBJECT, HeaderWord::Table);
            if place < words.len() {
                words.apply(WordOp::Store(place, TABLE));
            }
            Some(halves(&mut words, steps / 4))
        }
        _ => None,
    })
}

fn main(rt: HostRuntime) -> Result<()> {
    let mut words = env::args(&rt)?;
    let _program = words.next();
    let work = words.next().context("no work is named")?;
    let steps = words.next().context("no number of steps")?;
    let steps: u64 = steps.as_str().parse().context("the steps are no number")?;
    let sum = measured(rt.alloc(), work.as_str(), steps)?;
    println!(rt; "{}", sum.context("the work is `operations` or `halves`")?)?;
    Ok(())
}
