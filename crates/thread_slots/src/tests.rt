//! Each piece on a small map by worked values. All words are compared, so a wrong place shows
//! whatever the specs call it.

use crate::{BeginThread, Finish, GetByte, PutByte, PutStage};
use filc_num::Reason;
use heap_words::{Piece, PlainWords, Step, try_alone};
use object_header::{FixedWord, Map, SlotWord, fixed_place, output_place, slot_place};
use std::alloc::{AllocError, Global};
use std::test::Fail;

const SLOTS: u32 = 2;

const OUT_WORDS: u32 = 3;

/// How many words there are.
const WORDS: usize = 30;

/// The single words that the pieces are about.
const EXIT: usize = 0;

const HINT: usize = 5;

const INPUT: usize = 6;

/// The state of the second slot.
const STATE: usize = 15;

/// The first output word.
const OUTPUT: usize = 20;

#[test]
fn the_places_are_those_of_a_map(rt: HostRuntime) -> Result<(), Fail> {
    let map = Map::new(rt.alloc(), SLOTS, OUT_WORDS, &[], &[(2, 1)])?;
    assert_eq!(rt; map.words(), WORDS as u64);
    assert_eq!(rt; fixed_place(FixedWord::Exit), EXIT as u64);
    assert_eq!(rt; fixed_place(FixedWord::OutputHint), HINT as u64);
    assert_eq!(rt; fixed_place(FixedWord::InputCount), INPUT as u64);
    assert_eq!(rt; slot_place(SLOTS, 1, SlotWord::State), STATE as u64);
    assert_eq!(rt; output_place(SLOTS, 0), OUTPUT as u64);
    Ok(())
}

/// Words that all differ, but for the one at this place.
fn words_with(alloc: Global, place: usize, word: u64) -> Result<Vec<u64>, AllocError> {
    let mut list = Vec::with_capacity(alloc, WORDS)?;
    for other in 0..WORDS {
        list.push(if other == place {
            word
        } else {
            100 + other as u64
        })?;
    }
    Ok(list)
}

/// Words with this hint, and then these output words.
fn output_with(alloc: Global, output: [u64; 4]) -> Result<Vec<u64>, AllocError> {
    let mut list = Vec::with_capacity(alloc, WORDS)?;
    for place in 0..WORDS {
        list.push(match place {
            HINT => output[0],
            20..=22 => output[place - 19],
            _ => 100 + place as u64,
        })?;
    }
    Ok(list)
}

#[test]
fn a_byte_goes_into_the_first_free_word(rt: HostRuntime) -> Result<(), Fail> {
    let full = Err(Reason::OutputLimit);
    let table = [
        ("the first byte", [0, 0, 0, 0], Ok(()), [1, 256, 0, 0]),
        (
            "one behind the hint",
            [1, 66, 0, 0],
            Ok(()),
            [2, 66, 256, 0],
        ),
        ("the last byte", [0, 66, 67, 0], Ok(()), [3, 66, 67, 256]),
        ("no byte", [3, 66, 67, 68], full, [3, 66, 67, 68]),
        (
            "no byte, and a low hint",
            [1, 66, 67, 68],
            full,
            [1, 66, 67, 68],
        ),
    ];
    for (name, before, want, after) in table {
        let mut put = PutByte::new(SLOTS, OUT_WORDS, 255);
        let mut words = PlainWords::of_list(output_with(rt.alloc(), before)?);
        assert_eq!(rt; try_alone(&mut put, &mut words, 6), Some(want), "{name}");
        let list = words.into_list();
        let want = output_with(rt.alloc(), after)?;
        assert_eq!(rt; list.as_slice(), want.as_slice(), "{name}");
    }
    Ok(())
}

#[test]
fn each_byte_of_the_input_is_got_once(rt: HostRuntime) -> Result<(), Fail> {
    for (place, want, after) in [(0, Some(0), 1), (1, Some(1), 2), (2, None, 2)] {
        let mut get = GetByte::new(2);
        let mut words = PlainWords::of_list(words_with(rt.alloc(), INPUT, place)?);
        assert_eq!(rt;
            try_alone(&mut get, &mut words, 2),
            Some(want),
            "at {place}"
        );
        let list = words.into_list();
        let want = words_with(rt.alloc(), INPUT, after)?;
        assert_eq!(rt; list.as_slice(), want.as_slice(), "at {place}");
    }
    Ok(())
}

#[test]
fn the_first_end_stays(rt: HostRuntime) -> Result<(), Fail> {
    for (exit, want, after) in [(0, true, 7), (1, false, 1), (9, false, 9)] {
        let mut finish = Finish::new(7);
        let mut words = PlainWords::of_list(words_with(rt.alloc(), EXIT, exit)?);
        assert_eq!(rt;
            try_alone(&mut finish, &mut words, 1),
            Some(want),
            "at {exit}"
        );
        let list = words.into_list();
        let want = words_with(rt.alloc(), EXIT, after)?;
        assert_eq!(rt; list.as_slice(), want.as_slice(), "at {exit}");
    }
    Ok(())
}

#[test]
fn a_thread_is_begun_by_its_slot(rt: HostRuntime) -> Result<(), Fail> {
    let mut begin = BeginThread::new(SLOTS, 1);
    let mut words = PlainWords::of_list(words_with(rt.alloc(), STATE, 14)?);
    let told = try_alone(&mut begin, &mut words, 4);
    assert_eq!(rt; told, Some((193, 116, 117, 118)));
    let want = words_with(rt.alloc(), STATE, 14)?;
    assert_eq!(rt; words.into_list().as_slice(), want.as_slice());
    Ok(())
}

#[test]
fn who_loses_looks_further(rt: HostRuntime) {
    let mut put = PutByte::new(SLOTS, OUT_WORDS, 9);
    put.stage = PutStage::TakeWord(1);
    assert_eq!(rt; put.take(66), Step::More);
    assert_eq!(rt; put.stage, PutStage::LoadWord(2));
    put.stage = PutStage::TakeWord(2);
    assert_eq!(rt; put.take(67), Step::Done(Err(Reason::OutputLimit)));
    let mut get = GetByte::new(9);
    get.found = Some(3);
    assert_eq!(rt; get.take(5), Step::Waits);
    assert_eq!(rt; get.found, None);
}
