//! Freeing by worked values: the state alone changes, and a second `free` is told.

use crate::VoidObject;
use filc_num::Reason;
use heap_words::{PlainWords, try_alone};
use object_header::{CellState, HeaderWord, Map, header_place, state_word};
use std::alloc::{AllocError, Global};
use std::test::Fail;

/// The first cell of the map, and its state word.
const CELL: u64 = 20;

const STATE: usize = 15;

/// How many words there are.
const WORDS: usize = 29;

/// Words that all differ, but for this state of the cell.
fn contents(alloc: Global, state: u64) -> Result<Vec<u64>, AllocError> {
    let mut list = Vec::with_capacity(alloc, WORDS)?;
    for place in 0..WORDS {
        list.push(if place == STATE {
            state
        } else {
            100 + place as u64
        })?;
    }
    Ok(list)
}

#[test]
fn the_places_are_those_of_a_map(rt: HostRuntime) -> Result<(), Fail> {
    let map = Map::new(rt.alloc(), 1, 1, &[], &[(2, 2)])?;
    assert_eq!(rt; map.cells().cell_place(0, 0), CELL);
    assert_eq!(rt; header_place(CELL, HeaderWord::State), STATE as u64);
    assert_eq!(rt; map.words(), WORDS as u64);
    Ok(())
}

#[test]
fn freeing_changes_the_state_alone(rt: HostRuntime) -> Result<(), Fail> {
    let table = [
        ("a live object", state_word(CellState::Live), Ok(())),
        (
            "a void object",
            state_word(CellState::Void),
            Err(Reason::Freed),
        ),
    ];
    for (name, state, answer) in table {
        let mut words = PlainWords::of_list(contents(rt.alloc(), state)?);
        let told = try_alone(&mut VoidObject::new(CELL), &mut words, 1);
        assert_eq!(rt; told, Some(answer), "{name}");
        let want = contents(rt.alloc(), 6)?;
        assert_eq!(rt; words.into_list().as_slice(), want.as_slice(), "{name}");
    }
    Ok(())
}
