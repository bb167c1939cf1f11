//! Each piece on a small map by worked values. A row says what the piece tells and which words it
//! changes, so a wrong place shows whatever the specs call it.
ghost use Rattle.std.specs.Prelude.{◌<◌, length, IfOk};

use crate::{Claim, Publish};
use heap_words::{Piece, PlainWords, Step, try_alone};
use object_header::{Collect, Kind, Map};
use std::alloc::{AllocError, Global};
use std::test::Fail;

/// Three cells of two words, and two of four.
const CLASSES: [(u32, u32); 2] = [(2, 3), (4, 2)];

/// The cells' places, class by class.
const CELLS: [u64; 5] = [28, 35, 42, 49, 58];

/// The places of the cells' states.
const STATES: [usize; 5] = [23, 30, 37, 44, 53];

/// How many words there are.
const WORDS: usize = 62;

fn small_map(alloc: Global) -> Result<Map, AllocError>
    ensures { IfOk result (λ map. 0 < length map.classes) }
{
    Map::new(alloc, 2, 3, &[], &CLASSES)
}

/// Words that all differ, but for the cells' states.
fn contents(alloc: Global, states: [u64; 5]) -> Result<Vec<u64>, AllocError> {
    let mut list = Vec::with_capacity(alloc, WORDS)?;
    for place in 0..WORDS {
        list.push(100 + place as u64)?;
    }
    for (place, state) in STATES.iter().zip(states.iter()) {
        if let Some(word) = list.get_mut(*place) {
            *word = *state;
        }
    }
    Ok(list)
}

/// What a piece tells where it gets these answers.
fn told_at<P: Piece>(piece: &mut P, answers: &[u64]) -> Option<P::Out>
    requires { P.is_going piece.old }
{
    for answer in answers {
        if let Step::Done(out) = piece.take(*answer) {
            return Some(out);
        }
    }
    None
}

#[test]
fn the_cells_are_those_of_the_map(rt: HostRuntime) -> Result<(), Fail> {
    let map = small_map(rt.alloc())?;
    let cells = map.cells();
    for (place, at) in CELLS
        .iter()
        .zip([(0, 0), (0, 1), (0, 2), (1, 0), (1, 1)].iter())
    {
        assert_eq!(rt; cells.cell_of(*place), Some(*at));
    }
    assert_eq!(rt; map.words(), WORDS as u64);
    Ok(())
}

#[test]
fn the_first_free_cell_is_claimed(rt: HostRuntime) -> Result<(), Fail> {
    let table = [
        ("an empty class", 0u32, [0, 0, 0, 0, 0], Some(28), Some(23)),
        ("behind a live cell", 0, [2, 0, 0, 0, 0], Some(35), Some(30)),
        ("the last cell", 0, [1, 6, 0, 0, 0], Some(42), Some(37)),
        ("a full class", 0, [1, 2, 6, 0, 0], None, None),
        ("the other class", 1, [0, 0, 0, 2, 0], Some(58), Some(53)),
        ("the other class, full", 1, [0, 0, 0, 2, 1], None, None),
    ];
    let map = small_map(rt.alloc())?;
    for (name, class, states, cell, changed) in table {
        assert!(rt; class < map.cells().class_count());
        let mut words = PlainWords::of_list(contents(rt.alloc(), states)?);
        let mut claim = Claim::new(&map, class, Collect::Never);
        assert_eq!(rt; try_alone(&mut claim, &mut words, 6), Some(cell), "{name}");
        let mut want = contents(rt.alloc(), states)?;
        if let Some(place) = changed {
            assert!(rt; place < want.len());
            want[place] = 1;
        }
        assert_eq!(rt; words.into_list().as_slice(), want.as_slice(), "{name}");
    }
    Ok(())
}

#[test]
fn a_lost_exchange_passes_the_cell_over(rt: HostRuntime) -> Result<(), Fail> {
    let table: [(&str, &[u64], Option<Option<u64>>); 4] = [
        ("each exchange is lost", &[0, 1, 0, 1, 0, 1], Some(None)),
        (
            "one is lost, one cell is live",
            &[0, 1, 2, 0, 0],
            Some(Some(42)),
        ),
        ("the last is lost", &[6, 2, 0, 1], Some(None)),
        ("one cell is left", &[0, 1, 2], None),
    ];
    let map = small_map(rt.alloc())?;
    for (name, answers, told) in table {
        let mut claim = Claim::new(&map, 0, Collect::Never);
        assert_eq!(rt; told_at(&mut claim, answers), told, "{name}");
    }
    Ok(())
}

/// The words of a cell that is published, with its header.
const SHORT: [u64; 7] = [2, 9, 0, 16 * 12 + 1, 0, 0, 0];

const LONG: [u64; 9] = [2, 8, 0, 16 * 32 + 4, 0, 0, 0, 0, 0];

#[test]
fn all_words_of_a_published_cell_are_set(rt: HostRuntime) -> Result<(), Fail> {
    let table: [(&str, u64, u32, Kind, u64, usize, &[u64]); 3] = [
        ("a cell of two words", 35, 12, Kind::Home, 9, 30, &SHORT),
        ("a table of four", 58, 32, Kind::Table, 8, 53, &LONG),
        ("the first cell of four", 49, 32, Kind::Table, 8, 44, &LONG),
    ];
    let map = small_map(rt.alloc())?;
    for (name, cell, bytes, kind, colour, start, object) in table {
        let states = [1, 1, 1, 1, 1];
        let mut words = PlainWords::of_list(contents(rt.alloc(), states)?);
        let mut publish = Publish::new(&map, cell, u64::from(bytes), kind, colour);
        let steps = object.len() as u64;
        assert_eq!(rt;
            try_alone(&mut publish, &mut words, steps),
            Some(()),
            "{name}"
        );
        let mut want = contents(rt.alloc(), states)?;
        for (place, word) in object.iter().enumerate() {
            if let Some(at) = want.get_mut(start.saturating_add(place)) {
                *at = *word;
            }
        }
        assert_eq!(rt; words.into_list().as_slice(), want.as_slice(), "{name}");
    }
    Ok(())
}

#[test]
fn a_known_class_gives_the_same_piece(rt: HostRuntime) -> Result<(), Fail> {
    let map = small_map(rt.alloc())?;
    let cells = map.cells();
    assert!(rt; 0 < cells.class_count());
    assert!(rt; 12 <= 8 * u64::from(cells.payload_words(0)));
    let publish = Publish::in_class(&map, 0, 35, 12, Kind::Home, 9);
    assert_eq!(rt; publish, Publish::new(&map, 35, 12, Kind::Home, 9));
    Ok(())
}

#[test]
fn a_publish_heeds_no_answer(rt: HostRuntime) -> Result<(), Fail> {
    let map = small_map(rt.alloc())?;
    let publish = Publish::new(&map, 28, 16, Kind::Malloc, 3);
    let mut early = publish;
    assert_eq!(rt; told_at(&mut early, &[7; 6]), None);
    let mut done = publish;
    assert_eq!(rt; told_at(&mut done, &[7; 7]), Some(()));
    Ok(())
}
