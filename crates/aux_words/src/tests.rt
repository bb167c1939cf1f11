//! Each piece on a small map by worked values. A row says what the piece tells and which word it
//! changes, so a wrong place shows whatever the specs call it.
//! Objects have a table or none: without one a half is 0, and none is set.

use crate::{Install, ReadHalf, WriteHalf};
use heap_words::{PlainWords, try_alone};
use object_header::{Map, StaticSize};
use std::alloc::{AllocError, Global};
use std::test::Fail;

/// A static object of two words, with a table.
const TABLED: u64 = 20;

/// Its table word, its table, and a word of that.
const TABLE_WORD: usize = 19;

const TABLE: u64 = 22;

const SECOND_HALF: usize = 23;

/// A static object with no table, and its table word.
const BARE: u64 = 29;

const BARE_TABLE_WORD: usize = 28;

/// A cell.
const CELL: u64 = 36;

/// How many words there are.
const WORDS: usize = 45;

#[derive(Clone, Copy)]
enum Work {
    Read(u64, u32),
    Write(u64, u32, u64),
    WriteAt(u64, u64, u32, u64),
    Install(u64, u64),
}

/// What the piece tells where it is done, and 0 where that is nothing.
fn told(work: Work, words: &mut PlainWords) -> Option<u64> {
    match work {
        Work::Read(object, word) => try_alone(&mut ReadHalf::new(object, word), words, 2),
        Work::Write(object, word, cap) => {
            let () = try_alone(&mut WriteHalf::new(object, word, cap), words, 2)?;
            Some(0)
        }
        Work::WriteAt(object, table, word, cap) => {
            let () = try_alone(&mut WriteHalf::at_table(object, table, word, cap), words, 1)?;
            Some(0)
        }
        Work::Install(object, table) if object == table => None,
        Work::Install(object, table) => try_alone(&mut Install::new(object, table), words, 1),
    }
}

/// Words that all differ, but for the two table words.
fn contents(alloc: Global) -> Result<Vec<u64>, AllocError> {
    let mut list = Vec::with_capacity(alloc, WORDS)?;
    for place in 0..WORDS {
        list.push(match place {
            TABLE_WORD => TABLE,
            BARE_TABLE_WORD => 0,
            _ => 100 + place as u64,
        })?;
    }
    Ok(list)
}

#[test]
fn the_places_are_those_of_a_map(rt: HostRuntime) -> Result<(), Fail> {
    let statics = [
        StaticSize {
            words: 2,
            table: true,
        },
        StaticSize {
            words: 2,
            table: false,
        },
    ];
    let map = Map::new(rt.alloc(), 1, 1, &statics, &[(2, 2)])?;
    assert_eq!(rt; map.static_place(0), TABLED);
    assert_eq!(rt; map.static_table(0), TABLE);
    assert_eq!(rt; map.static_place(1), BARE);
    assert_eq!(rt; map.cells().cell_place(0, 0), CELL);
    assert_eq!(rt; map.words(), WORDS as u64);
    Ok(())
}

#[test]
fn each_piece_changes_its_word_alone(rt: HostRuntime) -> Result<(), Fail> {
    let table = [
        ("the first word's half", Work::Read(TABLED, 0), 122, None),
        ("the second word's half", Work::Read(TABLED, 1), 123, None),
        ("a half without a table", Work::Read(BARE, 1), 0, None),
        (
            "a half is set",
            Work::Write(TABLED, 1, 7),
            0,
            Some((SECOND_HALF, 7)),
        ),
        (
            "a half is set in a table that is known",
            Work::WriteAt(TABLED, TABLE, 1, 7),
            0,
            Some((SECOND_HALF, 7)),
        ),
        ("no half without a table", Work::Write(BARE, 1, 0), 0, None),
        (
            "a table",
            Work::Install(BARE, CELL),
            CELL,
            Some((BARE_TABLE_WORD, CELL)),
        ),
        (
            "a table that comes late",
            Work::Install(TABLED, CELL),
            TABLE,
            None,
        ),
    ];
    for (name, work, answer, change) in table {
        let mut words = PlainWords::of_list(contents(rt.alloc())?);
        assert_eq!(rt; told(work, &mut words), Some(answer), "{name}");
        let mut want = contents(rt.alloc())?;
        if let Some((place, word)) = change {
            assert!(rt; place < want.len());
            want[place] = word;
        }
        assert_eq!(rt; words.into_list().as_slice(), want.as_slice(), "{name}");
    }
    Ok(())
}
