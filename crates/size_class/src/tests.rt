//! The classes of the two heaps at the edges, and the map of words with the normal ones.

use crate::{normal, small};
use object_header::{Cap, Map, StaticSize, address_of, cap_word};
use std::test::Fail;

#[test]
fn a_request_gets_the_least_class(rt: HostRuntime) {
    for (words, class) in [
        (0, Some(0)),
        (2, Some(0)),
        (3, Some(1)),
        (1025, Some(10)),
        (16384, Some(11)),
        (16385, None),
    ] {
        assert_eq!(rt; normal().class_of(words), class, "{words} words");
    }
}

#[test]
fn cells_lie_one_after_another(rt: HostRuntime) {
    let classes = small();
    // the class of 4 words begins after 8 cells of 7 words, and its cells have 9 words
    assert_eq!(rt; classes.cell_at(1, 0), 61);
    assert_eq!(rt; classes.cell_at(1, 7), 124);
    assert_eq!(rt; classes.cell_of(61), Some((1, 0)));
    assert_eq!(rt; classes.cell_of(124), Some((1, 7)));
    assert_eq!(rt; classes.cell_of(62), None);
    assert_eq!(rt; classes.cell_of(4), None);
    assert_eq!(rt; classes.cell_of(1248), None);
}

#[test]
fn the_normal_heap_begins_behind_a_static_and_its_table(rt: HostRuntime) -> Result<(), Fail> {
    let statics = [StaticSize {
        words: 1,
        table: true,
    }];
    let map = Map::new(rt.alloc(), 8, 1_048_576, &statics, &normal().pairs())?;
    assert_eq!(rt; map.static_place(0), 1_048_637);
    assert_eq!(rt; map.static_table(0), 1_048_638);
    let first = map.cells().cell_place(0, 0);
    assert_eq!(rt; first, 1_048_644);
    assert_eq!(rt; address_of(first), 8_454_688);
    assert_eq!(rt; cap_word(Cap::Object(first)), 4_194_576);
    Ok(())
}
