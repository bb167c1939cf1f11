//! The places and the codings by worked values.

use crate::{
    Cap, CellState, ExitWord, FixedWord, HeaderWord, Kind, Map, SlotState, SlotWord, StaticSize,
    acknowledgement_place, address_of, byte_of, bytes_and_kind_of, cap_of, cap_word, exit_of,
    exit_word, fixed_place, function_address, header_place, output_place, output_word, size_word,
    slot_place, slot_state_of, slot_state_word, state_of, state_word, thread_id, thread_of,
};
use std::test::Fail;

#[test]
fn the_first_words_have_their_places(rt: HostRuntime) {
    assert_eq!(rt; fixed_place(FixedWord::GreyHead), 4);
    assert_eq!(rt; acknowledgement_place(7), 15);
    assert_eq!(rt; slot_place(8, 0, SlotWord::State), 16);
    assert_eq!(rt; slot_place(8, 7, SlotWord::Result), 55);
    assert_eq!(rt; output_place(8, 0), 56);
}

#[test]
fn statics_and_cells_have_their_places(rt: HostRuntime) -> Result<(), Fail> {
    let statics = [StaticSize {
        words: 1,
        table: true,
    }];
    let classes = [(2, 8192), (4, 8192), (8, 4096)];
    let map = Map::new(rt.alloc(), 8, 1_048_576, &statics, &classes)?;
    assert_eq!(rt; map.statics_start(), 1_048_632);
    assert_eq!(rt; map.static_place(0), 1_048_637);
    assert_eq!(rt; map.static_table(0), 1_048_638);
    let cells = map.cells();
    let first = cells.cell_place(0, 0);
    assert_eq!(rt; first, 1_048_644);
    assert_eq!(rt; header_place(first, HeaderWord::State), map.cells_start());
    assert_eq!(rt; address_of(first), 8_454_688);
    assert_eq!(rt; function_address(0), 16);
    assert_eq!(rt; cap_word(Cap::Object(first)), 4_194_576);
    assert_eq!(rt; cells.size(1), 9);
    assert_eq!(rt; cells.class_of(3), Some(1));
    assert_eq!(rt; cells.class_of(9), None);
    assert_eq!(rt; cells.cell_of(first), Some((0, 0)));
    assert_eq!(rt; cells.cell_of(first + 7), Some((0, 1)));
    assert_eq!(rt; cells.cell_of(first + 1), None);
    Ok(())
}

#[test]
fn words_code_values(rt: HostRuntime) {
    for (word, cap) in [
        (0, Some(Cap::Nothing)),
        (1, Some(Cap::Freed)),
        (2, Some(Cap::Function(0))),
        (3, Some(Cap::Boxed(0))),
        (4, Some(Cap::Object(1))),
        (5, None),
        (1 << 34 | 2, None),
    ] {
        assert_eq!(rt; cap_of(word), cap, "{word}");
    }
    assert_eq!(rt; state_word(CellState::Void), 6);
    assert_eq!(rt; state_of(6), Some(CellState::Void));
    assert_eq!(rt; state_of(4), None);
    assert_eq!(rt; size_word(10, Kind::Boxed), 165);
    assert_eq!(rt; bytes_and_kind_of(165), Some((10, Kind::Boxed)));
    assert_eq!(rt; bytes_and_kind_of(166), None);
    assert_eq!(rt; slot_state_word(1, SlotState::Running), 6);
    assert_eq!(rt; slot_state_of(6), (1, SlotState::Running));
    assert_eq!(rt; thread_of(thread_id(3, 5)), (3, 5));
    assert_eq!(rt; exit_word(ExitWord::Exited(42)), 43);
    assert_eq!(rt; exit_of(43), Some(ExitWord::Exited(42)));
    assert_eq!(rt; exit_of(257), None);
    assert_eq!(rt; exit_of(2 << 32 | 7), Some(ExitWord::Trapped(2, 7)));
    assert_eq!(rt; output_word(65), 66);
    assert_eq!(rt; byte_of(66), Some(65));
}
