//! The map of words, and what each word codes.
//!
//! The whole heap is one list of 64-bit words. This crate says where each of them lies and what it
//! means, and sees no memory itself: places go in and out, and words that were loaded or that are
//! to be stored. Every layer above names a word by a part of the map (`Part`), never by a number.
//!
//! Read `specs/WordMap.antt` first: the parts of a map, where each lies, and that they are disjoint
//! and cover it. `specs/Codings.antt` says what the words code, and `specs/Halves.antt` where the
//! capability of a pointer in memory lies. The laws of the map are one record, `MapLaws`.
#![tactic(auto)]

mod cap;
mod cells;
mod codings;
pub mod laws;
mod map;
#[cfg(test)]
mod tests;
mod words;

pub use cap::{Cap, address_of, cap_of, cap_word, function_address};
pub use cells::{Cells, MOST_CLASSES};
pub use codings::{
    CellState, Collect, ExitWord, Kind, SlotState, VOID_BIT, byte_of, bytes_and_kind_of, exit_of,
    exit_word, output_word, size_word, slot_state_of, slot_state_word, state_of, state_word,
    thread_id, thread_of,
};
pub use map::Map;
pub use words::{
    FixedWord, HeaderWord, SlotWord, StaticSize, acknowledgement_place, fixed_place, header_place,
    output_place, slot_place, word_place,
};
