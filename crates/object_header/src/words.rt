//! The words whose places need no map: the single words, and those of slots, output and headers.
ghost use Rattle.std.specs.Prelude.{◌≡◌};
ghost use Rattle.object_header.specs.WordMap.{place_of_fixed, place_of_acknowledgement, place_of_slot, place_of_output, place_of_header, place_of_word, static_size};

/// The single words at the front of the map.
#[derive(Clone, Copy, Debug, PartialEq, Eq)]
pub enum FixedWord {
    /// 0, or how the program ended.
    Exit,
    /// The last order to all threads.
    Order,
    /// The collector's cycle.
    Cycle,
    /// The cycle that threads asked for.
    Request,
    /// The first cell of the grey list, or 0.
    GreyHead,
    /// A number below which all output words are taken.
    OutputHint,
    /// How many bytes of the input were read.
    InputCount,
    Unused,
}

/// The words of a thread slot.
#[derive(Clone, Copy, Debug, PartialEq, Eq)]
pub enum SlotWord {
    /// The slot's generation, and where its thread is in its life.
    State,
    /// The function that its thread begins with.
    Function,
    /// The argument's address.
    Address,
    /// The argument's capability.
    Capability,
    /// What its thread gave back.
    Result,
}

/// The header words of a static object or a cell.
#[derive(Clone, Copy, Debug, PartialEq, Eq)]
pub enum HeaderWord {
    /// Free, claimed or live, and whether it is void.
    State,
    /// The last cycle in which it was marked.
    Mark,
    /// The next cell of the grey list, or 0.
    Link,
    /// How many bytes it has, and its kind.
    Size,
    /// The place of its table, or 0.
    Table,
}

/// A static object: how many payload words it has, and whether it has a table.
#[derive(Clone, Copy, Debug, PartialEq, Eq)]
pub struct StaticSize {
    pub words: u32,
    pub table: bool,
}

impl StaticSize {
    /// How many words it takes in all, with its header and its table.
    pub fn total(self) -> u64
        ensures { result ≡ static_size self }
    {
        let words = u64::from(self.words);
        HEADER + words + if self.table { words } else { 0 }
    }
}

/// How many header words a static object or a cell has.
pub(crate) const HEADER: u64 = 5;

/// How many single words there are.
const FIXED: u64 = 8;

/// The place of a single word.
pub fn fixed_place(word: FixedWord) -> u64
    ensures { result ≡ place_of_fixed word }
{
    word as u64
}

/// The place of a slot's acknowledgement.
pub fn acknowledgement_place(slot: u32) -> u64
    ensures { result ≡ place_of_acknowledgement slot }
{
    FIXED + u64::from(slot)
}

/// The place of a slot's word, in a map with so many slots.
pub fn slot_place(slots: u32, slot: u32, word: SlotWord) -> u64
    ensures { result ≡ place_of_slot slots slot word }
{
    FIXED + u64::from(slots) + 5 * u64::from(slot) + word as u64
}

/// The place of an output word, in a map with so many slots.
pub fn output_place(slots: u32, index: u32) -> u64
    ensures { result ≡ place_of_output slots index }
{
    FIXED + 6 * u64::from(slots) + u64::from(index)
}

/// The place of a header word of the object or cell whose first payload word has this place.
pub fn header_place(place: u64, word: HeaderWord) -> u64
    ensures { result ≡ place_of_header place word }
{
    place.saturating_sub(HEADER) + word as u64
}

/// The place of a word of an object, a cell or a table whose first word has this place.
pub fn word_place(first: u64, word: u32) -> u64
    ensures { result ≡ place_of_word first word }
{
    first.wrapping_add(u64::from(word))
}
