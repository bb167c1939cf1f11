//! What the words of slots, headers and the exit code.
ghost use Rattle.std.specs.Prelude.{◌≡◌, ℕ, ◌+◌, ◌*◌, ◌^◌, ◌<◌, IfSome, Some, bit_or};
ghost use Rattle.object_header.specs.Codings.{state_code, size_code, slot_code, exit_code, IsExit};
ghost use Rattle.object_header.specs.declared.codings.CellState.{CellState};
ghost use Rattle.object_header.specs.declared.codings.Kind.{Kind};
ghost use Rattle.object_header.specs.declared.codings.SlotState.{SlotState};
ghost use Rattle.object_header.specs.declared.codings.ExitWord.{ExitWord};

/// When the collector runs its cycles.
#[derive(Clone, Copy, Debug, PartialEq, Eq)]
pub enum Collect {
    /// Where a thread asks for one.
    Demand,
    /// One after another.
    Always,
    Never,
}

/// Where a cell is in its life.
#[derive(Clone, Copy, Debug, PartialEq, Eq)]
pub enum CellState {
    /// It can be claimed.
    Free,
    /// A thread has it and makes an object of it.
    Claimed,
    /// It has an object.
    Live,
    /// It has an object that was freed.
    Void,
}

/// The bit that makes a live cell void.
pub const VOID_BIT: u64 = 4;

/// The word of a cell's state.
pub fn state_word(state: CellState) -> u64
    ensures code { result ≡ state_code state }
    ensures void { state_code CellState.Void ≡ bit_or (state_code CellState.Live) VOID_BIT }
{
    match state {
        CellState::Free => 0,
        CellState::Claimed => 1,
        CellState::Live => 2,
        CellState::Void => 2 | VOID_BIT,
    }
}

/// The state that a word codes, if it codes one.
pub fn state_of(word: u64) -> Option<CellState>
    ensures codes { IfSome result (λ state. state_code state ≡ word) }
    ensures inverse { (state : CellState) → state_code state ≡ word → result ≡ Some state }
{
    match word {
        0 => Some(CellState::Free),
        1 => Some(CellState::Claimed),
        2 => Some(CellState::Live),
        6 => Some(CellState::Void),
        _ => None,
    }
}

/// What a cell or a static object is.
#[derive(Clone, Copy, Debug, PartialEq, Eq)]
pub enum Kind {
    /// An object of `malloc`.
    Malloc,
    /// A variable of a block.
    Home,
    /// A static object.
    Static,
    /// A string literal.
    Literal,
    /// The capabilities of an object's words.
    Table,
    /// A pair of an address and a capability.
    Boxed,
}

/// The word of a header's bytes and kind.
pub fn size_word(bytes: u64, kind: Kind) -> u64
    requires { bytes < 2 ^ 60 }
    ensures { result ≡ size_code bytes kind }
{
    16 * bytes + kind as u64
}

/// The bytes and the kind that a word codes, if it codes some.
pub fn bytes_and_kind_of(word: u64) -> Option<(u64, Kind)>
    ensures codes { IfSome result (λ size. size_code size.0 size.1 ≡ word) }
    ensures inverse { (bytes : ℕ) (kind : Kind) → size_code bytes kind ≡ word →
        result ≡ Some (bytes, kind) }
{
    let kind = match word % 16 {
        0 => Kind::Malloc,
        1 => Kind::Home,
        2 => Kind::Static,
        3 => Kind::Literal,
        4 => Kind::Table,
        5 => Kind::Boxed,
        _ => return None,
    };
    Some((word / 16, kind))
}

/// Where a slot's thread is in its life.
#[derive(Clone, Copy, Debug, PartialEq, Eq)]
pub enum SlotState {
    /// There is none.
    Free,
    /// A spawn fills the slot.
    Filling,
    /// It runs.
    Running,
    /// It ended, and nobody has joined it.
    Ended,
}

/// The word of a slot's state.
pub fn slot_state_word(generation: u64, state: SlotState) -> u64
    requires { generation < 2 ^ 62 }
    ensures { result ≡ slot_code generation state }
{
    4 * generation + state as u64
}

/// The generation and the state that a word codes.
pub fn slot_state_of(word: u64) -> (u64, SlotState)
    ensures codes { slot_code result.0 result.1 ≡ word }
    ensures inverse { (generation : ℕ) (state : SlotState) →
        slot_code generation state ≡ word → result ≡ (generation, state) }
{
    let state = match word % 4 {
        0 => SlotState::Free,
        1 => SlotState::Filling,
        2 => SlotState::Running,
        _ => SlotState::Ended,
    };
    (word / 4, state)
}

/// The id of the thread that a slot has in this generation.
pub fn thread_id(generation: u64, slot: u32) -> u64
    requires generation { generation < 2 ^ 58 }
    requires slot { slot < 64 }
    ensures { result ≡ 64 * generation + slot }
{
    64 * generation + u64::from(slot)
}

/// The generation and the slot of a thread's id.
pub fn thread_of(id: u64) -> (u64, u32)
    ensures codes { 64 * result.0 + result.1 ≡ id }
    ensures slot { result.1 < 64 }
{
    (id / 64, (id % 64) as u32)
}

/// How the program ended, as the exit word says it.
#[derive(Clone, Copy, Debug, PartialEq, Eq)]
pub enum ExitWord {
    /// It did not end yet.
    Unset,
    /// It ended with this status.
    Exited(u8),
    /// It was stopped, for the reason of this number, at this line.
    Trapped(u32, u32),
}

/// The exit word.
pub fn exit_word(exit: ExitWord) -> u64
    requires { IsExit exit }
    ensures { result ≡ exit_code exit }
{
    match exit {
        ExitWord::Unset => 0,
        ExitWord::Exited(status) => u64::from(status) + 1,
        ExitWord::Trapped(reason, line) => (1 << 32) * u64::from(reason) + u64::from(line),
    }
}

/// What an exit word says, if it says something.
pub fn exit_of(word: u64) -> Option<ExitWord>
    ensures codes { IfSome result (λ exit. exit_code exit ≡ word) }
    ensures fits { IfSome result IsExit }
    ensures inverse { (exit : ExitWord) → IsExit exit → exit_code exit ≡ word → result ≡ Some exit }
{
    let reason = word / (1 << 32);
    if reason > 0 {
        Some(ExitWord::Trapped(reason as u32, (word % (1 << 32)) as u32))
    } else if word > 256 {
        None
    } else if word > 0 {
        Some(ExitWord::Exited((word - 1) as u8))
    } else {
        Some(ExitWord::Unset)
    }
}

/// The output word of a byte; a word that has none yet is 0.
pub fn output_word(byte: u8) -> u64
    ensures { result ≡ byte + 1 }
{
    u64::from(byte) + 1
}

/// The byte that an output word codes, if it codes one.
pub fn byte_of(word: u64) -> Option<u8>
    ensures codes { IfSome result (λ byte. byte + 1 ≡ word) }
    ensures inverse { (byte : ℕ) → byte < 256 → byte + 1 ≡ word → result ≡ Some byte }
{
    u8::try_from(word.checked_sub(1)?).ok()
}
