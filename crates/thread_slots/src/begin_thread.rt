//! Beginning a thread.
ghost use Rattle.std.specs.Prelude.{◌≡◌};
ghost use Rattle.thread_slots.specs.BeginThread.{id_in, begin_thread, begin_work};

use heap_words::{Piece, Step, WordOp};
use object_header::{SlotWord, slot_place, slot_state_of};

/// Which word comes next, and what was loaded before it.
#[derive(Clone, Copy, Debug, PartialEq, Eq)]
pub enum BeginStage {
    /// The state.
    LoadState,
    /// The function, after the thread's id.
    LoadFunction(u64),
    /// The argument's address, after the id and the function.
    LoadAddress(u64, u32),
    /// The argument's capability, after the id, the function and the address.
    LoadCapability(u64, u32, u64),
}

/// Loads the words of a slot whose thread begins: state, function, address and capability. The
/// capability comes last, since the collector may replace it up to then.
#[derive(Clone, Copy, Debug, PartialEq, Eq)]
pub struct BeginThread {
    pub slots: u32,
    pub slot: u32,
    pub stage: BeginStage,
}

impl BeginThread {
    /// Begins the thread of this slot, in a map with so many slots.
    pub fn new(slots: u32, slot: u32) -> BeginThread
        ensures { result ≡ begin_thread slots slot }
    {
        BeginThread {
            slots,
            slot,
            stage: BeginStage::LoadState,
        }
    }
}

/// The id of the thread in a slot with this state word. It is reckoned in 64 bits.
fn id_of(state: u64, slot: u32) -> u64
    ensures { result ≡ id_in state slot }
{
    let (generation, _) = slot_state_of(state);
    generation.wrapping_mul(64).wrapping_add(u64::from(slot))
}

#[tactic(auto, unfolding(crate::specs::BeginThread::begin_word, crate::specs::BeginThread::begin_next))]
impl Piece for BeginThread {
    type Out = (u64, u32, u64, u64);

    ghost work = { begin_work };

    ghost is_going = { λ piece. Unit {0} };

    fn next(&self) -> WordOp {
        let word = match self.stage {
            BeginStage::LoadState => SlotWord::State,
            BeginStage::LoadFunction(_) => SlotWord::Function,
            BeginStage::LoadAddress(_, _) => SlotWord::Address,
            BeginStage::LoadCapability(_, _, _) => SlotWord::Capability,
        };
        WordOp::Load(slot_place(self.slots, self.slot, word))
    }

    fn take(&mut self, answer: u64) -> Step<(u64, u32, u64, u64)> {
        self.stage = match self.stage {
            BeginStage::LoadState => BeginStage::LoadFunction(id_of(answer, self.slot)),
            BeginStage::LoadFunction(id) => {
                BeginStage::LoadAddress(id, (answer % (1 << 32)) as u32)
            }
            BeginStage::LoadAddress(id, function) => {
                BeginStage::LoadCapability(id, function, answer)
            }
            BeginStage::LoadCapability(id, function, address) => {
                return Step::Done((id, function, address, answer));
            }
        };
        Step::More
    }

    ghost keeps_going = { λ piece answer going goes_on. tt };
}
