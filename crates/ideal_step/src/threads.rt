//! Where each thread is, and which ids there are.

ghost use Rattle.std.specs.Prelude.{◌≡◌, ◌↔◌, IsTrue, Some};
ghost use Rattle.ideal_machine.specs.Allows.{IsRunning, IsStarted, IsFreeId, HasThread, HasResult};

use crate::ideal::Ideal;
use crate::slot::State;
use ideal_machine::Half;

impl Ideal {
    /// Whether an actor's thread is running.
    pub fn is_running(&self, actor: u32) -> bool
        ensures { IsTrue result ↔ IsRunning self.now actor }
    {
        match self.slots.get(actor as usize) {
            Some(slot) => slot.is_running(),
            None => false,
        }
    }

    /// Whether an actor's thread is started, with this function, address and half, shown.
    pub fn is_started(&self, actor: u32, function: u32, address: u64, shown: Half) -> bool
        ensures { IsTrue result ↔ IsStarted self.now actor function address shown }
    {
        match self.slots.get(actor as usize) {
            Some(slot) => match slot.start() {
                Some((begun, with, half)) => {
                    begun == function && with == address && self.is_shown(half, shown)
                }
                None => false,
            },
            None => false,
        }
    }

    /// Whether the id is that of a free slot, for the thread that it has next.
    pub fn is_free_id(&self, id: u64) -> bool
        ensures { IsTrue result ↔ IsFreeId self.now id }
    {
        match self.slots.get((id % 64) as usize) {
            Some(slot) => slot.is_free() && slot.generation() == id / 64,
            None => false,
        }
    }

    /// Whether a slot is for the thread with this id.
    pub fn has_thread(&self, id: u64) -> bool
        ensures { IsTrue result ↔ HasThread self.now id }
    {
        match self.slots.get((id % 64) as usize) {
            Some(slot) => slot.generation() == id / 64,
            None => false,
        }
    }

    /// Whether the thread with this id is ended with this result.
    pub fn has_result(&self, id: u64, number: u64) -> bool
        ensures { IsTrue result ↔ HasResult self.now id number }
    {
        match self.slots.get((id % 64) as usize) {
            Some(slot) => slot.generation() == id / 64 && slot.result() == Some(number),
            None => false,
        }
    }
}
