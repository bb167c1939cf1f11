//! The memory of the abstract machine, kept.

ghost use Rattle.std.specs.Prelude.{◌≡◌};

use crate::object::Object;
use crate::pair::Pair;
use crate::slot::Slot;
use ideal_machine::Finish;
use std::marker::Model;

/// How many threads can be at once.
pub const SLOTS: u32 = 8;

/// How many bytes can be put out.
pub const OUTPUT: u64 = 1_048_576;

/// The memory of the abstract machine. It begins with `new` and is changed by `ideal_step` alone.
#[derive(Drop)]
pub struct Ideal {
    pub(crate) objects: Vec<Object>,
    pub(crate) pairs: Vec<Pair>,
    pub(crate) output: Vec<u8>,
    pub(crate) input_taken: u64,
    pub(crate) cycles: u64,
    pub(crate) slots: Vec<Slot>,
    pub(crate) finish: Option<Finish>,
}

impl Model for Ideal {
    ghost use Rattle.ideal_machine.specs.Memory.{Memory};

    ghost Value = { Memory };

    ghost view = { λ i. record {
      objects = i.objects.items;
      pairs = i.pairs.items;
      output = i.output.items;
      input_taken = i.input_taken;
      cycles = i.cycles;
      slots = i.slots.items;
      finish = i.finish;
    } };
}

impl Ideal {
    /// The bytes that were put out.
    pub fn output(&self) -> &[u8]
        ensures { result.now ≡ self.now.output }
    {
        self.output.as_slice()
    }
}
