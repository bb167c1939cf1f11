//! The registers of all activations, as one list: what a poll hands to the collector.

ghost use Rattle.std.specs.Prelude.{◌≡◌, ◌<◌, length};
ghost use Rattle.whole_code.specs.Plain.{PlainCode};
ghost use Rattle.thread_steps.specs.Registers.{block_count, block_index};
ghost use Rattle.thread_steps.specs.Registers.{register_count, register_of, thread_with_freed};
ghost use Rattle.thread_steps.specs.declared.constants.TheConstants.{ACTIVATIONS, BLOCK};
ghost use Rattle.thread_steps.specs.Stands.{IsThreadOf};

use crate::activation::Activation;
use crate::constants::FRAME;
use crate::thread::CodeThread;
use crate::thread::calls::fewer;
use filc_num::REGISTERS;
use ideal_machine::{Half, Value};

/// How many registers there are from a depth on outwards.
fn count(callers: &Vec<Activation>, depth: usize, values: u32) -> u32
    requires callers { length callers.now.items ≡ ACTIVATIONS }
    requires depth { depth < ACTIVATIONS }
    ensures { result ≡ block_count callers.now.items depth values }
{
    let mut total = fewer(values, REGISTERS);
    for k in 0..depth {
        total += fewer(callers[k].values, REGISTERS);
    }
    total
}

/// Where a register stands in the block, counted from a depth on outwards.
fn index_of(
    callers: &Vec<Activation>,
    mut depth: usize,
    mut values: u32,
    mut register: u32,
) -> usize
    requires callers { length callers.now.items ≡ ACTIVATIONS }
    requires depth { depth < ACTIVATIONS }
    requires there { register < block_count callers.now.items depth values }
    ensures value { result ≡ block_index callers.now.items depth values register }
    ensures within { result < BLOCK }
{
    let mut have = fewer(values, REGISTERS);
    while have <= register {
        register -= have;
        depth -= 1;
        values = callers[depth].values;
        have = fewer(values, REGISTERS);
    }
    FRAME * depth + register as usize
}

impl CodeThread {
    /// How many registers the thread's frames have together.
    pub fn registers(&self) -> u32
        ensures { result ≡ register_count self.now }
    {
        count(&self.callers, self.depth, self.values)
    }

    /// A register of the thread's frames.
    fn register_of(&self, register: u32) -> Value
        requires { register < register_count self.now }
        ensures { result ≡ register_of self.now register }
    {
        let index = index_of(&self.callers, self.depth, self.values, register);
        self.registers[index]
    }

    /// The number of a register: its integer, or its pointer's address.
    pub fn value(&self, register: u32) -> u64
        requires { register < register_count self.now }
        ensures { result ≡ (register_of self.now register).number }
    {
        self.register_of(register).number
    }

    /// The half of a register.
    pub fn half(&self, register: u32) -> Half
        requires { register < register_count self.now }
        ensures { result ≡ (register_of self.now register).half }
    {
        self.register_of(register).half
    }

    /// Makes the half of a register Freed. An event that is wanted has it so too, where it has the
    /// half from there; all else is left, so the thread stands where it stood.
    pub fn free_half(&mut self, register: u32)
        requires { register < register_count self.old }
        ensures exact { self.new ≡ thread_with_freed self.old register }
        ensures stands { (code : PlainCode) → IsThreadOf code self.old → IsThreadOf code self.new }
    {
        let index = index_of(&self.callers, self.depth, self.values, register);
        let number = self.registers[index].number;
        self.registers[index] = Value {
            number,
            half: Half::Freed,
        };
    }
}
