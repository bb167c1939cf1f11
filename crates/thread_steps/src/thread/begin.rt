//! A thread begins with a function of the code.

ghost use Rattle.std.specs.Prelude.{◌≡◌, ◌+◌, ◌<◌, ◌≤◌, ℕ, length};
ghost use Rattle.ideal_machine.specs.Values.{value_at};
ghost use Rattle.whole_thread.specs.Thread.{thread_after_begin};
ghost use Rattle.thread_steps.specs.declared.constants.TheConstants.{BLOCK, FRAME};
ghost use Rattle.thread_steps.specs.Passing.{first_register};
ghost use Rattle.thread_steps.specs.Stands.{IsThreadOf};

use crate::thread::calls::fewer;
use crate::thread::{CodeThread, ZERO};
use ideal_machine::{Half, Value};
use whole_code::Code;
use whole_thread::Stage;

/// What the register k of a thread's first function begins with: the argument, or zero.
fn first_value(argument: Value, given: u32, k: u32) -> Value
    ensures { result ≡ first_register argument given k }
{
    if k < given { argument } else { ZERO }
}

/// Fills the first frame: its first `given` registers with the argument, the others with zero.
fn start(registers: &mut Vec<Value>, argument: Value, given: u32, values: u32)
    requires long { length registers.old.items ≡ BLOCK }
    requires values { values ≤ FRAME }
    ensures long { length registers.new.items ≡ BLOCK }
    ensures filled { (k : ℕ) → k < values →
        value_at registers.new.items k ≡ first_register argument given k }
{
    for k in 0..values {
        registers[k as usize] = first_value(argument, given, k);
    }
}

impl CodeThread {
    /// Begins with a function of the code, with the pointer of these two parts as its argument.
    pub fn begin(&mut self, code: &Code, id: u64, function: u32, address: u64, half: Half)
        requires { function < length code.now.functions }
        ensures exact { self.new ≡ thread_after_begin code.now id function
            (record { number = address; half = half }) self.old }
        ensures stands { IsThreadOf code.now self.new }
    {
        let _functions = code.functions();
        let main = code.main();
        let f = code.function(function);
        let given = fewer(f.parameters, 1);
        let argument = Value {
            number: address,
            half,
        };
        start(&mut self.registers, argument, given, f.values);
        self.depth = 0;
        self.base = 0;
        self.function = function;
        self.index = 0;
        self.called_at = None;
        self.values = f.values;
        self.granted = None;
        self.stage = Stage::Before;
        self.id = id;
        self.main = function == main;
    }
}
