//! Worked listings, as laws.

ghost use Rattle.whole_code.specs.Worked.{FunctionsAreListed, RegistersAreListed};
ghost use Rattle.whole_code.specs.Worked.{MemoryIsListed, CallsAreListed};

/// Each function and each instruction has its line.
pub fn code_is_listed()
    ensures functions { FunctionsAreListed }
    ensures registers { RegistersAreListed }
    ensures memory { MemoryIsListed }
    ensures calls { CallsAreListed }
{}
