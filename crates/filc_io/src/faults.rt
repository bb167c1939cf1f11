//! A count of faults, which rises and never falls.
ghost use Rattle.std.specs.Prelude.{◌≡◌, ◌^◌, ◌<◌};
ghost use Rattle.filc_io.specs.Counts.{count_after};

/// How many faults there were. It stands still at the greatest u64.
#[derive(Clone, Copy)]
pub(crate) struct FaultCount {
    pub(crate) count: u64,
    ghost in_range: { count < 2 ^ 64 },
}

impl FaultCount {
    /// No fault yet.
    pub(crate) fn zero() -> FaultCount
        ensures { result.count ≡ 0 }
    {
        FaultCount { count: 0 }
    }

    /// Counts one fault more.
    pub(crate) fn raise(&mut self)
        ensures { self.new.count ≡ count_after self.old.count }
    {
        self.count = self.count.saturating_add(1);
    }
}
