//! The outages of an object in memory: which of its calls fail.
ghost use Rattle.std.specs.Prelude.{◌≡◌, ℕ, List, ◌↔◌, IsTrue, IfOk, Contains, if◌then◌else◌};
ghost use Rattle.filc_io.specs.Counts.{count_after};

use crate::faults::FaultCount;
use std::alloc::{AllocError, Global};

/// Which calls fail, how many were made, and how many faults there were.
///
/// Calls are counted from 0. Their number stands still at the greatest u64.
#[derive(Drop)]
pub(crate) struct Outages {
    pub(crate) fails: Vec<u64>,
    pub(crate) calls: u64,
    pub(crate) faults: FaultCount,
}

impl Outages {
    /// No call was made yet.
    pub(crate) fn new(alloc: Global, fails: &[u64]) -> Result<Outages, AllocError>
        ensures fails { IfOk result (λ o. o.fails.items ≡ fails.now) }
        ensures calls { IfOk result (λ o. o.calls ≡ 0) }
        ensures faults { IfOk result (λ o. o.faults.count ≡ 0) }
    {
        Ok(Outages {
            fails: Vec::from_slice(alloc, fails)?,
            calls: 0,
            faults: FaultCount::zero(),
        })
    }

    /// Counts a call, and says whether it fails. If it does, the count of faults rises.
    pub(crate) fn begin(&mut self) -> bool
        ensures fails { IsTrue result ↔ Contains self.old.fails.items self.old.calls }
        ensures calls { self.new.calls ≡ count_after self.old.calls }
        ensures faults { self.new.faults.count ≡
            (if result then count_after self.old.faults.count else self.old.faults.count) }
        ensures schedule { self.new.fails ≡ self.old.fails }
    {
        let fails = self.fails.contains(&self.calls);
        self.calls = self.calls.saturating_add(1);
        if fails {
            self.faults.raise();
        }
        fails
    }
}
