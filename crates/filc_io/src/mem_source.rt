//! A source in memory: its bytes are told, and stated calls fail.
ghost use Rattle.std.specs.Prelude.{◌≡◌, ◌<◌, ◌≤◌, IfOk, vec_len};

use crate::outages::Outages;
use crate::outside::{Failed, Source};
use std::alloc::{AllocError, Global};

/// A source in memory, which gives a stated number of bytes at most at a call.
#[derive(Drop)]
pub struct MemSource {
    bytes: Vec<u8>,
    at: usize,
    most: usize,
    outages: Outages,
    ghost inside: { at ≤ vec_len bytes },
    ghost gives: { 0 < most },
}

impl MemSource {
    ghost use Rattle.filc_io.specs.MemSource.{bytes_left, most_given, failing_calls, calls_made, faults_of};

    /// A source with these bytes left, which gives at most `most` of them at a call. The calls
    /// whose numbers are in `fails` will fail; they are counted from 0.
    pub fn new(
        alloc: Global,
        bytes: &[u8],
        most: usize,
        fails: &[u64],
    ) -> Result<MemSource, AllocError>
        requires { 0 < most }
        ensures left { IfOk result (λ source. bytes_left source ≡ bytes.now) }
        ensures most { IfOk result (λ source. most_given source ≡ most) }
        ensures fails { IfOk result (λ source. failing_calls source ≡ fails.now) }
        ensures calls { IfOk result (λ source. calls_made source ≡ 0) }
        ensures faults { IfOk result (λ source. faults_of source ≡ 0) }
    {
        Ok(MemSource {
            bytes: Vec::from_slice(alloc, bytes)?,
            at: 0,
            most,
            outages: Outages::new(alloc, fails)?,
        })
    }
}

impl Source for MemSource {
    ghost use Rattle.std.specs.Prelude.{◌≡◌, ◌<◌, ◌↔◌, length, take, drop, min, IfOk, IsErr, OnOk, OnErr, Contains};
    ghost use Rattle.filc_io.specs.Counts.{count_after};
    ghost use Rattle.filc_io.specs.MemSource.{bytes_left, most_given, failing_calls, calls_made, faults_of, state_of};

    ghost state = { state_of };

    ghost counted = { λ source. source.outages.faults.in_range };

    fn read(&mut self, into: &mut [u8]) -> Result<usize, Failed>
        requires { 0 < length into.old }
        // The calls are counted, and the stated ones fail.
        ensures stated { IsErr result ↔ Contains (failing_calls self.old) (calls_made self.old) }
        ensures one_fault { OnErr result (faults_of self.new ≡ count_after (faults_of self.old)) }
        ensures no_fault { OnOk result (faults_of self.new ≡ faults_of self.old) }

        // The other calls give as much as they may.
        ensures given { IfOk result (λ n.
            n ≡ min (most_given self.old) (min (length into.old) (length (bytes_left self.old)))) }
        ensures next { IfOk result (λ n. take n into.new ≡ take n (bytes_left self.old)) }
        ensures rest { IfOk result (λ n. bytes_left self.new ≡ drop n (bytes_left self.old)) }

        ensures err { OnErr result (bytes_left self.new ≡ bytes_left self.old) }
        ensures calls { calls_made self.new ≡ count_after (calls_made self.old) }
        ensures fails { failing_calls self.new ≡ failing_calls self.old }
        ensures most { most_given self.new ≡ most_given self.old }
    {
        if self.outages.begin() {
            return Err(Failed);
        }
        let left = &self.bytes[self.at..];
        let given = self.most.min(into.len().min(left.len()));
        into[..given].copy_from_slice(&left[..given]);
        self.at += given;
        Ok(given)
    }
}
