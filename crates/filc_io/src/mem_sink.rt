//! A sink in memory: what it took is told, and stated calls fail.
ghost use Rattle.std.specs.Prelude.{◌≡◌, ◌<◌, ◌≤◌, [], IfOk, vec_len, vec_capacity};

use crate::outages::Outages;
use crate::outside::{Failed, Sink};
use std::alloc::{AllocError, Global};

/// A sink in memory, which holds a stated number of bytes at most, and takes a stated number of
/// them at most at a call.
#[derive(Drop)]
pub struct MemSink {
    bytes: Vec<u8>,
    room: usize,
    most: usize,
    outages: Outages,
    ghost fits: { vec_len bytes ≤ room },
    ghost reserved: { room ≤ vec_capacity bytes },
    ghost takes: { 0 < most },
}

impl MemSink {
    ghost use Rattle.filc_io.specs.MemSink.{bytes_taken, room_of, most_taken, failing_calls, calls_made, faults_of};

    /// A sink that can hold `room` bytes, has none, and takes at most `most` of them at a call. It
    /// fails where its room is full, and at the calls whose numbers are in `fails`; they are
    /// counted from 0.
    pub fn new(
        alloc: Global,
        room: usize,
        most: usize,
        fails: &[u64],
    ) -> Result<MemSink, AllocError>
        requires { 0 < most }
        ensures taken { IfOk result (λ sink. bytes_taken sink ≡ []) }
        ensures room { IfOk result (λ sink. room_of sink ≡ room) }
        ensures most { IfOk result (λ sink. most_taken sink ≡ most) }
        ensures fails { IfOk result (λ sink. failing_calls sink ≡ fails.now) }
        ensures calls { IfOk result (λ sink. calls_made sink ≡ 0) }
        ensures faults { IfOk result (λ sink. faults_of sink ≡ 0) }
    {
        Ok(MemSink {
            bytes: Vec::with_capacity(alloc, room)?,
            room,
            most,
            outages: Outages::new(alloc, fails)?,
        })
    }

    /// What it took.
    pub fn bytes(&self) -> &[u8]
        ensures { result.now ≡ bytes_taken self.now }
    {
        self.bytes.as_slice()
    }
}

impl Sink for MemSink {
    ghost use Rattle.std.specs.Prelude.{◌≡◌, ◌-◌, ◌<◌, ◌↔◌, ◌⊎◌, ◌++◌, length, take, min, IfOk, IsErr, OnOk, OnErr, Contains};
    ghost use Rattle.filc_io.specs.Counts.{count_after};
    ghost use Rattle.filc_io.specs.MemSink.{bytes_taken, room_of, most_taken, failing_calls, calls_made, faults_of, state_of};

    ghost state = { state_of };

    ghost counted = { λ sink. sink.outages.faults.in_range };

    fn write(&mut self, piece: &[u8]) -> Result<usize, Failed>
        requires { 0 < length piece.now }
        // The calls are counted. The stated ones fail, and those where the room is full.
        ensures stated { IsErr result ↔ (Contains (failing_calls self.old) (calls_made self.old)
            ⊎ (length (bytes_taken self.old) ≡ room_of self.old)) }
        ensures one_fault { OnErr result (faults_of self.new ≡ count_after (faults_of self.old)) }
        ensures no_fault { OnOk result (faults_of self.new ≡ faults_of self.old) }

        // The other calls take as much as they may.
        ensures taken { IfOk result (λ n. n ≡ min (most_taken self.old)
            (min (length piece.now) (room_of self.old - length (bytes_taken self.old)))) }
        ensures front { IfOk result (λ n.
            bytes_taken self.new ≡ bytes_taken self.old ++ take n piece.now) }

        ensures err { OnErr result (bytes_taken self.new ≡ bytes_taken self.old) }
        ensures calls { calls_made self.new ≡ count_after (calls_made self.old) }
        ensures fails { failing_calls self.new ≡ failing_calls self.old }
        ensures most { most_taken self.new ≡ most_taken self.old }
        ensures room { room_of self.new ≡ room_of self.old }
    {
        if self.outages.begin() {
            return Err(Failed);
        }
        let room = self.room - self.bytes.len();
        if room == 0 {
            self.outages.faults.raise();
            return Err(Failed);
        }
        let taken = self.most.min(piece.len().min(room));
        match self.bytes.extend_from_slice(&piece[..taken]) {
            Ok(()) => Ok(taken),
            Err(_) => unreachable!(),
        }
    }
}
