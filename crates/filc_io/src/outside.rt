//! The traits of the outside: files, a source of bytes, and a sink for bytes.
ghost use Rattle.std.specs.Prelude.{◌≡◌, ℕ, ◌^◌, ◌<◌, ◌≤◌, List, [], length, take, Option, None, IfOk, IfSome, IsSomeAnd, OnErr, vec_len};
ghost use Rattle.filc_io.specs.Counts.{HasRisen};
ghost use Rattle.filc_io.specs.Outside.{FilesState, SourceState, SinkState, Takes, file_named, without_front};

use std::alloc::Global;

/// The most bytes that are read of a file: one more than a file may have, so that a file that is
/// too long can be told from one that is not.
pub const MOST_READ: usize = 1_048_577;

/// Why a file was not read.
#[derive(Clone, Copy, Debug, PartialEq, Eq)]
pub enum FileFault {
    /// The outside failed, and the count of faults rose. A missing file is this too, where the
    /// contents are not told.
    Failed,
    /// The contents are told, and no file has the name.
    Missing,
    /// There is no memory for the bytes.
    NoMemory,
}

/// A read or a write failed: nothing was given or taken, and the count of faults rose.
#[derive(Clone, Copy, Debug, PartialEq, Eq)]
pub struct Failed;

/// Files by their names.
pub trait Files {
    // The files, where they are told, and how many faults there were.
    ghost state: { Self → FilesState };

    /// Reads a file: its bytes, or the first [`MOST_READ`] of them where it is longer.
    fn read_file(&mut self, alloc: Global, name: &str) -> Result<Vec<u8>, FileFault>
        ensures bytes { IfOk result (λ v. IfSome (state self.old).contents (λ files.
            IsSomeAnd (file_named name.now files) (λ bytes. v.items ≡ take MOST_READ bytes))) }
        ensures limit { IfOk result (λ v. vec_len v ≤ MOST_READ) }
        ensures failed { result ≡ Err FileFault.Failed
            → HasRisen (state self.old).faults (state self.new).faults }
        ensures missing { result ≡ Err FileFault.Missing
            → IsSomeAnd (state self.old).contents (λ files. file_named name.now files ≡ None) }
        ensures missing_is_no_fault { result ≡ Err FileFault.Missing
            → (state self.new).faults ≡ (state self.old).faults }
        ensures contents { (state self.new).contents ≡ (state self.old).contents }
        ensures never_falls { (state self.old).faults ≤ (state self.new).faults };

    // A count fits a u64.
    ghost counted: { (files : Self) → (state files).faults < 2 ^ 64 };
}

/// Bytes that come in order, as standard input.
pub trait Source {
    // The bytes that are left, where they are told, and how many faults there were.
    ghost state: { Self → SourceState };

    /// Puts the next bytes at the front of `into`, and gives their number. 0 is the end.
    fn read(&mut self, into: &mut [u8]) -> Result<usize, Failed>
        requires { 0 < length into.old }
        ensures at_most { IfOk result (λ n. n ≤ length into.old) }
        ensures next { IfOk result (λ n. IfSome (state self.old).left (λ bytes.
            (n ≤ length bytes) × (take n into.new ≡ take n bytes))) }
        ensures rest { IfOk result (λ n.
            (state self.new).left ≡ without_front n (state self.old).left) }
        ensures end { result ≡ Ok 0 → IfSome (state self.old).left (λ bytes. bytes ≡ []) }
        ensures failed { OnErr result (HasRisen (state self.old).faults (state self.new).faults) }
        ensures err { OnErr result ((state self.new).left ≡ (state self.old).left) }
        ensures never_falls { (state self.old).faults ≤ (state self.new).faults };

    // A count fits a u64.
    ghost counted: { (source : Self) → (state source).faults < 2 ^ 64 };
}

/// A place that takes bytes in order, as standard output.
pub trait Sink {
    // The bytes that were taken, where they are told, and how many faults there were.
    ghost state: { Self → SinkState };

    /// Takes bytes from the front of `piece`, and gives their number.
    fn write(&mut self, piece: &[u8]) -> Result<usize, Failed>
        requires { 0 < length piece.now }
        ensures at_most { IfOk result (λ n. n ≤ length piece.now) }
        ensures front { IfOk result (λ n.
            Takes (state self.old) (state self.new) (take n piece.now)) }
        ensures nothing_taken { result ≡ Ok 0
            → HasRisen (state self.old).faults (state self.new).faults }
        ensures failed { OnErr result (HasRisen (state self.old).faults (state self.new).faults) }
        ensures err { OnErr result ((state self.new).taken ≡ (state self.old).taken) }
        ensures never_falls { (state self.old).faults ≤ (state self.new).faults };

    // A count fits a u64.
    ghost counted: { (sink : Self) → (state sink).faults < 2 ^ 64 };
}
