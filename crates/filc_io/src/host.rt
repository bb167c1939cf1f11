//! The host's files and standard streams. Nothing is told of their bytes: this is the trusted edge.
ghost use Rattle.std.specs.Prelude.{◌≡◌, ◌≤◌, None, IfOk, vec_len};

use crate::faults::FaultCount;
use crate::outside::{Failed, FileFault, Files, MOST_READ, Sink, Source};
use crate::retry::{read_again, read_front, write_again};
use std::alloc::Global;
use std::fs::File;
use std::io;
use std::io::ErrorKind;
use std::rt::{HostRuntime, Stderr, Stdin, Stdout};

/// The host's files.
#[derive(Drop)]
pub struct HostFiles {
    runtime: HostRuntime,
    faults: FaultCount,
}

impl HostFiles {
    /// The files that the process sees.
    pub fn new(rt: &HostRuntime) -> HostFiles
        ensures { (⟦<HostFiles as Files>⟧.state result).faults ≡ 0 }
    {
        HostFiles {
            runtime: *rt,
            faults: FaultCount::zero(),
        }
    }
}

impl Files for HostFiles {
    ghost state = { λ files. record { contents = None; faults = files.faults.count } };

    ghost counted = { λ files. files.faults.in_range };

    fn read_file(&mut self, alloc: Global, name: &str) -> Result<Vec<u8>, FileFault> {
        match front_of_file(&self.runtime, alloc, name) {
            Ok(bytes) => Ok(bytes),
            Err(fault) if fault.kind() == ErrorKind::OutOfMemory => Err(FileFault::NoMemory),
            // A missing file is a failure as any other.
            Err(_) => {
                self.faults.raise();
                Err(FileFault::Failed)
            }
        }
    }
}

/// The file's bytes, or its first [`MOST_READ`] bytes.
fn front_of_file(rt: &HostRuntime, alloc: Global, name: &str) -> io::Result<Vec<u8>>
    ensures { IfOk result (λ bytes. vec_len bytes ≤ MOST_READ) }
{
    read_front(alloc, File::open(rt, name)?)
}

/// Standard input.
#[derive(Drop)]
pub struct HostSource {
    stdin: Stdin,
    faults: FaultCount,
}

impl HostSource {
    /// The process's standard input.
    pub fn new(rt: &HostRuntime) -> HostSource
        ensures { (⟦<HostSource as Source>⟧.state result).faults ≡ 0 }
    {
        HostSource {
            stdin: rt.stdin(),
            faults: FaultCount::zero(),
        }
    }
}

impl Source for HostSource {
    ghost state = { λ source. record { left = None; faults = source.faults.count } };

    ghost counted = { λ source. source.faults.in_range };

    fn read(&mut self, into: &mut [u8]) -> Result<usize, Failed> {
        match read_again(&mut self.stdin, into) {
            Ok(count) => Ok(count),
            Err(_) => {
                self.faults.raise();
                Err(Failed)
            }
        }
    }
}

/// One of the two standard streams that are written.
#[derive(Drop)]
enum Stream {
    Output(Stdout),
    Error(Stderr),
}

/// Standard output or standard error.
#[derive(Drop)]
pub struct HostSink {
    stream: Stream,
    faults: FaultCount,
}

impl HostSink {
    /// The process's standard output.
    pub fn out(rt: &HostRuntime) -> HostSink
        ensures { (⟦<HostSink as Sink>⟧.state result).faults ≡ 0 }
    {
        HostSink {
            stream: Stream::Output(rt.stdout()),
            faults: FaultCount::zero(),
        }
    }

    /// The process's standard error.
    pub fn err(rt: &HostRuntime) -> HostSink
        ensures { (⟦<HostSink as Sink>⟧.state result).faults ≡ 0 }
    {
        HostSink {
            stream: Stream::Error(rt.stderr()),
            faults: FaultCount::zero(),
        }
    }
}

impl Sink for HostSink {
    ghost state = { λ sink. record { taken = None; faults = sink.faults.count } };

    ghost counted = { λ sink. sink.faults.in_range };

    fn write(&mut self, piece: &[u8]) -> Result<usize, Failed> {
        let wrote = match &mut self.stream {
            Stream::Output(out) => write_again(out, piece),
            Stream::Error(err) => write_again(err, piece),
        };
        match wrote {
            Ok(count) if count > 0 => Ok(count),
            Ok(_) => {
                self.faults.raise();
                Ok(0)
            }
            Err(_) => {
                self.faults.raise();
                Err(Failed)
            }
        }
    }
}
