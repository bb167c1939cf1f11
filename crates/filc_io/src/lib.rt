//! The outside of filc: files that are read, a source of input, and sinks for output.
//!
//! The three traits are the only doors of a run. Each says what it gives or takes where its bytes
//! are told, and each has a count of faults that never falls, so that a fault can be traced to the
//! object that was handed in. Objects in memory tell all their bytes and fail at stated calls. The
//! host's objects are a few lines over the runtime, tell nothing, and are the trusted edge.
//!
//! Read `specs/Outside.antt` and `specs/Counts.antt` first.
#![tactic(auto)]

mod faults;
mod host;
mod mem_files;
mod mem_sink;
mod mem_source;
mod outages;
mod outside;
mod retry;
#[cfg(test)]
mod tests;
mod write_all;

pub use host::{HostFiles, HostSink, HostSource};
pub use mem_files::MemFiles;
pub use mem_sink::MemSink;
pub use mem_source::MemSource;
pub use outside::{Failed, FileFault, Files, MOST_READ, Sink, Source};
pub use write_all::{Wrote, write_all_of};
