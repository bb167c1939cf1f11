//! The program `filc`: the host's words, files and streams for the one call.
#![tactic(auto)]

use filc_io::{HostFiles, HostSink, HostSource};
use filc_top::{Ending, filc, status_of, write_line};
use std::env;
use std::env::Args;
use std::io::ErrorKind;
use std::process::ExitCode;

fn main(rt: HostRuntime) -> ExitCode {
    let mut err = HostSink::err(&rt);
    let ending = match env::args(&rt) {
        Ok(words) => call(&rt, words, &mut err),
        Err(fault) if fault.kind() == ErrorKind::OutOfMemory => end_before_call(
            &mut err,
            Ending::NoMemory,
        ),
        Err(_) => end_before_call(&mut err, Ending::Usage),
    };
    ExitCode::from(status_of(&ending))
}

/// Writes the line of an ending that comes before the call.
fn end_before_call(err: &mut HostSink, ending: Ending) -> Ending {
    let _written = write_line(err, &ending);
    ending
}

/// The call, on the words after the program's name.
fn call(rt: &HostRuntime, mut words: Args, err: &mut HostSink) -> Ending {
    let _program = words.next();
    let mut arguments = Vec::new(rt.alloc());
    for word in words {
        if arguments.push(word).is_err() {
            return end_before_call(err, Ending::NoMemory);
        }
    }
    let mut texts = Vec::new(rt.alloc());
    for word in &arguments {
        if texts.push(word.as_str()).is_err() {
            return end_before_call(err, Ending::NoMemory);
        }
    }
    let mut files = HostFiles::new(rt);
    let mut input = HostSource::new(rt);
    let mut out = HostSink::out(rt);
    filc(rt.alloc(), &texts, &mut files, &mut input, &mut out, err)
}
