//! The objects in memory with failing calls and short writes, streams that a signal interrupts, and each
//! object of the host once.

ghost use Rattle.std.specs.Prelude.{◌≤◌, IfOk};

use crate::outside::{FileFault, Files, MOST_READ, Sink, Source};
use crate::retry::{read_again, read_front, write_again};
use crate::{
    Failed, HostFiles, HostSink, HostSource, MemFiles, MemSink, MemSource, Wrote, write_all_of,
};
use std::io;
use std::io::{ErrorKind, Read, Write};
use std::test::Fail;

/// What a call of a stream of the system comes to.
#[derive(Clone, Copy)]
enum Call {
    /// A signal interrupts it.
    Interrupted,
    /// It fails.
    Fails,
    /// So many bytes are given or taken, as far as there is room for them.
    Moves(usize),
}

/// A stream whose calls go as listed, and from then on all in one way.
#[derive(Drop)]
struct Scripted<'a> {
    calls: &'a [Call],
    rest: Call,
}

impl Scripted<'_> {
    /// The next call on so many bytes.
    fn next(&mut self, room: usize) -> io::Result<usize>
        ensures { IfOk result (λ n. n ≤ room) }
    {
        let mut call = self.rest;
        if let [first, calls @ ..] = self.calls {
            call = *first;
            self.calls = calls;
        }
        match call {
            Call::Interrupted => Err(io::Error::from(ErrorKind::Interrupted)),
            Call::Fails => Err(io::Error::from(ErrorKind::BrokenPipe)),
            Call::Moves(count) => Ok(count.min(room)),
        }
    }
}

impl Read for Scripted<'_> {
    fn read(&mut self, into: &mut [u8]) -> io::Result<usize> {
        self.next(into.len())
    }
}

impl Write for Scripted<'_> {
    fn write(&mut self, piece: &[u8]) -> io::Result<usize> {
        self.next(piece.len())
    }

    fn flush(&mut self) -> io::Result<()> {
        Ok(())
    }
}

#[test]
fn a_read_goes_on_after_a_signal(rt: HostRuntime) -> Result<(), Fail> {
    // name, the calls, those after them, how many bytes the front of a file has
    for (name, calls, rest, front) in [
        (
            "a short read isn't the end",
            [Call::Moves(2), Call::Moves(1)].as_slice(),
            Call::Moves(0),
            Some(3),
        ),
        (
            "a signal before and behind a byte",
            [Call::Interrupted, Call::Moves(1), Call::Interrupted].as_slice(),
            Call::Moves(0),
            Some(1),
        ),
        (
            "a fault behind a byte",
            [Call::Moves(1)].as_slice(),
            Call::Fails,
            None,
        ),
        (
            "no end",
            [].as_slice(),
            Call::Moves(100_000),
            Some(MOST_READ),
        ),
    ] {
        let read = read_front(rt.alloc(), Scripted { calls, rest });
        assert_eq!(rt; read.ok().map(|bytes| bytes.len()), front, "{name}");
    }
    Ok(())
}

#[test]
fn one_call_is_tried_again_a_thousand_times(rt: HostRuntime) {
    // name, the calls, those after them, how many bytes are moved
    for (name, calls, rest, moved) in [
        (
            "a signal",
            [Call::Interrupted].as_slice(),
            Call::Moves(2),
            Some(2),
        ),
        ("a fault", [].as_slice(), Call::Fails, None),
        (
            "a signal, and then a fault",
            [Call::Interrupted, Call::Fails].as_slice(),
            Call::Moves(2),
            None,
        ),
        (
            "999 signals",
            [Call::Interrupted; 999].as_slice(),
            Call::Moves(2),
            Some(2),
        ),
        ("no end of signals", [].as_slice(), Call::Interrupted, None),
    ] {
        let read = read_again(&mut Scripted { calls, rest }, &mut [0; 3]);
        assert_eq!(rt; read.ok(), moved, "{name}");
        let wrote = write_again(&mut Scripted { calls, rest }, b"abc");
        assert_eq!(rt; wrote.ok(), moved, "{name}");
    }
}

#[test]
fn a_text_is_written_whole_or_as_a_prefix(rt: HostRuntime) -> Result<(), Fail> {
    // name, room, most, failing calls, what is answered, what was taken
    for (name, room, most, fails, answer, taken) in [
        (
            "in one call, before call 1",
            6,
            9,
            [1].as_slice(),
            Ok(()),
            "hello!",
        ),
        ("in three calls", 9, 2, [3].as_slice(), Ok(()), "hello!"),
        ("the first call fails", 9, 9, [0].as_slice(), Err(0), ""),
        ("the second call fails", 9, 2, [1].as_slice(), Err(2), "he"),
        ("the third call fails", 9, 2, [2].as_slice(), Err(4), "hell"),
        ("the room is full", 3, 2, [].as_slice(), Err(3), "hel"),
        ("there is no room", 0, 2, [].as_slice(), Err(0), ""),
    ] {
        assert!(rt; most > 0);
        let mut sink = MemSink::new(rt.alloc(), room, most, fails)?;
        let wrote = write_all_of(&mut sink, b"hello!");
        assert_eq!(rt; wrote, answer.map_err(|count| Wrote { count }), "{name}");
        assert_eq!(rt; sink.bytes(), taken.as_bytes(), "{name}");
    }
    Ok(())
}

#[test]
fn a_source_gives_its_bytes_in_order(rt: HostRuntime) -> Result<(), Fail> {
    let mut source = MemSource::new(rt.alloc(), b"abcde", 3, &[1])?;
    let mut into = [0; 4];
    assert_eq!(rt; source.read(&mut into), Ok(3));
    assert_eq!(rt; into.as_slice(), b"abc\0".as_slice());
    assert_eq!(rt; source.read(&mut into), Err(Failed));
    assert_eq!(rt; source.read(&mut into[..1]), Ok(1));
    assert_eq!(rt; into.as_slice(), b"dbc\0".as_slice());
    assert_eq!(rt; source.read(&mut into), Ok(1));
    assert_eq!(rt; into.as_slice(), b"ebc\0".as_slice());
    assert_eq!(rt; source.read(&mut into), Ok(0));
    Ok(())
}

#[test]
fn a_file_is_read_by_its_name(rt: HostRuntime) -> Result<(), Fail> {
    let alloc = rt.alloc();
    let mut files = MemFiles::new(alloc, &[2])?;
    files.add("a.c", b"int a;")?;
    files.add("b.c", b"int b;")?;
    files.add("a.c", b"int c;")?;
    files.add("long.c", vec![in alloc; 0; MOST_READ + 1]?.as_slice())?;
    assert_eq!(rt;
        files.read_file(alloc, "a.c"),
        Ok(Vec::from_slice(alloc, b"int c;")?)
    );
    assert_eq!(rt; files.read_file(alloc, "c.c"), Err(FileFault::Missing));
    assert_eq!(rt; files.read_file(alloc, "b.c"), Err(FileFault::Failed));
    assert_eq!(rt;
        files.read_file(alloc, "b.c"),
        Ok(Vec::from_slice(alloc, b"int b;")?)
    );
    assert_eq!(rt;
        files.read_file(alloc, "long.c").map(|v| v.len()),
        Ok(MOST_READ)
    );
    Ok(())
}

#[test]
fn the_host_gives_and_takes(rt: HostRuntime) -> Result<(), Fail> {
    let alloc = rt.alloc();
    let mut files = HostFiles::new(&rt);
    assert_eq!(rt;
        files.read_file(alloc, "no/such/file.c"),
        Err(FileFault::Failed)
    );
    assert_eq!(rt;
        files.read_file(alloc, "."),
        Err(FileFault::Failed),
        "a directory"
    );
    assert_eq!(rt; files.read_file(alloc, "/dev/null"), Ok(Vec::new(alloc)));
    assert_eq!(rt;
        files.read_file(alloc, "/dev/zero").map(|v| v.len()),
        Ok(MOST_READ)
    );
    assert!(rt; HostSource::new(&rt).read(&mut [0; 4]).is_ok());
    assert_eq!(rt; HostSink::out(&rt).write(b"\n"), Ok(1));
    assert_eq!(rt; write_all_of(&mut HostSink::err(&rt), b"a text\n"), Ok(()));
    Ok(())
}
