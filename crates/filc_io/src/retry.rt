//! Reads and writes of the host, made again where a signal interrupted them.

ghost use Rattle.std.specs.Prelude.{◌≡◌, ◌≤◌, take, IfOk, IfSome, vec_len};
ghost use Rattle.std.specs.Io.{ReadsAtMost, WritesAtMost};
ghost use Rattle.std.specs.Io.KnownBytes.{ReadConsumes, WriteAppends};

use crate::outside::MOST_READ;
use std::alloc::Global;
use std::io;
use std::io::{ErrorKind, Read, Write};

/// How many times a call is made at most. A signal that interrupts each of them counts as a fault.
const MOST_TRIES: u32 = 1_000;

/// One read, made again where a signal interrupted it.
pub(crate) fn read_again<R: Read>(from: &mut R, into: &mut [u8]) -> io::Result<usize>
    ensures bound { ReadsAtMost result into.new }
    ensures bytes { ReadConsumes (R.remaining from.old) (R.remaining from.new) result into.new }
{
    for _try in 1..MOST_TRIES {
        match from.read(into) {
            Err(fault) if fault.kind() == ErrorKind::Interrupted => {}
            read => return read,
        }
    }
    from.read(into)
}

/// One write, made again where a signal interrupted it.
pub(crate) fn write_again<W: Write>(to: &mut W, piece: &[u8]) -> io::Result<usize>
    ensures bound { WritesAtMost result piece.now }
    ensures bytes { WriteAppends (W.contents to.old) (W.contents to.new) result piece.now }
{
    for _try in 1..MOST_TRIES {
        match to.write(piece) {
            Err(fault) if fault.kind() == ErrorKind::Interrupted => {}
            wrote => return wrote,
        }
    }
    to.write(piece)
}

/// All bytes that a reader gives until its end, or its first [`MOST_READ`] bytes, past which nothing
/// is read. A short read isn't the end.
pub(crate) fn read_front<R: Read + Drop>(alloc: Global, from: R) -> io::Result<Vec<u8>>
    ensures bytes { IfOk result (λ front.
        IfSome (R.remaining from) (λ all. front.items ≡ take MOST_READ all)) }
    ensures limit { IfOk result (λ front. vec_len front ≤ MOST_READ) }
{
    let mut front = Vec::new(alloc);
    from.take(MOST_READ as u64).read_to_end(&mut front)?;
    front.truncate(MOST_READ);
    Ok(front)
}
