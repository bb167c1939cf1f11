//! Writing all of a text, or a prefix of it where the sink fails.

ghost use Rattle.std.specs.Prelude.{◌≡◌, ◌<◌, ◌≤◌, length, take, IfErr, OnOk, OnErr};
ghost use Rattle.filc_io.specs.Counts.{HasRisen};
ghost use Rattle.filc_io.specs.Outside.{Takes};

use crate::outside::Sink;

/// A sink failed before it had taken all: it took the first `count` bytes.
#[derive(Clone, Copy, Debug, PartialEq, Eq)]
pub struct Wrote {
    pub count: usize,
}

/// Writes all bytes: each call offers all that is left, until nothing is left or the sink fails.
pub fn write_all_of<S: Sink>(sink: &mut S, bytes: &[u8]) -> Result<(), Wrote>
    ensures all { OnOk result (Takes (S.state sink.old) (S.state sink.new) bytes.now) }
    ensures prefix { IfErr result (λ wrote.
        Takes (S.state sink.old) (S.state sink.new) (take wrote.count bytes.now)) }
    ensures not_all { IfErr result (λ wrote. wrote.count < length bytes.now) }
    ensures failed { OnErr result (HasRisen (S.state sink.old).faults (S.state sink.new).faults) }
    ensures never_falls { (S.state sink.old).faults ≤ (S.state sink.new).faults }
{
    let mut count = 0;
    while count < bytes.len() {
        match sink.write(&bytes[count..]) {
            Ok(taken) if taken > 0 => count += taken,
            _ => return Err(Wrote { count }),
        }
    }
    Ok(())
}
