//! The line of an ending, on standard error. It takes no memory, so that want of memory has its line too.

ghost use Rattle.std.specs.Prelude.{◌≡◌, ◌≤◌, ◌++◌, map};
ghost use Rattle.filc_top.specs.Endings.{at_line, line_of};
ghost use Rattle.filc_top.specs.Writing.{Writes, concat};

use crate::ending::Ending;
use filc_io::{Failed, Sink, write_all_of};

/// Writes the line of an ending.
pub fn write_line<E: Sink>(err: &mut E, ending: &Ending) -> Result<(), Failed>
    ensures { Writes (E.state err.old) (E.state err.new) (line_of ending.now) result }
{
    match ending {
        Ending::Exited(_) | Ending::Listed | Ending::WriteFault => write_text(err, b""),
        Ending::Usage => write_text(
            err,
            b"filc: usage: run, threads, check or code FILE, or demo N\n",
        ),
        Ending::ReadFault => write_text(err, b"filc: read fault\n"),
        Ending::NoMemory => write_text(err, b"filc: no memory\n"),
        Ending::InputLimit => write_text(err, b"filc: input too long\n"),
        Ending::Deadlock => write_text(err, b"filc: deadlock\n"),
        Ending::Spent => write_text(err, b"filc: turns spent\n"),
        Ending::Refused(refusal) => {
            let text = refusal.kind.text().as_bytes();
            write_at_line(err, b"filc: refused: ", text, refusal.line)
        }
        Ending::Trapped(reason, line) => {
            write_at_line(err, b"filc: trap: ", reason.text().as_bytes(), *line)
        }
    }
}

/// Writes a line that names a line of the file.
fn write_at_line<E: Sink>(err: &mut E, start: &[u8], text: &[u8], line: u32) -> Result<(), Failed>
    ensures { Writes (E.state err.old) (E.state err.new)
        (start.now ++ at_line text.now line) result }
{
    let mut buffer = itoa::Buffer::new();
    let digits = buffer.format(line).as_bytes();
    write_pieces(err, &[start, text, b" at line ", digits, b"\n"])
}

/// Writes pieces, one after another.
fn write_pieces<E: Sink>(err: &mut E, pieces: &[&[u8]]) -> Result<(), Failed>
    ensures { Writes (E.state err.old) (E.state err.new)
        (concat (map (λ piece. piece.now) pieces.now)) result }
{
    for piece in pieces {
        match write_all_of(err, piece) {
            Ok(()) => {}
            Err(_) => return Err(Failed),
        }
    }
    Ok(())
}

/// Writes a text.
fn write_text<E: Sink>(err: &mut E, text: &[u8]) -> Result<(), Failed>
    ensures { Writes (E.state err.old) (E.state err.new) text.now result }
{
    match write_all_of(err, text) {
        Ok(()) => Ok(()),
        Err(_) => Err(Failed),
    }
}
