//! The file without its splices, and a cursor that tells the line of each byte.

ghost use Rattle.std.specs.Prelude.{◌≡◌, ◌+◌, ◌<◌, ◌^◌, false, length, slice_index, IfOk, vec_len, ◌≤◌};
ghost use Rattle.std.specs.Prelude.{◌==◌};
ghost use Rattle.std.specs.Bool.{OnTrue};
ghost use Rattle.std.specs.List.{count_by};
ghost use Rattle.c_lexer.specs.Classes.{line_feed};
ghost use Rattle.c_lexer.specs.Source.{splice_at, is_splice, lines_ended, without_splices, lines_of, last_line_of};
ghost use Rattle.c_lexer.specs.Cursor.{Reaches, IsAt};

use crate::token::Origin;
use std::alloc::{AllocError, Global};

/// A byte of the file without its splices: its number there, its place in the file, and its line.
#[derive(Clone, Copy)]
pub struct Cursor {
    pub byte: usize,
    pub place: usize,
    pub line: u32,
}

fn is_splice(a: u8, b: u8) -> bool
    ensures { result ≡ is_splice a b }
{
    a == b'\\' && b == b'\n'
}

fn lines_ended(library: bool, b: u8) -> u32
    ensures value { result ≡ lines_ended library b }
    ensures small { result ≤ 1 }
{
    if !library && b == b'\n' { 1 } else { 0 }
}

/// A splice stands at this place.
fn splice_at(file: &[u8], at: usize) -> bool
    requires { at ≤ length file.now }
    ensures value { result ≡ splice_at file.now at }
    ensures room { OnTrue result (at + 2 ≤ length file.now) }
{
    at + 1 < file.len() && is_splice(file[at], file[at + 1])
}

/// The file without its splices.
pub fn without_splices(alloc: Global, file: &[u8]) -> Result<Vec<u8>, AllocError>
    ensures bytes { IfOk result (λ bytes. bytes.items ≡ without_splices file.now) }
    ensures small { IfOk result (λ bytes. vec_len bytes ≤ length file.now) }
{
    let mut bytes = Vec::with_capacity(alloc, file.len())?;
    let mut at = 0;
    while at < file.len() {
        if splice_at(file, at) {
            at += 2;
        } else {
            bytes.push(file[at])?;
            at += 1;
        }
    }
    Ok(bytes)
}

impl Cursor {
    /// Stands at the first byte.
    pub fn at_start(origin: Origin, file: &[u8]) -> Cursor
        requires { origin.library ≡ false → origin.line + length file.now < 2 ^ 32 }
        ensures at { IsAt origin file.now result }
        ensures byte { result.byte ≡ 0 }
    {
        let start = Cursor {
            byte: 0,
            place: 0,
            line: origin.line,
        };
        start.behind_splices(origin, file)
    }

    /// Goes on to the byte of this number, or to the end.
    pub fn forward(self, origin: Origin, file: &[u8], to: usize) -> Cursor
        requires from { IsAt origin file.now self }
        requires on { self.byte ≤ to }
        requires within { to ≤ length (without_splices file.now) }
        ensures at { IsAt origin file.now result }
        ensures byte { result.byte ≡ to }
        ensures line { to < length (without_splices file.now) → result.line
            ≡ slice_index (lines_of origin.library origin.line file.now) to }
    {
        let mut cursor = self;
        while cursor.byte < to {
            let behind = cursor.behind_byte(origin, file);
            cursor = behind.behind_splices(origin, file);
        }
        cursor
    }

    /// Passes over the byte that stands there.
    fn behind_byte(self, origin: Origin, file: &[u8]) -> Cursor
        requires from { IsAt origin file.now self }
        requires within { self.byte < length (without_splices file.now) }
        ensures on { Reaches origin file.now result }
        ensures byte { result.byte ≡ self.byte + 1 }
    {
        Cursor {
            byte: self.byte + 1,
            place: self.place + 1,
            line: self.line + lines_ended(origin.library, file[self.place]),
        }
    }

    /// Passes over the splices that stand there.
    fn behind_splices(self, origin: Origin, file: &[u8]) -> Cursor
        requires from { Reaches origin file.now self }
        ensures at { IsAt origin file.now result }
        ensures byte { result.byte ≡ self.byte }
    {
        let mut cursor = self;
        while splice_at(file, cursor.place) {
            cursor.line += lines_ended(origin.library, b'\n');
            cursor.place += 2;
        }
        cursor
    }
}

/// The line of the last byte of the file, and of its first where it is empty.
pub fn last_line(origin: Origin, file: &[u8]) -> u32
    requires { origin.library ≡ false → origin.line + length file.now < 2 ^ 32 }
    ensures { result ≡ last_line_of origin.library origin.line file.now }
{
    if origin.library || file.is_empty() {
        return origin.line;
    }
    let (before, _) = file.split_at(file.len() - 1);
    origin.line + line_feeds(before)
}

fn line_feeds(bytes: &[u8]) -> u32
    requires { length bytes.now < 2 ^ 32 }
    ensures value { result ≡ count_by (λ b. b == line_feed) bytes.now }
    ensures small { result ≤ length bytes.now }
{
    bytes.iter().filter(|b| **b == b'\n').count() as u32
}
