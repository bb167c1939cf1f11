//! The pass over the bytes: the longest match at the front, then the rest.
//!
//! The file is copied once without its splices. Then each front is read where the one before it
//! ended, and a cursor follows in the file itself and counts its lines, so each byte is looked at a
//! fixed number of times, and no memory is taken but for the copy and the tokens.

ghost use Rattle.std.specs.Prelude.{◌≡◌, ◌≢◌, ◌↔◌, ◌+◌, ◌<◌, ◌≤◌, ◌^◌, length, true, false, IfOk, IfErr, OnOk, IsTrue, [], ◌∷◌, ◌++◌};
ghost use Rattle.std.specs.Result.{IsErrOf};
ghost use Rattle.c_lexer.specs.List.{all_within, ends_once};
ghost use Rattle.c_lexer.specs.Law.{IsCutInto};
ghost use Rattle.c_lexer.specs.Source.{without_splices, lines_of};
ghost use Rattle.c_lexer.specs.Tokens.{tokens_of, library_tokens_of, token_at, tokens_with, tokens_from, file_limit};

use crate::fault::LexFault;
use crate::front::{Front, read_front};
use crate::source::{Cursor, last_line, without_splices};
use crate::token::{Origin, Token, TokenKind};
use crate::tokens::Tokens;
use std::alloc::Global;

/// The most bytes that a file may have.
const FILE_LIMIT: usize = 1_048_576;

/// Gives the tokens of a user's file, or its first fault.
///
/// A fault has the line of the first place where no token stands. A file of more than 1,048,576
/// bytes is not looked at. Memory is taken for the tokens, and for the file once more.
pub fn lex(alloc: Global, file: &[u8]) -> Result<Tokens, LexFault>
    ensures list { IfOk result (λ tokens. tokens_of file.now ≡ Ok tokens.list.items) }
    ensures bytes { IfOk result (λ tokens. tokens.bytes.items ≡ without_splices file.now) }
    ensures cut { IfOk result (λ tokens. IsCutInto 0 tokens.bytes.items tokens.list.items) }
    ensures too_long { IsErrOf result LexFault.TooLong ↔ (file_limit < length file.now) }
    ensures fault { IfErr result (λ fault. fault ≢ LexFault.NoMemory → tokens_of file.now
        ≡ Err fault) }
{
    let user = Origin {
        line: 1,
        library: false,
    };
    lex_from(alloc, user, file)
}

/// Gives the tokens of a header of the library that stands at a line of a user's file, or its first
/// fault. Names may begin with `__filc_`. Each token and each fault has that line.
pub fn lex_library(alloc: Global, text: &[u8], line: u32) -> Result<Tokens, LexFault>
    ensures list { IfOk result (λ tokens. library_tokens_of line text.now ≡ Ok tokens.list.items) }
    ensures bytes { IfOk result (λ tokens. tokens.bytes.items ≡ without_splices text.now) }
    ensures cut { IfOk result (λ tokens. IsCutInto 0 tokens.bytes.items tokens.list.items) }
    ensures too_long { IsErrOf result LexFault.TooLong ↔ (file_limit < length text.now) }
    ensures fault { IfErr result (λ fault. fault ≢ LexFault.NoMemory
        → library_tokens_of line text.now ≡ Err fault) }
{
    let header = Origin {
        line,
        library: true,
    };
    lex_from(alloc, header, text)
}

/// Gives the tokens of the bytes that come from there, or their first fault.
fn lex_from(alloc: Global, origin: Origin, file: &[u8]) -> Result<Tokens, LexFault>
    requires { origin.library ≡ false → origin.line ≤ 1 }
    ensures list { IfOk result (λ tokens. tokens_with origin file.now ≡ Ok tokens.list.items) }
    ensures bytes { IfOk result (λ tokens. tokens.bytes.items ≡ without_splices file.now) }
    ensures cut { IfOk result (λ tokens. IsCutInto 0 tokens.bytes.items tokens.list.items) }
    ensures too_long { IsErrOf result LexFault.TooLong ↔ (file_limit < length file.now) }
    ensures fault { IfErr result (λ fault. fault ≢ LexFault.NoMemory → tokens_with origin file.now
        ≡ Err fault) }
{
    if file.len() > FILE_LIMIT {
        return Err(LexFault::TooLong);
    }
    let last = last_line(origin, file);
    let Ok(bytes) = without_splices(alloc, file) else {
        return Err(LexFault::NoMemory);
    };
    let list = scan(alloc, origin, last, file, &bytes)?;
    Ok(Tokens { list, bytes })
}

/// Cuts the bytes of the file without its splices into tokens, where `last` is the line of the end.
fn scan(
    alloc: Global,
    origin: Origin,
    last: u32,
    file: &[u8],
    bytes: &[u8],
) -> Result<Vec<Token>, LexFault>
    requires bytes { bytes.now ≡ without_splices file.now }
    requires room { origin.library ≡ false → origin.line + length file.now < 2 ^ 32 }
    requires small { length bytes.now < 2 ^ 32 }
    ensures list { IfOk result
        (λ list. tokens_from origin.library last (lines_of origin.library origin.line file.now) 0 true 0 bytes.now ≡ Ok list.items) }
    ensures cut { IfOk result (λ list. IsCutInto 0 bytes.now list.items) }
    ensures within { IfOk result (λ list. IsTrue (all_within (length bytes.now) list.items)) }
    ensures ends { IfOk result (λ list. IsTrue (ends_once list.items)) }
    ensures not_too_long { IfErr result (λ fault. fault ≢ LexFault.TooLong) }
    ensures fault { IfErr result (λ fault. fault ≢ LexFault.NoMemory
        → tokens_from origin.library last (lines_of origin.library origin.line file.now) 0 true 0 bytes.now ≡ Err fault) }
{
    let mut list = Vec::new(alloc);
    let mut cursor = Cursor::at_start(origin, file);
    let mut first = true;
    let mut at = 0;
    while at < bytes.len() {
        cursor = cursor.forward(origin, file, at);
        let line = cursor.line;
        let (_, text) = bytes.split_at(at);
        match read_front(origin.library, text) {
            Front::LineEnd => {
                first = true;
                at += 1;
            }
            Front::Blank(more) => at += 1 + more,
            Front::Token(kind, more) => {
                let token = token_at(origin, line, first, kind, at, at + 1 + more);
                append(&mut list, token)?;
                first = false;
                at += 1 + more;
            }
            Front::Bad => return Err(LexFault::Bad(line)),
            Front::Unclosed => return Err(LexFault::Unclosed(line)),
            Front::Literal => return Err(LexFault::Literal(line)),
        }
    }
    let end = token_at(origin, last, first, TokenKind::End, at, at);
    append(&mut list, end)?;
    Ok(list)
}

/// The token from `start` to `end`.
fn token_at(
    origin: Origin,
    line: u32,
    first: bool,
    kind: TokenKind,
    start: usize,
    end: usize,
) -> Token
    requires start { start < 2 ^ 32 }
    requires end { end < 2 ^ 32 }
    ensures { result ≡ token_at origin.library line first kind start end }
{
    Token {
        kind,
        line,
        start: start as u32,
        end: end as u32,
        first,
        library: origin.library,
    }
}

fn append(list: &mut Vec<Token>, token: Token) -> Result<(), LexFault>
    ensures ok { OnOk result (list.new.items ≡ list.old.items ++ token ∷ []) }
    ensures fault { IfErr result (λ fault. fault ≡ LexFault.NoMemory) }
{
    match list.push(token) {
        Ok(()) => Ok(()),
        Err(_) => Err(LexFault::NoMemory),
    }
}
