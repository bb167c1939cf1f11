//! Why a file has no list of tokens.

use thiserror::Error;

/// Why a file gave no tokens. A line is counted from 1, and is the one where the fault begins.
#[derive(Clone, Copy, Debug, PartialEq, Eq, Error)]
pub enum LexFault {
    /// A byte that begins no token, or a name that begins with `__filc_`.
    #[error("bad character at line {0}")]
    Bad(u32),
    /// A text or a character constant that reaches the end of its line, or a comment that
    /// reaches the end of the file.
    #[error("unclosed at line {0}")]
    Unclosed(u32),
    /// A number that is none or that no type holds, an escape that is none or is over 255, or a
    /// character constant that isn't one character.
    #[error("bad literal at line {0}")]
    Literal(u32),
    /// The file has more than 1,048,576 bytes.
    #[error("file too long")]
    TooLong,
    /// No memory for the tokens. It says nothing of the file.
    #[error("no memory")]
    NoMemory,
}
