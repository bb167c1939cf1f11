//! A token, and its kind.

/// What a token is.
#[derive(Clone, Copy, Debug, PartialEq, Eq)]
pub enum TokenKind {
    /// A letter or `_`, then letters, digits and `_`. Keywords are names.
    Name,
    /// An integer constant. `read_number` gives its value and type.
    Number,
    /// A character constant. `read_character` gives its value.
    Character,
    /// A string literal. `read_text` gives its bytes.
    Text,
    /// An operator or a separator.
    Punct,
    /// The end of the file, and of the list.
    End,
}

/// A token, by where it stands.
#[derive(Clone, Copy, Debug, PartialEq, Eq)]
pub struct Token {
    pub kind: TokenKind,
    /// The line of its first byte in the file, from 1. The end has the line of the file's last byte,
    /// and 1 in an empty file. In a header of the library, the line where the header stands.
    pub line: u32,
    /// Its text is the bytes from `start` to `end`, in the file without its splices.
    pub start: u32,
    pub end: u32,
    /// No token stands before it on its line. Line feeds in comments and splices end no line.
    pub first: bool,
    /// It comes from a header of the library.
    pub library: bool,
}

/// Where bytes come from: the line of the first, and whether they are a header of the library.
/// A header has that one line throughout, and may use names that begin with `__filc_`.
#[derive(Clone, Copy)]
pub struct Origin {
    pub line: u32,
    pub library: bool,
}
