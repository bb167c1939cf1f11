//! The headers of the library.

ghost use Rattle.std.specs.Prelude.{◌≡◌, ◌≢◌, IfSome, IfNone};
ghost use Rattle.c_prelude.specs.Texts.{name_of, text_of};
ghost use Rattle.c_prelude.specs.declared.header.Header.{Header};

use crate::texts::{limits, stdbool, stddef, stdint, stdio, stdlib, string};

/// A header of the library.
#[derive(Clone, Copy, Debug, PartialEq, Eq)]
pub enum Header {
    /// Common definitions (C11 7.19), and the copy that the other headers make of bytes.
    StdDef,
    /// Integer types of a width (C11 7.20).
    StdInt,
    /// The ranges of the integer types (C11 5.2.4.2.1).
    Limits,
    /// The Boolean type (C11 7.18).
    StdBool,
    /// Memory, the end of a run, absolute values (C11 7.22).
    StdLib,
    /// Bytes and strings (C11 7.24).
    String,
    /// Output and input (C11 7.21).
    StdIo,
}

/// All headers.
pub const HEADERS: [Header; 7] = [
    Header::StdDef,
    Header::StdInt,
    Header::Limits,
    Header::StdBool,
    Header::StdLib,
    Header::String,
    Header::StdIo,
];

impl Header {
    /// The name that stands between `<` and `>`.
    #[tactic(auto, unfolding(crate::specs::Texts::name_of))]
    pub fn name(self) -> &'static [u8]
        ensures { result.now ≡ name_of self }
    {
        match self {
            Header::StdDef => b"stddef.h",
            Header::StdInt => b"stdint.h",
            Header::Limits => b"limits.h",
            Header::StdBool => b"stdbool.h",
            Header::StdLib => b"stdlib.h",
            Header::String => b"string.h",
            Header::StdIo => b"stdio.h",
        }
    }

    /// The text, in bytes.
    #[tactic(auto, unfolding(crate::specs::Texts::text_of))]
    pub fn text(self) -> &'static [u8]
        ensures { result.now ≡ text_of self }
    {
        match self {
            Header::StdDef => stddef(),
            Header::StdInt => stdint(),
            Header::Limits => limits(),
            Header::StdBool => stdbool(),
            Header::StdLib => stdlib(),
            Header::String => string(),
            Header::StdIo => stdio(),
        }
    }
}

/// The header that has this name, if one has.
fn header_with_name(name: &[u8]) -> Option<Header>
    ensures found { IfSome result (λ header. name_of header ≡ name.now) }
    ensures none { IfNone result ((header : Header) → name_of header ≢ name.now) }
{
    if name == Header::StdDef.name() {
        Some(Header::StdDef)
    } else if name == Header::StdInt.name() {
        Some(Header::StdInt)
    } else if name == Header::Limits.name() {
        Some(Header::Limits)
    } else if name == Header::StdBool.name() {
        Some(Header::StdBool)
    } else if name == Header::StdLib.name() {
        Some(Header::StdLib)
    } else if name == Header::String.name() {
        Some(Header::String)
    } else if name == Header::StdIo.name() {
        Some(Header::StdIo)
    } else {
        None
    }
}

/// The text of the header that stands as `<name>` in an include, in bytes; None exactly where no header
/// of the library has the name.
pub fn header_text(name: &[u8]) -> Option<&'static [u8]>
    ensures text { IfSome result (λ text. (header : Header)
        × (name_of header ≡ name.now) × (text.now ≡ text_of header)) }
    ensures none { IfNone result ((header : Header) → name_of header ≢ name.now) }
{
    let header = header_with_name(name)?;
    Some(header.text())
}
