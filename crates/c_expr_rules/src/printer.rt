//! What stands in place of `printf`, and how its format is read.

/// The static object that is the output's lock, and the library's functions that put out a text, an unsigned number in a
/// radix, and a signed number.
#[derive(Clone, Copy, Debug, PartialEq, Eq)]
pub struct Printer {
    pub lock: u32,
    pub text: u32,
    pub unsigned: u32,
    pub signed: u32,
}

/// Where in a format: in its text, behind `%`, or behind `%l`.
#[derive(Clone, Copy, Debug, PartialEq, Eq)]
pub enum Mode {
    Text,
    Percent,
    Long,
}
