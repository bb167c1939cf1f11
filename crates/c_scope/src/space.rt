//! Name spaces, and what the calls on them refuse.

/// A name space (C11 6.2.3). Members are names of their structure or union alone.
#[derive(Clone, Copy, Debug, PartialEq, Eq)]
pub enum Space {
    Ordinary,
    Tag,
}

/// No visible declaration has the name.
#[derive(Clone, Copy, Debug, PartialEq, Eq)]
pub struct Unknown;

/// Why a name wasn't declared.
#[derive(Clone, Copy, Debug, PartialEq, Eq)]
pub enum DeclareFault {
    /// It is declared already, and the two declarations may not stand together.
    Again,
    NoMemory,
}
