//! Where code stands in a text, and where its value comes.

ghost use Rattle.std.specs.Prelude.{◌≡◌};
ghost use Rattle.expr_emit.specs.Place.{place_at};

/// What code is of, and where its value comes.
#[derive(Clone, Copy, Debug, PartialEq, Eq)]
pub struct Place {
    /// Whether its text is a library header's.
    pub library: bool,
    /// The text's line.
    pub line: u32,
    /// The register of its value, and of its first operand. The registers behind its operands are free.
    pub t: u32,
}

/// The place of code of a line with its value in t.
pub fn place_of(library: bool, line: u32, t: u32) -> Place
    ensures { result ≡ place_at library line t }
{
    Place { library, line, t }
}
