//! A law of the table of type specifiers: the contract of a function that does nothing.

ghost use Rattle.std.specs.Prelude.{IsTrue};
ghost use Rattle.c_specifiers.specs.Specifiers.{are_apart, all_rows};

/// No two rows of the table have the same words, so a list names one type, in whatever order the rows stand.
pub fn rows_have_different_words()
    ensures { IsTrue (are_apart all_rows) }
{}
