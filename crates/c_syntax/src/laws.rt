//! Laws of the grammar, as contracts of functions that do nothing.

ghost use Rattle.c_syntax.specs.Spelling.{expressions, files, HaveOneTree, SpelledBegin, PrefixesBegin, NestingGrows};

/// A list of tokens is at most one expression, however deep it nests.
pub fn expressions_have_one_tree()
    ensures { HaveOneTree expressions }
{}

/// A list that is an expression is a viable prefix.
pub fn expressions_begin()
    ensures { SpelledBegin expressions }
{}

/// What begins a viable prefix of an expression is one.
pub fn prefixes_begin()
    ensures { PrefixesBegin expressions }
{}

/// What is an expression is one where more constructs may be open.
pub fn nesting_grows()
    ensures { NestingGrows expressions }
{}

/// A list of tokens is at most one file, however deep it nests.
pub fn files_have_one_tree()
    ensures { HaveOneTree files }
{}

/// A list that is a file is a viable prefix.
pub fn files_begin()
    ensures { SpelledBegin files }
{}

/// What begins a viable prefix of a file is one.
pub fn file_prefixes_begin()
    ensures { PrefixesBegin files }
{}

/// What is a file is one where more constructs may be open.
pub fn file_nesting_grows()
    ensures { NestingGrows files }
{}
