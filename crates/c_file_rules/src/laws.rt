//! Laws of whole files: the contracts of functions that do nothing.

ghost use Rattle.c_file_rules.specs.Laws.{FilesHaveOneAnswer, TablesKeepTypes};

/// A file isn't both a program and refused, and is refused by one rule at one line.
pub fn files_have_one_answer()
    ensures { FilesHaveOneAnswer }
{}

/// A table of types keeps what it has, and the types that are made in it are those that their words, lists and
/// declarators say.
pub fn tables_keep_types()
    ensures { TablesKeepTypes }
{}
