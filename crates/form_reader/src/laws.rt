//! A law of the form. It is the contract of a function that does nothing.

ghost use Rattle.std.specs.Prelude.{◌≡◌, ℕ, List};
ghost use Rattle.form_tree.specs.Plain.{PlainProgram};
ghost use Rattle.form_reader.specs.Form.{HasForm};

/// A file is of at most one program.
pub fn a_file_is_of_one_program()
    ensures { (file : List ℕ) (program other : PlainProgram) → HasForm file program
        → HasForm file other → program ≡ other }
{}
