//! A whole file: the declaration of `putchar`, where there is one, and `main`.

ghost use Rattle.std.specs.Prelude.{◌≡◌, ◌≤◌, ◌<◌, ℕ, [], ◌∷◌, List, length, IfOk, Err, IsTrue, true, false};
ghost use Rattle.form_tree.specs.declared.stmt.Stmt.TheVariants.{Block};
ghost use Rattle.form_tree.specs.Fits.{StmtFits};
ghost use Rattle.form_tree.specs.Plain.{PlainProgram, plain_program};
ghost use Rattle.form_tree.specs.Temps.{values_of};
ghost use Rattle.form_reader.specs.declared.form.ReadFault.TheVariants.{NotForm};
ghost use Rattle.form_reader.specs.Lexemes.{Lexeme, Mark};
ghost use Rattle.form_reader.specs.Form.{HasForm, IsMain, main_of};
ghost use Rattle.form_reader.specs.Reading.{IsJust};

use crate::declared::{Declared, declarations};
use crate::form::{
    HEAD, INTRO, MOST_BYTES, MOST_NESTING, MOST_VALUES, ReadFault, takes_all, takes_mark,
};
use crate::lexemes::Tokens;
use crate::statements::statements;
use form_tree::{FunctionDef, Program, Stmt, statement_temps};
use sqlite_items::Items;
use std::alloc::Global;

/// The program of `main` alone.
fn program_of(
    alloc: Global,
    line: u32,
    declared: Declared<'_>,
    body: Items<Stmt>,
) -> Result<Program, ReadFault>
    requires few { length declared.names ≤ 256 }
    requires fits { StmtFits (length declared.names) (Block declared.locals body) }
    ensures made { IfOk result (λ program. program ≡ plain_program (main_of line (length declared.entry.names) declared.entry.locals body ∷ []) 0) }
    ensures values { IfOk result (λ _. values_of (main_of line (length declared.entry.names) declared.entry.locals body) ≤ MOST_VALUES) }
    ensures refused { result ≡ Err NotForm → MOST_VALUES < values_of (main_of line (length declared.entry.names) declared.entry.locals body) }
{
    let locals = declared.names().len() as u32;
    let main = FunctionDef {
        line,
        locals,
        body: Stmt::Block {
            locals: declared.into_locals(),
            body,
        },
    };
    if locals + statement_temps(&main.body) + 8 > MOST_VALUES {
        return Err(ReadFault::NotForm);
    }
    let mut functions = Vec::new(alloc);
    functions.push(main)?;
    Ok(Program::new(functions, 0))
}

/// Whether a brace ends the file.
fn ends(tokens: &mut Tokens<'_>) -> bool
    ensures yes { IsTrue result → (line : ℕ) × (tokens.old ≡ Mark 125 line ∷ []) }
    ensures no { result ≡ false → (line : ℕ) → tokens.old ≡ Mark 125 line ∷ [] → ⊥ }
{
    takes_mark(tokens, b'}') && tokens.next().is_none()
}

/// `main`, to the end of the file.
fn main_function(
    alloc: Global,
    tokens: &mut Tokens<'_>,
    putchar: bool,
) -> Result<Program, ReadFault>
    ensures found { IfOk result (λ program. IsMain putchar program tokens.old) }
    ensures only { (program : PlainProgram) → IsMain putchar program tokens.old → IsJust result program }
{
    let line = tokens.line();
    if !takes_all(tokens, &HEAD) {
        return Err(ReadFault::NotForm);
    }
    let declared = declarations(alloc, tokens)?;
    let body = statements(alloc, tokens, declared.names(), putchar, MOST_NESTING - 1)?;
    if !ends(tokens) {
        return Err(ReadFault::NotForm);
    }
    program_of(alloc, line, declared, body)
}

/// The program of a file: the one that the file spells, and no other.
pub fn read(alloc: Global, file: &[u8]) -> Result<Program, ReadFault>
    ensures found { IfOk result (λ program. HasForm file.now program) }
    ensures only { (program : PlainProgram) → HasForm file.now program → IsJust result program }
{
    if file.len() > MOST_BYTES {
        return Err(ReadFault::NotForm);
    }
    let mut tokens = Tokens::new(file);
    if takes_all(&mut tokens, &INTRO) {
        return main_function(alloc, &mut tokens, true);
    }
    let mut whole = Tokens::new(file);
    main_function(alloc, &mut whole, false)
}
