//! A list of tokens that is a file, read to its End.

ghost use Rattle.std.specs.Prelude.{◌≡◌, ◌^◌, ◌<◌, length, IfOk, IfErr};
ghost use Rattle.c_cursor.specs.Input.{start_of};
ghost use Rattle.c_syntax.specs.Spelling.{Spells, files, most_nesting};
ghost use Rattle.c_expr_parser.specs.Refusals.{IsRight};

use crate::files::whole_file;
use crate::nodes::refusal_at;
use c_cursor::Cursor;
use c_expr_parser::Refusal;
use c_parts::Lexeme;
use c_syntax::File;
use std::alloc::Global;

/// How many constructs may be open at once.
const MOST_NESTING: u32 = 200;

/// The file that tokens spell, the End among them. Where they spell none, the refused token is the first up
/// to and with which they begin none, or the one that opens more than may be open; the earlier decides, and
/// Syntax where both are one.
pub fn file(alloc: Global, tokens: &[Lexeme]) -> Result<File, Refusal>
    requires { length tokens.now < 2 ^ 32 }
    ensures spelled { IfOk result (λ file.
        Spells files most_nesting (start_of tokens.now) tokens.now file) }
    ensures refused { IfErr result (IsRight files (start_of tokens.now) tokens.now) }
{
    let mut cursor = Cursor::new(alloc, tokens);
    let read = whole_file(alloc, &mut cursor, MOST_NESTING);
    let remaining = cursor.remaining();
    let place = tokens.len().saturating_sub(remaining);
    match read {
        Ok(file) => {
            if remaining == 0 {
                Ok(file)
            } else {
                Err(Refusal::Syntax(place))
            }
        }
        Err(fault) => Err(refusal_at(fault, place)),
    }
}
