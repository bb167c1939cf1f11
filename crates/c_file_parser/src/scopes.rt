//! Names that come into scope.

ghost use Rattle.std.specs.Prelude.{◌≡◌, ◌<◌, OnOk, length};
ghost use Rattle.c_cursor.specs.Input.{declared, in_state};
ghost use Rattle.c_parts.specs.Scopes.{entered};
ghost use Rattle.c_syntax.specs.Values as values;

use c_cursor::Cursor;
use c_parts::Binding;
use std::alloc::AllocError;

/// A name is declared, where there is one, as the specifiers before say.
pub fn declare_name(cursor: &mut Cursor<'_>, name: Option<u32>) -> Result<(), AllocError>
    ensures { OnOk result (cursor.new ≡ in_state cursor.old
        (declared (values.named_scope cursor.old.state.typedef name) cursor.old.state)) }
{
    match name {
        None => Ok(()),
        Some(name) => {
            let is_typedef = cursor.is_typedef();
            cursor.declare(Binding { name, is_typedef })
        }
    }
}

/// A scope of its own is entered, which declares so much, the last first.
pub fn enter_with(cursor: &mut Cursor<'_>, scope: &[Binding]) -> Result<(), AllocError>
    ensures entered { OnOk result (cursor.new
        ≡ in_state cursor.old (entered scope.now cursor.old.state)) }
    ensures some { 0 < length cursor.old.state.scopes }
{
    cursor.enter()?;
    for index in (0..scope.len()).rev() {
        cursor.declare(scope[index])?;
    }
    Ok(())
}
