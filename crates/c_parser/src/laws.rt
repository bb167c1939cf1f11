//! Laws of the definition alone.

ghost use Rattle.c_parser.specs.Parse.{RefusalsAreOne};

use c_syntax::laws::file_prefixes_begin;

/// A list is refused for one reason and at one token: no other of both fits the definition.
pub fn refusals_are_one()
    ensures { RefusalsAreOne }
{
    file_prefixes_begin();
}
