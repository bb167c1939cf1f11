//! The whole: tokens as the grammar sees them, and the tree that spells them.

ghost use Rattle.std.specs.Prelude.{IfErr, IfOk};
ghost use Rattle.c_parser.specs.Parse.{IsFault, IsTree};

use crate::fault::ParseFault;
use c_file_parser::{Refusal, file};
use c_lexer::Tokens;
use c_syntax::File;
use c_terminals::{lexemes, line_at};
use std::alloc::Global;

/// The tree that a token list spells (C11 6.7 to 6.9), where one of nesting at most 200 does.
///
/// Where none does, the line is that of the first token up to and with which the tokens begin none, or
/// of the one that opens more than 200 constructs; the earlier token decides, and Syntax where both are
/// one.
pub fn parse(alloc: Global, tokens: &Tokens) -> Result<File, ParseFault>
    ensures tree { IfOk result (IsTree tokens.now.bytes.items tokens.now.list.items) }
    ensures fault { IfErr result (IsFault tokens.now.bytes.items tokens.now.list.items) }
{
    let seen = lexemes(alloc, tokens)?;
    match file(alloc, &seen) {
        Ok(tree) => Ok(tree),
        Err(Refusal::Syntax(place)) => Err(ParseFault::Syntax(line_at(tokens, place))),
        Err(Refusal::Deep(place)) => Err(ParseFault::Deep(line_at(tokens, place))),
        Err(Refusal::NoMemory) => Err(ParseFault::NoMemory),
    }
}
