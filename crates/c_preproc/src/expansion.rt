//! Expansions, one behind another, up to the limit and never beyond it: a file of a few lines can't take all memory.

ghost use Rattle.std.specs.Prelude.{◌≡◌};
ghost use Rattle.c_preproc.specs.Expansion.{with_expansion, with_expansions};
ghost use Rattle.c_preproc.specs.Outcomes.{Gives};

use crate::expander::Fit;
use crate::fault::PreFault;
use crate::macros::Macros;
use c_lexer::Token;

/// Appends what the token expands to.
pub fn append_expansion(
    macros: &mut Macros,
    token: Token,
    out: &mut Vec<Token>,
) -> Result<(), PreFault>
    ensures same { macros.new ≡ macros.old }
    ensures list { Gives (with_expansion macros.old token out.old.items)
        (λ _. out.new.items) result }
{
    match macros.expand(token, out)? {
        Fit::Fits => Ok(()),
        Fit::TooMany => Err(PreFault::Expanded(token.line)),
    }
}

/// Appends what the tokens expand to.
pub fn append_expansions(
    macros: &mut Macros,
    tokens: &[Token],
    out: &mut Vec<Token>,
) -> Result<(), PreFault>
    ensures same { macros.new ≡ macros.old }
    ensures list { Gives (with_expansions macros.old tokens.now out.old.items)
        (λ _. out.new.items) result }
{
    for token in tokens {
        append_expansion(macros, *token, out)?;
    }
    Ok(())
}
