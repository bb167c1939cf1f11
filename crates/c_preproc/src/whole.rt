//! The whole: the balance of the groups, then the directives and the tokens between them.

ghost use Rattle.std.specs.Prelude.{◌≡◌, ◌≢◌, Some, Ok, Err, IfErr, IfOk};
ghost use Rattle.c_preproc.specs.Expansion.{with_digits, expansion_of, first_fault, is_before};

use crate::carry::carry;
use crate::fault::PreFault;
use crate::groups::unbalanced_line;
use crate::macros::Macros;
use crate::state::State;
use c_lexer::Tokens;
use std::alloc::Global;

/// The most bytes of a file, so that the place behind two bytes more is a `u32`.
const MOST_BYTES: usize = 4_294_967_293;

/// Expands a token list: carries out its directives in order, and expands macros in the other tokens.
///
/// A fault is the first by its line, and of one line Unbalanced. More than 4,294,967,293 bytes are
/// NoMemory. A macro's tokens take the line and the library flag of the name that they replace, and
/// keep whether they are the first on their line. Memory is taken for the tokens, the macros, the
/// `if`s that are open and the bytes once more, for expansions that are kept (at most two lists of
/// 4,194,304 tokens), and while a condition is worked out for its tokens and its open parts.
pub fn preprocess(alloc: Global, tokens: &Tokens) -> Result<Tokens, PreFault>
    ensures list { IfOk result (λ out. expansion_of tokens.now.bytes.items tokens.now.list.items
        ≡ Ok out.list.items) }
    ensures bytes { IfOk result (λ out. out.bytes.items ≡ with_digits tokens.now.bytes.items) }
    ensures fault { IfErr result (λ fault. fault ≢ PreFault.NoMemory
        → expansion_of tokens.now.bytes.items tokens.now.list.items ≡ Err fault) }
{
    if tokens.bytes.len() > MOST_BYTES {
        return Err(PreFault::NoMemory);
    }
    let macros = Macros::new(alloc, &tokens.bytes)?;
    let unbalanced = unbalanced_line(alloc, macros.bytes(), &tokens.list)?;
    match (carry(alloc, macros, &tokens.list), unbalanced) {
        (Ok(State { macros, out, .. }), None) => Ok(Tokens {
            list: out,
            bytes: macros.into_bytes(),
        }),
        (Ok(_), Some(line)) => Err(PreFault::Unbalanced(line)),
        (Err(fault), None) => Err(fault),
        (Err(fault), Some(line)) => Err(earlier_fault(line, fault)),
    }
}

/// Whether a fault is of an earlier line than this one; want of memory has none.
fn is_before(fault: PreFault, line: u32) -> bool
    ensures { result ≡ is_before fault line }
{
    match fault {
        PreFault::Directive(at)
        | PreFault::Header(at)
        | PreFault::Unbalanced(at)
        | PreFault::Expanded(at) => at < line,
        PreFault::NoMemory => true,
    }
}

/// The fault of the balance on this line, or another fault that is earlier.
fn earlier_fault(unbalanced: u32, fault: PreFault) -> PreFault
    ensures { first_fault (Some unbalanced) (Err fault) ≡ Err result }
{
    if is_before(fault, unbalanced) {
        fault
    } else {
        PreFault::Unbalanced(unbalanced)
    }
}
