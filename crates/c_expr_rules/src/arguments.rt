//! The arguments of a call, and what its parameters want of them.

ghost use Rattle.std.specs.Prelude.{◌≡◌, reverse, IfOk};

use crate::typed::Typed;
use sqlite_items::Items;
use std::alloc::{AllocError, Global};

/// What the next argument is converted to.
#[derive(Clone, Copy, Debug, PartialEq, Eq)]
pub enum Wanted {
    /// Nothing: what is called has no parameters that are known.
    Anything,
    /// The first of a list of parameters, by the list's number.
    Listed(u32),
    /// Nothing: there are no further parameters.
    Past,
}

/// The arguments' values, and what would be wanted behind them.
#[derive(Drop)]
pub struct Arguments {
    pub values: Items<Typed>,
    pub wanted: Wanted,
}

/// These values, the last one first: so they are taken one by one.
pub fn last_first(alloc: Global, values: Items<Typed>) -> Result<Vec<Typed>, AllocError>
    ensures { IfOk result (λ v. v.items ≡ reverse values) }
{
    let mut pending = values;
    let mut reversed = Vec::new(alloc);
    'values: while let Some(typed) = pending.pop() {
        reversed.push(typed)?;
    }
    Ok(reversed)
}

/// These values, the first one first.
pub fn first_first(alloc: Global, values: Items<Typed>) -> Result<Vec<Typed>, AllocError>
    ensures { IfOk result (λ v. v.items ≡ values) }
{
    let mut ordered = last_first(alloc, values)?;
    ordered.reverse();
    Ok(ordered)
}
