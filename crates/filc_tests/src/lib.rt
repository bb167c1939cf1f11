//! Whole calls of `filc`, as tables: words and a file go in, an ending and bytes come out.
#![tactic(auto)]

#[cfg(test)]
mod calls;
#[cfg(test)]
mod checks;
#[cfg(test)]
mod prefixes;
