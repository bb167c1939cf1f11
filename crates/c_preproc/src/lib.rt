//! Preprocessing: the lines of a token list that begin with `#` are carried out, and macros are
//! expanded in the others.
//!
//! Read `specs/Expansion.antt` first: `expansion_of` is the list that is left, or the first fault, and
//! `preprocess` is proved to give it. It goes as follows.
//!
//! 1. Balance (`groups.rt`). The directives are walked by nesting alone, since an `if` without its end
//!    stands before each fault behind it: without this walk its line would be known too late.
//! 2. Blocks (`carry.rt`). What is left of the list begins with a directive, which has its line, or with
//!    another token. Each is taken in its turn, and changes the macros and the open `if`s, or the list.
//! 3. A directive (`directives.rt`, `names.rt`, `conditionals.rt`). In a group that isn't active only
//!    nesting counts.
//! 4. A condition (`condition.rt`). Each `defined` is decided first, since a macro would hide the name, and
//!    is a number from then on; then macros are expanded, and the value of what is left is worked out
//!    with a stack of its own (`condition_reader.rt`).
//! 5. Another token (`expander.rt`, over the table of `macros.rt`). Its expansion is put behind the list,
//!    up to the limit and never beyond it, so a file of a few lines can't take all memory.
//! 6. The first fault (`whole.rt`), of the balance or of what was carried out.
//!
//! No step calls itself by depth: a chain of macros and the nesting of a condition are as long as a
//! file. A header's tokens would go through `carry_tokens`, which goes on from any state; until the
//! headers are there, each `include` is a fault.
//!
//! `specs/Law.antt` says what preprocessing is apart from how the definition goes, and `laws` are proved.
//! `proofs/Rows.antt` has files whose expansions were worked out by hand, which the checker computes.
#![tactic(auto)]

mod carry;
mod condition;
mod condition_item;
mod condition_reader;
mod condition_value;
mod conditionals;
mod directives;
mod expander;
mod expansion;
mod fault;
mod groups;
pub mod laws;
mod macros;
mod name_filter;
mod names;
mod state;
mod texts;
mod whole;

pub use fault::PreFault;
pub use whole::preprocess;
