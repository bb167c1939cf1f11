//! The types of C: what they are, their sizes and alignments, and where the members of a structure lie.
//!
//! A type is a small value that names its parts by number, so a type that a file nests a million deep is a
//! million small values in one list. Read `specs/Sizes.antt`, `specs/Layouts.antt` and `specs/Tables.antt` first.
#![tactic(auto)]

mod ctype;
mod derivation;
mod derive;
mod entry;
pub mod laws;
mod layouts;
mod members;
mod qualifier_set;
mod rule;
mod sizes;
mod table;

pub use ctype::{
    Array, CType, ElementCount, Extent, MOST_OBJECT_BYTES, Part, Signature, TypeFault,
};
pub use derivation::{Derivation, Shape, lowest_of, lowest_rule_of};
pub use entry::{Entry, Tag};
pub use layouts::{Form, Layout, LayoutFault};
pub use members::{layout, union_layout};
pub use qualifier_set::Qualifiers;
pub use rule::{DeriveFault, TypeRule};
pub use sizes::{align_of, extent_of, size_of};
pub use table::Types;
