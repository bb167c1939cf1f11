//! What a file of the grammar is: a program, or the first rule that it breaks. This is the definition, with the records that
//! the code shares with it, and lists that answer by a tree what the definition asks of them.
//!
//! Read `specs/Files.antt` from its end first: what a file is, then its constructs. `specs/Specifiers.antt`,
//! `specs/Declaring.antt`, `specs/Initialising.antt`, `specs/Statements.antt` and `specs/Functions.antt` each begin with a
//! table of the rules that can hold of each construct, and their recursion is the order in which constructs are looked at.
//! `specs/Types.antt` says which types a file has, and `specs/Statics.antt` what its static objects have in the beginning.
//!
//! The crates above make what is defined here: `c_names` of names and types, `c_type_parts` and `c_type_names` of type names
//! and declarators, `c_initialisers` of initialisers, `c_objects` of static objects and of the rules of the whole,
//! `c_temporaries` counts a function's values, `c_statements` makes declarations, statements and functions, and `c_check`
//! whole files.
#![tactic(auto)]

mod cases;
mod homes;
mod jumps;
pub mod laws;
mod made;
mod member_list;
mod numbering;
mod parts;
mod rules;
mod switches;
mod targets;

pub use homes::Homes;
pub use jumps::{Inside, in_loop, in_switch};
pub use made::Made;
pub use member_list::{MemberList, MemberSeen, MembersSeen};
pub use numbering::Numbering;
pub use parts::{
    Counted, Formed, Listed, Parts, Prototype, Said, Suffixed, is_register_word, joined, no_parts,
    part_of, part_or, plain, with_declared, with_part, with_suffix,
};
pub use rules::{first_of, lowest, obey, obey_rule, when};
pub use switches::{Switched, nothing_switched, set_local};
pub use targets::{
    Given, PartAt, Target, characters_of, fill_of, first_parts, has_no_value, is_character,
    is_constant, nothing_given, part_count, part_target,
};
