//! Names and types of a file: what a declaration makes a name stand for, its linkage, one type made by one call on the table
//! of types, the functions that are one operation each, and what is told of a file and of a function.
#![tactic(auto)]

mod beginning;
mod facts;
mod in_function;
mod linkages;
mod making;
mod naming;
mod operations;
mod printing;
mod scene;

pub use beginning::{start, thread_type};
pub use facts::{Facts, Kinds, facts_of};
pub use in_function::InFunction;
pub use linkages::{
    add_static, behind, function_linkage, is_local, is_main_function, is_of_file, is_typedef_word,
    line_of, may_be_initialised, object_definition, object_linkage, static_of, target_of,
};
pub use making::{
    adjusted, char_array, complete_once, counted, derived, may_derive, new_type, parameter_list,
    qualified, rule_of_derivations, type_rule, with_type,
};
pub use naming::{
    declare, enter, enter_with, is_again, is_again_by_any_type, is_linked, leave, look_up_linked,
    look_up_tag, look_up_tag_here, names_here,
};
pub use operations::{is_int_to_int, operation_at};
pub use printing::printer_in;
pub use scene::Scene;
