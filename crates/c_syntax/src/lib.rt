//! The grammar of C: its tree, and which list of tokens spells which tree.
#![tactic(auto)]

mod expr;
mod file;
pub mod laws;
mod words;

pub use c_parts::{Binding, Lexeme, Span, Terminal};
pub use expr::{
    Assertion, Core, Declarator, EnumConstant, Expr, ExprKind, Link, Member, Parameter, Pointer,
    Postfix, PostfixKind, Specifier, SpecifierKind, Specifiers, Suffix, SuffixKind, TypeName,
};
pub use file::{
    Block, BlockItem, Declaration, External, File, ForStart, Function, InitDeclarator, Initialiser,
    Statement, StatementKind, SwitchItem, Tail,
};
pub use words::{
    BasicType, FunctionSpecifier, Operator, Prefix, Qualifier, RecordKind, Storage, assigned_of,
    basic_of, function_of, operator_of, prefix_of, qualifier_of, record_of, storage_of,
};
