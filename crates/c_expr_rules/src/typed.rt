//! A typed expression: its type, the place that it names where it names one, its tree, and what is known of it.

ghost use Rattle.std.specs.Prelude.{◌≡◌};
ghost use Rattle.c_expr_rules.specs.TypedExpressions.{value, kind_value, constant};

use crate::known::Known;
use crate::made::{Made, leaf};
use bitflags::Flags;
use c_tree::{Expr, Operation};
use c_types::{CType, Qualifiers};
use filc_num::CIntType;
use sqlite_items::Items;
use std::alloc::Global;

/// What an expression names.
#[derive(Clone, Copy, Debug, PartialEq, Eq)]
pub enum Place {
    /// Nothing: the tree gives its value. Of a structure or union that is the address of the object that has it.
    Value,
    /// A local without a home, of the type of this number.
    InLocal {
        local: u32,
        number: u32,
        is_register: bool,
    },
    /// An object whose address the tree gives, of the type of this number.
    InMemory {
        number: u32,
        is_register: bool,
    },
    /// A member of a structure that is no place: it lies in the object that the structure comes from (C11 6.2.4p8).
    InValue {
        number: u32,
        is_register: bool,
    },
    /// What a pointer to void points to, by the number of that type (C11 6.5.3.2p1).
    VoidAt(u32),
    /// A function of the type of this number, by its own number where it is named.
    Designator {
        function: Option<u32>,
        number: u32,
    },
}

/// A typed expression. `line` is that of its first token, without parentheses round it.
#[derive(Drop)]
pub struct Typed {
    pub ty: CType,
    /// The qualifiers of a place.
    pub quals: Qualifiers,
    pub place: Place,
    pub line: u32,
    pub made: Made,
    pub known: Known,
    /// Whether it is `(void *)0`.
    pub is_null: bool,
    /// Whether it is a pointer to an element of a register array, or a structure that comes from a register object.
    pub of_register: bool,
}

/// The operands of `&&` or `||` so far, what is known of them together, and whether what they give is a scalar.
#[derive(Drop)]
pub struct Tests {
    pub operands: Items<Expr>,
    pub known: Known,
    pub is_scalar: bool,
}

/// A value that names no place.
pub fn value(ty: CType, line: u32, made: Made, known: Known) -> Typed
    ensures { result ≡ value ty line made known }
{
    Typed {
        ty,
        quals: Qualifiers::empty(),
        place: Place::Value,
        line,
        made,
        known,
        is_null: false,
        of_register: false,
    }
}

/// A value that may be a part of a register object.
pub fn part_value(ty: CType, line: u32, made: Made, known: Known, of_register: bool) -> Typed
    ensures { result
        ≡ record (value ty line made known) { of_register = of_register } }
{
    Typed {
        ty,
        quals: Qualifiers::empty(),
        place: Place::Value,
        line,
        made,
        known,
        is_null: false,
        of_register,
    }
}

/// A value of an integer type.
pub fn kind_value(kind: CIntType, line: u32, made: Made, known: Known) -> Typed
    ensures { result ≡ kind_value kind line made known }
{
    value(CType::Integer(kind), line, made, known)
}

/// An integer constant.
pub fn constant(alloc: Global, kind: CIntType, line: u32, number: u64) -> Typed
    ensures { result ≡ constant kind line number }
{
    let made = leaf(alloc, line, Operation::Number(number));
    kind_value(kind, line, made, Known::Integer(number))
}
