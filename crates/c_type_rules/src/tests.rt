//! Types by hand, and what C says of qualifiers, `_Atomic` and members of them.

use super::*;
use bitflags::Flags;
use c_rules::Rule;
use c_types::{CType, Derivation, ElementCount, Entry, Form, Part, Qualifiers, Tag, Types};
use filc_num::CIntType;
use std::test::Fail;

/// `int`, by its number.
fn int_in(types: &mut Types) -> Result<Part, Fail> {
    let int = Part {
        number: types.integer_type(CIntType::Int)?,
        qualifiers: Qualifiers::empty(),
    };
    if !types.is_part(int) {
        return Err("no int".into());
    }
    Ok(int)
}

/// Two of these.
fn two_of(types: &mut Types, part: Part) -> Result<Part, Fail> {
    if !types.is_part(part) {
        return Err("no part".into());
    }
    match types.derive(part, Derivation::Array(ElementCount { value: 2 })) {
        Ok(array) => Ok(array),
        Err(_) => Err("no array".into()),
    }
}

/// The elements of an array.
fn elements(types: &Types, array: Part) -> Result<Part, Fail> {
    match types.get(array.number) {
        Some(Entry::OfType(CType::ArrayOf(array))) => Ok(array.element),
        _ => Err("no array".into()),
    }
}

/// `typedef int T[2][2]; const T x;`: two times two of `const int`. A second `const` changes nothing.
#[test]
fn const_beside_an_array_is_its_innermost_elements(rt: HostRuntime) -> Result<(), Fail> {
    let mut types = Types::new(rt.alloc());
    let int = int_in(&mut types)?;
    let row = two_of(&mut types, int)?;
    let table = two_of(&mut types, row)?;
    if !types.is_part(table) {
        return Err("no table".into());
    }
    let constant = qualify(rt.alloc(), &mut types, table, Qualifiers::CONST)?;
    assert!(rt; constant.qualifiers.is_empty());
    let inner = elements(&types, constant)?;
    assert!(rt; inner.qualifiers.is_empty());
    let innermost = elements(&types, inner)?;
    assert_eq!(rt; innermost.number, int.number);
    assert_eq!(rt; innermost.qualifiers, Qualifiers::CONST);
    if !types.is_part(constant) {
        return Err("no constant".into());
    }
    let again = qualify(rt.alloc(), &mut types, constant, Qualifiers::CONST)?;
    assert_eq!(rt; again, constant);
    Ok(())
}

/// `_Atomic(int)` is one, and `_Atomic(int[2])` and `_Atomic(void)` aren't.
#[test]
fn scalars_may_be_atomic(rt: HostRuntime) -> Result<(), Fail> {
    let mut types = Types::new(rt.alloc());
    let int = int_in(&mut types)?;
    let row = two_of(&mut types, int)?;
    let made = atomic_type(&types, int);
    assert_eq!(rt; made.map(|part| part.qualifiers), Ok(Qualifiers::ATOMIC));
    assert_eq!(rt; atomic_type(&types, row), Err(Rule::BadAtomic));
    assert_eq!(rt;
        rule_of_set(CType::Void, Qualifiers::ATOMIC),
        Some(Rule::BadAtomic)
    );
    assert_eq!(rt; rule_of_set(CType::Void, Qualifiers::CONST), None);
    Ok(())
}

/// `{ char c; int i; }` has 8 bytes; a structure without contents is no member.
#[test]
fn members_by_their_types(rt: HostRuntime) -> Result<(), Fail> {
    let mut types = Types::new(rt.alloc());
    let int = int_in(&mut types)?;
    let char = Part {
        number: types.integer_type(CIntType::Char)?,
        qualifiers: Qualifiers::empty(),
    };
    let Ok(layout) = layout_of_members(rt.alloc(), &types, Form::Structure, &[char, int]) else {
        return Err("no layout".into());
    };
    assert_eq!(rt; layout.offsets.as_slice(), [0, 4].as_slice());
    assert_eq!(rt; layout.size, 8);
    let open = types.declare(Tag::Structure)?;
    let structure = CType::Structure(open, None);
    assert_eq!(rt; rule_of_member(structure), Some(Rule::IncompleteType));
    assert_eq!(rt; rule_of_member(CType::Pointer(int)), None);
    Ok(())
}
