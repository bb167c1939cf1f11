//! Laws of layouts and of declarators. Each is the contract of a function that does nothing.

ghost use Rattle.std.specs.Prelude.{◌≡◌, ℕ, List, Some, None, IfOk, slice_get, slice_set};
ghost use Rattle.c_types.specs.declared.ctype.Extent.{Extent};
ghost use Rattle.c_types.specs.declared.entry.Entry.TheVariants.{OfType};
ghost use Rattle.c_types.specs.declared.entry.Tag.{Tag};
ghost use Rattle.c_types.specs.Tables.{tag_type};
ghost use Rattle.c_types.specs.Whole.{KeepsTypes};
ghost use Rattle.c_types.specs.declared.ctype.Part.{Part};
ghost use Rattle.c_types.specs.declared.derivation.Derivation.{Derivation};
ghost use Rattle.c_types.specs.Declarators.{IsDerived, IsParameterList, SamePart};
ghost use Rattle.c_types.specs.Layouts.{layout_of};
ghost use Rattle.c_types.specs.LayoutLaws.{IsStructureLayout, IsUnionLayout};

use crate::ctype::CType;
use crate::layouts::Form;
use crate::table::Types;

/// The members of a structure lie in order, each at the next multiple of its alignment. No two overlap,
/// and the size is the least that holds them.
pub fn structures_hold_their_members_apart(members: &[CType])
    ensures { IfOk (layout_of Form.Structure members.now) (IsStructureLayout members.now) }
{}

/// The members of a union lie at 0, and the size is the least that holds the greatest of them.
pub fn unions_hold_their_greatest_member(members: &[CType])
    ensures { IfOk (layout_of Form.Union members.now) (IsUnionLayout members.now) }
{}

/// A declarator has one type: what its derivations make of a base type has one number, and one only.
pub fn declarators_have_one_type(types: &Types)
    ensures { (base p q : Part) (derivations : List Derivation) → IsDerived types.now base derivations p
        → IsDerived types.now base derivations q → SamePart p q }
{
    let _ = types.len();
}

/// A list of parameters has one number, and a number is that of one list.
pub fn parameter_lists_have_one_number(types: &Types)
    ensures one { (list : List ℕ) (m n : ℕ) → IsParameterList types.now list m
        → IsParameterList types.now list n → m ≡ n }
    ensures only { (list other : List ℕ) (n : ℕ) → IsParameterList types.now list n
        → IsParameterList types.now other n → list ≡ other }
{
    let _ = types.len();
}

/// A structure or union that gets its contents keeps each type, each list of parameters and each part that was made
/// before.
pub fn completion_keeps_types(types: &Types)
    ensures { (tag : Tag) (n : ℕ) (contents : Extent)
        → slice_get types.now n ≡ Some (OfType (tag_type tag n None))
        → KeepsTypes types.now (slice_set types.now n (OfType (tag_type tag n (Some contents)))) }
{
    let _ = types.len();
}
