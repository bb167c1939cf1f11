//! The constants of enumerations (C11 6.7.2.2).

ghost use Rattle.std.specs.Prelude.{◌≡◌, ◌||◌, OnOk};
ghost use Rattle.c_expr_rules.specs.Views.{seen_state, Passes, Grows};
ghost use Rattle.c_names.specs.Code.{here_at};
ghost use Rattle.c_type_parts.specs.Lists.{constant_with};
ghost use Rattle.c_file_rules.specs.Tags.{after_constant, counted_constant, enum_found};

use crate::tags::{declare_tag, tag_declared, tag_rule};
use c_expr_rules::{Fault, State, Surroundings};
use c_file_rules::{Counted, Parts, lowest, obey, part_or, when, with_part};
use c_names::{Scene, declare, new_type};
use c_rules::Rule;
use c_tree::Declared;
use c_types::Tag;
use filc_num::{IntType, convert};

/// The value behind the greatest that an int has.
const BEHIND_INT: u64 = 2_147_483_648;

/// A constant without an expression, whose name is the construct. Behind the greatest int none is
/// left.
pub fn counted_constant<S: Surroundings>(
    scene: &Scene<'_, S>,
    state: &mut State,
    line: u32,
    name: u32,
    counted: Counted,
) -> Result<Counted, Fault>
    ensures found { let here = here_at scene.now.facts.now (S.told scene.now.around.now) in
        Passes (seen_state state.new) result
        (counted_constant here line name (seen_state state.old) counted) }
    ensures grows { OnOk result (Grows state.old state.new) }
{
    let what = Declared::Constant(counted.value);
    let is_again = declare(state, scene.around.spelling(name), what)?;
    let rules = [
        (Rule::DeclaredAgain, is_again),
        (Rule::BadConstant, counted.value == BEHIND_INT),
    ];
    let next = Counted {
        value: counted.value.wrapping_add(1),
        is_again: counted.is_again,
    };
    obey(line, &rules, next)
}

/// What is counted behind a constant of this value.
fn next_counted(counted: Counted, value: u64, is_again: bool) -> Counted
    ensures { result
        ≡ record { value = after_constant value; is_again = counted.is_again || is_again } }
{
    Counted {
        value: value.wrapping_add(1),
        is_again: counted.is_again || is_again,
    }
}

/// A constant whose expression has this value.
pub fn valued_constant<S: Surroundings>(
    scene: &Scene<'_, S>,
    state: &mut State,
    name: u32,
    counted: Counted,
    value: u64,
) -> Result<Counted, Fault>
    ensures found { let here = here_at scene.now.facts.now (S.told scene.now.around.now) in
        Passes (seen_state state.new) result
        (constant_with here name (seen_state state.old) counted value) }
    ensures grows { OnOk result (Grows state.old state.new) }
{
    let kept = convert(value, IntType::I32);
    let is_again = declare(state, scene.around.spelling(name), Declared::Constant(kept))?;
    Ok(next_counted(counted, kept, is_again))
}

/// An enumeration at the end of its list, which declares its tag (C11 6.7.2.3p3).
pub fn enum_found<S: Surroundings>(
    scene: &Scene<'_, S>,
    state: &mut State,
    tag: Option<u32>,
    parts: Parts,
    counted: Counted,
) -> Result<Parts, Fault>
    ensures found { let here = here_at scene.now.facts.now (S.told scene.now.around.now) in
        Passes (seen_state state.new) result
        (enum_found here tag parts (seen_state state.old) counted) }
    ensures grows { OnOk result (Grows state.old state.new) }
{
    let broken = lowest(
        when(counted.is_again, Rule::DeclaredAgain),
        tag_rule(scene, state, Tag::Enumeration, tag),
    );
    let number = new_type(&mut state.types, Tag::Enumeration)?;
    declare_tag(
        scene,
        state,
        tag,
        tag_declared(Tag::Enumeration, number, true),
    )?;
    Ok(with_part(true, part_or(broken, number), parts))
}
