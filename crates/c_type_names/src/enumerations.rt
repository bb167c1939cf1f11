//! Enumerations among specifiers, with the expressions of their constants.

ghost use Rattle.std.specs.Prelude.{false, OnOk};
ghost use Rattle.c_expr_rules.specs.Views.{seen_state, Passes, Grows};
ghost use Rattle.c_names.specs.Code.{here_at};
ghost use Rattle.c_type_parts.specs.Lists.{constant_list, constant_element, enumeration_found};

use crate::expressions::constant_value;
use c_check_expr::constant_in;
use c_expr_rules::{Fault, State, Surroundings};
use c_file_rules::{Counted, Parts};
use c_names::Scene;
use c_syntax::EnumConstant;
use c_type_parts::{counted_constant, enum_found, tag_alone, valued_constant};
use c_types::Tag;
use sqlite_items::Items;

/// A constant.
fn constant_found<S: Surroundings>(
    scene: &Scene<'_, S>,
    state: &mut State,
    counted: Counted,
    constant: &EnumConstant,
) -> Result<Counted, Fault>
    requires { S.fit scene.now.around.now }
    ensures found { let here = here_at scene.now.facts.now (S.told scene.now.around.now) in
        Passes (seen_state state.new) result
        (constant_element here (seen_state state.old) counted constant.now) }
    ensures grows { OnOk result (Grows state.old state.new) }
{
    let Some(value) = &constant.value else {
        let line = constant.span.line;
        return counted_constant(scene, state, line, constant.name, counted);
    };
    let typed = constant_value(scene, state, value)?;
    match constant_in(typed.known) {
        None => Ok(counted),
        Some(value) => valued_constant(scene, state, constant.name, counted, value),
    }
}

/// The constants of an enumeration.
pub fn constants_found<S: Surroundings>(
    scene: &Scene<'_, S>,
    state: &mut State,
    constants: &[EnumConstant],
) -> Result<Counted, Fault>
    requires { S.fit scene.now.around.now }
    ensures found { let here = here_at scene.now.facts.now (S.told scene.now.around.now) in
        Passes (seen_state state.new) result (constant_list here (seen_state state.old)
        (record { value = 0; is_again = false }) constants.now) }
    ensures grows { OnOk result (Grows state.old state.new) }
{
    let mut counted = Counted {
        value: 0,
        is_again: false,
    };
    'constants: for constant in constants {
        counted = constant_found(scene, state, counted, constant)?;
    }
    Ok(counted)
}

/// An enumeration among specifiers, by its tag alone or with its constants.
pub fn enumeration<S: Surroundings>(
    scene: &Scene<'_, S>,
    state: &mut State,
    tag: Option<u32>,
    constants: &Option<Items<EnumConstant>>,
    parts: Parts,
) -> Result<Parts, Fault>
    requires { S.fit scene.now.around.now }
    ensures found { let here = here_at scene.now.facts.now (S.told scene.now.around.now) in
        Passes (seen_state state.new) result
        (enumeration_found here (seen_state state.old) parts tag constants.now) }
    ensures grows { OnOk result (Grows state.old state.new) }
{
    match constants {
        None => Ok(tag_alone(scene, state, false, Tag::Enumeration, tag, parts)?),
        Some(constants) => {
            let counted = constants_found(scene, state, constants.as_slice())?;
            enum_found(scene, state, tag, parts, counted)
        }
    }
}
