//! What a declarator declares: an object, a function or a typedef, and where it is placed (C11 6.2.2, 6.7, 6.9.2).

ghost use Rattle.std.specs.Prelude.{◌≡◌, not, [], ◌∷◌, IfOk, OnOk};
ghost use Rattle.c_expr_rules.specs.Outcomes.{◌breaks◌, first_broken};
ghost use Rattle.c_expr_rules.specs.Views.{seen_state, Grows};
ghost use Rattle.c_names.specs.Code.{here_at};
ghost use Rattle.c_file_rules.specs.Constructs.{number_in};
ghost use Rattle.c_file_rules.specs.Functions.{merged};
ghost use Rattle.c_file_rules.specs.Declaring as declaring;
ghost use Rattle.c_file_rules.specs.Declarators.{size_number};
ghost use Rattle.c_file_rules.specs.Declaring.{size_rules, object_number, declared_object, declared_function, thing_declared, what_declared, is_bad_main, local_kind};
ghost use Rattle.c_statements.specs.Stated.{IsOfSize, name_rules, name_again, object_behind};

use c_expr_rules::{State, Surroundings, always_has_home, size_or_zero, type_at};
use c_file_rules::{is_register_word, when};
use c_names::{
    Scene, add_static, behind, function_linkage, is_again_by_any_type, is_int_to_int, is_linked,
    is_local, is_main_function, is_of_file, is_typedef_word, look_up_linked, object_definition,
    object_linkage, static_of,
};
use c_rules::Rule;
use c_specifiers::Standing;
use c_syntax::Storage;
use c_tree::{Declared, DeclaredFunction, DeclaredObject, LocalDef, LocalKind, ObjectNumber};
use c_type_parts::{is_function, makes_function, size_rule};
use c_types::{Derivation, Part};
use std::alloc::AllocError;

/// A declarator among those of a declaration: where the declaration stands, its storage class, the declarator's line and
/// the name that it declares, and whether it has an initialiser or a body.
#[derive(Clone, Copy, Debug, PartialEq, Eq)]
pub struct Heading {
    pub standing: Standing,
    pub storage: Option<Storage>,
    pub line: u32,
    pub name: u32,
    pub is_given: bool,
}

/// The rule that an object of this type breaks, which has to have a size; nothing else has to.
pub fn size_rule_of(state: &State, what: Declared, part: Part) -> Option<Rule>
    ensures rules { size_rules what (seen_state state.now) part ≡ size_number result }
    ensures low { IsOfSize result }
{
    match what {
        Declared::Object(_) => size_rule(state, part),
        Declared::Function(_) | Declared::Typedef(_) | Declared::Constant(_) | Declared::Tag(_) =>
            None,
    }
}

/// The first rule that a declared name breaks: it is declared again, its object has no size, or it is a bad `main`.
pub fn name_rule(is_again: bool, sizeless: Option<Rule>, is_bad_main: bool) -> Option<Rule>
    ensures { number_in result
        ≡ first_broken (name_rules is_again (size_number sizeless) is_bad_main) }
{
    if is_again {
        return Some(Rule::DeclaredAgain);
    }
    match sizeless {
        Some(rule) => Some(rule),
        None => when(is_bad_main, Rule::BadMain),
    }
}

/// The rule of what is declared before a body, and is no function by a list of parameters of its own, or a bad `main`.
fn body_or_main(is_listed: bool, is_bad_main: bool) -> Option<Rule>
    ensures { number_in result
        ≡ first_broken (7 breaks not is_listed ∷ 33 breaks is_bad_main ∷ []) }
{
    if is_listed {
        when(is_bad_main, Rule::BadMain)
    } else {
        Some(Rule::BadFunctionType)
    }
}

/// The same before a body, where the declarator has to have a list of parameters of its own (C11 6.9.1p2).
pub fn body_rule(
    is_again: bool,
    sizeless: Option<Rule>,
    is_listed: bool,
    is_bad_main: bool,
) -> Option<Rule>
    requires { IsOfSize sizeless }
    ensures { number_in result ≡ first_broken (merged
        (name_rules is_again (size_number sizeless) is_bad_main) (7 breaks not is_listed)) }
{
    if is_again {
        return Some(Rule::DeclaredAgain);
    }
    match sizeless {
        Some(rule) => Some(rule),
        None => body_or_main(is_listed, is_bad_main),
    }
}

/// The number of an object.
fn object_number<S: Surroundings>(
    scene: &Scene<'_, S>,
    state: &State,
    heading: &Heading,
) -> ObjectNumber
    ensures { let here = here_at scene.now.facts.now (S.told scene.now.around.now) in
        result ≡ object_number here heading.now.standing heading.now.storage
        heading.now.name (seen_state state.now) }
{
    if is_local(heading.standing, heading.storage) {
        return ObjectNumber::Local(state.next_local);
    }
    if !is_linked(object_linkage(heading.standing, heading.storage)) {
        return ObjectNumber::Static(state.next_static);
    }
    let before = look_up_linked(state, scene.around.spelling(heading.name));
    ObjectNumber::Static(static_of(state.next_static, before))
}

/// An object of this type.
fn declared_object<S: Surroundings>(
    scene: &Scene<'_, S>,
    state: &State,
    heading: &Heading,
    part: Part,
) -> Declared
    ensures { let here = here_at scene.now.facts.now (S.told scene.now.around.now) in
        result ≡ declared_object here heading.now.standing heading.now.line
        heading.now.storage heading.now.is_given heading.now.name
        (seen_state state.now) part }
{
    let (standing, storage) = (heading.standing, heading.storage);
    Declared::Object(DeclaredObject {
        line: heading.line,
        ty: part,
        number: object_number(scene, state, heading),
        linkage: object_linkage(standing, storage),
        is_register: is_register_word(storage),
        definition: object_definition(standing, storage, heading.is_given),
    })
}

/// A function of this type, which may have its body here.
fn declared_function<S: Surroundings>(
    scene: &Scene<'_, S>,
    state: &State,
    heading: &Heading,
    part: Part,
) -> Result<Declared, AllocError>
    ensures { let here = here_at scene.now.facts.now (S.told scene.now.around.now) in
        IfOk result (λ what. what ≡ declared_function here heading.now.line
        heading.now.storage heading.now.is_given heading.now.name
        (seen_state state.now) part) }
{
    let takes_and_gives_int = is_int_to_int(state, type_at(state, part.number));
    let number = scene.function_number(takes_and_gives_int, heading.name)?;
    Ok(Declared::Function(DeclaredFunction {
        line: heading.line,
        ty: part.number,
        number,
        linkage: function_linkage(heading.storage),
        is_defined: heading.is_given,
    }))
}

/// What a name is to stand for, as a function or none.
pub fn thing_declared<S: Surroundings>(
    scene: &Scene<'_, S>,
    state: &State,
    heading: &Heading,
    is_function: bool,
    part: Part,
) -> Result<Declared, AllocError>
    ensures { let here = here_at scene.now.facts.now (S.told scene.now.around.now) in
        IfOk result (λ what. what ≡ thing_declared here heading.now.standing
        heading.now.line heading.now.storage heading.now.is_given heading.now.name
        is_function (seen_state state.now) part) }
{
    if is_typedef_word(heading.storage) {
        return Ok(Declared::Typedef(part));
    }
    if is_function {
        return declared_function(scene, state, heading, part);
    }
    Ok(declared_object(scene, state, heading, part))
}

/// What a name is to stand for, by its type.
pub fn what_declared<S: Surroundings>(
    scene: &Scene<'_, S>,
    state: &State,
    heading: &Heading,
    part: Part,
) -> Result<Declared, AllocError>
    ensures { let here = here_at scene.now.facts.now (S.told scene.now.around.now) in
        IfOk result (λ what. what ≡ what_declared here heading.now.standing
        heading.now.line heading.now.storage heading.now.is_given heading.now.name
        (seen_state state.now) part) }
{
    let is_function = is_function(type_at(state, part.number));
    thing_declared(scene, state, heading, is_function, part)
}

/// Whether derivations declare a name again, whatever type they make of a base.
pub fn is_name_again<S: Surroundings>(
    scene: &Scene<'_, S>,
    state: &State,
    heading: &Heading,
    base: Part,
    derivations: &[Derivation],
) -> Result<bool, AllocError>
    ensures { let here = here_at scene.now.facts.now (S.told scene.now.around.now) in
        IfOk result (λ again. again ≡ name_again here heading.now base
        (seen_state state.now) derivations.now) }
{
    let is_function = makes_function(derivations);
    let thing = thing_declared(scene, state, heading, is_function, base)?;
    Ok(is_again_by_any_type(state, scene.around.spelling(heading.name), thing))
}

/// Whether a name of the whole file is `main`, and isn't a function from nothing to `int`.
pub fn is_bad_main<S: Surroundings>(
    scene: &Scene<'_, S>,
    state: &State,
    heading: &Heading,
    what: Declared,
    part: Part,
) -> bool
    ensures { let here = here_at scene.now.facts.now (S.told scene.now.around.now) in
        result ≡ is_bad_main here heading.now.standing heading.now.name what
        (seen_state state.now) part }
{
    let is_main = scene.around.spelling(heading.name) == b"main".as_slice();
    is_main && is_of_file(heading.standing, what) && !is_main_function(state, what, part)
}

/// What a local begins with: a home where it is an aggregate or atomic, or its address is taken.
fn local_kind<S: Surroundings>(
    scene: &Scene<'_, S>,
    state: &State,
    number: u32,
    part: Part,
) -> LocalKind
    ensures { let here = here_at scene.now.facts.now (S.told scene.now.around.now) in
        result ≡ local_kind here (seen_state state.now) number part }
{
    let ty = type_at(state, part.number);
    if always_has_home(ty, part.qualifiers) || scene.around.has_home(number) {
        LocalKind::Home(size_or_zero(ty))
    } else {
        LocalKind::Zero
    }
}

/// A local has the next number, and is one of its block's.
fn add_local<S: Surroundings>(
    scene: &Scene<'_, S>,
    state: &mut State,
    line: u32,
    number: u32,
    part: Part,
) -> Result<(), AllocError>
    ensures state { let here = here_at scene.now.facts.now (S.told scene.now.around.now) in
        OnOk result (seen_state state.new ≡ declaring.with_local here
        line number part (seen_state state.old)) }
    ensures grows { OnOk result (Grows state.old state.new) }
{
    let next = behind(number)?;
    let kind = local_kind(scene, state, number, part);
    let local = number;
    state.locals.push(LocalDef { line, local, kind })?;
    state.next_local = next;
    Ok(())
}

/// An object behind its declarator, whose name is declared.
pub fn add_object<S: Surroundings>(
    scene: &Scene<'_, S>,
    state: &mut State,
    line: u32,
    what: Declared,
) -> Result<(), AllocError>
    ensures state { let here = here_at scene.now.facts.now (S.told scene.now.around.now) in
        OnOk result (seen_state state.new ≡ object_behind here
        line what (seen_state state.old)) }
    ensures grows { OnOk result (Grows state.old state.new) }
{
    match what {
        Declared::Object(object) => match object.number {
            ObjectNumber::Local(number) => add_local(scene, state, line, number, object.ty),
            ObjectNumber::Static(number) => add_static(state, number, object.ty),
        },
        Declared::Function(_) | Declared::Typedef(_) | Declared::Constant(_) | Declared::Tag(_) =>
            Ok(()),
    }
}
