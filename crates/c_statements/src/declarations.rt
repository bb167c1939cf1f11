//! Declarations (C11 6.7), with the statements that their initialisers are.

ghost use Rattle.std.specs.Prelude.{◌≡◌, true, [], is_some, OnOk};
ghost use Rattle.std.specs.Option.{option_copied};
ghost use Rattle.c_rules.specs.Rules.{number_of};
ghost use Rattle.c_syntax.specs.Files.{initialiser_span};
ghost use Rattle.c_expr_rules.specs.Outcomes as o;
ghost use Rattle.c_expr_rules.specs.Views.{seen_state, checked, found_has, Gives, Passes, Grows};
ghost use Rattle.c_names.specs.Code.{here_at};
ghost use Rattle.c_file_rules.specs.Declaring.{needless, given_by, given_to, is_initialised, size_breaks, init_declared, declaration_checked};
ghost use Rattle.c_file_rules.specs.Filling.{told_with};
ghost use Rattle.c_file_rules.specs.Initialising.{nothing_given};
ghost use Rattle.c_statements.specs.Stated.{in_memory, given_kept, stated_by_rules, name_stated, name_initialised, name_or_initialised, is_other_size, found_by, with_initialiser};

use crate::declaring::{
    Heading, add_object, is_bad_main, is_name_again, name_rule, size_rule_of, what_declared,
};
use c_expr_rules::{Fault, Filled, Found, State, Surroundings, also_if_broken, by_rules};
use c_file_rules::{Given, Said, nothing_given, obey_rule};
use c_initialisers::{initialiser_filled, items_type, look_at, sized, sized_before, sizing_of};
use c_names::{Scene, declare, line_of, may_be_initialised, object_linkage, target_of};
use c_rules::Rule;
use c_specifiers::Standing;
use c_syntax::{Declaration, InitDeclarator, Initialiser};
use c_tree::{Declared, DeclaredObject, ObjectNumber, Stmt};
use c_type_names::{checker, formed, specifiers_said};
use c_type_parts::{Follows, Place, declared_type};
use c_types::{Derivation, Part};
use sqlite_items::Items;
use std::alloc::AllocError;

/// A declared thing that an initialiser follows: where it stands, what it is, its type, the type that it has in the
/// initialiser's items, and whether they say too large a size.
#[derive(Clone, Copy, Debug, PartialEq, Eq)]
pub struct Receiver {
    pub standing: Standing,
    pub what: Declared,
    pub part: Part,
    pub items: Part,
    pub is_too_large: bool,
}

/// The statements that what is given is. What a static object is given, the state keeps.
fn given_to(
    state: &mut State,
    what: Declared,
    given: Given,
    nothing: Items<Stmt>,
) -> Result<Items<Stmt>, AllocError>
    requires { nothing ≡ [] }
    ensures found { Passes (seen_state state.new) (in_memory result)
        (given_to what (seen_state state.old) given) }
    ensures grows { OnOk result (Grows state.old state.new) }
{
    let Declared::Object(object) = what else {
        return Ok(nothing);
    };
    match object.number {
        ObjectNumber::Local(_) => Ok(given.stores),
        ObjectNumber::Static(number) => {
            let fills = given.fills;
            state.filled.push(Filled { number, fills })?;
            Ok(nothing)
        }
    }
}

/// An initialiser where none may stand. It is looked at all the same.
fn needless<S: Surroundings>(
    scene: &Scene<'_, S>,
    state: &mut State,
    initialiser: &Initialiser,
) -> Result<Found<()>, Fault>
    requires { S.fit scene.now.around.now }
    ensures found { let here = here_at scene.now.facts.now (S.told scene.now.around.now) in
        Gives (seen_state state.new)
        (told_with nothing_given result)
        (needless here (seen_state state.old)
        initialiser.now) }
    ensures grows { OnOk result (Grows state.old state.new) }
{
    look_at(&checker(scene), state, initialiser)?;
    let rules = [(Rule::BadInitialiser, true)];
    Ok(by_rules(line_of(initialiser), &rules, ()))
}

/// What an initialiser gives an object, in which an array has this type.
fn object_given<S: Surroundings>(
    scene: &Scene<'_, S>,
    state: &mut State,
    standing: Standing,
    object: DeclaredObject,
    part: Part,
    initialiser: &Initialiser,
    given: &mut Given,
) -> Result<Found<()>, Fault>
    requires fit { S.fit scene.now.around.now }
    requires given { given.old ≡ nothing_given }
    ensures found { let here = here_at scene.now.facts.now (S.told scene.now.around.now) in
        Gives (seen_state state.new) (told_with given.new result)
        (given_kept (Declared.Object object) (given_by here standing
        (Declared.Object object) part (seen_state state.old) initialiser.now)) }
    ensures grows { OnOk result (Grows state.old state.new) }
{
    if may_be_initialised(standing, object) {
        let target = target_of(object, part);
        initialiser_filled(&checker(scene), state, &target, initialiser, given)
    } else {
        needless(scene, state, initialiser)
    }
}

/// What an initialiser gives what is declared, in which an array has this type.
fn given_by<S: Surroundings>(
    scene: &Scene<'_, S>,
    state: &mut State,
    standing: Standing,
    what: Declared,
    part: Part,
    initialiser: &Initialiser,
    given: &mut Given,
) -> Result<Found<()>, Fault>
    requires fit { S.fit scene.now.around.now }
    requires given { given.old ≡ nothing_given }
    ensures found { let here = here_at scene.now.facts.now (S.told scene.now.around.now) in
        Gives (seen_state state.new) (told_with given.new result) (given_kept what
        (given_by here standing what part (seen_state state.old) initialiser.now)) }
    ensures grows { OnOk result (Grows state.old state.new) }
{
    match what {
        Declared::Object(object) => {
            object_given(scene, state, standing, object, part, initialiser, given)
        }
        Declared::Function(_) | Declared::Typedef(_) | Declared::Constant(_) | Declared::Tag(_) =>
            needless(scene, state, initialiser),
    }
}

/// Declares a declarator's name, by the rules of the declarator, and places what it is.
fn stated<S: Surroundings>(
    scene: &Scene<'_, S>,
    state: &mut State,
    heading: &Heading,
    what: Declared,
    part: Part,
) -> Result<(Declared, Part), Fault>
    ensures found { let here = here_at scene.now.facts.now (S.told scene.now.around.now) in
        Passes (seen_state state.new) result
        (stated_by_rules here heading.now what (seen_state state.old) part) }
    ensures grows { OnOk result (Grows state.old state.new) }
{
    let sizeless = size_rule_of(state, what, part);
    let is_bad_main = is_bad_main(scene, state, heading, what, part);
    let is_again = declare(state, scene.around.spelling(heading.name), what)?;
    obey_rule(heading.line, name_rule(is_again, sizeless, is_bad_main), ())?;
    add_object(scene, state, heading.line, what)?;
    Ok((what, part))
}

/// A name with its declarator's type.
fn name_declared<S: Surroundings>(
    scene: &Scene<'_, S>,
    state: &mut State,
    heading: &Heading,
    base: Part,
    derivations: &[Derivation],
) -> Result<(Declared, Part), Fault>
    ensures found { let here = here_at scene.now.facts.now (S.told scene.now.around.now) in
        Passes (seen_state state.new) result
        (name_stated here heading.now base (seen_state state.old) derivations.now) }
    ensures grows { OnOk result (Grows state.old state.new) }
{
    let is_again = is_name_again(scene, state, heading, base, derivations)?;
    let part = declared_type(state, heading.line, is_again, base, derivations)?;
    let what = what_declared(scene, state, heading, part)?;
    stated(scene, state, heading, what, part)
}

/// A name with an initialiser. In the initialiser's items an array has the size that they say; where an earlier
/// declaration says another one, the name is declared again.
fn initialised_name<S: Surroundings>(
    scene: &Scene<'_, S>,
    state: &mut State,
    heading: &Heading,
    base: Part,
    derivations: &[Derivation],
    initialiser: &Initialiser,
) -> Result<Items<Stmt>, Fault>
    requires fit { S.fit scene.now.around.now }
    requires initialised { heading.now.is_given ≡ true }
    ensures found { let here = here_at scene.now.facts.now (S.told scene.now.around.now) in
        Passes (seen_state state.new) result (name_initialised here
        heading.now base (seen_state state.old) derivations.now initialiser.now) }
    ensures grows { OnOk result (Grows state.old state.new) }
{
    let alloc = scene.facts.alloc;
    let sizing = sizing_of(scene, state, base, derivations, initialiser)?;
    let linkage = object_linkage(heading.standing, heading.storage);
    let before = sized_before(scene, state, linkage, heading.name, derivations)?;
    let whole = sized(alloc, before.as_slice(), sizing.count)?;
    let named = name_declared(scene, state, heading, base, whole.as_slice())?;
    let items = items_type(alloc, state, base, derivations, sizing.count, named.1)?;
    let receiver = Receiver {
        standing: heading.standing,
        what: named.0,
        part: named.1,
        items,
        is_too_large: sizing.is_too_large,
    };
    declared_with(scene, state, receiver, initialiser)
}

/// Whether the items of an initialiser give an array another type than it has.
fn is_other_size(receiver: Receiver) -> bool
    ensures { result ≡ is_other_size receiver }
{
    is_initialised(receiver.standing, receiver.what)
        && receiver.items.number != receiver.part.number
}

/// What the initialiser of a declared thing of this type gives, whose items say a size.
fn found_by<S: Surroundings>(
    scene: &Scene<'_, S>,
    state: &mut State,
    receiver: Receiver,
    initialiser: &Initialiser,
) -> Result<Given, Fault>
    requires { S.fit scene.now.around.now }
    ensures found { let here = here_at scene.now.facts.now (S.told scene.now.around.now) in
        Passes (seen_state state.new) result (given_kept receiver.what
        (found_by here receiver (seen_state state.old) initialiser.now)) }
    ensures grows { OnOk result (Grows state.old state.new) }
{
    let line = line_of(initialiser);
    let is_other = is_other_size(receiver);
    let (standing, what, items) = (receiver.standing, receiver.what, receiver.items);
    let mut given = nothing_given(scene.facts.alloc);
    let found = given_by(scene, state, standing, what, items, initialiser, &mut given)?;
    let found = size_breaks(line, Rule::ObjectTooLarge, receiver.is_too_large, found);
    size_breaks(line, Rule::DeclaredAgain, is_other, found).passed()?;
    Ok(given)
}

/// The initialiser of a declared thing of this type, whose items say a size.
fn declared_with<S: Surroundings>(
    scene: &Scene<'_, S>,
    state: &mut State,
    receiver: Receiver,
    initialiser: &Initialiser,
) -> Result<Items<Stmt>, Fault>
    requires { S.fit scene.now.around.now }
    ensures found { let here = here_at scene.now.facts.now (S.told scene.now.around.now) in
        Passes (seen_state state.new) result
        (with_initialiser here receiver (seen_state state.old) initialiser.now) }
    ensures grows { OnOk result (Grows state.old state.new) }
{
    let given = found_by(scene, state, receiver, initialiser)?;
    Ok(given_to(state, receiver.what, given, Items::new(scene.facts.alloc))?)
}

/// A declarator's name with its derivations, and with its initialiser where it has one.
fn init_named<S: Surroundings>(
    scene: &Scene<'_, S>,
    state: &mut State,
    heading: &Heading,
    base: Part,
    derivations: &[Derivation],
    initialiser: Option<&Initialiser>,
) -> Result<Items<Stmt>, Fault>
    requires fit { S.fit scene.now.around.now }
    requires given { heading.now.is_given ≡ is_some (option_copied initialiser) }
    ensures found { let here = here_at scene.now.facts.now (S.told scene.now.around.now) in
        Passes (seen_state state.new) result (name_or_initialised here heading.now base
        (seen_state state.old) derivations.now (option_copied initialiser.entry)) }
    ensures grows { OnOk result (Grows state.old state.new) }
{
    match initialiser {
        None => {
            let _ = name_declared(scene, state, heading, base, derivations)?;
            Ok(Items::new(scene.facts.alloc))
        }
        Some(initialiser) => {
            initialised_name(scene, state, heading, base, derivations, initialiser)
        }
    }
}

/// A declarator of a declaration, with its initialiser where it has one.
fn init_declared<S: Surroundings>(
    scene: &Scene<'_, S>,
    state: &mut State,
    standing: Standing,
    said: Said,
    init: &InitDeclarator,
) -> Result<Items<Stmt>, Fault>
    requires { S.fit scene.now.around.now }
    ensures found { let here = here_at scene.now.facts.now (S.told scene.now.around.now) in
        Passes (seen_state state.new) result
        (init_declared here standing said (seen_state state.old) init.now) }
    ensures grows { OnOk result (Grows state.old state.new) }
{
    let declarator = &init.declarator;
    let formed = formed(scene, state, declarator)?;
    let Some(name) = declarator.name else {
        return Ok(Items::new(scene.facts.alloc));
    };
    let heading = Heading {
        standing,
        storage: said.storage,
        line: declarator.span.line,
        name,
        is_given: init.initialiser.is_some(),
    };
    let derivations = formed.derivations.as_slice();
    init_named(
        scene,
        state,
        &heading,
        said.ty,
        derivations,
        init.initialiser.as_ref(),
    )
}

/// A declaration (C11 6.7).
pub fn declaration_made<S: Surroundings>(
    scene: &Scene<'_, S>,
    state: &mut State,
    standing: Standing,
    declaration: &Declaration,
) -> Result<Items<Stmt>, Fault>
    requires { S.fit scene.now.around.now }
    ensures found { let here = here_at scene.now.facts.now (S.told scene.now.around.now) in
        Passes (seen_state state.new) result
        (declaration_checked here standing (seen_state state.old) declaration.now) }
    ensures grows { OnOk result (Grows state.old state.new) }
{
    let declarators = declaration.declarators.as_slice();
    let place = Place {
        standing,
        follows: Follows::Declarators(declarators),
    };
    let said = specifiers_said(scene, state, place, &declaration.specifiers)?;
    let mut statements = Items::new(scene.facts.alloc);
    'declarators: for init in declarators {
        let more = init_declared(scene, state, standing, said, init)?;
        statements.append(more)?;
    }
    Ok(statements)
}

/// Whether what is declared may have an initialiser.
fn is_initialised(standing: Standing, what: Declared) -> bool
    ensures { result ≡ is_initialised standing what }
{
    match what {
        Declared::Object(object) => may_be_initialised(standing, object),
        Declared::Function(_) | Declared::Typedef(_) | Declared::Constant(_) | Declared::Tag(_) =>
            false,
    }
}

/// An initialiser that breaks a rule by the size that it says.
fn size_breaks(line: u32, rule: Rule, is_broken: bool, found: Found<()>) -> Found<()>
    ensures { (s : o.State) → checked s result
        ≡ size_breaks line (number_of rule) is_broken (checked s found) }
{
    if is_broken {
        let is_known = is_known(&found);
        also_if_broken(line, rule, is_known, found)
    } else {
        found
    }
}

/// Whether anything is known of what is found.
fn is_known(found: &Found<()>) -> bool
    ensures { result ≡ found_has (λ x. true) found.now }
{
    match found {
        Found::Fine(()) => true,
        Found::Breaks(_, known) => known.is_some(),
    }
}
