//! Tags of structures, unions and enumerations (C11 6.7.2.3).

ghost use Rattle.std.specs.Prelude.{◌≡◌, IfOk, OnOk};
ghost use Rattle.c_specifiers.specs.NamesOfTypes.{same_tag, tag_type};
ghost use Rattle.c_expr_rules.specs.Views.{seen_state, Grows};
ghost use Rattle.c_names.specs.Code.{here_at};
ghost use Rattle.c_file_rules.specs.Tags.{kind_of_word, form_of_word, tag_declared, rule_of_tag, tag_rule, tag_meant, tag_alone, named_tag, new_tag, number_of_tag, type_to_list};

use c_expr_rules::{State, Surroundings};
use c_file_rules::{Parts, lowest, part_of, when, with_part};
use c_names::{Scene, declare, look_up_tag, look_up_tag_here, new_type};
use c_rules::Rule;
use c_specifiers::NameFault;
use c_syntax::RecordKind;
use c_tree::{Declared, DeclaredTag};
use c_types::{Form, Tag};
use std::alloc::AllocError;

/// What the word `struct` or `union` is a tag of.
pub fn tag_of(word: RecordKind) -> Tag
    ensures { result ≡ kind_of_word word }
{
    match word {
        RecordKind::Struct => Tag::Structure,
        RecordKind::Union => Tag::Union,
    }
}

/// How the members of a structure or a union lie.
pub fn form_of(word: RecordKind) -> Form
    ensures { result ≡ form_of_word word }
{
    match word {
        RecordKind::Struct => Form::Structure,
        RecordKind::Union => Form::Union,
    }
}

fn is_same_tag(a: Tag, b: Tag) -> bool
    ensures { result ≡ same_tag a b }
{
    matches!(
        (a, b),
        (Tag::Structure, Tag::Structure)
            | (Tag::Union, Tag::Union)
            | (Tag::Enumeration, Tag::Enumeration)
    )
}

/// What a tag is declared as.
pub fn tag_declared(kind: Tag, ty: u32, is_listed: bool) -> Declared
    ensures { result ≡ tag_declared kind ty is_listed }
{
    Declared::Tag(DeclaredTag {
        kind,
        ty,
        is_listed,
    })
}

/// The number of the type that a tag without a list stands for, or nothing where it is to be
/// declared.
fn tag_type(kind: Tag, meant: Option<Declared>) -> Result<Option<u32>, NameFault>
    ensures { result ≡ tag_type kind meant }
{
    match meant {
        Some(Declared::Tag(tag)) if is_same_tag(kind, tag.kind) => Ok(Some(tag.ty)),
        Some(_) => Err(NameFault::WrongTag),
        None if matches!(kind, Tag::Enumeration) => Err(NameFault::WrongTag),
        None => Ok(None),
    }
}

/// The rule that a list of members or constants breaks behind what its tag is in this block.
fn rule_of_tag(kind: Tag, here: Option<Declared>) -> Option<Rule>
    ensures { result ≡ rule_of_tag kind here }
{
    match here {
        Some(Declared::Tag(tag)) => lowest(
            when(tag.is_listed, Rule::DeclaredAgain),
            when(!is_same_tag(kind, tag.kind), Rule::WrongTag),
        ),
        Some(
            Declared::Object(_)
            | Declared::Function(_)
            | Declared::Typedef(_)
            | Declared::Constant(_),
        )
        | None => None,
    }
}

/// Declares a tag, where there is one and it may be declared.
pub fn declare_tag<S: Surroundings>(
    scene: &Scene<'_, S>,
    state: &mut State,
    tag: Option<u32>,
    what: Declared,
) -> Result<(), AllocError>
    ensures state { let here = here_at scene.now.facts.now (S.told scene.now.around.now) in
        OnOk result (seen_state state.new ≡ named_tag here (seen_state state.old) tag what) }
    ensures grows { OnOk result (Grows state.old state.new) }
{
    match tag {
        None => Ok(()),
        Some(name) => {
            let _is_again = declare(state, scene.around.spelling(name), what)?;
            Ok(())
        }
    }
}

/// A new type, by its tag where it has one.
pub fn new_tag<S: Surroundings>(
    scene: &Scene<'_, S>,
    state: &mut State,
    kind: Tag,
    tag: Option<u32>,
) -> Result<u32, AllocError>
    ensures state { let here = here_at scene.now.facts.now (S.told scene.now.around.now) in
        OnOk result (seen_state state.new ≡ (new_tag here (seen_state state.old) kind tag).0) }
    ensures number { let here = here_at scene.now.facts.now (S.told scene.now.around.now) in
        IfOk result (λ number. number ≡ (new_tag here (seen_state state.old) kind tag).1) }
    ensures grows { OnOk result (Grows state.old state.new) }
{
    let number = new_type(&mut state.types, kind)?;
    declare_tag(scene, state, tag, tag_declared(kind, number, false))?;
    Ok(number)
}

/// What a tag without a list means: alone, with nothing beside it, `struct s;` is of this scope.
fn tag_meant<S: Surroundings>(
    scene: &Scene<'_, S>,
    state: &State,
    is_alone: bool,
    name: u32,
) -> Option<Declared>
    ensures { let here = here_at scene.now.facts.now (S.told scene.now.around.now) in
        result ≡ tag_meant here (seen_state state.now) is_alone name }
{
    let letters = scene.around.spelling(name);
    if is_alone {
        look_up_tag_here(state, letters)
    } else {
        look_up_tag(state, letters)
    }
}

/// The number of a tag's type, which is new where none is found.
fn number_of_tag<S: Surroundings>(
    scene: &Scene<'_, S>,
    state: &mut State,
    kind: Tag,
    name: u32,
    found: Option<u32>,
) -> Result<u32, AllocError>
    ensures state { let here = here_at scene.now.facts.now (S.told scene.now.around.now) in
        OnOk result (seen_state state.new
        ≡ (number_of_tag here (seen_state state.old) kind name found).0) }
    ensures number { let here = here_at scene.now.facts.now (S.told scene.now.around.now) in
        IfOk result (λ number. number
        ≡ (number_of_tag here (seen_state state.old) kind name found).1) }
    ensures grows { OnOk result (Grows state.old state.new) }
{
    match found {
        Some(number) => Ok(number),
        None => new_tag(scene, state, kind, Some(name)),
    }
}

/// A tag without a list names what is visible, or else is new in its scope.
pub fn tag_alone<S: Surroundings>(
    scene: &Scene<'_, S>,
    state: &mut State,
    is_alone: bool,
    kind: Tag,
    tag: Option<u32>,
    parts: Parts,
) -> Result<Parts, AllocError>
    ensures state { let here = here_at scene.now.facts.now (S.told scene.now.around.now) in
        OnOk result (seen_state state.new
        ≡ (tag_alone here (seen_state state.old) is_alone kind tag parts).0) }
    ensures found { let here = here_at scene.now.facts.now (S.told scene.now.around.now) in
        IfOk result (λ found. found
        ≡ (tag_alone here (seen_state state.old) is_alone kind tag parts).1) }
    ensures grows { OnOk result (Grows state.old state.new) }
{
    let Some(name) = tag else {
        return Ok(parts);
    };
    match tag_type(kind, tag_meant(scene, state, is_alone, name)) {
        Err(_) => Ok(with_part(true, Err(Rule::WrongTag), parts)),
        Ok(found) => {
            let number = number_of_tag(scene, state, kind, name, found)?;
            Ok(with_part(true, Ok(part_of(number)), parts))
        }
    }
}

/// The number of the type that a list of members is of: its tag's in this block, which may have one
/// list and be of one kind, or a new type.
pub fn type_to_list<S: Surroundings>(
    scene: &Scene<'_, S>,
    state: &mut State,
    kind: Tag,
    tag: Option<u32>,
) -> Result<u32, AllocError>
    ensures state { let here = here_at scene.now.facts.now (S.told scene.now.around.now) in
        OnOk result (seen_state state.new
        ≡ (type_to_list here (seen_state state.old) kind tag).0) }
    ensures number { let here = here_at scene.now.facts.now (S.told scene.now.around.now) in
        IfOk result (λ number. number
        ≡ (type_to_list here (seen_state state.old) kind tag).1) }
    ensures grows { OnOk result (Grows state.old state.new) }
{
    let Some(name) = tag else {
        return new_tag(scene, state, kind, None);
    };
    match look_up_tag_here(state, scene.around.spelling(name)) {
        Some(Declared::Tag(declared)) => {
            if is_same_tag(kind, declared.kind) && !declared.is_listed {
                Ok(declared.ty)
            } else {
                new_tag(scene, state, kind, None)
            }
        }
        _ => new_tag(scene, state, kind, tag),
    }
}

/// The rule that a list of members or constants breaks by its tag.
pub fn tag_rule<S: Surroundings>(
    scene: &Scene<'_, S>,
    state: &State,
    kind: Tag,
    tag: Option<u32>,
) -> Option<Rule>
    ensures { let here = here_at scene.now.facts.now (S.told scene.now.around.now) in
        result ≡ tag_rule here (seen_state state.now) kind tag }
{
    match tag {
        None => None,
        Some(name) => rule_of_tag(kind, look_up_tag_here(state, scene.around.spelling(name))),
    }
}
