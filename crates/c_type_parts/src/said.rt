//! What a list of specifiers says, where what stands in it is known (C11 6.7.1, 6.7.2).

ghost use Rattle.std.specs.Prelude.{◌≡◌, Some, IfOk, OnOk};
ghost use Rattle.c_expr_rules.specs.Views.{seen_state, Passes, Grows};
ghost use Rattle.c_names.specs.Code.{here_at};
ghost use Rattle.c_type_parts.specs.Lists as lists;
ghost use Rattle.std.specs.List.{list_any};
ghost use Rattle.std.specs.Option.{option_or};
ghost use Rattle.c_type_parts.specs.Lists.{suffixes_are_list, kind_is_list, own_is_list, is_function_made, AreOfTypes, seen_follows, said_of, typedef_part};
ghost use Rattle.c_file_rules.specs.Specifiers.{type_or, storage_or, named_plain, forbids_functions, declarators_in, is_misplaced, names_function, is_tag_alone, declares_nothing, atomic_found, specified};
ghost use Rattle.c_file_rules.specs.Declarators.{nearest_is_list, is_function_declared, is_function, makes_function};

use c_declarations::{Named, Words, rule_of_words, words_in};
use c_expr_rules::{Fault, State, Surroundings, type_at};
use c_file_rules::{Parts, Said, lowest, obey_rule, part_of, when, with_part};
use c_names::{Scene, qualified, with_type};
use c_rules::Rule;
use c_specifiers::Standing;
use c_syntax::{
    Core, Declarator, InitDeclarator, Specifier, SpecifierKind, Storage, Suffix, SuffixKind,
};
use c_tree::Declared;
use c_type_rules::atomic_type;
use c_types::{CType, Derivation, Part};
use std::alloc::{AllocError, Global};

/// What follows a list of specifiers: the declarators of a declaration, or one declarator by the
/// grammar.
#[derive(Clone, Copy)]
pub enum Follows<'a> {
    Declarators(&'a [InitDeclarator]),
    OneDeclarator,
}

/// Where a list of specifiers stands, and what follows it.
#[derive(Clone, Copy)]
pub struct Place<'a> {
    pub standing: Standing,
    pub follows: Follows<'a>,
}

/// A place where one declarator follows.
pub fn place_of<'a>(standing: Standing) -> Place<'a>
    ensures standing { result.standing ≡ standing }
    ensures follows { result.follows ≡ Follows.OneDeclarator }
{
    Place {
        standing,
        follows: Follows::OneDeclarator,
    }
}

/// Whether a type is that of a function.
pub fn is_function(ty: CType) -> bool
    ensures { result ≡ is_function ty }
{
    matches!(ty, CType::Function(_))
}

/// Whether a derivation makes a function, where there is one.
fn is_function_made(derivation: Option<Derivation>) -> bool
    ensures { result ≡ is_function_made derivation }
{
    matches!(
        derivation,
        Some(Derivation::Function { .. } | Derivation::BadFunction(_))
    )
}

/// Whether the last of derivations, which is nearest to the name, makes a function.
#[tactic(auto, using(crate::proofs::Nearest::last_makes))]
pub fn makes_function(derivations: &[Derivation]) -> bool
    ensures { result ≡ makes_function derivations.now }
{
    is_function_made(derivations.last().copied())
}

/// Whether the first of suffixes is a list of parameters, where there is one.
fn suffixes_are_list(suffixes: &[Suffix]) -> Option<bool>
    ensures { result ≡ suffixes_are_list suffixes.now }
{
    match suffixes {
        [first, ..] => Some(is_list(&first.kind)),
        [] => None,
    }
}

fn is_list(kind: &SuffixKind) -> bool
    ensures { result ≡ kind_is_list kind.now }
{
    match kind {
        SuffixKind::Array(_) => false,
        SuffixKind::Function { .. } => true,
    }
}

/// Whether a declarator's own suffixes or pointers begin with a list of parameters, where there are
/// any.
fn own_is_list(declarator: &Declarator) -> Option<bool>
    ensures { result ≡ own_is_list declarator.now }
{
    match suffixes_are_list(declarator.suffixes.as_slice()) {
        Some(is_list) => Some(is_list),
        None if declarator.pointers.is_empty() => None,
        None => Some(false),
    }
}

/// What stands nearer to a name, where anything does.
fn nearest_of(inside: Option<bool>, own: Option<bool>) -> Option<bool>
    ensures { result ≡ option_or inside own }
{
    match inside {
        Some(is_list) => Some(is_list),
        None => own,
    }
}

/// Whether what stands nearest to a declarator's name is a list of parameters, where anything stands
/// there.
#[tactic(auto, using(crate::proofs::Nearest::nearest_is, crate::proofs::Nearest::parens_is))]
fn nearest_is_list(declarator: &Declarator) -> Option<bool>
    ensures { result ≡ nearest_is_list declarator.now }
{
    match &declarator.core {
        Core::Parens(inner) => {
            let inside = nearest_is_list(inner.get());
            nearest_of(inside, own_is_list(declarator))
        }
        Core::Name { .. } | Core::Nothing => own_is_list(declarator),
    }
}

/// Whether a declarator declares a function, where its specifiers name one or don't.
pub fn is_function_declared(names_function: bool, declarator: &Declarator) -> bool
    ensures { result ≡ is_function_declared names_function declarator.now }
{
    nearest_is_list(declarator).unwrap_or(names_function)
}

/// Whether no function may be declared there with this storage word.
fn forbids_functions(standing: Standing, storage: Option<Storage>) -> bool
    ensures { result ≡ forbids_functions standing storage }
{
    match (standing, storage) {
        (Standing::Block, Some(Storage::Extern | Storage::Typedef)) => false,
        (Standing::Block, Some(_)) => true,
        (Standing::ForStart, _) => true,
        _ => false,
    }
}

/// Whether one of these declarators declares a function.
fn is_any_function(names_function: bool, inits: &[InitDeclarator]) -> bool
    ensures { result ≡ list_any (λ i. is_function_declared names_function i.declarator) inits.now }
{
    inits.iter().any(|init| is_function_declared(names_function, &init.declarator))
}

/// Whether a declarator behind a list of specifiers declares a function.
fn follows_function(names_function: bool, follows: Follows<'_>) -> bool
    ensures { result ≡ list_any (is_function_declared names_function)
        (declarators_in (seen_follows follows.entry)) }
{
    match follows {
        Follows::OneDeclarator => false,
        Follows::Declarators(inits) => is_any_function(names_function, inits),
    }
}

/// Whether a storage word is one that its place forbids, where the place takes in what is declared.
fn is_misplaced(place: Place<'_>, names_function: bool, storage: Option<Storage>) -> bool
    ensures { result ≡ is_misplaced place.entry.standing (seen_follows place.entry.follows)
        names_function storage }
{
    forbids_functions(place.standing, storage) && follows_function(names_function, place.follows)
}

/// Whether neither a declarator nor what stands in the list declares anything.
fn declares_nothing(follows: Follows<'_>, parts: Parts) -> bool
    ensures { result ≡ declares_nothing (seen_follows follows.entry) parts }
{
    match follows {
        Follows::Declarators([]) => !parts.declares,
        Follows::Declarators(_) | Follows::OneDeclarator => false,
    }
}

/// Whether a declaration is `struct s;` alone (C11 6.7.2.3p7).
pub fn is_tag_alone(follows: Follows<'_>, list: &[Specifier]) -> bool
    ensures { result ≡ is_tag_alone (seen_follows follows.entry) list.now }
{
    let (Follows::Declarators([]), [specifier]) = (follows, list) else {
        return false;
    };
    matches!(
        &specifier.kind,
        SpecifierKind::Record {
            tag: Some(_),
            members: None,
            ..
        }
    )
}

/// The type that is found of a specifier, or any where none is.
fn type_or(whole: Option<Result<Part, Rule>>) -> Part
    ensures { result ≡ type_or whole }
{
    match whole {
        Some(Ok(part)) => part,
        Some(Err(_)) | None => part_of(0),
    }
}

/// A storage class, where it is a good one.
fn storage_or(storage: Option<Option<Storage>>) -> Option<Storage>
    ensures { result ≡ storage_or storage }
{
    match storage {
        None => None,
        Some(word) => word,
    }
}

/// The type that words name, where they name one.
fn named_type(
    state: &mut State,
    whole: Option<Result<Part, Rule>>,
    named: Named,
) -> Result<Part, AllocError>
    requires { AreOfTypes (Some named) }
    ensures state { OnOk result (state.new ≡ record state.old {
      types = (named_plain (seen_state state.old) whole (Some named)).0;
    }) }
    ensures part { IfOk result (λ part.
        part ≡ (named_plain (seen_state state.old) whole (Some named)).1) }
{
    match named {
        Named::Basic(ty) => with_type(&mut state.types, ty),
        Named::Whole => Ok(type_or(whole)),
    }
}

/// The type that words name, without the qualifiers of their list.
fn plain_type(
    state: &mut State,
    whole: Option<Result<Part, Rule>>,
    named: Option<Named>,
) -> Result<Part, AllocError>
    requires { AreOfTypes named }
    ensures state { OnOk result (state.new ≡ record state.old {
      types = (named_plain (seen_state state.old) whole named).0;
    }) }
    ensures part { IfOk result (λ part.
        part ≡ (named_plain (seen_state state.old) whole named).1) }
{
    match named {
        Some(named) => named_type(state, whole, named),
        None => Ok(type_or(whole)),
    }
}

/// What words and parts say: a storage class, and a type with its qualifiers.
fn said_by(alloc: Global, state: &mut State, words: Words, parts: Parts) -> Result<Said, AllocError>
    requires { AreOfTypes words.named }
    ensures state { OnOk result (seen_state state.new
        ≡ (said_of (seen_state state.old) words parts).0) }
    ensures said { IfOk result (λ said. said ≡ (said_of (seen_state state.old) words parts).1) }
    ensures grows { OnOk result (Grows state.old state.new) }
{
    let plain = plain_type(state, parts.whole, words.named)?;
    let ty = qualified(alloc, &mut state.types, plain, words.set)?;
    Ok(Said {
        storage: storage_or(words.storage),
        ty,
        declares: parts.declares,
    })
}

/// Whether a list names a function's type, where it breaks no rule.
fn names_function(broken: Option<Rule>, ty: CType) -> bool
    ensures { result ≡ names_function broken ty }
{
    broken.is_none() && is_function(ty)
}

/// The rule that a list breaks which says this.
fn list_rule(
    state: &State,
    place: Place<'_>,
    words: Words,
    parts: Parts,
    said: Said,
) -> Option<Rule>
    ensures { result ≡ lists.list_rule place.entry.standing (seen_follows place.entry.follows)
        (seen_state state.now) words parts said }
{
    let own = rule_of_words(&state.types, parts.whole, words);
    let broken = lowest(parts.broken, own);
    let has_function = names_function(broken, type_at(state, said.ty.number));
    let is_misplaced = is_misplaced(place, has_function, said.storage);
    let beside = lowest(broken, when(is_misplaced, Rule::BadSpecifiers));
    let nothing = when(
        declares_nothing(place.follows, parts),
        Rule::NothingDeclared,
    );
    lowest(beside, nothing)
}

/// A list of specifiers at its end.
pub fn specified(
    alloc: Global,
    state: &mut State,
    line: u32,
    place: Place<'_>,
    list: &[Specifier],
    parts: Parts,
) -> Result<Said, Fault>
    ensures found { Passes (seen_state state.new) result (specified line place.entry.standing
        (seen_follows place.entry.follows) list.now (seen_state state.old) parts) }
    ensures grows { OnOk result (Grows state.old state.new) }
{
    let words = words_in(alloc, place.standing, list)?;
    let said = said_by(alloc, state, words, parts)?;
    obey_rule(line, list_rule(state, place, words, parts, said), said)
}

/// A typedef's name among specifiers.
fn typedef_found(meant: Option<Declared>, parts: Parts) -> Parts
    ensures { result ≡ typedef_part meant parts }
{
    match meant {
        Some(Declared::Typedef(ty)) => with_part(false, Ok(ty), parts),
        Some(Declared::Object(_) | Declared::Function(_) | Declared::Constant(_) | Declared::Tag(_))
        | None => with_part(false, Err(Rule::UnknownName), parts),
    }
}

/// `_Atomic` round a type's name among specifiers.
pub fn atomic_found(state: &State, said: Said, parts: Parts) -> Parts
    ensures { result ≡ atomic_found (seen_state state.now) said parts }
{
    with_part(said.declares, atomic_type(&state.types, said.ty), parts)
}

/// A typedef's name among specifiers, by its number.
pub fn typedef_named<S: Surroundings>(
    scene: &Scene<'_, S>,
    state: &State,
    name: u32,
    parts: Parts,
) -> Parts
    ensures { let s = seen_state state.now in
        let meant = s.visible ((S.told scene.now.around.now).spelling name) in
        result ≡ typedef_part meant parts }
{
    typedef_found(state.look_up(scene.around.spelling(name)), parts)
}
