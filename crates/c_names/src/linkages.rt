//! The linkage of what is declared, its number, how far it is defined, and what may not be `main` (C11 6.2.2, 6.9.2,
//! 5.1.2.2.1).

ghost use Rattle.std.specs.Prelude.{◌≡◌, suc, Some, IfOk, OnOk};
ghost use Rattle.c_syntax.specs.Files.{initialiser_span};
ghost use Rattle.c_expr_rules.specs.Views.{seen_state, Grows};
ghost use Rattle.c_file_rules.specs.Filling.{placed_as};
ghost use Rattle.c_file_rules.specs.Declaring as declaring;
ghost use Rattle.c_file_rules.specs.Declaring.{is_typedef_word, is_file, function_linkage, object_linkage, object_definition, is_local, static_of, is_main_type, is_of_file, is_static_number, may_be_initialised, target_of};

use crate::naming::{has_linkage, is_linked};
use crate::operations::{is_int, takes_nothing};
use c_expr_rules::{Placed, State, size_or_zero, type_at};
use c_file_rules::Target;
use c_specifiers::Standing;
use c_syntax::{Initialiser, Storage};
use c_tree::{Declared, DeclaredObject, Definition, Linkage, ObjectNumber};
use c_types::{CType, Part};
use std::alloc::AllocError;

/// Whether the storage class is `typedef`.
pub fn is_typedef_word(storage: Option<Storage>) -> bool
    ensures { result ≡ is_typedef_word storage }
{
    matches!(storage, Some(Storage::Typedef))
}

/// Whether a declaration stands outside of functions.
pub fn is_file(standing: Standing) -> bool
    ensures { result ≡ is_file standing }
{
    matches!(standing, Standing::File | Standing::Definition)
}

/// A function without a storage word, or with `extern`, has the linkage of what stood before (C11 6.2.2p4, p5).
pub fn function_linkage(storage: Option<Storage>) -> Linkage
    ensures { result ≡ function_linkage storage }
{
    match storage {
        Some(Storage::Static) => Linkage::Internal,
        _ => Linkage::Prior,
    }
}

/// The linkage of an object (C11 6.2.2p3 to p6).
pub fn object_linkage(standing: Standing, storage: Option<Storage>) -> Linkage
    ensures { result ≡ object_linkage standing storage }
{
    match (standing, storage) {
        (_, Some(Storage::Extern)) => Linkage::Prior,
        (Standing::File, None) => Linkage::External,
        (Standing::File, Some(Storage::Static)) => Linkage::Internal,
        _ => Linkage::NoLinkage,
    }
}

/// How far an `extern` declaration defines an object.
fn extern_definition(standing: Standing, has_initialiser: bool) -> Definition
    ensures { result ≡ object_definition standing (Some Storage.Extern) has_initialiser }
{
    if is_file(standing) && has_initialiser {
        Definition::Full
    } else {
        Definition::None
    }
}

/// How far a declaration defines an object (C11 6.9.2).
pub fn object_definition(
    standing: Standing,
    storage: Option<Storage>,
    has_initialiser: bool,
) -> Definition
    ensures { result ≡ object_definition standing storage has_initialiser }
{
    match (standing, storage) {
        (_, Some(Storage::Extern)) => extern_definition(standing, has_initialiser),
        (Standing::File, _) => {
            if has_initialiser {
                Definition::Full
            } else {
                Definition::Tentative
            }
        }
        _ => Definition::Full,
    }
}

/// Whether an object is a local.
pub fn is_local(standing: Standing, storage: Option<Storage>) -> bool
    ensures { result ≡ is_local standing storage }
{
    match (standing, storage) {
        (Standing::Block, None | Some(Storage::Auto | Storage::Register)) => true,
        (Standing::ForStart, _) => true,
        _ => false,
    }
}

/// The number of a static object, else this one.
fn static_number(fresh: u32, number: ObjectNumber) -> u32
    ensures { result ≡ declaring.static_number fresh number }
{
    match number {
        ObjectNumber::Static(number) => number,
        ObjectNumber::Local(_) => fresh,
    }
}

/// The number of the static object that a name with linkage stands for already, else this one.
pub fn static_of(fresh: u32, before: Option<Declared>) -> u32
    ensures { result ≡ static_of fresh before }
{
    match before {
        Some(Declared::Object(object)) => static_number(fresh, object.number),
        Some(
            Declared::Function(_) | Declared::Typedef(_) | Declared::Constant(_) | Declared::Tag(_),
        )
        | None => fresh,
    }
}

/// Whether a type is that of a function from nothing to `int` (C11 5.1.2.2.1).
fn is_main_type(state: &State, ty: CType) -> bool
    ensures { result ≡ is_main_type (seen_state state.now) ty }
{
    let CType::Function(signature) = ty else {
        return false;
    };
    is_int(type_at(state, signature.result)) && takes_nothing(state, signature.parameters)
}

/// Whether what is declared belongs to the whole file: it stands outside of functions, or has linkage.
pub fn is_of_file(standing: Standing, what: Declared) -> bool
    ensures { result ≡ is_of_file standing what }
{
    is_file(standing) || has_linkage(what)
}

/// Whether what is declared is a function of the type of `main`.
pub fn is_main_function(state: &State, what: Declared, part: Part) -> bool
    ensures { result ≡ declaring.is_main_function
        (seen_state state.now) what part }
{
    match what {
        Declared::Function(_) => is_main_type(state, type_at(state, part.number)),
        Declared::Object(_) | Declared::Typedef(_) | Declared::Constant(_) | Declared::Tag(_) =>
            false,
    }
}

/// Whether an object is static.
pub fn is_static_number(number: ObjectNumber) -> bool
    ensures { result ≡ is_static_number number }
{
    matches!(number, ObjectNumber::Static(_))
}

/// Whether an object may have an initialiser: it isn't `extern` in a block.
pub fn may_be_initialised(standing: Standing, object: DeclaredObject) -> bool
    ensures { result ≡ may_be_initialised standing object }
{
    is_file(standing) || !is_linked(object.linkage)
}

/// The line of an initialiser.
pub fn line_of(initialiser: &Initialiser) -> u32
    ensures { result ≡ (initialiser_span initialiser.now).line }
{
    match initialiser {
        Initialiser::Expression(expr) => expr.span.line,
        Initialiser::List { span, .. } => span.line,
    }
}

/// A whole object, which is filled as one of this type.
pub fn target_of(object: DeclaredObject, part: Part) -> Target
    ensures { result ≡ target_of object part }
{
    Target {
        object,
        is_static: is_static_number(object.number),
        is_whole: true,
        offset: 0,
        part,
    }
}

/// The number behind this one.
pub fn behind(number: u32) -> Result<u32, AllocError>
    ensures { IfOk result (λ n. n ≡ suc number) }
{
    number.checked_add(1).ok_or(AllocError)
}

/// A static object with the next number.
fn place_static(state: &mut State, number: u32, part: Part) -> Result<(), AllocError>
    ensures state { let s = seen_state state.old in OnOk result (seen_state state.new
        ≡ declaring.add_static number (placed_as s number part) s) }
    ensures grows { OnOk result (Grows state.old state.new) }
{
    let next = behind(number)?;
    let bytes = size_or_zero(type_at(state, part.number));
    state.placed.push(Placed { number, bytes })?;
    state.next_static = next;
    Ok(())
}

/// A static object that no declaration had before has the next number.
pub fn add_static(state: &mut State, number: u32, part: Part) -> Result<(), AllocError>
    ensures state { OnOk result (seen_state state.new
        ≡ declaring.with_static number part (seen_state state.old)) }
    ensures grows { OnOk result (Grows state.old state.new) }
{
    if number == state.next_static {
        place_static(state, number, part)?;
    }
    Ok(())
}
