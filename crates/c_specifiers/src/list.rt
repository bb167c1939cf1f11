//! What the specifiers of a declaration say together.

ghost use Rattle.std.specs.Prelude.{◌≡◌, ◌||◌, ◌==◌, count_by, IfOk};
ghost use Rattle.std.specs.List.{filter_map, find, list_any};
ghost use Rattle.std.specs.Option.{option_map, option_copied};
ghost use Rattle.c_specifiers.specs.QualifierSets.{with_qualifiers};
ghost use Rattle.c_specifiers.specs.Lists.{storage_word, qualifier_word, basic_word, is_whole, allows, storage_class, named_type, named_in, named_among, has_no_word, is_function_word};

use crate::name::type_named;
use crate::qualifiers::qualifiers_of;
use c_syntax::{BasicType, FunctionSpecifier, Qualifier, Specifier, SpecifierKind, Storage};
use c_types::{CType, Qualifiers};
use std::alloc::{AllocError, Global};

/// Where specifiers stand, which decides which storage classes they may have (C11 6.7.1, 6.8.5, 6.9).
#[derive(Clone, Copy, Debug, PartialEq, Eq)]
pub enum Standing {
    /// A declaration outside of functions.
    File,
    /// A function with its body.
    Definition,
    /// A declaration in a block, of anything but a function.
    Block,
    FunctionInBlock,
    /// What a `for` begins with.
    ForStart,
    Parameter,
    Member,
    TypeName,
}

/// The type that specifiers name.
#[derive(Clone, Copy)]
pub enum TypeSpecifier<'a> {
    /// By words of basic types.
    Basic(CType),
    /// By this specifier: `_Atomic(..)`, a structure, a union, an enumeration or a typedef's name.
    Whole(&'a Specifier),
}

/// Why specifiers say nothing.
#[derive(Clone, Copy, Debug, PartialEq, Eq)]
pub enum SpecifierFault {
    /// They name no type, or there are two storage classes, or one that may not stand there.
    BadSpecifiers,
    NoMemory,
}

fn storage_word(specifier: &Specifier) -> Option<Storage>
    ensures { result ≡ storage_word specifier.now }
{
    match &specifier.kind {
        SpecifierKind::Storage(word) => Some(*word),
        _ => None,
    }
}

fn qualifier_word(specifier: &Specifier) -> Option<Qualifier>
    ensures { result ≡ qualifier_word specifier.now }
{
    match &specifier.kind {
        SpecifierKind::Qualifier(word) => Some(*word),
        _ => None,
    }
}

fn basic_word(specifier: &Specifier) -> Option<BasicType>
    ensures { result ≡ basic_word specifier.now }
{
    match &specifier.kind {
        SpecifierKind::Basic(word) => Some(*word),
        _ => None,
    }
}

/// Whether a specifier is a type by itself.
fn is_whole(specifier: &Specifier) -> bool
    ensures { result ≡ is_whole specifier.now }
{
    match &specifier.kind {
        SpecifierKind::Storage(_)
        | SpecifierKind::Function(_)
        | SpecifierKind::Qualifier(_)
        | SpecifierKind::Basic(_) => false,
        SpecifierKind::Atomic(_)
        | SpecifierKind::Record { .. }
        | SpecifierKind::Enum { .. }
        | SpecifierKind::TypedefName(_) => true,
    }
}

/// Whether a storage class may stand there.
pub fn allows(standing: Standing, word: Storage) -> bool
    ensures { result ≡ allows standing word }
{
    match standing {
        Standing::File => matches!(word, Storage::Typedef | Storage::Extern | Storage::Static),
        Standing::Definition => matches!(word, Storage::Extern | Storage::Static),
        Standing::Block => true,
        Standing::FunctionInBlock => matches!(word, Storage::Extern),
        Standing::ForStart => matches!(word, Storage::Auto | Storage::Register),
        Standing::Parameter => matches!(word, Storage::Register),
        Standing::Member | Standing::TypeName => false,
    }
}

/// The storage class among specifiers, where there is one.
pub fn storage_class(
    alloc: Global,
    standing: Standing,
    specifiers: &[Specifier],
) -> Result<Option<Storage>, SpecifierFault>
    ensures class { IfOk result
        (λ word. storage_class standing (filter_map storage_word specifiers.now) ≡ Some word) }
    ensures bad { result ≡ Err SpecifierFault.BadSpecifiers
        → storage_class standing (filter_map storage_word specifiers.now) ≡ None }
{
    let words = storage_words(alloc, specifiers).map_err(|_| SpecifierFault::NoMemory)?;
    match words.as_slice() {
        [] => Ok(None),
        [word] if allows(standing, *word) => Ok(Some(*word)),
        _ => Err(SpecifierFault::BadSpecifiers),
    }
}

fn storage_words(alloc: Global, specifiers: &[Specifier]) -> Result<Vec<Storage>, AllocError>
    ensures { IfOk result (λ v. v.items ≡ filter_map storage_word specifiers.now) }
{
    specifiers
        .iter()
        .filter_map(|s| storage_word(s))
        .collect(alloc)
}

fn qualifier_words(alloc: Global, specifiers: &[Specifier]) -> Result<Vec<Qualifier>, AllocError>
    ensures { IfOk result (λ v. v.items ≡ filter_map qualifier_word specifiers.now) }
{
    specifiers
        .iter()
        .filter_map(|s| qualifier_word(s))
        .collect(alloc)
}

fn basic_words(alloc: Global, specifiers: &[Specifier]) -> Result<Vec<BasicType>, AllocError>
    ensures { IfOk result (λ v. v.items ≡ filter_map basic_word specifiers.now) }
{
    specifiers
        .iter()
        .filter_map(|s| basic_word(s))
        .collect(alloc)
}

/// The set of the qualifiers among specifiers.
pub fn qualifiers_among(alloc: Global, specifiers: &[Specifier]) -> Result<Qualifiers, AllocError>
    ensures { IfOk result
        (λ set. set.0 ≡ with_qualifiers 0 (filter_map qualifier_word specifiers.now)) }
{
    let words = qualifier_words(alloc, specifiers)?;
    Ok(qualifiers_of(words.as_slice()))
}

/// Whether a function specifier is among specifiers.
pub fn has_function_word(specifiers: &[Specifier], word: FunctionSpecifier) -> bool
    ensures { result ≡ list_any (is_function_word word) specifiers.now }
{
    specifiers.iter().any(|s| is_function_word(word, s))
}

fn is_function_word(word: FunctionSpecifier, specifier: &Specifier) -> bool
    ensures { result ≡ is_function_word word specifier.now }
{
    matches!(
        (word, &specifier.kind),
        (
            FunctionSpecifier::Inline,
            SpecifierKind::Function(FunctionSpecifier::Inline)
        ) | (
            FunctionSpecifier::NoReturn,
            SpecifierKind::Function(FunctionSpecifier::NoReturn)
        )
    )
}

/// The type that specifiers name.
pub fn type_specifier<'a>(
    alloc: Global,
    specifiers: &'a [Specifier],
) -> Result<TypeSpecifier<'a>, SpecifierFault>
    ensures named { IfOk result (λ ty. named_type specifiers.now ≡ Some (named_in ty)) }
    ensures bad { result ≡ Err SpecifierFault.BadSpecifiers → named_type specifiers.now ≡ None }
{
    let Ok(words) = basic_words(alloc, specifiers) else {
        return Err(SpecifierFault::NoMemory);
    };
    let list = words.as_slice();
    let wholes = whole_count(specifiers);
    let no_word = has_no_word(list);
    let basic = type_named(list);
    let first = first_whole(specifiers);
    match choice(wholes, no_word, basic, first) {
        Some(ty) => Ok(ty),
        None => Err(SpecifierFault::BadSpecifiers),
    }
}

/// How many specifiers are types by themselves.
fn whole_count(specifiers: &[Specifier]) -> usize
    ensures { result ≡ count_by is_whole specifiers.now }
{
    specifiers.iter().filter(|s| is_whole(s)).count()
}

/// The first specifier that is a type by itself.
fn first_whole<'a>(specifiers: &'a [Specifier]) -> Option<&'a Specifier>
    ensures { option_copied result ≡ find is_whole specifiers.now }
{
    specifiers.iter().find(|s| is_whole(s))
}

fn has_no_word(words: &[BasicType]) -> bool
    ensures { result ≡ has_no_word words.now }
{
    match words {
        [] => true,
        _ => false,
    }
}

/// The one type among so many types by themselves, what the words of basic types name, and the first type by
/// itself.
fn choice<'a>(
    wholes: usize,
    no_word: bool,
    basic: Option<CType>,
    whole: Option<&'a Specifier>,
) -> Option<TypeSpecifier<'a>>
    ensures { option_map named_in result
        ≡ named_among wholes no_word basic (option_copied whole.entry) }
{
    if wholes == 0 {
        return match basic {
            Some(ty) => Some(TypeSpecifier::Basic(ty)),
            None => None,
        };
    }
    if wholes == 1 && no_word {
        return match whole {
            Some(specifier) => Some(TypeSpecifier::Whole(specifier)),
            None => None,
        };
    }
    None
}
