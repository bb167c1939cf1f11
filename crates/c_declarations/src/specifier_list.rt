//! What specifiers say together.

ghost use Rattle.std.specs.Prelude.{◌≡◌, ◌↔◌, Some, None, IfOk, IfErr, OnOk, IsTrue, slice_get};
ghost use Rattle.c_types.specs.declared.entry.Entry.TheVariants.{OfType};
ghost use Rattle.c_types.specs.Declarators.{Keeps, IsPlain};
ghost use Rattle.c_types.specs.Whole.{IsPart};
ghost use Rattle.c_declarations.specs.Specified.{lowest, rule_of_storage, rule_of_basic, rule_of_whole, rule_beside, rule_of_named, storage_in_list, named_in_list, rule_of_words, rule_of_specifiers, IsNamed, IsNamedWith, WholeFits, AreWords, IsSaid, IsSpecified, IsCause};

use crate::fault::DeclarationFault;
use bitflags::Flags;
use c_rules::Rule;
use c_specifiers::{
    SpecifierFault, Standing, TypeSpecifier, has_function_word, qualifiers_among, storage_class,
    type_specifier,
};
use c_syntax::{FunctionSpecifier, Specifier, Storage};
use c_type_rules::{qualify, rule_of_set, type_of};
use c_types::{CType, Part, Qualifiers, Types};
use std::alloc::{AllocError, Global};

/// What the specifiers of a declaration say.
#[derive(Clone, Copy, Debug, PartialEq, Eq)]
pub struct Specification {
    pub storage: Option<Storage>,
    /// The type that they name, with their qualifiers.
    pub ty: Part,
    pub is_inline: bool,
    pub is_no_return: bool,
}

/// By what specifiers name a type.
#[derive(Clone, Copy, Debug, PartialEq, Eq)]
pub enum Named {
    /// By words of basic types.
    Basic(CType),
    /// By a specifier that is a type by itself.
    Whole,
}

/// The words of a list of specifiers.
#[derive(Clone, Copy, Debug, PartialEq, Eq)]
pub struct Words {
    /// The storage class, or nothing where the list has none that is good.
    pub storage: Option<Option<Storage>>,
    /// By what the list names a type, or nothing where it names none.
    pub named: Option<Named>,
    pub set: Qualifiers,
}

/// The storage class of specifiers, where they are good.
fn storage_in_list(
    alloc: Global,
    standing: Standing,
    specifiers: &[Specifier],
) -> Result<Option<Option<Storage>>, AllocError>
    ensures { IfOk result (λ word. word ≡ storage_in_list standing specifiers.now) }
{
    match storage_class(alloc, standing, specifiers) {
        Ok(word) => Ok(Some(word)),
        Err(SpecifierFault::BadSpecifiers) => Ok(None),
        Err(SpecifierFault::NoMemory) => Err(AllocError),
    }
}

/// By what specifiers name a type, where they do.
fn named_in_list(alloc: Global, specifiers: &[Specifier]) -> Result<Option<Named>, AllocError>
    ensures { IfOk result (λ named. named ≡ named_in_list specifiers.now) }
{
    match type_specifier(alloc, specifiers) {
        Ok(TypeSpecifier::Basic(ty)) => Ok(Some(Named::Basic(ty))),
        Ok(TypeSpecifier::Whole(_)) => Ok(Some(Named::Whole)),
        Err(SpecifierFault::BadSpecifiers) => Ok(None),
        Err(SpecifierFault::NoMemory) => Err(AllocError),
    }
}

fn rule_of_storage(storage: Option<Option<Storage>>) -> Option<Rule>
    ensures { result ≡ rule_of_storage storage }
{
    match storage {
        None => Some(Rule::BadSpecifiers),
        Some(_) => None,
    }
}

fn rule_of_basic(ty: CType, set: Qualifiers) -> Option<Rule>
    ensures { result ≡ rule_of_basic ty set }
{
    match ty {
        CType::Void | CType::Integer(_) => rule_of_set(ty, set),
        CType::Enumeration(_)
        | CType::Pointer(_)
        | CType::ArrayOf(_)
        | CType::Function(_)
        | CType::Structure(..)
        | CType::Union(..) => Some(Rule::BadSpecifiers),
    }
}

fn rule_of_whole(types: &Types, whole: Option<Result<Part, Rule>>, set: Qualifiers) -> Option<Rule>
    ensures { result ≡ rule_of_whole types.now whole set }
{
    match whole {
        None => Some(Rule::BadSpecifiers),
        Some(Err(broken)) => Some(broken),
        Some(Ok(part)) => match type_of(types, part.number) {
            None => Some(Rule::BadSpecifiers),
            Some(ty) => rule_of_set(ty, set),
        },
    }
}

/// The rule of words that name no type, beside the one that was found at a type by itself.
fn rule_beside(whole: Option<Result<Part, Rule>>) -> Rule
    ensures { result ≡ rule_beside whole }
{
    match whole {
        Some(Err(broken)) => broken.lower_of(Rule::BadSpecifiers),
        Some(Ok(_)) | None => Rule::BadSpecifiers,
    }
}

fn rule_of_named(
    types: &Types,
    whole: Option<Result<Part, Rule>>,
    set: Qualifiers,
    named: Option<Named>,
) -> Option<Rule>
    ensures { result ≡ rule_of_named types.now whole set named }
{
    match named {
        None => Some(rule_beside(whole)),
        Some(Named::Basic(ty)) => rule_of_basic(ty, set),
        Some(Named::Whole) => rule_of_whole(types, whole, set),
    }
}

/// Of two rules the one with the lower number.
fn lowest(a: Option<Rule>, b: Option<Rule>) -> Option<Rule>
    ensures { result ≡ lowest a b }
{
    match (a, b) {
        (None, _) => b,
        (Some(_), None) => a,
        (Some(a), Some(b)) => Some(a.lower_of(b)),
    }
}

/// A part without qualifiers of its own.
fn plain_part(number: u32) -> Part
    ensures number { result.number ≡ number }
    ensures set { result.qualifiers.0 ≡ 0 }
{
    Part {
        number,
        qualifiers: Qualifiers::empty(),
    }
}

/// The number of the type that words name.
fn basic_number(types: &mut Types, ty: CType, set: Qualifiers) -> Result<u32, AllocError>
    requires { rule_of_basic ty set ≡ None }
    ensures number { IfOk result (λ n. slice_get types.new n ≡ Some (OfType ty)) }
    ensures kept { Keeps types.old types.new }
{
    match ty {
        CType::Void => types.void_type(),
        CType::Integer(kind) => types.integer_type(kind),
        CType::Enumeration(_)
        | CType::Pointer(_)
        | CType::ArrayOf(_)
        | CType::Function(_)
        | CType::Structure(..)
        | CType::Union(..) => unreachable!(),
    }
}

/// The type that words name.
fn basic_part(types: &mut Types, ty: CType, set: Qualifiers) -> Result<Part, AllocError>
    requires { rule_of_basic ty set ≡ None }
    ensures plain { IfOk result (IsPlain types.new ty) }
    ensures part { IfOk result (IsPart types.new) }
    ensures kept { Keeps types.old types.new }
{
    let number = basic_number(types, ty, set)?;
    Ok(plain_part(number))
}

/// The type that is named, without the qualifiers of the list.
fn named_part(
    types: &mut Types,
    whole: Option<Result<Part, Rule>>,
    set: Qualifiers,
    named: Option<Named>,
) -> Result<Part, AllocError>
    requires fine { rule_of_named types.old whole set named ≡ None }
    requires whole { WholeFits types.old whole }
    ensures named { IfOk result (IsNamed types.new whole named) }
    ensures part { IfOk result (IsPart types.new) }
    ensures kept { Keeps types.old types.new }
{
    match named {
        Some(Named::Basic(ty)) => basic_part(types, ty, set),
        Some(Named::Whole) => match whole {
            Some(Ok(part)) => Ok(part),
            Some(Err(_)) | None => unreachable!(),
        },
        None => unreachable!(),
    }
}

/// Whether what was found of the specifier that is a type by itself is of this table.
pub fn knows_whole(types: &Types, whole: Option<Result<Part, Rule>>) -> bool
    ensures { IsTrue result ↔ WholeFits types.now whole }
{
    match whole {
        Some(Ok(part)) => types.is_part(part),
        Some(Err(_)) | None => true,
    }
}

/// The words of a list of specifiers, each where it is a good one.
pub fn words_in(
    alloc: Global,
    standing: Standing,
    specifiers: &[Specifier],
) -> Result<Words, AllocError>
    ensures { IfOk result (AreWords standing specifiers.now) }
{
    let storage = storage_in_list(alloc, standing, specifiers)?;
    let named = named_in_list(alloc, specifiers)?;
    let set = qualifiers_among(alloc, specifiers)?;
    Ok(Words {
        storage,
        named,
        set,
    })
}

/// The first of the rules that words break, where a specifier that is a type by itself names this one.
pub fn rule_of_words(types: &Types, whole: Option<Result<Part, Rule>>, words: Words) -> Option<Rule>
    ensures { result ≡ rule_of_words types.now whole words.storage words.named words.set }
{
    lowest(
        rule_of_storage(words.storage),
        rule_of_named(types, whole, words.set, words.named),
    )
}

/// The type that words name, with their qualifiers.
fn qualified_part(
    alloc: Global,
    types: &mut Types,
    whole: Option<Result<Part, Rule>>,
    words: Words,
) -> Result<Part, AllocError>
    requires fine { rule_of_named types.old whole words.set words.named ≡ None }
    requires whole { WholeFits types.old whole }
    ensures named { IfOk result (IsNamedWith types.new whole words.named words.set) }
    ensures part { IfOk result (IsPart types.new) }
    ensures kept { Keeps types.old types.new }
{
    let plain = named_part(types, whole, words.set, words.named)?;
    qualify(alloc, types, plain, words.set)
}

/// What specifiers with these words say, which break no rule.
fn specification_by(
    alloc: Global,
    types: &mut Types,
    specifiers: &[Specifier],
    whole: Option<Result<Part, Rule>>,
    words: Words,
) -> Result<Specification, AllocError>
    requires fine { rule_of_words types.old whole words.storage words.named words.set ≡ None }
    requires whole { WholeFits types.old whole }
    ensures said { IfOk result
        (IsSaid types.new whole words.storage words.named words.set specifiers.now) }
    ensures part { IfOk result (λ s. IsPart types.new s.ty) }
    ensures kept { Keeps types.old types.new }
{
    let ty = qualified_part(alloc, types, whole, words)?;
    let storage = words.storage.unwrap_or(None);
    let is_inline = has_function_word(specifiers, FunctionSpecifier::Inline);
    let is_no_return = has_function_word(specifiers, FunctionSpecifier::NoReturn);
    Ok(Specification {
        storage,
        ty,
        is_inline,
        is_no_return,
    })
}

/// What specifiers with these words say.
fn said_by(
    alloc: Global,
    types: &mut Types,
    specifiers: &[Specifier],
    whole: Option<Result<Part, Rule>>,
    words: Words,
) -> Result<Specification, DeclarationFault>
    requires { WholeFits types.old whole }
    ensures said { IfOk result
        (IsSaid types.new whole words.storage words.named words.set specifiers.now) }
    ensures part { IfOk result (λ s. IsPart types.new s.ty) }
    ensures fine { OnOk result
        (rule_of_words types.old whole words.storage words.named words.set ≡ None) }
    ensures fault { IfErr result
        (IsCause (rule_of_words types.old whole words.storage words.named words.set)) }
    ensures kept { Keeps types.old types.new }
{
    match rule_of_words(types, whole, words) {
        Some(rule) => Err(DeclarationFault::Broken(rule)),
        None => match specification_by(alloc, types, specifiers, whole, words) {
            Ok(said) => Ok(said),
            Err(_) => Err(DeclarationFault::NoMemory),
        },
    }
}

/// What specifiers say. `whole` is what was found of the specifier that is a type by itself, if there is one: its
/// type, or the rule that it breaks. The fault is the first of the rules that the list breaks.
pub fn specification_of(
    alloc: Global,
    types: &mut Types,
    standing: Standing,
    specifiers: &[Specifier],
    whole: Option<Result<Part, Rule>>,
) -> Result<Specification, DeclarationFault>
    requires { WholeFits types.old whole }
    ensures said { IfOk result (IsSpecified types.new standing specifiers.now whole) }
    ensures part { IfOk result (λ s. IsPart types.new s.ty) }
    ensures fine { OnOk result
        (rule_of_specifiers types.old standing specifiers.now whole ≡ None) }
    ensures fault { IfErr result
        (IsCause (rule_of_specifiers types.old standing specifiers.now whole)) }
    ensures kept { Keeps types.old types.new }
{
    match words_in(alloc, standing, specifiers) {
        Ok(words) => said_by(alloc, types, specifiers, whole, words),
        Err(_) => Err(DeclarationFault::NoMemory),
    }
}
