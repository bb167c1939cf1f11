//! What is found of specifiers and declarators.

ghost use Rattle.std.specs.Prelude.{◌≡◌, ◌||◌, ◌++◌, nat_lt, map, reverse, Some, IfOk, OnOk};
ghost use Rattle.std.specs.Option.{option_or};
ghost use Rattle.c_expr_rules.specs.TypedExpressions.{part_of};
ghost use Rattle.c_declarators.specs.Declarators.{pointer_derivation};
ghost use Rattle.c_file_rules.specs.Declarators.{plain, is_register_word};
ghost use Rattle.c_file_rules.specs.Suffixed.{suffix_on};
ghost use Rattle.c_file_rules.specs.Specifiers.{no_parts};
ghost use Rattle.c_file_rules.specs.Tags.{with_part, broken_in, part_or};

use crate::rules::lowest;
use bitflags::Flags;
use c_declarators::pointer_derivation;
use c_rules::Rule;
use c_scope::Scope;
use c_syntax::{Pointer, Storage};
use c_types::{Derivation, Part, Qualifiers, TypeRule};
use sqlite_items::Items;
use std::alloc::{AllocError, Global};

/// Of a list of specifiers so far: the first specifier that is a type by itself, what is broken, and whether a tag or a
/// constant is declared.
#[derive(Clone, Copy, Debug, PartialEq, Eq)]
pub struct Parts {
    pub whole: Option<Result<Part, Rule>>,
    pub broken: Option<Rule>,
    pub declares: bool,
}

/// Of a list of specifiers: its storage class, its type, and whether it declares something by itself.
#[derive(Clone, Copy, Debug, PartialEq, Eq)]
pub struct Said {
    pub storage: Option<Storage>,
    pub ty: Part,
    pub declares: bool,
}

/// A parameter: its name, the line of its declarator, and its type or the rule that its declarator breaks.
#[derive(Clone, Copy, Debug, PartialEq, Eq)]
pub struct Listed {
    pub name: Option<u32>,
    pub line: u32,
    pub ty: Result<Part, TypeRule>,
}

/// A list of parameters, with the scope that it leaves to a body.
#[derive(Drop)]
pub struct Prototype {
    pub listed: Items<Listed>,
    pub scope: Scope,
}

/// A declarator's derivations, in the order in which they are applied, and its list of parameters that is nearest to its
/// name.
#[derive(Drop)]
pub struct Formed {
    pub derivations: Items<Derivation>,
    pub prototype: Option<Prototype>,
}

/// The derivation that a suffix is, with the parameters that it lists.
#[derive(Drop)]
pub struct Suffixed {
    pub derivation: Derivation,
    pub prototype: Option<Prototype>,
}

/// Of enumeration constants: the value of the next one without an expression, and whether one with an expression was
/// declared again.
#[derive(Clone, Copy, Debug, PartialEq, Eq)]
pub struct Counted {
    pub value: u64,
    pub is_again: bool,
}

/// A part without qualifiers.
pub fn part_of(number: u32) -> Part
    ensures { result ≡ part_of number 0 }
{
    Part {
        number,
        qualifiers: Qualifiers::empty(),
    }
}

/// No specifier yet.
pub fn no_parts() -> Parts
    ensures { result ≡ no_parts }
{
    Parts {
        whole: None,
        broken: None,
        declares: false,
    }
}

fn broken_in(found: Result<Part, Rule>) -> Option<Rule>
    ensures { result ≡ broken_in found }
{
    match found {
        Ok(_) => None,
        Err(rule) => Some(rule),
    }
}

/// The first specifier that is a type by itself.
fn first_found(
    whole: Option<Result<Part, Rule>>,
    found: Result<Part, Rule>,
) -> Option<Result<Part, Rule>>
    ensures { result ≡ option_or whole (Some found) }
{
    match whole {
        Some(whole) => Some(whole),
        None => Some(found),
    }
}

/// Specifiers with one more that is a type by itself.
pub fn with_part(declares: bool, found: Result<Part, Rule>, parts: Parts) -> Parts
    ensures { result ≡ with_part declares found parts }
{
    Parts {
        whole: first_found(parts.whole, found),
        broken: lowest(parts.broken, broken_in(found)),
        declares: parts.declares || declares,
    }
}

/// A list of specifiers by how many names its scope has before it and behind it: what is declared in a size or a constant
/// counts as well.
pub fn with_declared(before: usize, after: usize, parts: Parts) -> Parts
    ensures { result ≡ record parts { declares = parts.declares || nat_lt before after } }
{
    Parts {
        declares: parts.declares || before < after,
        ..parts
    }
}

/// The type of this number, or the rule that is broken.
pub fn part_or(broken: Option<Rule>, number: u32) -> Result<Part, Rule>
    ensures { result ≡ part_or broken number }
{
    match broken {
        None => Ok(part_of(number)),
        Some(rule) => Err(rule),
    }
}

/// Whether the storage class is `register`.
pub fn is_register_word(storage: Option<Storage>) -> bool
    ensures { result ≡ is_register_word storage }
{
    matches!(storage, Some(Storage::Register))
}

/// The list of parameters that is nearer to a name, where there is one.
pub fn nearer(inner: Option<Prototype>, outer: Option<Prototype>) -> Option<Prototype>
    ensures { result ≡ option_or inner outer }
{
    match inner {
        Some(prototype) => Some(prototype),
        None => outer,
    }
}

/// The derivations of pointers, from left to right.
fn pointer_derivations(alloc: Global, pointers: &[Pointer]) -> Result<Items<Derivation>, AllocError>
    ensures { IfOk result (λ ds. ds ≡ map pointer_derivation pointers.now) }
{
    let mut derivations = Items::new(alloc);
    for pointer in pointers {
        derivations.push(pointer_derivation(pointer))?;
    }
    Ok(derivations)
}

/// Appends derivations from the last to the first.
fn append_reversed(
    derivations: &mut Items<Derivation>,
    more: &[Derivation],
) -> Result<(), AllocError>
    ensures { OnOk result (derivations.new ≡ derivations.old ++ reverse more.now) }
{
    for index in (0..more.len()).rev() {
        derivations.push(more[index])?;
    }
    Ok(())
}

/// A declarator: its pointers come first, then its suffixes from right to left, then what stands in its parentheses
/// (C11 6.7.6p4).
pub fn joined(
    alloc: Global,
    pointers: &[Pointer],
    own: Formed,
    inside: Formed,
) -> Result<Formed, AllocError>
    ensures { IfOk result (λ f. f ≡ record {
      derivations = map pointer_derivation pointers.now
          ++ reverse own.derivations ++ inside.derivations;
      prototype = option_or inside.prototype own.prototype;
    }) }
{
    let mut derivations = pointer_derivations(alloc, pointers)?;
    append_reversed(&mut derivations, own.derivations.as_slice())?;
    derivations.append(inside.derivations)?;
    Ok(Formed {
        derivations,
        prototype: nearer(inside.prototype, own.prototype),
    })
}

/// Suffixes with one more behind them.
pub fn with_suffix(own: Formed, suffix: Suffixed) -> Result<Formed, AllocError>
    ensures { IfOk result (λ more. more ≡ suffix_on own suffix) }
{
    let Formed {
        mut derivations,
        prototype,
    } = own;
    derivations.push(suffix.derivation)?;
    Ok(Formed {
        derivations,
        prototype: nearer(prototype, suffix.prototype),
    })
}

/// A declarator that has nothing but its name, or not even that.
pub fn plain(alloc: Global) -> Formed
    ensures { result ≡ plain }
{
    Formed {
        derivations: Items::new(alloc),
        prototype: None,
    }
}
