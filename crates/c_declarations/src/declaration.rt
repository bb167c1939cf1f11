//! What specifiers and a declarator declare together.

ghost use Rattle.std.specs.Prelude.{◌≡◌, ◌↔◌, None, All, IfOk, IfErr, OnOk, IsTrue};
ghost use Rattle.c_types.specs.Derivations.{lowest_rule};
ghost use Rattle.c_types.specs.Declarators.{Keeps, IsDerived, shape_at};
ghost use Rattle.c_types.specs.Whole.{IsPart, DerivationFits};
ghost use Rattle.c_syntax.specs.declared.expr.Specifiers.{out-Specifiers};
ghost use Rattle.c_declarations.specs.Specified.{WholeFits, rule_of_specifiers, IsCause};
ghost use Rattle.c_declarations.specs.Declarations.{rule_of, known_rule, fault_of, sized, derivations_in, rule_of_declarator, fault_at, IsDeclaredBy, IsFaultBy, IsDeclared, IsFault};

use crate::fault::DeclarationFault;
use crate::specifier_list::{Specification, specification_of};
use c_declarators::{Known, complete_outermost, derivations_of};
use c_rules::{CheckFault, Rule};
use c_specifiers::Standing;
use c_syntax::{Declarator, Specifiers};
use c_types::{Derivation, DeriveFault, ElementCount, Part, TypeRule, Types};
use std::alloc::{AllocError, Global};

/// What passes before found out about a declaration. The counts of arrays are here already computed, since they are
/// constants, which the checker of expressions works out where they stand.
#[derive(Drop)]
pub struct Found {
    /// What the specifier that is a type by itself names, or the rule that it breaks.
    pub whole: Option<Result<Part, Rule>>,
    /// The counts of arrays and the lists of parameters in the declarator.
    pub known: Known,
    /// How many elements an array has whose size the declarator doesn't say.
    pub outermost: Option<ElementCount>,
}

/// What a declaration says by one declarator.
#[derive(Clone, Copy, Debug, PartialEq, Eq)]
pub struct Declaration {
    pub said: Specification,
    pub ty: Part,
    /// The number of the name that it declares; an abstract declarator has none.
    pub name: Option<u32>,
}

/// The rule of the checker that a type breaks.
pub fn rule_of(broken: TypeRule) -> Rule
    ensures { result ≡ rule_of broken }
{
    match broken {
        TypeRule::Incomplete => Rule::IncompleteType,
        TypeRule::TooLarge => Rule::ObjectTooLarge,
        TypeRule::BadSize => Rule::BadArraySize,
        TypeRule::BadFunction => Rule::BadFunctionType,
    }
}

/// Why a declarator has no type, as the checker says it.
fn fault_of(fault: DeriveFault) -> DeclarationFault
    ensures { result ≡ fault_of fault }
{
    match fault {
        DeriveFault::Broken(broken) => DeclarationFault::Broken(rule_of(broken)),
        DeriveFault::NoMemory => DeclarationFault::NoMemory,
    }
}

/// Derivations with an outermost size that they don't say.
fn with_outermost(
    mut derivations: Vec<Derivation>,
    outermost: Option<ElementCount>,
) -> Vec<Derivation>
    ensures { result.items ≡ sized outermost derivations.items }
{
    match outermost {
        None => derivations,
        Some(count) => {
            complete_outermost(&mut derivations, count);
            derivations
        }
    }
}

/// The derivations of a declarator, where an outermost size that it doesn't say comes from elsewhere.
fn derivations_in(
    alloc: Global,
    found: &Found,
    declarator: &Declarator,
) -> Result<Vec<Derivation>, AllocError>
    ensures { IfOk result (λ ds.
        ds.items ≡ derivations_in found.now.known found.now.outermost declarator.now) }
{
    let derivations = derivations_of(alloc, &found.known, declarator)?;
    Ok(with_outermost(derivations, found.outermost))
}

/// Whether the lists of parameters that a declarator names are this table's.
pub fn knows_lists_in(
    alloc: Global,
    types: &Types,
    found: &Found,
    declarator: &Declarator,
) -> Result<bool, AllocError>
    ensures { IfOk result (λ known. IsTrue known ↔ All (DerivationFits types.now)
        (derivations_in found.now.known found.now.outermost declarator.now)) }
{
    let derivations = derivations_in(alloc, found, declarator)?;
    Ok(types.knows_lists_of(derivations.as_slice()))
}

/// The type that a declarator makes of a base type. The fault is the first of the rules that it breaks.
pub fn declarator_type(
    alloc: Global,
    types: &mut Types,
    base: Part,
    found: &Found,
    declarator: &Declarator,
) -> Result<Part, DeclarationFault>
    requires base { IsPart types.old base }
    requires lists { All (DerivationFits types.old)
        (derivations_in found.now.known found.now.outermost declarator.now) }
    ensures ty { IfOk result (IsDerived types.new base
        (derivations_in found.now.known found.now.outermost declarator.now)) }
    ensures part { IfOk result (IsPart types.new) }
    ensures fine { OnOk result
        (rule_of_declarator types.old base found.now.known found.now.outermost declarator.now ≡ None) }
    ensures fault { IfErr result (IsCause
        (rule_of_declarator types.old base found.now.known found.now.outermost declarator.now)) }
    ensures kept { Keeps types.old types.new }
{
    let Ok(derivations) = derivations_in(alloc, found, declarator) else {
        return Err(DeclarationFault::NoMemory);
    };
    derive_part(types, base, derivations.as_slice())
}

/// What derivations make of a base type, with the checker's faults.
fn derive_part(
    types: &mut Types,
    base: Part,
    derivations: &[Derivation],
) -> Result<Part, DeclarationFault>
    requires base { IsPart types.old base }
    requires lists { All (DerivationFits types.old) derivations.now }
    ensures ty { IfOk result (IsDerived types.new base derivations.now) }
    ensures part { IfOk result (IsPart types.new) }
    ensures fine { OnOk result
        (known_rule (lowest_rule (shape_at types.old base.number) None derivations.now) ≡ None) }
    ensures fault { IfErr result (IsCause
        (known_rule (lowest_rule (shape_at types.old base.number) None derivations.now))) }
    ensures kept { Keeps types.old types.new }
{
    match types.derive_all(base, derivations) {
        Ok(part) => Ok(part),
        Err(fault) => Err(fault_of(fault)),
    }
}

/// What specifiers and a declarator declare: a storage class, function specifiers, a type and a name. The fault is
/// the first rule that the specifiers break, or else the first that the declarator breaks, with the line of its
/// first token. It takes time linear in both.
///
/// Sizes and parameters inside the declarator are told as they were worked out before, with faults of their own.
/// `standing` says where the declaration stands: in a block it takes in whether a function is declared, which a
/// typedef can decide, so a caller who doesn't know asks with what this call gives.
pub fn declaration_of(
    alloc: Global,
    types: &mut Types,
    standing: Standing,
    specifiers: &Specifiers,
    found: &Found,
    declarator: &Declarator,
) -> Result<Declaration, CheckFault>
    requires whole { WholeFits types.old found.now.whole }
    requires lists { All (DerivationFits types.old)
        (derivations_in found.now.known found.now.outermost declarator.now) }
    ensures made { IfOk result
        (IsDeclared types.new standing specifiers.now found.now declarator.now) }
    ensures part { IfOk result (λ made. IsPart types.new made.ty) }
    ensures fine { OnOk result (rule_of_specifiers types.old standing
        (out-Specifiers specifiers.now).list found.now.whole ≡ None) }
    ensures fault { IfErr result
        (IsFault types.old types.new standing specifiers.now found.now declarator.now) }
    ensures kept { Keeps types.old types.new }
{
    let list = specifiers.list.as_slice();
    match specification_of(alloc, types, standing, list, found.whole) {
        Ok(said) => declared_by(alloc, types, said, found, declarator),
        Err(fault) => Err(fault_at(specifiers.span.line, fault)),
    }
}

/// What a declarator declares over what its specifiers say.
fn declared_by(
    alloc: Global,
    types: &mut Types,
    said: Specification,
    found: &Found,
    declarator: &Declarator,
) -> Result<Declaration, CheckFault>
    requires part { IsPart types.old said.ty }
    requires lists { All (DerivationFits types.old)
        (derivations_in found.now.known found.now.outermost declarator.now) }
    ensures made { IfOk result (IsDeclaredBy types.new said found.now declarator.now) }
    ensures part { IfOk result (λ made. IsPart types.new made.ty) }
    ensures fault { IfErr result (IsFaultBy types.old said found.now declarator.now) }
    ensures kept { Keeps types.old types.new }
{
    match declarator_type(alloc, types, said.ty, found, declarator) {
        Ok(ty) => Ok(Declaration {
            said,
            ty,
            name: declarator.name,
        }),
        Err(fault) => Err(fault_at(declarator.span.line, fault)),
    }
}

/// A fault of a construct that begins at this line.
fn fault_at(line: u32, fault: DeclarationFault) -> CheckFault
    ensures { result ≡ fault_at line fault }
{
    match fault {
        DeclarationFault::Broken(rule) => CheckFault::Rule { line, rule },
        DeclarationFault::NoMemory => CheckFault::NoMemory,
    }
}
