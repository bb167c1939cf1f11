//! How many temporaries an expression needs, by its text: a function's values are bounded by them.
//!
//! A count stops at the greatest u64, which is more than any function may need.

ghost use Rattle.std.specs.Prelude.{◌≡◌};
ghost use Rattle.c_expr_rules.specs.Temporaries.{temporaries_of, operator_temporaries, type_temporaries, member_temporaries, declarator_temporaries, core_temporaries, suffix_temporaries, specifiers_temporaries, specifier_temporaries, parameter_temporaries};
ghost use Rattle.c_file_rules.specs.Values.{optional_temporaries};
ghost use Rattle.c_temporaries.specs.TemporaryLists.{as_u64, most_of_operators, most_of_arguments, most_of_links, most_of_seconds, most_of_specifiers, most_of_members, most_of_constants, most_of_declarators, most_of_suffixes, most_of_parameters};

use c_syntax::{
    Core, Declarator, EnumConstant, Expr, ExprKind, Link, Member, Parameter, Postfix, PostfixKind,
    Specifier, SpecifierKind, Specifiers, Suffix, SuffixKind, TypeName,
};

/// How many temporaries an expression needs.
#[tactic(auto, using(crate::proofs::TemporaryTrees::size_needs, crate::proofs::TemporaryTrees::align_needs))]
#[cycle(temporaries)]
pub fn temporaries_of(expr: &Expr) -> u64
    ensures { result ≡ as_u64 (temporaries_of expr.now) }
{
    match &expr.kind {
        ExprKind::Name(_) | ExprKind::Number | ExprKind::Character | ExprKind::Text => 1,
        ExprKind::Parens(operand) => temporaries_of(operand.get()),
        ExprKind::SizeofExpr(operand) => temporaries_of(operand.get()),
        ExprKind::Prefix { operand, .. } => temporaries_of(operand.get()),
        ExprKind::SizeofType(name) => type_temporaries(name.get()).max(1),
        ExprKind::AlignofType(name) => type_temporaries(name.get()).max(1),
        ExprKind::Postfix { operand, operators } => {
            temporaries_of(operand.get()).max(operators_temporaries(operators.as_slice()))
        }
        ExprKind::Cast { ty, operand } => {
            type_temporaries(ty.get()).max(temporaries_of(operand.get()))
        }
        ExprKind::Chain { first, links } => {
            temporaries_of(first.get()).max(links_temporaries(links.as_slice()))
        }
        ExprKind::Conditional {
            condition,
            then,
            otherwise,
        } => {
            let one = temporaries_of(then.get()).saturating_add(1);
            let other = temporaries_of(otherwise.get()).saturating_add(2);
            temporaries_of(condition.get()).max(one.max(other))
        }
        ExprKind::Assign { target, value, .. } => {
            let right = temporaries_of(value.get()).saturating_add(1);
            temporaries_of(target.get()).max(right)
        }
        ExprKind::Comma { first, rest } => {
            temporaries_of(first.get()).max(seconds_temporaries(rest.as_slice()))
        }
    }
}

#[cycle(temporaries)]
fn operators_temporaries(operators: &[Postfix]) -> u64
    ensures { result ≡ as_u64 (most_of_operators operators.now) }
{
    let mut most = 0;
    'operators: for operator in operators {
        most = operator_temporaries(&operator.kind).max(most);
    }
    most
}

#[tactic(auto, using(crate::proofs::TemporaryTrees::index_needs))]
#[cycle(temporaries)]
fn operator_temporaries(kind: &PostfixKind) -> u64
    ensures { result ≡ as_u64 (operator_temporaries kind.now) }
{
    match kind {
        PostfixKind::Index(index) => temporaries_of(index.get()).saturating_add(1),
        PostfixKind::Call(arguments) => arguments_temporaries(arguments.as_slice()),
        PostfixKind::Member(_)
        | PostfixKind::Arrow(_)
        | PostfixKind::Increment
        | PostfixKind::Decrement => 0,
    }
}

/// Of the arguments of a call, of which the first is operand number 1.
#[cycle(temporaries)]
fn arguments_temporaries(arguments: &[Expr]) -> u64
    ensures { result ≡ as_u64 (most_of_arguments 1 arguments.now) }
{
    let mut most = 0;
    let mut index = 1;
    'arguments: for argument in arguments {
        let needed = temporaries_of(argument).saturating_add(index);
        most = needed.max(most);
        index = index.saturating_add(1);
    }
    most
}

#[cycle(temporaries)]
fn links_temporaries(links: &[Link]) -> u64
    ensures { result ≡ as_u64 (most_of_links links.now) }
{
    let mut most = 0;
    'links: for link in links {
        let needed = temporaries_of(&link.operand).saturating_add(1);
        most = needed.max(most);
    }
    most
}

#[cycle(temporaries)]
fn seconds_temporaries(rest: &[Expr]) -> u64
    ensures { result ≡ as_u64 (most_of_seconds rest.now) }
{
    let mut most = 0;
    'rest: for next in rest {
        let needed = temporaries_of(next).saturating_add(1);
        most = needed.max(most);
    }
    most
}

/// The greatest need of the expressions in a type name.
#[tactic(auto, using(crate::proofs::TemporaryTrees::type_needs))]
#[cycle(temporaries)]
fn type_temporaries(name: &TypeName) -> u64
    ensures { result ≡ as_u64 (type_temporaries name.now) }
{
    let specified = specifiers_temporaries(&name.specifiers);
    specified.max(declarator_temporaries(&name.declarator))
}

/// The greatest need of the expressions in specifiers.
#[cycle(temporaries)]
pub fn specifiers_temporaries(specifiers: &Specifiers) -> u64
    ensures { result ≡ as_u64 (specifiers_temporaries specifiers.now) }
{
    list_temporaries(specifiers.list.as_slice())
}

#[cycle(temporaries)]
fn specifier_temporaries(kind: &SpecifierKind) -> u64
    ensures { result ≡ as_u64 (specifier_temporaries kind.now) }
{
    match kind {
        SpecifierKind::Atomic(name) => type_temporaries(name.get()),
        SpecifierKind::Record { members, .. } => match members {
            None => 0,
            Some(list) => members_temporaries(list.as_slice()),
        },
        SpecifierKind::Enum { constants, .. } => match constants {
            None => 0,
            Some(list) => constants_temporaries(list.as_slice()),
        },
        SpecifierKind::Storage(_)
        | SpecifierKind::Function(_)
        | SpecifierKind::Qualifier(_)
        | SpecifierKind::Basic(_)
        | SpecifierKind::TypedefName(_) => 0,
    }
}

/// Of an expression that may be left out, such as the size of an array.
#[cycle(temporaries)]
pub fn optional_temporaries(expr: &Option<Expr>) -> u64
    ensures { result ≡ as_u64 (optional_temporaries expr.now) }
{
    match expr {
        None => 0,
        Some(expr) => temporaries_of(expr),
    }
}

#[cycle(temporaries)]
fn member_temporaries(member: &Member) -> u64
    ensures { result ≡ as_u64 (member_temporaries member.now) }
{
    match member {
        Member::Declares {
            specifiers,
            declarators,
            ..
        } => {
            let specified = specifiers_temporaries(specifiers);
            specified.max(declarators_temporaries(declarators.as_slice()))
        }
        Member::Asserts(assertion) => temporaries_of(&assertion.condition),
    }
}

/// The greatest need of the expressions in a declarator.
#[tactic(auto, using(crate::proofs::TemporaryTrees::declarator_needs))]
#[cycle(temporaries)]
pub fn declarator_temporaries(declarator: &Declarator) -> u64
    ensures { result ≡ as_u64 (declarator_temporaries declarator.now) }
{
    let inside = core_temporaries(&declarator.core);
    inside.max(suffixes_temporaries(declarator.suffixes.as_slice()))
}

#[cycle(temporaries)]
fn core_temporaries(core: &Core) -> u64
    ensures { result ≡ as_u64 (core_temporaries core.now) }
{
    match core {
        Core::Parens(inner) => declarator_temporaries(inner.get()),
        Core::Name { .. } | Core::Nothing => 0,
    }
}

#[cycle(temporaries)]
fn suffix_temporaries(kind: &SuffixKind) -> u64
    ensures { result ≡ as_u64 (suffix_temporaries kind.now) }
{
    match kind {
        SuffixKind::Array(size) => optional_temporaries(size),
        SuffixKind::Function { parameters, .. } => parameters_temporaries(parameters.as_slice()),
    }
}

#[cycle(temporaries)]
fn list_temporaries(specifiers: &[Specifier]) -> u64
    ensures { result ≡ as_u64 (most_of_specifiers specifiers.now) }
{
    let mut most = 0;
    'specifiers: for specifier in specifiers {
        most = specifier_temporaries(&specifier.kind).max(most);
    }
    most
}

#[cycle(temporaries)]
fn members_temporaries(members: &[Member]) -> u64
    ensures { result ≡ as_u64 (most_of_members members.now) }
{
    let mut most = 0;
    'members: for member in members {
        most = member_temporaries(member).max(most);
    }
    most
}

#[tactic(auto, using(crate::proofs::TemporaryTrees::constant_needs))]
#[cycle(temporaries)]
fn constants_temporaries(constants: &[EnumConstant]) -> u64
    ensures { result ≡ as_u64 (most_of_constants constants.now) }
{
    let mut most = 0;
    'constants: for constant in constants {
        most = optional_temporaries(&constant.value).max(most);
    }
    most
}

#[cycle(temporaries)]
fn declarators_temporaries(declarators: &[Declarator]) -> u64
    ensures { result ≡ as_u64 (most_of_declarators declarators.now) }
{
    let mut most = 0;
    'declarators: for declarator in declarators {
        most = declarator_temporaries(declarator).max(most);
    }
    most
}

#[cycle(temporaries)]
fn suffixes_temporaries(suffixes: &[Suffix]) -> u64
    ensures { result ≡ as_u64 (most_of_suffixes suffixes.now) }
{
    let mut most = 0;
    'suffixes: for suffix in suffixes {
        most = suffix_temporaries(&suffix.kind).max(most);
    }
    most
}

#[cycle(temporaries)]
fn parameters_temporaries(parameters: &[Parameter]) -> u64
    ensures { result ≡ as_u64 (most_of_parameters parameters.now) }
{
    let mut most = 0;
    'parameters: for parameter in parameters {
        most = parameter_temporaries(parameter).max(most);
    }
    most
}

#[tactic(auto, using(crate::proofs::TemporaryTrees::parameter_needs))]
#[cycle(temporaries)]
fn parameter_temporaries(parameter: &Parameter) -> u64
    ensures { result ≡ as_u64 (parameter_temporaries parameter.now) }
{
    let specified = specifiers_temporaries(&parameter.specifiers);
    specified.max(declarator_temporaries(&parameter.declarator))
}
