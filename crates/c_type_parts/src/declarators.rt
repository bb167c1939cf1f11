//! Declarators over their base types, and the sizes of arrays (C11 6.7.6).

ghost use Rattle.std.specs.Prelude.{◌≡◌, [], OnOk};
ghost use Rattle.c_expr_rules.specs.Contexts.{constant_in};
ghost use Rattle.c_expr_rules.specs.Views.{seen_state, Passes, Grows};
ghost use Rattle.c_file_rules.specs.Declarators.{declarator_type, is_positive, size_rule, size_derivation};

use c_expr_rules::{Fault, State, type_at};
use c_file_rules::obey;
use c_names::{derived, rule_of_derivations};
use c_rules::Rule;
use c_types::{Derivation, Part, TypeFault, extent_of};

/// The rule that an object of this type breaks, which has to have a size.
pub fn size_rule(state: &State, part: Part) -> Option<Rule>
    ensures { result ≡ size_rule (seen_state state.now) part }
{
    match extent_of(&type_at(state, part.number)) {
        Ok(_) => None,
        Err(TypeFault::Incomplete) => Some(Rule::IncompleteType),
        Err(TypeFault::TooLarge) => Some(Rule::ObjectTooLarge),
    }
}

/// A declarator's type over its base. Where it has none, it is declared again if no type would do.
pub fn declared_type(
    state: &mut State,
    line: u32,
    is_again: bool,
    base: Part,
    derivations: &[Derivation],
) -> Result<Part, Fault>
    ensures found { Passes (seen_state state.new) result
        (declarator_type line is_again (seen_state state.old) base derivations.now (λ s p. [])) }
    ensures grows { OnOk result (Grows state.old state.new) }
{
    match rule_of_derivations(state, base, derivations) {
        Some(broken) => {
            let rules = [(Rule::DeclaredAgain, is_again), (broken, true)];
            obey(line, &rules, base)
        }
        None => Ok(derived(&mut state.types, base, derivations)?),
    }
}
