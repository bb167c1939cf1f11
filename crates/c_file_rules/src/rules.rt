//! A construct, where it breaks no rule.

ghost use Rattle.std.specs.Prelude.{◌≡◌, ◌∷◌};
ghost use Rattle.c_expr_rules.specs.Outcomes.{◌breaks◌, first_broken};
ghost use Rattle.c_expr_rules.specs.Views.{seen_rules};
ghost use Rattle.c_file_rules.specs.Constructs.{number_in, when};
ghost use Rattle.c_file_rules.specs.Declarators.{size_number};
ghost use Rattle.c_file_rules.specs.Obeying.{Obeys};
ghost use Rattle.c_declarations.specs.Specified.{lowest};

use c_expr_rules::{Broken, Fault};
use c_rules::Rule;

/// The first of these rules that is broken.
fn first_rule(rules: &[(Rule, bool)]) -> Option<Rule>
    ensures { number_in result ≡ first_broken (seen_rules rules.now) }
{
    for (rule, is_broken) in rules {
        if *is_broken {
            return Some(*rule);
        }
    }
    None
}

/// A construct with the rules that can hold of it, in their order, and whether each is broken.
pub fn obey<A: Drop>(line: u32, rules: &[(Rule, bool)], construct: A) -> Result<A, Fault>
    ensures { Obeys result line (first_broken (seen_rules rules.now)) construct }
{
    obey_rule(line, first_rule(rules), construct)
}

/// A construct that breaks this rule, if one.
pub fn obey_rule<A: Drop>(line: u32, broken: Option<Rule>, construct: A) -> Result<A, Fault>
    ensures { Obeys result line (number_in broken) construct }
{
    match broken {
        None => Ok(construct),
        Some(rule) => Err(Fault::Broke(Broken { rule, line })),
    }
}

/// The rule, where it is broken.
pub fn when(is_broken: bool, rule: Rule) -> Option<Rule>
    ensures { result ≡ when is_broken rule }
{
    if is_broken { Some(rule) } else { None }
}

/// Of two rules the one with the lower number.
pub fn lowest(a: Option<Rule>, b: Option<Rule>) -> Option<Rule>
    ensures { result ≡ lowest a b }
{
    match (a, b) {
        (None, _) => b,
        (Some(_), None) => a,
        (Some(a), Some(b)) => Some(a.lower_of(b)),
    }
}

/// The rule that a name is declared again, where it is, and else another one.
pub fn first_of(is_again: bool, other: Option<Rule>) -> Option<Rule>
    ensures { number_in result ≡ first_broken (2 breaks is_again ∷ size_number other) }
{
    if is_again {
        Some(Rule::DeclaredAgain)
    } else {
        other
    }
}
