//! What is found of a construct: what it is, or the first rule that is broken.

ghost use Rattle.std.specs.Prelude.{◌≡◌, Bool, map};
ghost use Rattle.std.specs.Option.{option_map};
ghost use Rattle.c_expr_rules.specs.Outcomes as o;
ghost use Rattle.c_expr_rules.specs.Outcomes.{known_in_spite, lower, first_broken};
ghost use Rattle.c_expr_rules.specs.Views.{seen_broken, seen_rules, checked, found_has, Passes};
ghost use Rattle.c_rules.specs.Rules.{number_of};

use c_rules::Rule;
use std::alloc::{AllocError, AllocFailed};

/// A broken rule, and the line of the first token of the construct that breaks it.
#[derive(Clone, Copy, Debug, PartialEq, Eq)]
pub struct Broken {
    pub rule: Rule,
    pub line: u32,
}

/// What is found of a construct where no earlier one breaks a rule.
#[derive(Drop)]
pub enum Found<A> {
    Fine(A),
    /// The construct itself breaks this rule. What is known of it in spite of that lets what stands round it look for
    /// a lower one.
    Breaks(Broken, Option<A>),
}

/// Why nothing is found.
#[derive(Clone, Copy, Debug, PartialEq, Eq)]
pub enum Fault {
    /// An earlier construct breaks this rule.
    Broke(Broken),
    NoMemory,
}

impl From<AllocError> for Fault {
    ghost use Rattle.std.specs.Prelude.{◌≡◌};
    ghost use Rattle.c_expr_rules.specs.declared.found.Fault.TheVariants.{NoMemory};

    ghost from_gives = { λ _ fault. fault ≡ NoMemory };

    fn from(_: AllocError) -> Self {
        Fault::NoMemory
    }
}

impl<T: Drop> From<AllocFailed<T>> for Fault {
    ghost use Rattle.std.specs.Prelude.{◌≡◌};
    ghost use Rattle.c_expr_rules.specs.declared.found.Fault.TheVariants.{NoMemory};

    ghost from_gives = { λ _ fault. fault ≡ NoMemory };

    fn from(_: AllocFailed<T>) -> Self {
        Fault::NoMemory
    }
}

impl<A: Drop> Found<A> {
    /// What is found, for the next construct: it is looked at where this one broke no rule.
    pub fn passed(self) -> Result<A, Fault>
        ensures { (s : o.State) → Passes s result (checked s self) }
    {
        match self {
            Found::Fine(found) => Ok(found),
            Found::Breaks(broken, _) => Err(Fault::Broke(broken)),
        }
    }
}

/// What is known of a construct that breaks a rule. The rules up to 18 leave nothing to look at, nor does a call of no
/// function or an atomic call on other operands.
fn known_in_spite<A: Drop>(rule: Rule, construct: A) -> Option<A>
    ensures { result ≡ known_in_spite (number_of rule) construct }
{
    let number = rule.number();
    if 18 < number && !(number == 20 || number == 23) {
        Some(construct)
    } else {
        None
    }
}

/// The first of these rules that is broken.
fn first_rule(rules: &[(Rule, bool)]) -> Option<Rule>
    ensures { option_map number_of result ≡ first_broken (seen_rules rules.now) }
{
    for (rule, is_broken) in rules {
        if *is_broken {
            return Some(*rule);
        }
    }
    None
}

/// A construct with the rules that can hold of it, in their order, and whether each is broken.
pub fn by_rules<A: Drop>(line: u32, rules: &[(Rule, bool)], construct: A) -> Found<A>
    ensures { (s : o.State)
        → checked s result ≡ o.by_rules line (seen_rules rules.now) s construct }
{
    match first_rule(rules) {
        None => Found::Fine(construct),
        Some(rule) => {
            let known = known_in_spite(rule, construct);
            Found::Breaks(Broken { rule, line }, known)
        }
    }
}

/// The lower of a broken rule and this one, where this one is broken too.
fn lower(rule: Rule, is_broken: bool, broken: Broken) -> Broken
    ensures { seen_broken result ≡ lower (number_of rule) is_broken (seen_broken broken) }
{
    if is_broken && rule.number() < broken.rule.number() {
        Broken {
            rule,
            line: broken.line,
        }
    } else {
        broken
    }
}

/// An expression breaks this rule too, where it does: a test of what is known of it says so.
pub fn also<A: Drop>(line: u32, rule: Rule, is_broken: bool, found: Found<A>) -> Found<A>
    ensures { (s : o.State) (test : o.State → A → Bool) → is_broken ≡ found_has (test s) found
        → checked s result ≡ o.also line (number_of rule) test (checked s found) }
{
    match found {
        Found::Fine(construct) => by_rules(line, &[(rule, is_broken)], construct),
        Found::Breaks(broken, known) => Found::Breaks(lower(rule, is_broken, broken), known),
    }
}

/// The same of a rule that a construct breaks wherever it breaks a rule by itself.
pub fn also_if_broken<A: Drop>(line: u32, rule: Rule, is_broken: bool, found: Found<A>) -> Found<A>
    ensures { (s : o.State) (test : o.State → A → Bool) → is_broken ≡ found_has (test s) found
        → checked s result ≡ o.also_if_broken line (number_of rule) test (checked s found) }
{
    match found {
        Found::Fine(construct) => by_rules(line, &[(rule, is_broken)], construct),
        Found::Breaks(broken, known) => Found::Breaks(lower(rule, true, broken), known),
    }
}
