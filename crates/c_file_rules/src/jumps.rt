//! Jumps: what a statement stands in, and which of them may leave it (C11 6.8.6).

ghost use Rattle.std.specs.Prelude.{◌≡◌};
ghost use Rattle.c_expr_rules.specs.Outcomes as o;
ghost use Rattle.c_expr_rules.specs.Views.{Passes};
ghost use Rattle.c_file_rules.specs.Jumping.{break_checked, continue_checked};
ghost use Rattle.c_file_rules.specs.Statements.{in_loop, in_switch};

use crate::rules::obey;
use c_expr_rules::Fault;
use c_rules::Rule;
use c_tree::Stmt;

/// What a statement stands in: a loop or switch, a loop, and a function with a result of the type of this number.
#[derive(Clone, Copy, Debug, PartialEq, Eq)]
pub struct Inside {
    pub may_break: bool,
    pub may_continue: bool,
    pub result: u32,
}

/// In a loop.
pub fn in_loop(inside: Inside) -> Inside
    ensures { result ≡ in_loop inside }
{
    Inside {
        may_break: true,
        may_continue: true,
        ..inside
    }
}

/// In a switch.
pub fn in_switch(inside: Inside) -> Inside
    ensures { result ≡ in_switch inside }
{
    Inside {
        may_break: true,
        ..inside
    }
}

impl Inside {
    /// `break`, which leaves a loop or a switch.
    #[tactic(auto, using(crate::proofs::Obeying::obeys_rules))]
    pub fn break_at(self, line: u32) -> Result<Stmt, Fault>
        ensures { (s : o.State) → Passes s result (break_checked self s line) }
    {
        let rules = [(Rule::BreakOutside, !self.may_break)];
        obey(line, &rules, Stmt::Break { line })
    }

    /// `continue`, which goes on in a loop.
    #[tactic(auto, using(crate::proofs::Obeying::obeys_rules))]
    pub fn continue_at(self, line: u32) -> Result<Stmt, Fault>
        ensures { (s : o.State) → Passes s result (continue_checked self s line) }
    {
        let rules = [(Rule::ContinueOutside, !self.may_continue)];
        obey(line, &rules, Stmt::Continue { line })
    }
}
