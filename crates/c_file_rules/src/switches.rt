//! What a switch has: statements, cases and a default, by the statement where each goes on (C11 6.8.4.2).

ghost use Rattle.std.specs.Prelude.{◌≡◌, ◌∷◌, [], length, IfOk, OnOk};
ghost use Rattle.c_expr_rules.specs.Views.{Passes};
ghost use Rattle.c_expr_rules.specs.Outcomes as o;
ghost use Rattle.c_file_rules.specs.Statements.{nothing_switched, with_statements, with_case, with_default, local_as, set_local};
ghost use Rattle.c_file_rules.specs.Switching.{told_switch, switch_statement};

use crate::cases::Cases;
use crate::rules::obey;
use c_expr_rules::Fault;
use c_rules::Rule;
use c_tree::{Case, Expr, Operation, Stmt};
use filc_num::CIntType;
use sqlite_items::Items;
use std::alloc::{AllocError, Global};

/// Of a switch so far: its statements, its cases and its default.
#[derive(Drop)]
pub struct Switched {
    pub statements: Items<Stmt>,
    pub cases: Cases,
    pub other: Option<u32>,
}

/// A switch with nothing in it yet.
pub fn nothing_switched(alloc: Global) -> Switched
    ensures { result ≡ nothing_switched }
{
    Switched {
        statements: Items::new(alloc),
        cases: Cases::new(alloc),
        other: None,
    }
}

impl Switched {
    /// The index of the next statement.
    fn next(&self) -> Result<u32, AllocError>
        ensures { IfOk result (λ n.
            n ≡ length self.now.statements) }
    {
        u32::try_from(self.statements.len()).map_err(|_| AllocError)
    }

    /// Adds statements.
    pub fn add_statements(&mut self, more: Items<Stmt>) -> Result<(), AllocError>
        ensures { OnOk result (self.new ≡ with_statements more self.old) }
    {
        self.statements.append(more)
    }

    /// Adds a statement.
    pub fn add_statement(&mut self, statement: Stmt) -> Result<(), AllocError>
        ensures { OnOk result (self.new ≡ with_statements (statement ∷ []) self.old) }
    {
        self.statements.push(statement)
    }

    /// Adds a case, whose value is none of those before (p3). What is no constant adds none.
    #[tactic(auto, using(crate::proofs::Obeyed::obeyed, crate::proofs::Obeyed::broken))]
    pub fn add_case(&mut self, line: u32, value: Option<u64>) -> Result<(), Fault>
        ensures { (s : o.State)
            → Passes s (told_switch self.new result) (with_case line s value self.old) }
    {
        let Some(value) = value else {
            return Ok(());
        };
        obey(line, &[(Rule::CaseAgain, self.cases.has(value))], ())?;
        let statement = self.next()?;
        self.cases.push(Case { value, statement })?;
        Ok(())
    }

    /// Adds the default, where there is none yet.
    #[tactic(auto, using(crate::proofs::Obeyed::obeyed, crate::proofs::Obeyed::broken))]
    pub fn add_default(&mut self, line: u32) -> Result<(), Fault>
        ensures { (s : o.State)
            → Passes s (told_switch self.new result) (with_default line s self.old) }
    {
        obey(line, &[(Rule::TwoDefaults, self.other.is_some())], ())?;
        self.other = Some(self.next()?);
        Ok(())
    }

    /// The statement that goes by the value of a local of this kind. Without a default it is left.
    pub fn into_statement(
        self,
        alloc: Global,
        line: u32,
        local: u32,
        kind: CIntType,
    ) -> Result<Stmt, AllocError>
        ensures { IfOk result (λ s. s ≡ switch_statement line local kind self) }
    {
        let other = match self.other {
            Some(statement) => statement,
            None => self.next()?,
        };
        Ok(Stmt::Switch {
            line,
            value: local_as(alloc, line, local, kind)?,
            cases: self.cases.into_items(),
            other,
            body: self.statements,
        })
    }
}

/// A local's value, which has this kind (C11 6.8.4.2p5).
fn local_as(alloc: Global, line: u32, local: u32, kind: CIntType) -> Result<Expr, AllocError>
    ensures { IfOk result (λ tree. tree ≡ local_as line local kind) }
{
    let value = Expr::Apply {
        line,
        op: Operation::Local(local),
        operands: Items::new(alloc),
    };
    let mut operands = Items::new(alloc);
    operands.push(value)?;
    Ok(Expr::Apply {
        line,
        op: Operation::Convert(kind.int_type()),
        operands,
    })
}

/// A local gets the value of a switch.
pub fn set_local(alloc: Global, line: u32, local: u32, value: Expr) -> Result<Stmt, AllocError>
    ensures { IfOk result (λ s. s ≡ set_local line local value) }
{
    let mut operands = Items::new(alloc);
    operands.push(value)?;
    let value = Expr::Apply {
        line,
        op: Operation::SetLocal(local),
        operands,
    };
    Ok(Stmt::Run { value })
}
