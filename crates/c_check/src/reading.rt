//! One reading of a file: its constructs, and then the rules of the whole.

ghost use Rattle.std.specs.Prelude.{◌≡◌, IfOk, IfErr, OnOk};
ghost use Rattle.c_expr_rules.specs.Views.{seen_state};
ghost use Rattle.c_check.specs.Answers.{IsClosed, IsEnding, IsReading, IsRefusedBy, refusal_of};
ghost use Rattle.c_check.specs.Answers.{answer_of};
ghost use Rattle.c_check.specs.Going.{HasGone, HasStopped, IsSameFile, IsOfFile, ahead_of};
ghost use Rattle.c_check.specs.Rounds.{tokens_of};
ghost use Rattle.c_check.specs.Tokens.{plain_tokens};
ghost use Rattle.c_file_rules.specs.Files as files;
ghost use Rattle.c_file_rules.specs.Files.{file_checked};

use crate::constructs::{Gone, go_past};
use crate::tokens::body_spelled;
use c_expr_rules::{Broken, Fault, State};
use c_file_rules::{Homes, Made};
use c_lexer::Tokens;
use c_names::{Facts, start};
use c_objects::{Ending, closing_rule, word_count};
use c_rules::CheckFault;
use c_syntax::File;

/// A file that breaks no rule, as one reading tells it: the state at its end, its functions, and
/// the number of `main`.
#[derive(Drop)]
pub struct Reading {
    pub state: State,
    pub functions: Vec<Made>,
    pub main: u32,
}

/// The answer of a broken rule.
fn refusal_of(broken: Broken) -> CheckFault
    ensures { result ≡ refusal_of broken }
{
    CheckFault::Rule {
        line: broken.line,
        rule: broken.rule,
    }
}

/// The answer of a fault.
fn answer_of(fault: Fault) -> CheckFault
    ensures { result ≡ answer_of fault }
{
    match fault {
        Fault::Broke(broken) => refusal_of(broken),
        Fault::NoMemory => CheckFault::NoMemory,
    }
}

/// Goes through the constructs of a file, where these locals of each function have their address
/// taken.
fn go_through(
    facts: &mut Facts,
    tokens: &Tokens,
    file: &File,
    taken: &[Homes],
) -> Result<Gone, Fault>
    requires of_file { IsOfFile (plain_tokens tokens.now) facts.old }
    requires bodies { facts.old.bodies ≡ files.bodies_of file.now }
    ensures gone { IfOk result (λ gone. HasGone (plain_tokens tokens.now)
        (ahead_of facts.old.kinds taken.now) file.now (seen_state gone.state)
        gone.functions.items) }
    ensures stopped { IfErr result (HasStopped (plain_tokens tokens.now)
        (ahead_of facts.old.kinds taken.now) file.now) }
    ensures kept { OnOk result (IsSameFile facts.old facts.new) }
{
    let state = start(facts.alloc, facts.bodies.len())?;
    let functions = Vec::new(facts.alloc);
    let mut gone = Gone { state, functions };
    'externals: for item in file.items.as_slice() {
        go_past(facts, tokens, taken, &mut gone, item)?;
    }
    Ok(gone)
}

/// The number of `main`, where no rule of the whole is broken.
fn close(facts: &Facts, tokens: &Tokens, gone: &Gone) -> Result<u32, CheckFault>
    ensures main { IfOk result (IsClosed (plain_tokens tokens.now) facts.now.bodies
        (seen_state gone.now.state) gone.now.functions.items) }
    ensures refused { IfErr result (IsEnding (plain_tokens tokens.now) facts.now.bodies
        (seen_state gone.now.state) gone.now.functions.items) }
{
    let main = body_spelled(tokens, &facts.bodies, b"main");
    let words = word_count(facts.alloc, &gone.state)?;
    let ending = Ending {
        functions: gone.functions.as_slice(),
        words,
        main,
    };
    match (closing_rule(facts.alloc, &gone.state, ending)?, main) {
        (Some(broken), _) => Err(refusal_of(broken)),
        (None, Some(main)) => Ok(main),
        (None, None) => unreachable!(),
    }
}

/// Goes through the constructs of a file, to the state at its end or the first rule that is
/// broken.
fn gone_through(
    facts: &mut Facts,
    tokens: &Tokens,
    file: &File,
    taken: &[Homes],
) -> Result<Gone, CheckFault>
    requires of_file { IsOfFile (plain_tokens tokens.now) facts.old }
    requires bodies { facts.old.bodies ≡ files.bodies_of file.now }
    ensures gone { IfOk result (λ gone. HasGone (plain_tokens tokens.now)
        (ahead_of facts.old.kinds taken.now) file.now (seen_state gone.state)
        gone.functions.items) }
    ensures refused { IfErr result (IsRefusedBy (file_checked (tokens_of (plain_tokens tokens.now))
        (ahead_of facts.old.kinds taken.now) file.now)) }
    ensures kept { OnOk result (IsSameFile facts.old facts.new) }
{
    match go_through(facts, tokens, file, taken) {
        Ok(gone) => Ok(gone),
        Err(fault) => Err(answer_of(fault)),
    }
}

/// One reading of a file, where these locals of each function have their address taken.
pub fn read(
    facts: &mut Facts,
    tokens: &Tokens,
    file: &File,
    taken: &[Homes],
) -> Result<Reading, CheckFault>
    requires of_file { IsOfFile (plain_tokens tokens.now) facts.old }
    requires bodies { facts.old.bodies ≡ files.bodies_of file.now }
    ensures reading { IfOk result (IsReading (plain_tokens tokens.now)
        (ahead_of facts.old.kinds taken.now) file.now) }
    ensures refused { IfErr result (IsRefusedBy (file_checked (tokens_of (plain_tokens tokens.now))
        (ahead_of facts.old.kinds taken.now) file.now)) }
    ensures kept { OnOk result (IsSameFile facts.old facts.new) }
{
    let gone = gone_through(facts, tokens, file, taken)?;
    let main = close(facts, tokens, &gone)?;
    Ok(Reading {
        state: gone.state,
        functions: gone.functions,
        main,
    })
}
