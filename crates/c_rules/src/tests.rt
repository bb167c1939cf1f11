//! What a fault prints, and the ends of the table.

use super::*;
use std::format;
use std::test::Fail;

#[test]
fn a_fault_tells_its_rule_and_its_line(rt: HostRuntime) -> Result<(), Fail> {
    let fault = CheckFault::Rule {
        line: 3,
        rule: Rule::UnknownName,
    };
    assert_eq!(rt;
        format!(in rt.alloc(); "{fault}")?.as_str(),
        "unknown name at line 3"
    );
    assert_eq!(rt; Rule::NoMain.text(), "no main");
    assert_eq!(rt; Rule::NothingDeclared.number(), 40);
    assert_eq!(rt;
        Rule::BadSpecifiers.lower_of(Rule::WrongTag),
        Rule::BadSpecifiers
    );
    Ok(())
}

#[test]
fn a_refusal_is_printed_with_its_line(rt: HostRuntime) -> Result<(), Fail> {
    let refusal = Refusal {
        kind: RefusalKind::Header,
        line: 12,
    };
    let printed = format!(in rt.alloc(); "{refusal}")?;
    assert_eq!(rt; printed.as_str(), "unknown header at line 12");
    Ok(())
}
