//! Each kind of refusal before the parser, with its line, and files that have none.
//!
//! The contract says that a refusal is that of the definition; these rows say which phase decides where two phases
//! have a fault: the lexer, also where the preprocessor would find one on an earlier line.

use super::*;
use std::alloc::Global;
use std::test::*;

fn answer(alloc: Global, file: &[u8]) -> Result<String, Fail> {
    match expanded_tokens(alloc, file) {
        Ok(tokens) => {
            let number = tokens.list.len();
            Ok(format!(in alloc; "{number} tokens")?)
        }
        Err(FrontFault::Refused(refusal)) => Ok(format!(in alloc; "{refusal}")?),
        Err(FrontFault::NoMemory) => Ok(format!(in alloc; "no memory")?),
    }
}

/// What a file is to the parser, or why it is refused.
#[test]
fn refusals(rt: HostRuntime) -> Result<(), Fail> {
    let table: [(&str, &[u8], &str); 14] = [
        ("nothing at all", b"", "1 tokens"),
        ("a declaration", b"int x;\n", "4 tokens"),
        ("a macro of two tokens", b"#define A 1 2\nA A", "5 tokens"),
        ("a byte of no token", b"int\n@;", "bad character at line 2"),
        (
            "a text without its end",
            b"\n\nputs(\"h",
            "unclosed at line 3",
        ),
        (
            "an octal number of nines",
            b"int x = 099;",
            "bad literal at line 1",
        ),
        (
            "a macro with parameters",
            b"#define F(x) x\n",
            "bad directive at line 1",
        ),
        (
            "a header that is not there",
            b"#include <math.h>\n",
            "unknown header at line 1",
        ),
        (
            "a lone endif",
            b"#endif\n",
            "unbalanced conditional at line 1",
        ),
        (
            "an if without its end",
            b"int x;\n#if 1\n",
            "unbalanced conditional at line 2",
        ),
        (
            "a line that is left out",
            b"#if 0\nint x;\n#endif\n",
            "1 tokens",
        ),
        (
            "a fault of the lexer in a group that is left out",
            b"#if 0\n@\n#endif\n",
            "bad character at line 2",
        ),
        (
            "a fault of the lexer before one of a directive",
            b"#endif\n@\n",
            "bad character at line 2",
        ),
        ("a splice in a word", b"in\\\nt x;", "4 tokens"),
    ];
    for (name, file, wanted) in table {
        let found = answer(rt.alloc(), file)?;
        assert_eq!(rt; found.as_str(), wanted, "{name}");
    }
    Ok(())
}
