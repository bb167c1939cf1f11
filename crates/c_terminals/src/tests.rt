//! What the grammar sees of short files.
//!
//! The contract says that a list is that of the definition; these rows say that the definition
//! means C. They were worked out by hand. A token is shown as its terminal, a name as its number.

use super::*;
use c_lexer::{Tokens, lex};
use c_parts::Terminal;
use std::alloc::{AllocError, Global};
use std::test::*;

fn shown(alloc: Global, tokens: &Tokens) -> Result<String, AllocError> {
    let mut out = String::new(alloc);
    for lexeme in &lexemes(alloc, tokens)? {
        let terminal = lexeme.terminal;
        let name = lexeme.name;
        if terminal == Terminal::Name {
            write!(out, " {name}")?;
        } else {
            write!(out, " {terminal:?}")?;
        }
    }
    Ok(out)
}

/// Keywords and names, punctuators, and what has a text of its own.
#[test]
fn terminals(rt: HostRuntime) -> Result<(), Fail> {
    let table: [(&str, &[u8], &str); 8] = [
        ("nothing at all", b"", " End"),
        (
            "a name has the number of its first token",
            b"a = b + a;",
            " 0 Equal 2 Plus 0 Semicolon End",
        ),
        (
            "a name is no keyword that it begins with",
            b"i int ints",
            " 0 Int 2 End",
        ),
        (
            "what is no word has no name",
            b"x 1 'a' \"b\" x",
            " 0 Number Character Text 0 End",
        ),
        (
            "keywords that no production has",
            b"float goto _Generic",
            " Other Other Other End",
        ),
        (
            "punctuators that no production has",
            b"... #",
            " Other Other End",
        ),
        (
            "the longest match is one token",
            b"a->b<<=c",
            " 0 Arrow 2 ShiftLeftEqual 4 End",
        ),
        (
            "a parenthesis is one, also behind _Atomic",
            b"_Atomic(int)",
            " Atomic LeftParen Int RightParen End",
        ),
    ];
    for (name, file, wanted) in table {
        let tokens = lex(rt.alloc(), file)?;
        let found = shown(rt.alloc(), &tokens)?;
        assert_eq!(rt; found.as_str(), wanted, "{name}");
    }
    Ok(())
}

/// The line of each token, and that of the End behind it.
#[test]
fn lines(rt: HostRuntime) -> Result<(), Fail> {
    let tokens = lex(rt.alloc(), b"a\n\nb\n")?;
    let table: [(&str, usize, u32); 4] = [
        ("the first", 0, 1),
        ("the second", 1, 3),
        ("the End", 2, 3),
        ("there is no fourth", 3, 3),
    ];
    for (name, place, wanted) in table {
        assert_eq!(rt; line_at(&tokens, place), wanted, "{name}");
    }
    Ok(())
}
