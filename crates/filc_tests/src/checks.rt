//! `check FILE`: each kind of refusal, with its line, of the phases up to the tree, and files that are accepted.
//!
//! A row has a file and its answer, worked out by hand: `accepted`, or the text of its refusal as standard error has
//! it. The line is that of the exact token or directive. `file_rows` has the rules of the language.

use filc_io::{MemFiles, MemSink, MemSource};
use filc_top::{Ending, filc, status_of};
use std::alloc::Global;
use std::process::Abort;
use std::str::from_utf8;
use std::test::Fail;

/// The answer for a file without `main` that breaks no other rule.
pub const NO_MAIN: &str = "no main at line 1";

/// What is said of a file that is checked: the line of standard output without its line feed, or what standard error
/// says between `filc: refused: ` and the line feed.
pub fn answer(rt: &impl Abort, alloc: Global, file: &[u8]) -> Result<String, Fail> {
    let mut files = MemFiles::new(alloc, &[])?;
    files.add("a.c", file)?;
    let mut input = MemSource::new(alloc, b"", 1, &[])?;
    let mut out = MemSink::new(alloc, 200, 200, &[])?;
    let mut err = MemSink::new(alloc, 200, 200, &[])?;
    let words = ["check", "a.c"];
    let ending = filc(alloc, &words, &mut files, &mut input, &mut out, &mut err);
    let text = from_utf8(out.bytes()).unwrap_or("");
    let line = from_utf8(err.bytes()).unwrap_or("");
    if let Ending::Listed = ending {
        assert_eq!(rt; status_of(&ending), 0);
        assert_eq!(rt; line, "");
        return Ok(String::from_str(alloc, text.strip_suffix("\n").unwrap_or(""))?);
    }
    assert_eq!(rt; status_of(&ending), 68);
    assert!(rt; matches!(ending, Ending::Refused(_)));
    assert_eq!(rt; text, "");
    let rest = line.strip_prefix("filc: refused: ").unwrap_or("");
    Ok(String::from_str(alloc, rest.strip_suffix("\n").unwrap_or(""))?)
}

/// Files and the answers of each, by name.
fn compare(rt: &impl Abort, alloc: Global, rows: &[(&str, &str, &str)]) -> Result<(), Fail> {
    for (name, file, wanted) in rows {
        let found = answer(rt, alloc, file.as_bytes())?;
        assert_eq!(rt; found.as_str(), *wanted, "{name}");
    }
    Ok(())
}

#[test]
fn files_that_have_no_tokens(rt: HostRuntime) -> Result<(), Fail> {
    let rows = [
        ("a byte of no token", "int\n@;", "bad character at line 2"),
        (
            "a text without its end",
            "int puts(const char*s);\nint main(void){puts(\"h",
            "unclosed at line 2",
        ),
        ("an octal of nines", "int x=09;", "bad literal at line 1"),
        (
            "a header that is not there",
            "#include <math.h>",
            "unknown header at line 1",
        ),
        (
            "a macro with parameters",
            "#define F(x) x",
            "bad directive at line 1",
        ),
        ("a lone endif", "#endif", "unbalanced conditional at line 1"),
        (
            "an if without its end",
            "int x;\n#if 1\nint y;",
            "unbalanced conditional at line 2",
        ),
        (
            "a part behind else",
            "#if 1\n#else\n#elif 1\n#endif",
            "unbalanced conditional at line 3",
        ),
        (
            "a condition that has no value",
            "\n#if 1/0\n#endif",
            "bad directive at line 2",
        ),
        (
            "words of no directive in a group that is left out",
            "#if 0\n#nonsense\n#endif\nint x=1 2;",
            "syntax at line 4",
        ),
        (
            "a fault of the lexer behind one of the parser",
            "int x=1 2;\n@",
            "bad character at line 2",
        ),
        (
            "a lone endif behind a fault of the parser",
            "int x=1 2;\n#endif",
            "unbalanced conditional at line 2",
        ),
    ];
    compare(&rt, rt.alloc(), &rows)
}

#[test]
fn files_with_a_tree(rt: HostRuntime) -> Result<(), Fail> {
    let rows = [
        ("the empty file", "", NO_MAIN),
        ("a program", "int main(void){return 42;}", "accepted"),
        (
            "an if in an if",
            "void f(int a){if(a)if(a)a=1;else a=2;}",
            NO_MAIN,
        ),
        (
            "a name that hides a typedef",
            "typedef int T;int f(void){int T=2;return T*T;}",
            NO_MAIN,
        ),
        (
            "a typedef again behind its block",
            "typedef int T;void f(void){{int T=2;T=3;}T x;x=1;}",
            NO_MAIN,
        ),
        (
            "a parameter hides a typedef in the body",
            "typedef int T;int f(int T){return T*T;}",
            NO_MAIN,
        ),
        (
            "a switch",
            "void f(int a){switch(a){case 1:default:;}}",
            NO_MAIN,
        ),
        ("a group left out", "#if 0\nint x=1 2;\n#endif\n", NO_MAIN),
        (
            "a pointer to a function that takes one",
            "int(*(*fp)(int(*)(int),int))(char);",
            NO_MAIN,
        ),
        (
            "nested initialisers",
            "int a[2][2]={{1,2},{3,4,},};",
            NO_MAIN,
        ),
        ("a static assertion", "_Static_assert(1,\"one\");", NO_MAIN),
        (
            "a file that breaks a rule",
            "int main(void){return y;}",
            "unknown name at line 1",
        ),
    ];
    compare(&rt, rt.alloc(), &rows)
}

#[test]
fn files_without_a_tree(rt: HostRuntime) -> Result<(), Fail> {
    let rows = [
        ("a second initialiser", "int x=1 2;", "syntax at line 1"),
        (
            "a body without its end",
            "int puts(const char*s);\nint main(void){puts(\"hi\");",
            "syntax at line 2",
        ),
        (
            "a lone else",
            "void f(int a){\nelse a=1;}",
            "syntax at line 2",
        ),
        (
            "two words that are no type",
            "int f(void){T x;\nreturn 1;}",
            "syntax at line 1",
        ),
        (
            "a hidden typedef begins no declaration",
            "typedef int T;int f(void){int T=2;\nT x;return 1;}",
            "syntax at line 2",
        ),
        (
            "a typedef of a block behind it",
            "void f(void){{typedef int T;T x;}\nT y;}",
            "syntax at line 2",
        ),
        (
            "an assignment to a sum",
            "void f(int a){a+1=2;}",
            "syntax at line 1",
        ),
        (
            "a case outside of a switch",
            "void f(void){\ncase 1:;}",
            "syntax at line 2",
        ),
        (
            "a statement outside of a function",
            "\n\nreturn 1;",
            "syntax at line 3",
        ),
        ("a semicolon alone", ";", "syntax at line 1"),
        (
            "a loop without its condition",
            "void f(void){while()\n;}",
            "syntax at line 1",
        ),
        ("goto", "void f(void){\ngoto a;}", "syntax at line 2"),
        (
            "more parameters",
            "void f(int a,\n...);",
            "syntax at line 2",
        ),
        ("a lone brace", "int x;\n}", "syntax at line 2"),
        ("an end two lines later", "int x\n\n", "syntax at line 2"),
    ];
    compare(&rt, rt.alloc(), &rows)
}

/// The file whose only macro expands to 2 to the power of 23 tokens.
fn doublings(alloc: Global) -> Result<String, Fail> {
    let mut file = String::from_str(alloc, "#define a0 x x\n")?;
    for number in 1..23_u32 {
        let before = number.saturating_sub(1);
        let line = format!(in alloc; "#define a{number} a{before} a{before}\n")?;
        file.push_str(line.as_str())?;
    }
    file.push_str("a22\n")?;
    Ok(file)
}

#[test]
fn a_file_may_not_expand_without_bound(rt: HostRuntime) -> Result<(), Fail> {
    let file = doublings(rt.alloc())?;
    let found = answer(&rt, rt.alloc(), file.as_bytes())?;
    assert_eq!(rt; found.as_str(), "too many tokens at line 24");
    Ok(())
}

/// `return` of 1 in so many brackets.
fn in_brackets(alloc: Global, count: usize) -> Result<Vec<u8>, Fail> {
    let mut file = Vec::from_slice(alloc, b"int main(void){return\n")?;
    for _bracket in 0..count {
        file.push(b'(')?;
    }
    file.push(b'1')?;
    for _bracket in 0..count {
        file.push(b')')?;
    }
    file.extend_from_slice(b";}")?;
    Ok(file)
}

#[test]
fn two_hundred_constructs_may_be_open(rt: HostRuntime) -> Result<(), Fail> {
    for (count, wanted) in [(199, "accepted"), (200, "too deep at line 2")] {
        let file = in_brackets(rt.alloc(), count)?;
        let found = answer(&rt, rt.alloc(), &file)?;
        assert_eq!(rt; found.as_str(), wanted, "{count} brackets");
    }
    Ok(())
}

#[test]
fn a_file_has_a_megabyte_at_most(rt: HostRuntime) -> Result<(), Fail> {
    let alloc = rt.alloc();
    for (size, wanted) in [(1_048_576, NO_MAIN), (1_048_577, "file too long at line 1")] {
        let spaces = vec![in alloc; 32_u8; size]?;
        let found = answer(&rt, alloc, spaces.as_slice())?;
        assert_eq!(rt; found.as_str(), wanted, "{size} spaces");
    }
    Ok(())
}
