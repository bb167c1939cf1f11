//! Each row is a call on files, sinks and a source in memory.
//!
//! A row has the words, the file `a.c`, and what must come: the ending, the bytes of standard output and the line on
//! standard error. They were worked out by hand. Where devices fail, a row says at which of their calls.

use c_rules::Rule;
use filc_io::{FileFault, Files, MemFiles, MemSink, MemSource};
use filc_num::Reason;
use filc_top::{Ending, Refusal, RefusalKind, filc};
use std::alloc::Global;
use std::process::Abort;
use std::str::from_utf8;
use std::test::Fail;

/// A call, and what is to come of it. The file is `a.c`.
#[derive(Clone, Copy)]
struct Row<'a> {
    name: &'a str,
    words: &'a [&'a str],
    file: &'a [u8],
    ending: Ending,
    out: &'a str,
    err: &'a str,
}

/// The calls of each device that fail, counted from 0, and how many bytes an output takes at a time.
#[derive(Clone, Copy)]
struct Fails<'a> {
    files: &'a [u64],
    out: &'a [u64],
    most: usize,
    err: &'a [u64],
}

const NONE: Fails = Fails {
    files: &[],
    out: &[],
    most: 700,
    err: &[],
};

const NOT_BUILT: Ending = Ending::Refused(Refusal {
    kind: RefusalKind::NotBuilt,
    line: 1,
});

const NOT_BUILT_LINE: &str = "filc: refused: not built at line 1\n";

const USAGE_LINE: &str = "filc: usage: run, threads, check or code FILE, or demo N\n";

const RUN: &[&str] = &["run", "a.c"];

const CHECK: &[&str] = &["check", "a.c"];

const CODE: &[&str] = &["code", "a.c"];

/// Makes the call, and compares what came with what the row wants.
fn check(rt: &impl Abort, alloc: Global, row: &Row<'_>, fails: &Fails<'_>) -> Result<(), Fail> {
    assert!(rt; fails.most > 0);
    let name = row.name;
    let mut files = MemFiles::new(alloc, fails.files)?;
    files.add("a.c", row.file)?;
    let mut input = MemSource::new(alloc, b"", 1, &[])?;
    let mut out = MemSink::new(alloc, 2_000_000, fails.most, fails.out)?;
    let mut err = MemSink::new(alloc, 200, 200, fails.err)?;
    let ending = filc(alloc, row.words, &mut files, &mut input, &mut out, &mut err);
    assert_eq!(rt; ending, row.ending, "{name}: the ending");
    assert_eq!(rt;
        from_utf8(out.bytes()).ok(),
        Some(row.out),
        "{name}: the output"
    );
    assert_eq!(rt;
        from_utf8(err.bytes()).ok(),
        Some(row.err),
        "{name}: the line"
    );
    Ok(())
}

/// A row on the words `run a.c` whose program exits.
fn exits<'a>(name: &'a str, file: &'a str, status: u8) -> Row<'a> {
    Row {
        name,
        words: RUN,
        file: file.as_bytes(),
        ending: Ending::Exited(status),
        out: "",
        err: "",
    }
}

/// A row on the words `run a.c` whose file is refused.
fn refused<'a>(name: &'a str, file: &'a str) -> Row<'a> {
    Row {
        name,
        words: RUN,
        file: file.as_bytes(),
        ending: NOT_BUILT,
        out: "",
        err: NOT_BUILT_LINE,
    }
}

#[test]
fn expressions_have_their_values(rt: HostRuntime) -> Result<(), Fail> {
    for row in [
        exits("a number", "int main(void){return 42;}", 42),
        exits("minus one", "int main(void){return -1;}", 255),
        exits("the least number", "int main(void){return -2147483647;}", 1),
        exits("brackets", "int main(void){return 2*(3+18);}", 42),
        exits("a sum wraps", "int main(void){return 2147483647+1;}", 0),
        exits(
            "minus binds to the left",
            "int main(void){return 9-3-2;}",
            4,
        ),
        exits("minus a minus", "int main(void){return 9- -3;}", 12),
        exits("less", "int main(void){return (1<2)+(2<2);}", 1),
        exits(
            "spaces and lines",
            " int\nmain ( void )\n{ return\n7 ; } \n",
            7,
        ),
        exits("the end of main", "int main(void){}", 0),
    ] {
        check(&rt, rt.alloc(), &row, &NONE)?;
    }
    Ok(())
}

#[test]
fn files_without_the_form_are_refused(rt: HostRuntime) -> Result<(), Fail> {
    for row in [
        refused("the empty file", ""),
        refused("a leading zero", "int main(void){return 042;}"),
        refused("too great a number", "int main(void){return 2147483648;}"),
        refused("two minus signs", "int main(void){return --1;}"),
        refused("a tab", "int main(void){return\t1;}"),
        refused("an unknown name", "int main(void){return a;}"),
        refused("a name twice", "int main(void){int a;int a;return a;}"),
        refused("a word of C", "int main(void){int if;return 1;}"),
        refused(
            "putchar is not declared",
            "int main(void){putchar(65);return 1;}",
        ),
        refused("something after it", "int main(void){return 1;};"),
    ] {
        check(&rt, rt.alloc(), &row, &NONE)?;
    }
    Ok(())
}

#[test]
fn bytes_that_are_no_text_are_refused(rt: HostRuntime) -> Result<(), Fail> {
    let row = Row {
        name: "bytes that are no text",
        words: RUN,
        file: &[255, 254, 0, 13, 10],
        ending: NOT_BUILT,
        out: "",
        err: NOT_BUILT_LINE,
    };
    check(&rt, rt.alloc(), &row, &NONE)?;
    Ok(())
}

#[test]
fn statements_run(rt: HostRuntime) -> Result<(), Fail> {
    let letters = abc("ABC", Ending::Exited(3), "ABC");
    let endless = Row {
        name: "an endless loop",
        words: &["run", "a.c", "--turns", "1000"],
        file: b"int main(void){while(1);}",
        ending: Ending::Spent,
        out: "",
        err: "filc: turns spent\n",
    };
    let before = Row {
        name: "the turns before the name",
        words: &["run", "--turns", "1000", "a.c"],
        file: b"int main(void){while(1);}",
        ending: Ending::Spent,
        out: "",
        err: "filc: turns spent\n",
    };
    let block = exits(
        "a block",
        "int main(void){int a;{a=5;{a=a*a;}}return a;}",
        25,
    );
    for row in [letters, endless, before, block] {
        check(&rt, rt.alloc(), &row, &NONE)?;
    }
    Ok(())
}

/// A row on words that are no command. Where they were taken for one, a file that returns 42 would be run.
fn usage<'a>(name: &'a str, words: &'a [&'a str]) -> Row<'a> {
    silent(
        name,
        words,
        "int main(void){return 42;}",
        Ending::Usage,
        USAGE_LINE,
    )
}

#[test]
fn a_first_word_and_a_name_are_wanted(rt: HostRuntime) -> Result<(), Fail> {
    for row in [
        usage("no word", &[]),
        usage("an empty word", &[""]),
        usage("another command", &["walk", "a.c"]),
        usage("a command in capitals", &["RUN", "a.c"]),
        usage("the front of a command", &["chec", "a.c"]),
        usage("the name first", &["a.c", "run"]),
        usage("an option first", &["--turns", "5", "run", "a.c"]),
        usage("the page of the script", &["--help"]),
        usage("the version of the script", &["--version"]),
        usage("a page of a command", &["run", "--help"]),
        usage("run alone", &["run"]),
        usage("check alone", &["check"]),
        usage("an empty name", &["run", ""]),
        usage("an empty name of a check", &["check", ""]),
        usage("a name that is an option", &["run", "-a.c"]),
        usage("a dash for a name", &["check", "-"]),
        usage("all words in one", &["run a.c"]),
        usage("a second name", &["run", "a.c", "b.c"]),
        usage("an empty word more", &["run", "a.c", ""]),
    ] {
        check(&rt, rt.alloc(), &row, &NONE)?;
    }
    Ok(())
}

#[test]
fn options_are_those_of_their_command(rt: HostRuntime) -> Result<(), Fail> {
    for row in [
        usage("an unknown option", &["run", "a.c", "--fast"]),
        usage("the front of an option", &["run", "a.c", "--turn", "5"]),
        usage("an option with one dash", &["run", "a.c", "-turns", "5"]),
        usage("a letter for an option", &["run", "a.c", "-t", "5"]),
        usage("an option to check", &["check", "-a.c"]),
        usage("turns of a check", &["check", "a.c", "--turns", "5"]),
        usage("turns without a number", &["run", "a.c", "--turns"]),
        usage("turns without a name", &["run", "--turns", "5"]),
        usage("the name in place of turns", &["run", "--turns", "a.c"]),
        usage("two numbers", &["run", "a.c", "--turns", "5", "6"]),
        usage(
            "turns twice",
            &["run", "a.c", "--turns", "5", "--turns", "5"],
        ),
    ] {
        check(&rt, rt.alloc(), &row, &NONE)?;
    }
    Ok(())
}

#[test]
fn turns_are_decimal_and_in_their_range(rt: HostRuntime) -> Result<(), Fail> {
    for row in [
        usage("no turns", &["run", "a.c", "--turns", "0"]),
        usage("one too many", &["run", "a.c", "--turns", "1000000001"]),
        usage("2^32 and one", &["run", "a.c", "--turns", "4294967297"]),
        usage(
            "2^64 and one",
            &["run", "a.c", "--turns", "18446744073709551617"],
        ),
        usage("a leading zero", &["run", "a.c", "--turns", "07"]),
        usage("an empty number", &["run", "a.c", "--turns", ""]),
        usage("a plus", &["run", "a.c", "--turns", "+5"]),
        usage("a minus", &["run", "a.c", "--turns", "-5"]),
        usage("a space", &["run", "a.c", "--turns", " 5"]),
        usage("an exponent", &["run", "a.c", "--turns", "1e3"]),
        usage("hexadecimal", &["run", "a.c", "--turns", "0x5"]),
        usage("commas", &["run", "a.c", "--turns", "1,000"]),
    ] {
        check(&rt, rt.alloc(), &row, &NONE)?;
    }
    Ok(())
}

#[test]
fn turns_may_be_few_and_many(rt: HostRuntime) -> Result<(), Fail> {
    for row in [
        silent(
            "the least number of turns",
            &["run", "a.c", "--turns", "1"],
            "int main(void){while(1);}",
            Ending::Spent,
            "filc: turns spent\n",
        ),
        silent(
            "the greatest number of turns",
            &["run", "--turns", "1000000000", "a.c"],
            "int main(void){return 42;}",
            Ending::Exited(42),
            "",
        ),
    ] {
        check(&rt, rt.alloc(), &row, &NONE)?;
    }
    Ok(())
}

/// A program that puts out `ABC` and returns 3.
const ABC: &str =
    "int putchar(int c);int main(void){int i;while(i<3){putchar(65+i);i=i+1;}return i;}";

/// A row on a file and its words, of which nothing comes but an ending and its line.
fn silent<'a>(
    name: &'a str,
    words: &'a [&'a str],
    file: &'a str,
    ending: Ending,
    err: &'a str,
) -> Row<'a> {
    Row {
        name,
        words,
        file: file.as_bytes(),
        ending,
        out: "",
        err,
    }
}

/// A row on the program that puts out `ABC`, of which an output takes this much.
fn abc<'a>(name: &'a str, ending: Ending, out: &'a str) -> Row<'a> {
    Row {
        name,
        words: RUN,
        file: ABC.as_bytes(),
        ending,
        out,
        err: "",
    }
}

#[test]
fn a_device_that_fails_ends_the_call(rt: HostRuntime) -> Result<(), Fail> {
    let answer = "int main(void){return 42;}";
    let read_fault = "filc: read fault\n";
    for (row, fails) in [
        (
            silent("the file fails", RUN, answer, Ending::ReadFault, read_fault),
            Fails {
                files: &[0],
                ..NONE
            },
        ),
        (
            silent(
                "another name",
                &["run", "b.c"],
                answer,
                Ending::ReadFault,
                read_fault,
            ),
            NONE,
        ),
        (
            silent("the line is not written", RUN, "", Ending::WriteFault, ""),
            Fails { err: &[0], ..NONE },
        ),
        (
            abc(
                "two bytes are written, and then the output fails",
                Ending::WriteFault,
                "AB",
            ),
            Fails {
                out: &[1],
                most: 2,
                ..NONE
            },
        ),
    ] {
        check(&rt, rt.alloc(), &row, &fails)?;
    }
    Ok(())
}

/// A row whose call writes a text and no line.
fn row_of_text<'a>(name: &'a str, words: &'a [&'a str], file: &'a str, out: &'a str) -> Row<'a> {
    Row {
        name,
        words,
        file: file.as_bytes(),
        ending: Ending::Listed,
        out,
        err: "",
    }
}

#[test]
fn programs_are_accepted_and_listed(rt: HostRuntime) -> Result<(), Fail> {
    let file = "int main(void){\nreturn 42;}";
    let listing =
        "filc code 1\nfunction 0 9\n0 2 Const 0 42\n1 2 Return 0\n2 1 Const 0 0\n3 1 Return 0\n";
    for row in [
        row_of_text("a program", CHECK, file, "accepted\n"),
        row_of_text("its code", CODE, file, listing),
    ] {
        check(&rt, rt.alloc(), &row, &NONE)?;
        let few = Fails { most: 2, ..NONE };
        check(&rt, rt.alloc(), &row, &few)?;
    }
    Ok(())
}

#[test]
fn broken_rules_are_told_of_both_commands(rt: HostRuntime) -> Result<(), Fail> {
    for words in [CHECK, CODE] {
        let row = Row {
            name: "an unknown name",
            words,
            file: b"int main(void){\nreturn x;}",
            ending: Ending::Refused(Refusal {
                kind: RefusalKind::Rule(Rule::UnknownName),
                line: 2,
            }),
            out: "",
            err: "filc: refused: unknown name at line 2\n",
        };
        check(&rt, rt.alloc(), &row, &NONE)?;
    }
    Ok(())
}

#[test]
fn a_check_ends_as_its_devices_do(rt: HostRuntime) -> Result<(), Fail> {
    let file = "int x=1 2;";
    let read_fault = "filc: read fault\n";
    let other = ["check", "b.c"];
    for (row, fails) in [
        (
            silent(
                "another name to check",
                &other,
                file,
                Ending::ReadFault,
                read_fault,
            ),
            NONE,
        ),
        (
            silent(
                "the file to check fails",
                CHECK,
                file,
                Ending::ReadFault,
                read_fault,
            ),
            Fails {
                files: &[0],
                ..NONE
            },
        ),
        (
            silent(
                "a refusal's line is not written",
                CHECK,
                file,
                Ending::WriteFault,
                "",
            ),
            Fails { err: &[0], ..NONE },
        ),
    ] {
        check(&rt, rt.alloc(), &row, &fails)?;
    }
    Ok(())
}

#[test]
fn a_file_is_read_once(rt: HostRuntime) -> Result<(), Fail> {
    let alloc = rt.alloc();
    let mut files = MemFiles::new(alloc, &[1])?;
    files.add("a.c", b"int main(void){return 42;}")?;
    let mut input = MemSource::new(alloc, b"", 1, &[])?;
    let mut out = MemSink::new(alloc, 10, 10, &[])?;
    let mut err = MemSink::new(alloc, 10, 10, &[])?;
    let ending = filc(alloc, RUN, &mut files, &mut input, &mut out, &mut err);
    assert_eq!(rt; ending, Ending::Exited(42));
    let second = files.read_file(alloc, "a.c");
    assert!(rt; matches!(&second, Err(FileFault::Failed)));
    Ok(())
}

#[test]
fn a_device_is_called_no_more_than_it_must(rt: HostRuntime) -> Result<(), Fail> {
    for (row, fails) in [
        (
            silent(
                "no file is read for words that are no command",
                &["walk", "a.c"],
                "int main(void){return 42;}",
                Ending::Usage,
                USAGE_LINE,
            ),
            Fails {
                files: &[0],
                ..NONE
            },
        ),
        (
            abc("all bytes are offered at once", Ending::Exited(3), "ABC"),
            Fails { out: &[1], ..NONE },
        ),
        (
            abc("all that are left are offered", Ending::Exited(3), "ABC"),
            Fails {
                out: &[2],
                most: 2,
                ..NONE
            },
        ),
    ] {
        check(&rt, rt.alloc(), &row, &fails)?;
    }
    Ok(())
}

/// `return` of 1 in so many brackets.
fn in_brackets(alloc: Global, count: usize) -> Result<Vec<u8>, Fail> {
    let mut file = Vec::from_slice(alloc, b"int main(void){return ")?;
    for _bracket in 0..count {
        file.push(b'(')?;
    }
    file.push(b'1')?;
    for _bracket in 0..count {
        file.push(b')')?;
    }
    file.extend_from_slice(b";}")?;
    Ok(file)
}

#[test]
fn brackets_nest_199_deep(rt: HostRuntime) -> Result<(), Fail> {
    let alloc = rt.alloc();
    let most = in_brackets(alloc, 199)?;
    let row = Row {
        name: "199 brackets",
        words: RUN,
        file: &most,
        ending: Ending::Exited(1),
        out: "",
        err: "",
    };
    check(&rt, alloc, &row, &NONE)?;
    let more = in_brackets(alloc, 200)?;
    let row = Row {
        name: "200 brackets",
        words: RUN,
        file: &more,
        ending: NOT_BUILT,
        out: "",
        err: NOT_BUILT_LINE,
    };
    check(&rt, alloc, &row, &NONE)?;
    Ok(())
}

#[test]
fn the_output_has_a_limit(rt: HostRuntime) -> Result<(), Fail> {
    let alloc = rt.alloc();
    let mut files = MemFiles::new(alloc, &[])?;
    files.add(
        "a.c",
        b"int putchar(int c);\nint main(void){while(1)\nputchar(66);}",
    )?;
    files.add("zeros.c", vec![in alloc; 0; 2_097_152]?.as_slice())?;
    let mut input = MemSource::new(alloc, b"", 1, &[])?;
    let mut out = MemSink::new(alloc, 2_000_000, 2_000_000, &[])?;
    let mut err = MemSink::new(alloc, 200, 200, &[])?;
    let ending = filc(alloc, RUN, &mut files, &mut input, &mut out, &mut err);
    assert_eq!(rt; ending, Ending::Trapped(Reason::OutputLimit, 3));
    assert_eq!(rt; out.bytes().len(), 1_048_576);
    let words = ["run", "zeros.c"];
    let ending = filc(alloc, &words, &mut files, &mut input, &mut out, &mut err);
    assert_eq!(rt; ending, NOT_BUILT);
    Ok(())
}
