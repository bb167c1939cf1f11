//! Each kind of token, each escape and suffix, and each fault, with where splices and comments
//! stand in them.
//!
//! The contracts say that the tokens are those of the definitions; these rows say that the
//! definitions mean C. A file is shown as its tokens: the kind, the line, `^` where it is the first
//! on its line, and the text. A fault is shown as it prints for debugging.

use super::*;
use c_rules::{Refusal, RefusalKind};
use filc_num::CIntType;
use std::alloc::{AllocError, Global};
use std::test::*;

fn shown(alloc: Global, file: &[u8]) -> Result<String, AllocError> {
    match lex(alloc, file) {
        Ok(tokens) => tokens_shown(alloc, &tokens),
        Err(fault) => format!(in alloc; "{fault:?}"),
    }
}

fn tokens_shown(alloc: Global, tokens: &Tokens) -> Result<String, AllocError> {
    let mut out = String::new(alloc);
    for token in &tokens.list {
        let line = token.line;
        let mark = if token.first { "^" } else { "" };
        let kind = token.kind;
        let head = format!(in alloc; " {kind:?}{line}{mark}:")?;
        out.push_str(head.as_str())?;
        let text = tokens.bytes.get(token.start as usize..token.end as usize);
        for b in text.unwrap_or(&[]) {
            out.push(char::from(*b))?;
        }
    }
    Ok(out)
}

#[test]
fn each_kind_of_token(rt: HostRuntime) -> Result<(), Fail> {
    let table: [(&str, &[u8], &str); 12] = [
        ("the empty file", b"", " End1^:"),
        ("a line feed alone", b"\n", " End1^:"),
        ("names", b"_a1 B", " Name1^:_a1 Name1:B End1:"),
        (
            "a keyword is a name",
            b"int\nx",
            " Name1^:int Name2^:x End2:",
        ),
        ("numbers", b"0 42", " Number1^:0 Number1:42 End1:"),
        (
            "a point before a number",
            b".5",
            " Punct1^:. Number1:5 End1:",
        ),
        ("a character", b"'a'", " Character1^:'a' End1:"),
        (
            "texts side by side",
            b"\"\"\"a\"",
            " Text1^:\"\" Text1:\"a\" End1:",
        ),
        (
            "the longest operator",
            b"a>>=b",
            " Name1^:a Punct1:>>= Name1:b End1:",
        ),
        (
            "plus plus plus",
            b"a+++b",
            " Name1^:a Punct1:++ Punct1:+ Name1:b End1:",
        ),
        ("two points are two", b"..", " Punct1^:. Punct1:. End1:"),
        (
            "white space of all kinds",
            b"a \t\x0b\x0c\rb",
            " Name1^:a Name1:b End1:",
        ),
    ];
    for (name, file, want) in table {
        let got = shown(rt.alloc(), file)?;
        assert_eq!(rt; got.as_str(), want, "{name}");
    }
    Ok(())
}

#[test]
fn splices_and_comments(rt: HostRuntime) -> Result<(), Fail> {
    let table: [(&str, &[u8], &str); 15] = [
        (
            "a splice in a name",
            b"a\\\nb c\nd",
            " Name1^:ab Name2:c Name3^:d End3:",
        ),
        ("a splice in a number", b"1\\\n2", " Number1^:12 End2:"),
        (
            "a splice in an escape",
            b"'\\\\\nn'",
            " Character1^:'\\n' End2:",
        ),
        ("a splice in a text", b"\"a\\\nb\"", " Text1^:\"ab\" End2:"),
        (
            "a splice in an operator",
            b">\\\n>\\\n=",
            " Punct1^:>>= End3:",
        ),
        (
            "a splice in a line comment",
            b"// a\\\nb\nc",
            " Name3^:c End3:",
        ),
        (
            "a splice in a comment's end",
            b"/* *\\\n/c",
            " Name2^:c End2:",
        ),
        ("splices alone", b"\\\n\\\n", " End2^:"),
        ("a comment is a space", b"a/**/b", " Name1^:a Name1:b End1:"),
        (
            "a line feed in a comment",
            b"a/*\n*/#\n#",
            " Name1^:a Punct2:# Punct3^:# End3:",
        ),
        ("a comment before the first", b"/* */#", " Punct1^:# End1:"),
        ("a line comment at the end", b"a// x", " Name1^:a End1:"),
        ("a comment in a text", b"\"/*\"//\"", " Text1^:\"/*\" End1:"),
        ("a text in a comment", b"/*\"*/a", " Name1^:a End1:"),
        ("stars before the end", b"/***/a", " Name1^:a End1:"),
    ];
    for (name, file, want) in table {
        let got = shown(rt.alloc(), file)?;
        assert_eq!(rt; got.as_str(), want, "{name}");
    }
    Ok(())
}

#[test]
fn each_fault(rt: HostRuntime) -> Result<(), Fail> {
    let table: [(&str, &[u8], &str); 21] = [
        ("a byte of no token", b"a\n@", "Bad(2)"),
        ("a zero byte", b"\0", "Bad(1)"),
        ("a file that ends inside a splice", b"a\n\\", "Bad(2)"),
        ("a byte over 127", b"\n\n\xff", "Bad(3)"),
        ("a backslash alone", b"\\ \n", "Bad(1)"),
        ("no splice before a carriage return", b"a\\\r\nb", "Bad(1)"),
        ("a name of the library", b"a\\\n\n__filc_x", "Bad(3)"),
        ("a text without its end", b"\n\"a\n\"", "Unclosed(2)"),
        ("a bad escape without its end", b"\"\\q", "Unclosed(1)"),
        ("a text that ends in a backslash", b"\"\\", "Unclosed(1)"),
        ("a character without its end", b"'ab\n", "Unclosed(1)"),
        ("a comment without its end", b"a\n/*\n*", "Unclosed(2)"),
        ("a slash that is star and end", b"/*/", "Unclosed(1)"),
        ("no character", b"''", "Literal(1)"),
        ("two characters", b"'ab'", "Literal(1)"),
        ("a bad escape", b"\"\\q\"", "Literal(1)"),
        ("an octal escape over 255", b"'\\400'", "Literal(1)"),
        ("a hexadecimal escape over 255", b"'\\x100'", "Literal(1)"),
        ("no hexadecimal digit", b"\"\\x\"", "Literal(1)"),
        ("an octal number with an 8", b"08", "Literal(1)"),
        ("the first fault decides", b"\n1.5 @", "Literal(2)"),
    ];
    for (name, file, want) in table {
        let got = shown(rt.alloc(), file)?;
        assert_eq!(rt; got.as_str(), want, "{name}");
    }
    Ok(())
}

#[test]
fn a_header_has_one_line(rt: HostRuntime) -> Result<(), Fail> {
    let tokens = lex_library(rt.alloc(), b"a\n__filc_b", 7).map_err(|_| "a fault")?;
    let got = tokens_shown(rt.alloc(), &tokens)?;
    assert_eq!(rt; got.as_str(), " Name7^:a Name7^:__filc_b End7:");
    for token in &tokens.list {
        assert!(rt; token.library);
    }
    let fault = lex_library(rt.alloc(), b"\n@", 7).err();
    assert_eq!(rt; fault, Some(LexFault::Bad(7)));
    Ok(())
}

#[test]
fn one_byte_too_many(rt: HostRuntime) -> Result<(), Fail> {
    let most = vec![in rt.alloc(); b' '; 1_048_576]?;
    let more = vec![in rt.alloc(); b'@'; 1_048_577]?;
    let got = shown(rt.alloc(), &most)?;
    assert_eq!(rt; got.as_str(), " End1^:");
    let got = shown(rt.alloc(), &more)?;
    assert_eq!(rt; got.as_str(), "TooLong");
    Ok(())
}

#[test]
fn a_megabyte_of_each(rt: HostRuntime) -> Result<(), Fail> {
    let table: [(&str, &[u8], u32, usize, u32); 4] = [
        ("one name", b"a", 1_048_576, 2, 1),
        ("tokens of one byte", b";", 1_048_576, 1_048_577, 1),
        ("splices", b"\\\n", 524_288, 1, 524_288),
        ("line feeds", b"\n", 1_048_576, 1, 1_048_576),
    ];
    for (name, part, times, count, last_line) in table {
        let mut file = Vec::new(rt.alloc());
        for _ in 0..times {
            file.extend_from_slice(part)?;
        }
        let tokens = lex(rt.alloc(), &file).map_err(|_| "a fault")?;
        assert_eq!(rt; tokens.list.len(), count, "{name}");
        let end = tokens.list.last().ok_or("no token")?;
        assert_eq!(rt; end.line, last_line, "{name}");
    }
    Ok(())
}

/// What a file becomes that is one part, a megabyte of a byte, and another part.
fn count_of(alloc: Global, before: &[u8], byte: &[u8], after: &[u8]) -> Result<String, AllocError> {
    let mut file = Vec::from_slice(alloc, before)?;
    for _ in 0..1_048_570u32 {
        file.extend_from_slice(byte)?;
    }
    file.extend_from_slice(after)?;
    match lex(alloc, &file) {
        Ok(tokens) => {
            let count = tokens.list.len();
            format!(in alloc; "{count}")
        }
        Err(fault) => format!(in alloc; "{fault:?}"),
    }
}

/// No call goes deeper with each byte: the stack would not hold a megabyte of them.
#[test]
fn a_megabyte_in_one_piece(rt: HostRuntime) -> Result<(), Fail> {
    let table: [(&str, &[u8], &[u8], &[u8], &str); 6] = [
        ("a comment", b"/*", b"x", b"*/", "1"),
        ("a comment without its end", b"/*", b"*", b"", "Unclosed(1)"),
        ("a line comment", b"//", b"x", b"\n", "1"),
        ("a text", b"\"", b"x", b"\"", "2"),
        ("a text without its end", b"\"", b"x", b"", "Unclosed(1)"),
        ("a number", b"", b"1", b"", "Literal(1)"),
    ];
    for (name, before, byte, after, want) in table {
        let got = count_of(rt.alloc(), before, byte, after)?;
        assert_eq!(rt; got.as_str(), want, "{name}");
    }
    Ok(())
}

#[test]
fn each_punctuator(rt: HostRuntime) -> Result<(), Fail> {
    let all =
        "[ ] ( ) { } . -> ++ -- & * + - ~ ! / % << >> < > <= >= == != ^ | && || ? : ; ... = *= /= %= += -= <<= >>= &= ^= |= , #";
    let tokens = lex(rt.alloc(), all.as_bytes()).map_err(|_| "a fault")?;
    let mut texts = all.split(' ');
    for token in &tokens.list {
        let text = tokens.bytes.get(token.start as usize..token.end as usize);
        if token.kind == TokenKind::Punct {
            assert_eq!(rt; text, texts.next().map(|text| text.as_bytes()));
        }
    }
    assert_eq!(rt; texts.next(), None);
    Ok(())
}

fn number(value: u64, c_type: CIntType) -> Option<Number> {
    Some(Number { value, c_type })
}

#[test]
fn each_row_of_the_table_of_types(rt: HostRuntime) {
    let table: [(&[u8], Option<Number>); 24] = [
        (b"2147483647", number(2147483647, CIntType::Int)),
        (b"2147483648", number(2147483648, CIntType::Long)),
        (
            b"9223372036854775807",
            number(9223372036854775807, CIntType::Long),
        ),
        (b"9223372036854775808", None),
        (b"0x7fffffff", number(2147483647, CIntType::Int)),
        (b"020000000000", number(2147483648, CIntType::UnsignedInt)),
        (b"0X100000000", number(4294967296, CIntType::Long)),
        (
            b"0xFFFFFFFFFFFFFFFF",
            number(u64::MAX, CIntType::UnsignedLong),
        ),
        (b"0x10000000000000000", None),
        (b"1u", number(1, CIntType::UnsignedInt)),
        (b"4294967296U", number(4294967296, CIntType::UnsignedLong)),
        (b"1l", number(1, CIntType::Long)),
        (
            b"0x8000000000000000L",
            number(1 << 63, CIntType::UnsignedLong),
        ),
        (b"1ul", number(1, CIntType::UnsignedLong)),
        (b"1LU", number(1, CIntType::UnsignedLong)),
        (b"1ll", number(1, CIntType::LongLong)),
        (b"01LL", number(1, CIntType::LongLong)),
        (
            b"0x8000000000000000ll",
            number(1 << 63, CIntType::UnsignedLongLong),
        ),
        (b"1uLL", number(1, CIntType::UnsignedLongLong)),
        (b"1llu", number(1, CIntType::UnsignedLongLong)),
        (b"1lL", None),
        (b"1lul", None),
        (b"0x", None),
        (b"0b1", None),
    ];
    for (text, want) in table {
        assert_eq!(rt; read_number(text), want);
    }
}

#[test]
fn each_escape(rt: HostRuntime) -> Result<(), Fail> {
    let table: [(&[u8], Option<u64>); 18] = [
        (b"'a'", Some(97)),
        (b"'\\''", Some(39)),
        (b"'\\\"'", Some(34)),
        (b"'\\?'", Some(63)),
        (b"'\\\\'", Some(92)),
        (b"'\\a'", Some(7)),
        (b"'\\b'", Some(8)),
        (b"'\\f'", Some(12)),
        (b"'\\n'", Some(10)),
        (b"'\\r'", Some(13)),
        (b"'\\t'", Some(9)),
        (b"'\\v'", Some(11)),
        (b"'\\0'", Some(0)),
        (b"'\\177'", Some(127)),
        (b"'\\377'", Some(u64::MAX)),
        (b"'\\x0041'", Some(65)),
        (b"'\\1234'", None),
        (b"'\x80'", Some(u64::MAX - 127)),
    ];
    for (text, want) in table {
        assert_eq!(rt; read_character(text), want);
    }
    let text = read_text(rt.alloc(), b"\"a\\1234\\x4g\"")?;
    let bytes = text.ok_or("no text")?;
    assert_eq!(rt; bytes.as_slice(), [97, 83, 52, 4, 103].as_slice());
    Ok(())
}

/// A fault is printed as the refusal of a file is, by the one table of texts.
#[test]
fn the_texts_of_faults(rt: HostRuntime) -> Result<(), Fail> {
    let alloc = rt.alloc();
    let table = [
        (LexFault::Bad(3), RefusalKind::Bad),
        (LexFault::Unclosed(3), RefusalKind::Unclosed),
        (LexFault::Literal(3), RefusalKind::Literal),
    ];
    for (fault, kind) in table {
        let refusal = Refusal { kind, line: 3 };
        let wanted = format!(in alloc; "{refusal}")?;
        let text = format!(in alloc; "{fault}")?;
        assert_eq!(rt; text, wanted);
    }
    let text = format!(in alloc; "{}", LexFault::TooLong)?;
    assert_eq!(rt; text.as_str(), RefusalKind::TooLong.text());
    Ok(())
}
