//! Values worked out by hand from the rules of C, at the edges of each type, and the printed texts.

use super::*;
use std::test::Fail;

/// An integer as it is kept.
fn kept(value: i64) -> u64 {
    value.cast_unsigned()
}

#[test]
fn conversions_at_the_edges(rt: HostRuntime) {
    let rows = [
        (
            "300 to a signed char keeps the low byte",
            300,
            IntType::I8,
            44,
        ),
        (
            "128 to a signed char wraps to the least",
            128,
            IntType::I8,
            -128,
        ),
        (
            "-1 to an unsigned char is the greatest",
            -1,
            IntType::U8,
            255,
        ),
        (
            "32768 to a short wraps to the least",
            32_768,
            IntType::I16,
            -32_768,
        ),
        ("65536 to an unsigned short is 0", 65_536, IntType::U16, 0),
        (
            "2147483648 to an int wraps to the least",
            2_147_483_648,
            IntType::I32,
            -2_147_483_648,
        ),
        (
            "-1 to an unsigned int is the greatest",
            -1,
            IntType::U32,
            4_294_967_295,
        ),
        ("-1 to a long stays", -1, IntType::I64, -1),
        ("256 to _Bool is 1, not its low bit", 256, IntType::Bool, 1),
        ("0 to _Bool is 0", 0, IntType::Bool, 0),
    ];
    for (name, from, to, wanted) in rows {
        assert_eq!(rt; convert(kept(from), to), kept(wanted), "{name}");
    }
}

#[test]
fn the_type_of_an_integer(rt: HostRuntime) {
    assert_eq!(rt; IntType::Bool.width(), 1);
    assert_eq!(rt; IntType::Bool.bytes(), 1);
    assert_eq!(rt; IntType::I32.bytes(), 4);
    assert!(rt; IntType::I16.is_signed());
    assert!(rt; !IntType::U64.is_signed());
    assert!(rt; IntType::I32.holds(2_147_483_647));
    assert!(rt; !IntType::I32.holds(2_147_483_648));
    assert!(rt; IntType::U64.holds(u64::MAX));
}

#[test]
fn the_named_types_of_c(rt: HostRuntime) {
    let rows = [
        ("_Bool", CIntType::Bool, IntType::Bool),
        ("char is signed", CIntType::Char, IntType::I8),
        ("signed char", CIntType::SignedChar, IntType::I8),
        ("unsigned short", CIntType::UnsignedShort, IntType::U16),
        ("int", CIntType::Int, IntType::I32),
        ("unsigned int", CIntType::UnsignedInt, IntType::U32),
        ("long has 64 bits", CIntType::Long, IntType::I64),
        ("and so has long long", CIntType::LongLong, IntType::I64),
    ];
    for (name, named, wanted) in rows {
        assert_eq!(rt; named.int_type(), wanted, "{name}");
    }
}

#[test]
fn arithmetic_on_int(rt: HostRuntime) {
    let least = -2_147_483_648;
    let rows = [
        (
            "the greatest and 1",
            BinOp::Add,
            2_147_483_647,
            1,
            Ok(least),
        ),
        ("the least minus 1", BinOp::Sub, least, 1, Ok(2_147_483_647)),
        ("65536 squared", BinOp::Mul, 65_536, 65_536, Ok(0)),
        (
            "the least by -1",
            BinOp::Div,
            least,
            -1,
            Err(ArithFault::Divide),
        ),
        (
            "the least by -1, remainder",
            BinOp::Rem,
            least,
            -1,
            Err(ArithFault::Divide),
        ),
        ("1 by 0", BinOp::Div, 1, 0, Err(ArithFault::Divide)),
        ("-7 by 2 rounds toward zero", BinOp::Div, -7, 2, Ok(-3)),
        ("-7 by 2, remainder", BinOp::Rem, -7, 2, Ok(-1)),
        ("7 by -2, remainder", BinOp::Rem, 7, -2, Ok(1)),
        ("-1 below 1", BinOp::Lt, -1, 1, Ok(1)),
        ("-1 above 1", BinOp::Gt, -1, 1, Ok(0)),
        ("-1 and 255", BinOp::And, -1, 255, Ok(255)),
        ("12 or 10", BinOp::Or, 12, 10, Ok(14)),
        ("12 exclusive or 10", BinOp::Xor, 12, 10, Ok(6)),
    ];
    for (name, op, a, b, wanted) in rows {
        let (a, b) = (
            convert(kept(a), IntType::I32),
            convert(kept(b), IntType::I32),
        );
        assert_eq!(rt; binary(op, IntType::I32, a, b), wanted.map(kept), "{name}");
    }
}

#[test]
fn shifts_of_int(rt: HostRuntime) {
    let rows = [
        ("left by 0", BinOp::Shl, 5, 0, Ok(5)),
        ("left by 31", BinOp::Shl, 1, 31, Ok(-2_147_483_648)),
        (
            "left by the width",
            BinOp::Shl,
            1,
            32,
            Err(ArithFault::Shift),
        ),
        ("left by -1", BinOp::Shl, 1, -1, Err(ArithFault::Shift)),
        ("right by 1 copies the sign", BinOp::Shr, -3, 1, Ok(-2)),
        ("right by 31", BinOp::Shr, -1, 31, Ok(-1)),
        (
            "right by the width",
            BinOp::Shr,
            1,
            32,
            Err(ArithFault::Shift),
        ),
    ];
    for (name, op, a, b, wanted) in rows {
        let a = convert(kept(a), IntType::I32);
        assert_eq!(rt;
            binary(op, IntType::I32, a, kept(b)),
            wanted.map(kept),
            "{name}"
        );
    }
}

#[test]
fn the_wider_and_unsigned_types(rt: HostRuntime) {
    let rows = [
        (
            "0 - 1 of unsigned int",
            BinOp::Sub,
            IntType::U32,
            0,
            1,
            Ok(4_294_967_295),
        ),
        (
            "the greatest of unsigned int by itself",
            BinOp::Div,
            IntType::U32,
            -1,
            -1,
            Ok(1),
        ),
        (
            "-1 below 1 of unsigned int",
            BinOp::Lt,
            IntType::U32,
            -1,
            1,
            Ok(0),
        ),
        (
            "unsigned int halved",
            BinOp::Shr,
            IntType::U32,
            -1,
            31,
            Ok(1),
        ),
        (
            "the greatest of long and 1",
            BinOp::Add,
            IntType::I64,
            i64::MAX,
            1,
            Ok(i64::MIN),
        ),
        (
            "the least of long by -1",
            BinOp::Div,
            IntType::I64,
            i64::MIN,
            -1,
            Err(ArithFault::Divide),
        ),
        (
            "the least of int as a long by -1",
            BinOp::Div,
            IntType::I64,
            -2_147_483_648,
            -1,
            Ok(2_147_483_648),
        ),
        ("long by 63", BinOp::Shl, IntType::I64, 1, 63, Ok(i64::MIN)),
        (
            "long by 64",
            BinOp::Shl,
            IntType::I64,
            1,
            64,
            Err(ArithFault::Shift),
        ),
        (
            "2^63 of unsigned long by -1",
            BinOp::Div,
            IntType::U64,
            i64::MIN,
            -1,
            Ok(0),
        ),
        (
            "-1 at most 1 of unsigned long",
            BinOp::Le,
            IntType::U64,
            -1,
            1,
            Ok(0),
        ),
        (
            "-1 at least 1 of unsigned long",
            BinOp::Ge,
            IntType::U64,
            -1,
            1,
            Ok(1),
        ),
    ];
    for (name, op, t, a, b, wanted) in rows {
        let (a, b) = (convert(kept(a), t), convert(kept(b), t));
        assert_eq!(rt; binary(op, t, a, b), wanted.map(kept), "{name}");
    }
}

#[test]
fn reasons_have_numbers_and_texts(rt: HostRuntime) {
    assert_eq!(rt; Reason::Bounds.text(), "out of bounds");
    assert_eq!(rt; Reason::with_number(15).map(Reason::text), Some("abort"));
    assert_eq!(rt; Reason::with_number(16), None);
    assert_eq!(rt; Reason::Divide.number(), 11);
}

#[test]
fn a_static_object_begins_as_zeros(rt: HostRuntime) -> Result<(), Fail> {
    let object = StaticDef::zeros(rt.alloc(), 9, false)?;
    assert_eq!(rt; object.words.as_slice(), [0, 0].as_slice());
    let copy = object.clone()?;
    assert_eq!(rt; copy.halves.len(), 2);
    Ok(())
}

/// The bytes 01 23 45 67 89 AB CD EF, the lowest last.
const WORD: u64 = 0x0123_4567_89AB_CDEF;

/// A byte that is read or written one place off, a width that reaches past its bytes, bytes of the value
/// above the width.
#[test]
fn bytes_within_a_word(rt: HostRuntime) {
    let rows = [
        ("the lowest byte", 0, 1, 0xEF, 0x0123_4567_89AB_CD77),
        ("the highest byte", 7, 1, 0x01, 0x7723_4567_89AB_CDEF),
        (
            "two bytes in the middle",
            3,
            2,
            0x6789,
            0x0123_4566_77AB_CDEF,
        ),
        ("the upper four", 4, 4, 0x0123_4567, 0x4455_6677_89AB_CDEF),
        ("all eight", 0, 8, WORD, 0x8899_1122_4455_6677),
    ];
    for (name, offset, width, got, put) in rows {
        assert_eq!(rt; get_bytes(WORD, offset, width), got, "{name} is read");
        assert_eq!(rt;
            put_bytes(WORD, offset, width, 0x8899_1122_4455_6677),
            put,
            "{name} is written"
        );
    }
}

#[test]
fn widths_of_an_access(rt: HostRuntime) {
    for (width, wanted) in [
        (0, false),
        (1, true),
        (2, true),
        (3, false),
        (4, true),
        (8, true),
        (16, false),
    ] {
        assert_eq!(rt; is_width(width), wanted, "{width}");
    }
}
