//! A worked line for each event, allowed and not, on one memory after another.

use super::*;
use filc_num::{BinOp, IntType, Reason};
use ideal_machine::{Access, Answer, Event, Found, Half, Kept, Operation, Seen};
use std::test::Fail;

/// Where the first object lies.
const PLACE: u64 = 1_048_576;

fn access(offset: u64, width: u32) -> Access {
    Access {
        object: 0,
        offset,
        width,
    }
}

fn read(address: u64, width: u32) -> Event {
    Event::Check {
        half: Half::Object(0),
        address,
        width,
        write: false,
    }
}

fn write(address: u64, width: u32) -> Event {
    Event::Check {
        half: Half::Object(0),
        address,
        width,
        write: true,
    }
}

fn half_of(word: u32) -> Event {
    Event::GetHalf { object: 0, word }
}

fn integer_of(offset: u64, width: u32) -> Event {
    Event::GetInt {
        access: access(offset, width),
    }
}

fn set(offset: u64, width: u32, value: u64) -> Event {
    Event::SetInt {
        access: access(offset, width),
        value,
    }
}

const BEGIN: Event = Event::Begin {
    function: 0,
    address: 0,
    half: Half::Nothing,
};

const NEW: Event = Event::New { bytes: 16, kind: 0 };

/// A program may do nothing before it has begun.
#[test]
fn a_byte_is_put_out_after_the_beginning(rt: HostRuntime) -> Result<(), Fail> {
    let mut ideal = Ideal::new(rt.alloc(), &[], 0)?;
    let out = Event::Out { byte: 65 };
    assert!(rt; !ideal_step(rt.alloc(), &mut ideal, b"", 0, &out, &Answer::Done)?);
    assert!(rt; ideal_step(rt.alloc(), &mut ideal, b"", 0, &BEGIN, &Answer::Done)?);
    assert!(rt; ideal_step(rt.alloc(), &mut ideal, b"", 0, &out, &Answer::Done)?);
    assert_eq!(rt; ideal.output(), [65].as_slice());
    Ok(())
}

/// Bounds without the width, a sum that wraps, bytes of the value above the width, a read of other bytes.
#[test]
fn integers(rt: HostRuntime) -> Result<(), Fail> {
    let mut ideal = Ideal::new(rt.alloc(), &[], 0)?;
    let add = Event::RmwInt {
        access: access(8, 4),
        operation: Operation::Compute(BinOp::Add, IntType::I32, IntType::I32),
        value: 41,
    };
    let exchange = Event::CasInt {
        access: access(8, 4),
        expected: 42,
        desired: 6,
    };
    let lock = Event::Lock {
        object: 0,
        offset: 0,
    };
    let rows = [
        ("the beginning", BEGIN, Answer::Done, true),
        ("a second one", BEGIN, Answer::Done, false),
        (
            "a first object below the heap",
            NEW,
            Answer::Made(0, 65_528),
            false,
        ),
        ("between two words", NEW, Answer::Made(0, PLACE + 4), false),
        (
            "with the second's number",
            NEW,
            Answer::Made(1, PLACE),
            false,
        ),
        ("as it may be", NEW, Answer::Made(0, PLACE), true),
        ("none", NEW, Answer::Absent, true),
        (
            "its last word is read",
            read(PLACE + 8, 8),
            Answer::Granted,
            true,
        ),
        ("a byte too far", read(PLACE + 9, 8), Answer::Granted, false),
        (
            "which is refused",
            read(PLACE + 9, 8),
            Answer::Refused(Reason::Bounds),
            true,
        ),
        (
            "past the greatest address",
            read(u64::MAX - 7, 8),
            Answer::Refused(Reason::Bounds),
            true,
        ),
        (
            "off by two",
            read(PLACE + 2, 4),
            Answer::Refused(Reason::Alignment),
            true,
        ),
        ("of three bytes", read(PLACE, 3), Answer::Granted, false),
        (
            "want of a cell to a read",
            read(PLACE, 8),
            Answer::Refused(Reason::NoCell),
            false,
        ),
        (
            "to a write",
            write(PLACE, 8),
            Answer::Refused(Reason::NoCell),
            true,
        ),
        (
            "to a narrow one",
            write(PLACE, 4),
            Answer::Refused(Reason::NoCell),
            false,
        ),
        (
            "a value with high bytes",
            set(8, 4, 0xFFFF_FFFF_0000_0001),
            Answer::Done,
            true,
        ),
        (
            "leaves those above",
            integer_of(8, 8),
            Answer::Number(1),
            true,
        ),
        (
            "another integer",
            integer_of(8, 8),
            Answer::Number(2),
            false,
        ),
        ("a write past the end", set(16, 1, 0), Answer::Done, false),
        ("an addition", add, Answer::Number(1), true),
        ("is made", integer_of(8, 4), Answer::Number(42), true),
        ("an exchange", exchange, Answer::Number(42), true),
        ("was made", integer_of(8, 4), Answer::Number(6), true),
        ("not again", exchange, Answer::Number(6), true),
        ("so it stays", integer_of(8, 4), Answer::Number(6), true),
        ("a lock", lock, Answer::Done, true),
        ("that is taken", lock, Answer::Done, false),
        ("is 1", integer_of(0, 4), Answer::Number(1), true),
    ];
    for (name, event, answer, allowed) in rows {
        let made = ideal_step(rt.alloc(), &mut ideal, b"", 0, &event, &answer)?;
        assert_eq!(rt; made, allowed, "{name}");
    }
    Ok(())
}

/// An integer store that clears the half, Freed that is shown too early, pairs that get one number.
#[test]
fn halves(rt: HostRuntime) -> Result<(), Fail> {
    let mut ideal = Ideal::new(rt.alloc(), &[], 0)?;
    let object = Found::Plain(Half::Object(0));
    let store = Event::SetHalf {
        object: 0,
        word: 1,
        half: Kept::Plain(Half::Object(0)),
    };
    let pair = Event::SetHalf {
        object: 0,
        word: 0,
        half: Kept::Pair(5, Half::Object(0)),
    };
    let exchange = Event::CasHalf {
        object: 0,
        word: 0,
        seen: Seen::Found(Found::Pair(1)),
        new: Kept::Plain(Half::Nothing),
    };
    let free = Event::Void {
        half: Half::Object(0),
        address: PLACE,
    };
    let size = Event::Size {
        half: Half::Object(0),
        address: PLACE,
    };
    let open = Event::Open { pair: 1 };
    let rows = [
        ("the beginning", BEGIN, Answer::Done, true),
        ("an object", NEW, Answer::Made(0, PLACE), true),
        ("a half is stored", store, Answer::Done, true),
        ("an integer beside it", set(8, 8, 7), Answer::Done, true),
        ("leaves it", half_of(1), Answer::Found(object), true),
        (
            "it isn't freed",
            half_of(1),
            Answer::Found(Found::Plain(Half::Freed)),
            false,
        ),
        ("a pair", pair, Answer::Done, true),
        ("another", pair, Answer::Done, true),
        (
            "has the next number",
            half_of(0),
            Answer::Found(Found::Pair(1)),
            true,
        ),
        (
            "and no other",
            half_of(0),
            Answer::Found(Found::Pair(0)),
            false,
        ),
        (
            "it is opened",
            open,
            Answer::Opened(5, Half::Object(0)),
            true,
        ),
        (
            "with its address",
            open,
            Answer::Opened(6, Half::Object(0)),
            false,
        ),
        (
            "it is exchanged",
            exchange,
            Answer::Found(Found::Pair(1)),
            true,
        ),
        (
            "for nothing",
            half_of(0),
            Answer::Found(Found::Plain(Half::Nothing)),
            true,
        ),
        (
            "a third word",
            half_of(2),
            Answer::Found(Found::Plain(Half::Nothing)),
            false,
        ),
        ("the size", size, Answer::Number(16), true),
        ("a free", free, Answer::Granted, true),
        ("a second one", free, Answer::Granted, false),
        ("is refused", free, Answer::Refused(Reason::Freed), true),
        ("no size", size, Answer::Refused(Reason::Freed), true),
        (
            "Freed may be shown",
            half_of(1),
            Answer::Found(Found::Plain(Half::Freed)),
            true,
        ),
        ("or not", half_of(1), Answer::Found(object), true),
        ("in a pair too", open, Answer::Opened(5, Half::Freed), true),
    ];
    for (name, event, answer, allowed) in rows {
        let made = ideal_step(rt.alloc(), &mut ideal, b"", 0, &event, &answer)?;
        assert_eq!(rt; made, allowed, "{name}");
    }
    Ok(())
}

/// A new object that covers a freed one, or doesn't cover one that isn't freed.
#[test]
fn covered_objects(rt: HostRuntime) -> Result<(), Fail> {
    let mut ideal = Ideal::new(rt.alloc(), &[], 0)?;
    let free = Event::Void {
        half: Half::Object(0),
        address: PLACE,
    };
    let second = Event::Name {
        half: Half::Object(1),
        address: 0,
    };
    let empty = Event::New { bytes: 0, kind: 0 };
    let rows = [
        ("the beginning", BEGIN, Answer::Done, true),
        ("an object", NEW, Answer::Made(0, PLACE), true),
        ("is freed", free, Answer::Granted, true),
        ("one over it", NEW, Answer::Made(1, PLACE), true),
        ("leaves it apart", integer_of(0, 8), Answer::Number(0), true),
        (
            "one behind the second",
            empty,
            Answer::Made(2, PLACE + 16),
            true,
        ),
        ("doesn't cover it", second, Answer::Done, true),
        (
            "one of no bytes on it",
            empty,
            Answer::Made(3, PLACE + 8),
            true,
        ),
        ("covers it", second, Answer::Done, false),
    ];
    for (name, event, answer, allowed) in rows {
        let made = ideal_step(rt.alloc(), &mut ideal, b"", 0, &event, &answer)?;
        assert_eq!(rt; made, allowed, "{name}");
    }
    Ok(())
}

/// A join that leaves the generation, an id given twice, an event of a thread that doesn't run.
#[test]
fn threads_and_the_outside(rt: HostRuntime) -> Result<(), Fail> {
    let mut ideal = Ideal::new(rt.alloc(), &[], 0)?;
    let spawn = Event::Spawn {
        function: 2,
        address: 9,
        half: Half::Nothing,
    };
    let begin = Event::Begin {
        function: 2,
        address: 9,
        half: Half::Nothing,
    };
    let end = Event::End { result: 5 };
    let join = Event::Join { id: 1 };
    let trap = Event::Trap {
        reason: Reason::Divide,
        line: 3,
    };
    let rows = [
        ("the beginning", 0, BEGIN, Answer::Done, true),
        ("a spawn", 0, spawn, Answer::Number(1), true),
        ("with the same id", 0, spawn, Answer::Number(1), false),
        ("with none", 0, spawn, Answer::Absent, true),
        ("an early end", 1, end, Answer::Done, false),
        ("it begins as another", 1, BEGIN, Answer::Done, false),
        ("it begins", 1, begin, Answer::Done, true),
        ("an early join", 0, join, Answer::Number(5), false),
        ("the end", 1, end, Answer::Done, true),
        ("another result", 0, join, Answer::Number(6), false),
        ("none", 0, join, Answer::Absent, false),
        ("the result", 0, join, Answer::Number(5), true),
        ("once", 0, join, Answer::Number(5), false),
        ("then none", 0, join, Answer::Absent, true),
        ("the old id", 0, spawn, Answer::Number(1), false),
        ("the next id", 0, spawn, Answer::Number(65), true),
        (
            "the second byte",
            0,
            Event::Input,
            Answer::Number(98),
            false,
        ),
        ("the first byte", 0, Event::Input, Answer::Number(97), true),
        ("an early end of input", 0, Event::Input, Answer::End, false),
        ("now the second", 0, Event::Input, Answer::Number(98), true),
        ("the input's end", 0, Event::Input, Answer::End, true),
        (
            "a cycle by a thread",
            0,
            Event::Collected { cycle: 1 },
            Answer::Done,
            false,
        ),
        (
            "a cycle",
            8,
            Event::Collected { cycle: 1 },
            Answer::Done,
            true,
        ),
        (
            "again",
            8,
            Event::Collected { cycle: 1 },
            Answer::Done,
            false,
        ),
        ("an exit", 0, Event::Exit { status: 3 }, Answer::Done, true),
        ("a trap after it", 0, trap, Answer::Done, false),
        (
            "a byte after it",
            0,
            Event::Out { byte: 7 },
            Answer::Done,
            true,
        ),
    ];
    for (name, actor, event, answer, allowed) in rows {
        let made = ideal_step(rt.alloc(), &mut ideal, b"ab", actor, &event, &answer)?;
        assert_eq!(rt; made, allowed, "{name}");
    }
    assert_eq!(rt; ideal.output(), [7].as_slice());
    Ok(())
}
