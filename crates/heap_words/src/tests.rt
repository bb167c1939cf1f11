//! Each operation by worked values: it does to a word what the processor's does.

use crate::{PlainWords, WordOp, Words};
use std::test::Fail;

const TOP: u64 = u64::MAX;

#[test]
fn each_operation_does_what_its_name_says(rt: HostRuntime) -> Result<(), Fail> {
    let table = [
        ("a load", 7, WordOp::Load(1), 7, 7),
        ("a store answers nothing", 7, WordOp::Store(1, 9), 0, 9),
        ("a swap answers the old word", 7, WordOp::Swap(1, 9), 7, 9),
        ("an addition", 7, WordOp::Add(1, 9), 7, 16),
        ("an addition wraps", TOP, WordOp::Add(1, 3), TOP, 2),
        ("an or", 6, WordOp::Or(1, 5), 6, 7),
        ("a greater number", 7, WordOp::Max(1, 9), 7, 9),
        ("a lesser number", 7, WordOp::Max(1, 5), 7, 7),
        ("an exchange that wins", 7, WordOp::Exchange(1, 7, 9), 7, 9),
        ("an exchange that loses", 7, WordOp::Exchange(1, 8, 9), 7, 7),
    ];
    for (name, before, op, answer, after) in table {
        let mut words = PlainWords::new(rt.alloc(), 3)?;
        assert_eq!(rt; words.len(), 3);
        words.apply(WordOp::Store(1, before));
        assert_eq!(rt; words.apply(op), answer, "{name}");
        assert_eq!(rt; words.word(1), after, "{name}");
        assert_eq!(rt; words.as_slice(), [0, after, 0].as_slice(), "{name}");
        let list = words.into_list();
        assert_eq!(rt; list.as_slice(), [0, after, 0].as_slice(), "{name}");
    }
    Ok(())
}

#[test]
fn a_list_comes_back_as_it_was(rt: HostRuntime) -> Result<(), Fail> {
    let list = PlainWords::of_list(vec![in rt.alloc(); 3, 1, 2]?).into_list();
    assert_eq!(rt; list.as_slice(), [3, 1, 2].as_slice());
    Ok(())
}
