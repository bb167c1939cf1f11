//! Makes the types of long declarators and of typedefs of typedefs, and prints how many types there are: what
//! `bench/types` measures.
#![tactic(auto)]

use anyhow::{Context, Result};
use bitflags::Flags;
use c_declarators::{Known, derivations_of};
use c_parts::Span;
use c_syntax::{Core, Declarator, Expr, ExprKind, Pointer, Suffix, SuffixKind};
use c_types::{Derivation, ElementCount, Part, Qualifiers, Types};
use filc_num::CIntType;
use sqlite_items::Items;
use std::alloc::{AllocError, Global};
use std::collections::BTreeMap;
use std::env;

const SPAN: Span = Span {
    line: 1,
    first: 1,
    last: 1,
};

/// A declarator of so many pointers, or of so many suffixes `[1]`.
fn declarator(alloc: Global, pointers: u32, suffixes: u32) -> Result<Declarator, AllocError> {
    let mut stars = Items::new(alloc);
    for _ in 0..pointers {
        stars.push(Pointer {
            span: SPAN,
            qualifiers: Items::new(alloc),
        })?;
    }
    let mut list = Items::new(alloc);
    for _ in 0..suffixes {
        list.push(Suffix {
            span: SPAN,
            kind: SuffixKind::Array(Some(Expr {
                span: SPAN,
                kind: ExprKind::Number,
            })),
        })?;
    }
    Ok(Declarator {
        span: SPAN,
        name: None,
        pointers: stars,
        core: Core::Nothing,
        suffixes: list,
    })
}

/// What derivations make of `part`, or `part` where they make nothing.
fn made_of(types: &mut Types, part: Part, derivations: &[Derivation]) -> Part {
    if !types.is_part(part) {
        return part;
    }
    if !types.knows_lists_of(derivations) {
        return part;
    }
    types.derive_all(part, derivations).unwrap_or(part)
}

/// `typedef last(*next)(last,last);` so many times.
fn typedefs(alloc: Global, types: &mut Types, int: Part, count: u32) -> Result<(), AllocError> {
    let mut last = int;
    for _ in 0..count {
        let twice = [last.number, last.number];
        if !types.are_types(&twice) {
            return Ok(());
        }
        let parameters = types.parameter_list(&twice)?;
        let function = Derivation::Function {
            parameters,
            more: false,
        };
        last = made_of(
            types,
            last,
            &[function, Derivation::Pointer(Qualifiers::empty())],
        );
    }
    Ok(())
}

fn main(rt: HostRuntime) -> Result<()> {
    let mut words = env::args(&rt)?;
    let _program = words.next();
    let what = words.next().context("nothing is named")?;
    let count = words.next().context("no number")?;
    let count: u32 = count.as_str().parse().context("the number is none")?;
    let alloc = rt.alloc();
    let mut types = Types::new(alloc);
    let number = types.integer_type(CIntType::Int)?;
    let int = Part {
        number,
        qualifiers: Qualifiers::empty(),
    };
    let mut known = Known {
        sizes: BTreeMap::new(alloc),
        parameters: BTreeMap::new(alloc),
    };
    known.sizes.insert(SPAN.first, ElementCount { value: 1 })?;
    match what.as_str() {
        "pointers" => {
            let long = declarator(alloc, count, 0)?;
            let derivations = derivations_of(alloc, &known, &long)?;
            made_of(&mut types, int, derivations.as_slice());
        }
        "suffixes" => {
            let long = declarator(alloc, 0, count)?;
            let derivations = derivations_of(alloc, &known, &long)?;
            made_of(&mut types, int, derivations.as_slice());
        }
        _ => typedefs(alloc, &mut types, int, count)?,
    }
    println!(rt; "{} types", types.len())?;
    Ok(())
}
