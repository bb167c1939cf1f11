//! The static objects of a file, in the order of their numbers: objects with what their initialisers give, and texts.

ghost use Rattle.std.specs.Prelude.{◌≡◌, ◌++◌, IfOk, OnOk};
ghost use Rattle.std.specs.Option.{option_copied};
ghost use Rattle.c_expr_rules.specs.Views.{seen_state};
ghost use Rattle.c_objects.specs.Contents.{AreNewest, number_placed, number_of_text, number_filled, object_of, text_of, filled_of, in_list, IsOneOf};
ghost use Rattle.c_file_rules.specs.Files.{words_in, IsStatic, AreStatics};
ghost use Rattle.c_objects.specs.StaticPlaces.{ArePlaces};
ghost use Rattle.c_file_rules.specs.Statics.{fills_in, text_static, static_at, statics_below};

use crate::contents::{byte_fills, static_with};
use c_expr_rules::{Fill, Filled, Literal, Placed, State};
use filc_num::StaticDef;
use std::alloc::{AllocError, Global};
use std::collections::BTreeMap;

/// Where the object, the text and the initialiser of each number stand in a state's lists. Of several the newest counts.
#[derive(Drop)]
struct Places {
    objects: BTreeMap<u32, usize>,
    texts: BTreeMap<u32, usize>,
    fills: BTreeMap<u32, usize>,
}

#[tactic(auto, using(crate::proofs::Newest::newest_all))]
fn places_of_objects(alloc: Global, placed: &[Placed]) -> Result<BTreeMap<u32, usize>, AllocError>
    ensures { IfOk result (AreNewest number_placed placed.now) }
{
    let mut places = BTreeMap::new(alloc);
    'objects: for index in 0..placed.len() {
        places.insert(placed[index].number, index)?;
    }
    Ok(places)
}

#[tactic(auto, using(crate::proofs::Newest::newest_all))]
fn places_of_texts(alloc: Global, literals: &[Literal]) -> Result<BTreeMap<u32, usize>, AllocError>
    ensures { IfOk result (AreNewest number_of_text literals.now) }
{
    let mut places = BTreeMap::new(alloc);
    'texts: for index in 0..literals.len() {
        places.insert(literals[index].number, index)?;
    }
    Ok(places)
}

#[tactic(auto, using(crate::proofs::Newest::newest_all))]
fn places_of_fills(alloc: Global, filled: &[Filled]) -> Result<BTreeMap<u32, usize>, AllocError>
    ensures { IfOk result (AreNewest number_filled filled.now) }
{
    let mut places = BTreeMap::new(alloc);
    'fills: for index in 0..filled.len() {
        places.insert(filled[index].number, index)?;
    }
    Ok(places)
}

fn places_of(alloc: Global, state: &State) -> Result<Places, AllocError>
    ensures { IfOk result (ArePlaces state.now) }
{
    Ok(Places {
        objects: places_of_objects(alloc, state.placed.as_slice())?,
        texts: places_of_texts(alloc, state.literals.as_slice())?,
        fills: places_of_fills(alloc, state.filled.as_slice())?,
    })
}

/// The object of this number.
fn object_at<'a>(state: &'a State, places: &Places, number: u32) -> Option<&'a Placed>
    requires { ArePlaces state.now places.now }
    ensures { option_copied result ≡ object_of (seen_state state.now) number }
{
    match places.objects.get(&number) {
        None => None,
        Some(index) => state.placed.get(*index),
    }
}

/// The text of this number.
fn text_at<'a>(state: &'a State, places: &Places, number: u32) -> Option<&'a Literal>
    requires { ArePlaces state.now places.now }
    ensures { option_copied result ≡ text_of (seen_state state.now) number }
{
    match places.texts.get(&number) {
        None => None,
        Some(index) => state.literals.get(*index),
    }
}

/// The initialiser of the object of this number.
fn initialiser_at<'a>(state: &'a State, places: &Places, number: u32) -> Option<&'a Filled>
    requires { ArePlaces state.now places.now }
    ensures { option_copied result ≡ filled_of (seen_state state.now) number }
{
    match places.fills.get(&number) {
        None => None,
        Some(index) => state.filled.get(*index),
    }
}

/// What the initialiser of the object of this number gives.
fn fills_at<'a>(state: &'a State, places: &Places, number: u32) -> &'a [Fill]
    requires { ArePlaces state.now places.now }
    ensures { result.now ≡ fills_in (filled_of (seen_state state.now) number) }
{
    match initialiser_at(state, places, number) {
        None => &[],
        Some(filled) => filled.fills.as_slice(),
    }
}

/// How many words the static object of this number has.
#[tactic(auto, using(crate::proofs::StaticLists::object_words, crate::proofs::StaticLists::text_words, crate::proofs::StaticLists::nothing_words))]
fn words_at(state: &State, places: &Places, number: u32) -> Result<u64, AllocError>
    requires { ArePlaces state.now places.now }
    ensures { IfOk result (λ count.
        count ≡ words_in (static_at (seen_state state.now) number)) }
{
    if let Some(object) = object_at(state, places, number) {
        return Ok(object.bytes.div_ceil(8));
    }
    match text_at(state, places, number) {
        None => Ok(0),
        Some(text) => {
            let bytes = (text.bytes.len() as u64).checked_add(1).ok_or(AllocError)?;
            Ok(bytes.div_ceil(8))
        }
    }
}

/// The static object that a text is.
fn text_static(alloc: Global, text: &Literal) -> Result<StaticDef, AllocError>
    ensures { IfOk result (IsStatic (text_static text.now)) }
{
    let bytes = text.bytes.as_slice();
    let size = (bytes.len() as u64).checked_add(1).ok_or(AllocError)?;
    let fills = byte_fills(alloc, bytes)?;
    static_with(alloc, true, size, fills.as_slice())
}

/// The static object of this number.
#[tactic(auto, using(crate::proofs::StaticLists::object_is, crate::proofs::StaticLists::text_is, crate::proofs::StaticLists::nothing_is))]
fn static_of(
    alloc: Global,
    state: &State,
    places: &Places,
    number: u32,
) -> Result<Option<StaticDef>, AllocError>
    requires { ArePlaces state.now places.now }
    ensures { IfOk result (IsOneOf (static_at (seen_state state.now) number)) }
{
    if let Some(object) = object_at(state, places, number) {
        let fills = fills_at(state, places, object.number);
        return Ok(Some(static_with(alloc, false, object.bytes, fills)?));
    }
    match text_at(state, places, number) {
        None => Ok(None),
        Some(text) => Ok(Some(text_static(alloc, text)?)),
    }
}

/// Adds a static object, where there is one.
fn add_static(statics: &mut Vec<StaticDef>, made: Option<StaticDef>) -> Result<(), AllocError>
    ensures { OnOk result (statics.new.items ≡ statics.old.items ++ in_list made) }
{
    if let Some(made) = made {
        statics.push(made)?;
    }
    Ok(())
}

/// How many words all static objects have.
#[tactic(auto, using(crate::proofs::StaticLists::words_on))]
pub fn word_count(alloc: Global, state: &State) -> Result<u64, AllocError>
    ensures { let s = seen_state state.now in
        IfOk result (λ count. count ≡ words_in (statics_below s s.next_static)) }
{
    let places = places_of(alloc, state)?;
    let mut count = 0u64;
    'numbers: for number in 0..state.next_static {
        let more = words_at(state, &places, number)?;
        count = count.checked_add(more).ok_or(AllocError)?;
    }
    Ok(count)
}

/// The static objects of a file, in the order of their numbers.
#[tactic(auto, using(crate::proofs::StaticLists::statics_on))]
pub fn statics_of(alloc: Global, state: &State) -> Result<Vec<StaticDef>, AllocError>
    ensures { let s = seen_state state.now in
        IfOk result (λ statics. AreStatics (statics_below s s.next_static) statics.items) }
{
    let places = places_of(alloc, state)?;
    let mut statics = Vec::new(alloc);
    'numbers: for number in 0..state.next_static {
        add_static(&mut statics, static_of(alloc, state, &places, number)?)?;
    }
    Ok(statics)
}
