//! Which objects an event and its answer name.

ghost use Rattle.std.specs.Prelude.{◌≡◌, ◌↔◌, ◌++◌, ◌<◌, length, All, IfSome, IsTrue, false, slice_get, option_to_list};
ghost use Rattle.ideal_machine.specs.Names.{half_names, kept_names, found_names, seen_names};
ghost use Rattle.ideal_machine.specs.Names.{event_names, answer_names, NamesObjects, KeepsApart};

use crate::ideal::Ideal;
use ideal_machine::{Answer, Event, Found, Half, Kept, Seen};

/// The objects that an event names: three at most.
#[derive(Clone, Copy, Debug)]
struct Named {
    first: Option<u64>,
    second: Option<u64>,
    third: Option<u64>,
}

fn half_name(half: Half) -> Option<u64>
    ensures { option_to_list result ≡ half_names half }
{
    match half {
        Half::Object(number) => Some(number),
        _ => None,
    }
}

fn kept_name(kept: Kept) -> Option<u64>
    ensures { option_to_list result ≡ kept_names kept }
{
    match kept {
        Kept::Plain(half) | Kept::Pair(_, half) => half_name(half),
    }
}

fn found_name(found: Found) -> Option<u64>
    ensures { option_to_list result ≡ found_names found }
{
    match found {
        Found::Plain(half) => half_name(half),
        Found::Pair(_) => None,
    }
}

fn seen_name(seen: Seen) -> Option<u64>
    ensures { option_to_list result ≡ seen_names seen }
{
    match seen {
        Seen::Any => None,
        Seen::Found(found) => found_name(found),
    }
}

fn just(first: Option<u64>) -> Named
    ensures first { result.first ≡ first }
    ensures second { result.second ≡ None }
    ensures third { result.third ≡ None }
{
    Named {
        first,
        second: None,
        third: None,
    }
}

fn event_names(event: &Event) -> Named
    ensures { option_to_list result.first ++ option_to_list result.second
        ++ option_to_list result.third ≡ event_names event.now }
{
    match *event {
        Event::Check { half, .. }
        | Event::Void { half, .. }
        | Event::Size { half, .. }
        | Event::Name { half, .. }
        | Event::Spawn { half, .. }
        | Event::Begin { half, .. } => just(half_name(half)),
        Event::GetInt { access }
        | Event::SetInt { access, .. }
        | Event::RmwInt { access, .. }
        | Event::CasInt { access, .. } => just(Some(access.object)),
        Event::GetHalf { object, .. } | Event::Lock { object, .. } => just(Some(object)),
        Event::SetHalf { object, half, .. } => Named {
            first: Some(object),
            second: kept_name(half),
            third: None,
        },
        Event::CasHalf {
            object,
            seen,
            new,
            ..
        } => Named {
            first: Some(object),
            second: seen_name(seen),
            third: kept_name(new),
        },
        _ => just(None),
    }
}

fn answer_name(answer: &Answer) -> Option<u64>
    ensures { option_to_list result ≡ answer_names answer.now }
{
    match *answer {
        Answer::Found(found) => found_name(found),
        Answer::Opened(_, half) => half_name(half),
        Answer::Made(object, _) => Some(object),
        _ => None,
    }
}

impl Ideal {
    /// Whether what is named is there.
    fn is_there(&self, name: Option<u64>) -> bool
        ensures { IsTrue result ↔ All (λ n. n < length self.now.objects) (option_to_list name) }
    {
        match name {
            Some(number) => number < self.objects.len() as u64,
            None => true,
        }
    }

    /// Whether what is named isn't covered.
    fn is_apart(&self, name: Option<u64>) -> bool
        ensures { IsTrue result ↔ All (λ n. IfSome (slice_get self.now.objects n)
            (λ o. o.covered ≡ false)) (option_to_list name) }
    {
        match name {
            Some(number) => match self.objects.get(number as usize) {
                Some(object) => !object.is_covered(),
                None => true,
            },
            None => true,
        }
    }

    /// Whether each object that an event names is there.
    pub fn names_objects(&self, event: &Event) -> bool
        ensures { IsTrue result ↔ NamesObjects self.now event.now }
    {
        let names = event_names(event);
        self.is_there(names.first) & self.is_there(names.second) & self.is_there(names.third)
    }

    /// Whether no object that an event names is covered.
    fn event_keeps_apart(&self, event: &Event) -> bool
        ensures { IsTrue result ↔ All (λ n. IfSome (slice_get self.now.objects n)
            (λ o. o.covered ≡ false)) (event_names event.now) }
    {
        let names = event_names(event);
        self.is_apart(names.first) & self.is_apart(names.second) & self.is_apart(names.third)
    }

    /// Whether neither an event nor its answer names a covered object.
    pub fn keeps_apart(&self, event: &Event, answer: &Answer) -> bool
        ensures { IsTrue result ↔ KeepsApart self.now event.now answer.now }
    {
        self.event_keeps_apart(event) & self.is_apart(answer_name(answer))
    }
}
