//! A hundred thousand random events, and beside the machine a few counts and marks that are kept apart
//! from it: outputs, objects, pairs and cycles grow by the events that say so and by no others, an access
//! has a width and lies in its object, an object is freed once, and no id is given twice.

ghost use Rattle.std.specs.Prelude.{◌<◌};

use super::*;
use filc_num::Reason;
use ideal_machine::{Access, Answer, Event, Found, Half, Kept, Seen};
use std::alloc::{AllocError, Global};
use std::test::Fail;

/// A linear congruential generator, and the object that events are about for now.
#[derive(Drop)]
struct Random {
    state: u64,
    object: u64,
}

impl Random {
    /// A number below `limit`.
    fn below(&mut self, limit: u64) -> u64
        requires { 0 < limit }
        ensures { result < limit }
    {
        self.state = self
            .state
            .wrapping_mul(6_364_136_223_846_793_005)
            .wrapping_add(1_442_695_040_888_963_407);
        (self.state >> 33) % limit
    }

    fn half(&mut self) -> Half {
        match self.below(8) {
            0 => Half::Nothing,
            1 => Half::Freed,
            2 => Half::Function(1),
            _ => Half::Object(self.object),
        }
    }

    fn found_half(&mut self) -> Found {
        match self.below(4) {
            0 => Found::Pair(self.below(64)),
            1 => Found::Plain(self.half()),
            _ => Found::Plain(Half::Nothing),
        }
    }

    fn half_to_keep(&mut self) -> Kept {
        let half = self.half();
        if self.below(2) == 0 {
            Kept::Plain(half)
        } else {
            Kept::Pair(self.below(4), half)
        }
    }

    fn width(&mut self) -> u32 {
        [1, 2, 4, 8, 8, 8, 3, 0][self.below(8) as usize]
    }

    fn access(&mut self) -> Access {
        Access {
            object: self.object,
            offset: 8 * self.below(6) + self.below(8) / 6,
            width: self.width(),
        }
    }

    fn reason(&mut self) -> Reason {
        match self.below(6) {
            0 => Reason::NoCapability,
            1 => Reason::FunctionData,
            2 => Reason::Freed,
            3 => Reason::Alignment,
            4 => Reason::NoCell,
            _ => Reason::Bounds,
        }
    }

    fn event(&mut self, address: u64) -> Event {
        match self.below(18) {
            0 => Event::GetInt {
                access: self.access(),
            },
            1 => Event::SetInt {
                access: self.access(),
                value: self.below(2),
            },
            2 => Event::CasInt {
                access: self.access(),
                expected: self.below(2),
                desired: self.below(2),
            },
            3 => Event::GetHalf {
                object: self.object,
                word: self.below(6) as u32,
            },
            4 => Event::SetHalf {
                object: self.object,
                word: self.below(6) as u32,
                half: self.half_to_keep(),
            },
            5 => Event::CasHalf {
                object: self.object,
                word: self.below(6) as u32,
                seen: Seen::Any,
                new: self.half_to_keep(),
            },
            6 => Event::New {
                bytes: self.below(41),
                kind: 0,
            },
            7 => Event::Void {
                half: self.half(),
                address,
            },
            _ => self.other_event(address),
        }
    }

    fn other_event(&mut self, address: u64) -> Event {
        match self.below(10) {
            0 => Event::Spawn {
                function: 0,
                address: 0,
                half: Half::Nothing,
            },
            1 => Event::Begin {
                function: 0,
                address: 0,
                half: Half::Nothing,
            },
            2 => Event::End { result: 0 },
            3 => Event::Join {
                id: self.below(8) + 64 * self.below(4),
            },
            4 => Event::Out { byte: 65 },
            5 => Event::Input,
            6 => Event::Collected {
                cycle: self.below(100),
            },
            7 => Event::Open {
                pair: self.below(64),
            },
            _ => Event::Check {
                half: self.half(),
                address: address.wrapping_add(self.below(40)),
                width: self.width(),
                write: self.below(2) == 0,
            },
        }
    }
}

impl Random {
    fn answer(&mut self, event: &Event, objects: u64) -> Answer {
        let first = self.below(3) != 0;
        match *event {
            Event::Check { .. } | Event::Void { .. } if first => Answer::Granted,
            Event::Check { .. } | Event::Void { .. } => Answer::Refused(self.reason()),
            Event::GetInt { .. } | Event::CasInt { .. } => Answer::Number(self.below(2)),
            Event::GetHalf { .. } | Event::CasHalf { .. } => Answer::Found(self.found_half()),
            Event::Open { .. } => Answer::Opened(self.below(4), self.half()),
            Event::New { .. } if first => {
                Answer::Made(objects, 65_536 + 8 * self.below(1_000_000) + self.below(2))
            }
            Event::Spawn { .. } if first => Answer::Number(self.below(8) + 64 * self.below(4)),
            Event::Join { .. } if first => Answer::Number(0),
            Event::New { .. } | Event::Spawn { .. } | Event::Join { .. } => Answer::Absent,
            Event::Input if first => Answer::Number(97),
            Event::Input => Answer::End,
            Event::Out { .. } if !first => Answer::Refused(Reason::OutputLimit),
            _ => Answer::Done,
        }
    }
}

/// What is kept apart from the machine.
#[derive(Drop)]
struct Watch {
    /// Of each object its address, its bytes, and whether it was freed.
    objects: Vec<(u64, u64, bool)>,
    /// Each id that was given.
    ids: Vec<u64>,
    outputs: usize,
    pairs: usize,
    taken: u64,
    cycles: u64,
}

impl Watch {
    fn holds(&self, access: &Access) -> bool {
        match self.objects.get(access.object as usize) {
            Some((_, bytes, _)) => {
                let width = u64::from(access.width);
                matches!(width, 1 | 2 | 4 | 8)
                    && access.offset % width == 0
                    && access.offset.saturating_add(width) <= *bytes
            }
            None => false,
        }
    }

    /// Marks an object as freed. False where it was freed before, or lies elsewhere.
    fn frees(&mut self, number: u64, at: u64) -> bool {
        match self.objects.get_mut(number as usize) {
            Some(object) => {
                let may_be = object.0 == at && !object.2;
                object.2 = true;
                may_be
            }
            None => false,
        }
    }

    /// Whether a step that was made is one that may be, as far as it is watched; it is counted.
    fn accepts(&mut self, event: &Event, answer: &Answer) -> Result<bool, AllocError> {
        match (*event, *answer) {
            (Event::Out { .. }, Answer::Done) => self.outputs = self.outputs.wrapping_add(1),
            (Event::Input, Answer::Number(_)) => self.taken = self.taken.wrapping_add(1),
            (Event::SetHalf { half: kept, .. } | Event::CasHalf { new: kept, .. }, _) => {
                if let Kept::Pair(..) = kept {
                    self.pairs = self.pairs.wrapping_add(1);
                }
            }
            (Event::Collected { cycle }, _) => {
                self.cycles = self.cycles.wrapping_add(1);
                return Ok(cycle == self.cycles);
            }
            (Event::New { bytes, .. }, Answer::Made(number, address)) => {
                let is_next = number == self.objects.len() as u64;
                self.objects.push((address, bytes, false))?;
                return Ok(is_next && address % 8 == 0 && 65_536 <= address);
            }
            (Event::Void { half, address }, Answer::Granted) => {
                return Ok(match half {
                    Half::Object(number) => self.frees(number, address),
                    _ => false,
                });
            }
            (
                Event::GetInt { access }
                | Event::SetInt { access, .. }
                | Event::CasInt { access, .. },
                _,
            ) => return Ok(self.holds(&access)),
            (Event::Check { width, .. }, _) => return Ok(matches!(width, 1 | 2 | 4 | 8)),
            (Event::Spawn { .. }, Answer::Number(id)) => {
                let is_new = id % 64 < 8 && !self.ids.contains(&id);
                self.ids.push(id)?;
                return Ok(is_new);
            }
            _ => {}
        }
        Ok(true)
    }

    /// Whether the counts are those of the machine, and so are an object's bytes and its mark.
    fn agrees(&self, ideal: &Ideal, number: u64) -> bool {
        let same = match (
            self.objects.get(number as usize),
            ideal.objects.get(number as usize),
        ) {
            (Some((_, bytes, freed)), Some(object)) => {
                object.bytes() == *bytes && object.is_freed() == *freed
            }
            (None, None) => true,
            _ => false,
        };
        same && self.objects.len() == ideal.objects.len()
            && self.outputs == ideal.output().len()
            && self.pairs == ideal.pairs.len()
            && self.taken == ideal.input_taken
            && self.cycles == ideal.cycles
    }
}

#[test]
fn a_hundred_thousand_random_events(rt: HostRuntime) -> Result<(), Fail> {
    let alloc = rt.alloc();
    let mut ideal = Ideal::new(alloc, &[], 0)?;
    let mut random = Random {
        state: 1,
        object: 0,
    };
    let mut watch = Watch {
        objects: Vec::new(alloc),
        ids: Vec::new(alloc),
        outputs: 0,
        pairs: 0,
        taken: 0,
        cycles: 0,
    };
    let actors = [0, 0, 0, 1, 2, 8];
    let input = [97; 200];
    let mut made: u32 = 0;
    for round in 0..100_000 {
        random.object = random.below(64);
        let address = match watch.objects.get(random.object as usize) {
            Some((address, _, _)) => *address,
            None => 65_536,
        };
        let event = random.event(address);
        let answer = random.answer(&event, watch.objects.len() as u64);
        let actor = actors[random.below(6) as usize];
        if actor == 0 && event == (Event::End { result: 0 }) {
            continue;
        }
        if ideal_step(alloc, &mut ideal, &input, actor, &event, &answer)? {
            made = made.wrapping_add(1);
            assert!(rt;
                watch.accepts(&event, &answer)?,
                "{round}: {event:?} {answer:?}"
            );
        }
        assert!(rt;
            watch.agrees(&ideal, random.object),
            "{round}: {event:?} {answer:?}"
        );
    }
    assert!(rt; 10_000 < made, "only {made} were made");
    assert!(rt; 20 < watch.pairs, "{} pairs", watch.pairs);
    assert!(rt; 5 < watch.cycles, "{} cycles", watch.cycles);
    assert!(rt; 3 < watch.ids.len(), "{} ids", watch.ids.len());
    Ok(())
}
