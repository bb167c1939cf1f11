//! A step of the abstract machine: it is made exactly where it is allowed.

ghost use Rattle.std.specs.Prelude.{◌≡◌, ◌↔◌, ℕ, List, IfOk, OnErr, IsTrue, true, if◌then◌else◌};
ghost use Rattle.ideal_machine.specs.Memory.{Memory, default_world};
ghost use Rattle.ideal_machine.specs.Allows.{IsAllowed};
ghost use Rattle.ideal_machine.specs.Names.{KeepsApart};
ghost use Rattle.ideal_machine.specs.Effects.{effect_of};
ghost use Rattle.ideal_step.specs.Steps.{IsStep};

use crate::allow::lock_access;
use crate::ideal::Ideal;
use crate::slot::State;
use ideal_machine::{Answer, Event, Finish};
use std::alloc::{AllocError, Global};

impl Ideal {
    /// Makes the change of an event that is allowed and done, with nothing to tell.
    fn make_done(&mut self, input: &[u8], actor: u32, event: &Event) -> Result<(), AllocError>
        requires { IsAllowed (default_world input.now) self.old actor event.now Answer.Done }
        ensures done { IfOk result (λ _. self.new ≡ effect_of self.old actor event.now Answer.Done) }
        ensures unchanged { OnErr result (self.new ≡ self.old) }
    {
        match *event {
            Event::SetInt { access, value } => self.put_integer(&access, value),
            Event::Lock { object, offset } => self.put_integer(&lock_access(object, offset), 1),
            Event::SetHalf { object, word, half } => return self.put_half(object, word, half),
            Event::Out { byte } => return self.put_byte(byte),
            Event::Begin { .. } => self.set_state(u64::from(actor), State::Running),
            Event::End { result } => self.set_state(u64::from(actor), State::Ended(result)),
            Event::Collected { cycle } => self.set_cycles(cycle),
            Event::Exit { status } => self.set_finish(Finish::Exited(status)),
            Event::Trap { reason, line } => self.set_finish(Finish::Trapped(reason, line)),
            _ => {}
        }
        Ok(())
    }

    /// Makes the change of an event that is allowed and gives a number.
    fn make_number(&mut self, input: &[u8], actor: u32, event: &Event, number: u64)
        requires { IsAllowed (default_world input.now) self.old actor event.now
            (Answer.Number number) }
        ensures { self.new ≡ effect_of self.old actor event.now (Answer.Number number) }
    {
        match *event {
            Event::RmwInt {
                access,
                operation,
                value,
            } => self.put_result(&access, operation, value),
            Event::CasInt {
                access,
                expected,
                desired,
            } => self.exchange_integer(&access, expected, desired),
            Event::Input => self.take_byte(),
            Event::Spawn {
                function,
                address,
                half,
            } => self.set_state(number % 64, State::Started(function, address, half)),
            Event::Join { id } => self.pass_on(id % 64),
            _ => {}
        }
    }

    /// Makes the change of an event that is allowed with this answer.
    fn make(
        &mut self,
        alloc: Global,
        input: &[u8],
        actor: u32,
        event: &Event,
        answer: &Answer,
    ) -> Result<(), AllocError>
        requires { IsAllowed (default_world input.now) self.old actor event.now answer.now }
        ensures done { IfOk result (λ _. self.new ≡ effect_of self.old actor event.now answer.now) }
        ensures unchanged { OnErr result (self.new ≡ self.old) }
    {
        match (*event, *answer) {
            (_, Answer::Done) => return self.make_done(input, actor, event),
            (_, Answer::Number(number)) => self.make_number(input, actor, event, number),
            (
                Event::CasHalf {
                    object,
                    word,
                    seen,
                    new,
                },
                Answer::Found(found),
            ) => return self.exchange_half(object, word, seen, found, new),
            (Event::New { bytes, kind }, Answer::Made(_, address)) => {
                return self.add_object(alloc, bytes, kind, address);
            }
            (Event::Void { half, .. }, Answer::Granted) => self.free(half),
            _ => {}
        }
        Ok(())
    }
}

/// Makes an actor's event with this answer, where the machine allows it and it names no covered object.
///
/// False where it isn't allowed. Then nothing changed, and nothing changed either where memory ran out.
pub fn ideal_step(
    alloc: Global,
    ideal: &mut Ideal,
    input: &[u8],
    actor: u32,
    event: &Event,
    answer: &Answer,
) -> Result<bool, AllocError>
    ensures allowed { IfOk result (λ made. IsTrue made
        ↔ IsStep input.now ideal.old actor event.now answer.now) }
    ensures effect { IfOk result (λ made. ideal.new
        ≡ (if made then effect_of ideal.old actor event.now answer.now else ideal.old)) }
    ensures unchanged { OnErr result (ideal.new ≡ ideal.old) }
{
    if ideal.allows(input, actor, event, answer) && ideal.keeps_apart(event, answer) {
        ideal.make(alloc, input, actor, event, answer)?;
        Ok(true)
    } else {
        Ok(false)
    }
}
