//! When an event may get an answer.

ghost use Rattle.std.specs.Prelude.{◌≡◌, ◌↔◌, ◌+◌, IsTrue, List, ℕ};
ghost use Rattle.ideal_machine.specs.declared.value.Half.{Half};
ghost use Rattle.ideal_machine.specs.declared.value.Kept.{Kept};
ghost use Rattle.ideal_machine.specs.declared.event.Seen.{Seen};
ghost use Rattle.ideal_machine.specs.Memory.{World, default_world};
ghost use Rattle.ideal_machine.specs.Words.{integer_at, lock_access};
ghost use Rattle.ideal_machine.specs.Allows.{refusal_or, IsAccess, MayMake, IsAnswer, IsAllowed};

use crate::ideal::{Ideal, OUTPUT, SLOTS};
use crate::operation::is_operation_on;
use filc_num::{Reason, is_width};
use ideal_machine::{Access, Answer, Event, Half};

/// The answer to what may be refused.
fn refusal_or(granted: Answer, refusal: Option<Reason>) -> Answer
    ensures { result ≡ refusal_or granted refusal }
{
    match refusal {
        Some(reason) => Answer::Refused(reason),
        None => granted,
    }
}

/// The 4 bytes of a lock.
pub fn lock_access(object: u64, offset: u64) -> Access
    ensures { result ≡ lock_access object offset }
{
    Access {
        object,
        offset,
        width: 4,
    }
}

impl Ideal {
    /// Whether the actor may make the event: its thread is running, or is started and begins; a cycle is
    /// the collector's to end.
    fn may_make(&self, actor: u32, event: &Event) -> bool
        ensures { (input : List ℕ)
            → (IsTrue result ↔ MayMake (default_world input) self.now actor event.now) }
    {
        match *event {
            Event::Begin {
                function,
                address,
                half,
            } => self.is_started(actor, function, address, half),
            Event::Collected { .. } => actor == SLOTS,
            _ => self.is_running(actor),
        }
    }

    /// Whether the answer is one to this event.
    fn is_answer(&self, input: &[u8], event: &Event, answer: &Answer) -> bool
        ensures { IsTrue result ↔ IsAnswer (default_world input.now) self.now event.now answer.now }
    {
        match *event {
            Event::Check {
                half,
                address,
                width,
                write,
            } => self.is_check_answer(half, address, width, write, *answer),
            Event::GetInt { access } | Event::CasInt { access, .. } => {
                self.is_integer_answer(&access, *answer)
            }
            Event::RmwInt {
                access,
                operation,
                ..
            } => {
                is_operation_on(access.width, operation) && self.is_integer_answer(&access, *answer)
            }
            Event::SetInt { access, .. } => self.is_access(&access) && *answer == Answer::Done,
            Event::GetHalf { object, word } => self.is_half_answer(object, word, *answer),
            Event::CasHalf { object, word, .. } => self.is_half_answer(object, word, *answer),
            Event::SetHalf { object, word, .. } => {
                self.has_word(object, word) && *answer == Answer::Done
            }
            Event::Open { pair } => self.is_pair_answer(pair, *answer),
            Event::New { .. } => self.is_new_answer(*answer),
            Event::Void { half, address } => {
                *answer == refusal_or(Answer::Granted, self.void_refusal(half, address))
            }
            Event::Size { half, address } => {
                let bytes = Answer::Number(self.bytes_behind(half));
                *answer == refusal_or(bytes, self.void_refusal(half, address))
            }
            Event::Lock { object, offset } => self.is_lock_answer(object, offset, *answer),
            Event::Name { .. } | Event::Begin { .. } | Event::End { .. } => {
                *answer == Answer::Done
            }
            Event::Out { .. } => self.is_output_answer(*answer),
            Event::Input => self.is_input_answer(input, *answer),
            Event::Spawn { .. } => self.is_spawn_answer(*answer),
            Event::Join { id } => self.is_join_answer(id, *answer),
            Event::Collected { cycle } => self.is_next_cycle(cycle) && *answer == Answer::Done,
            Event::Exit { .. } | Event::Trap { .. } => {
                self.finish.is_none() && *answer == Answer::Done
            }
        }
    }

    fn is_check_answer(
        &self,
        half: Half,
        address: u64,
        width: u32,
        write: bool,
        answer: Answer,
    ) -> bool
        ensures { (world : World) → (IsTrue result
            ↔ IsAnswer world self.now (Event.Check half address width write) answer) }
    {
        if !is_width(width) {
            return false;
        }
        let refusal = self.check_refusal(half, address, width, write);
        answer == refusal_or(Answer::Granted, refusal)
            || (write && width == 8 && answer == Answer::Refused(Reason::NoCell))
    }

    /// Whether the answer is the integer of an access.
    fn is_integer_answer(&self, access: &Access, answer: Answer) -> bool
        ensures { IsTrue result ↔ (IsAccess self.now access.now
            × (answer ≡ Answer.Number (integer_at self.now access.now))) }
    {
        self.is_access(access) && answer == Answer::Number(self.integer_at(access))
    }

    /// Whether the answer is the half of a word, shown.
    fn is_half_answer(&self, object: u64, word: u32, answer: Answer) -> bool
        ensures get { (world : World)
            → (IsTrue result ↔ IsAnswer world self.now (Event.GetHalf object word) answer) }
        ensures exchange { (world : World) (seen : Seen) (new : Kept) → (IsTrue result
            ↔ IsAnswer world self.now (Event.CasHalf object word seen new) answer) }
    {
        match answer {
            Answer::Found(found) => {
                let stored = self.word_at(object, u64::from(word)).half;
                self.has_word(object, word) && self.is_found_as(stored, found)
            }
            _ => false,
        }
    }

    /// Whether the answer is the pair of this number, its half shown.
    fn is_pair_answer(&self, pair: u64, answer: Answer) -> bool
        ensures { (world : World)
            → (IsTrue result ↔ IsAnswer world self.now (Event.Open pair) answer) }
    {
        match (answer, self.pairs.get(pair as usize)) {
            (Answer::Opened(address, shown), Some(pair)) => {
                address == pair.address && self.is_shown(pair.half, shown)
            }
            _ => false,
        }
    }

    /// Whether the answer is the next object at an address where it may lie, or none.
    fn is_new_answer(&self, answer: Answer) -> bool
        ensures { (world : World) (bytes : ℕ) (kind : ℕ)
            → (IsTrue result ↔ IsAnswer world self.now (Event.New bytes kind) answer) }
    {
        match answer {
            Answer::Made(object, address) => {
                object == self.objects.len() as u64 && address % 8 == 0 && 65_536 <= address
            }
            Answer::Absent => true,
            _ => false,
        }
    }

    /// Whether the answer is that a lock whose 4 bytes are 0 was taken.
    fn is_lock_answer(&self, object: u64, offset: u64, answer: Answer) -> bool
        ensures { (world : World)
            → (IsTrue result ↔ IsAnswer world self.now (Event.Lock object offset) answer) }
    {
        let access = lock_access(object, offset);
        self.is_access(&access) && self.integer_at(&access) == 0 && answer == Answer::Done
    }

    /// Whether the answer is that a byte was put out, or that there is no room.
    fn is_output_answer(&self, answer: Answer) -> bool
        ensures { (input : List ℕ) (byte : ℕ)
            → (IsTrue result ↔ IsAnswer (default_world input) self.now (Event.Out byte) answer) }
    {
        let has_room = (self.output.len() as u64) < OUTPUT;
        match answer {
            Answer::Done => has_room,
            Answer::Refused(Reason::OutputLimit) => !has_room,
            _ => false,
        }
    }

    /// Whether the answer is the next byte of the input, or its end where none is left.
    fn is_input_answer(&self, input: &[u8], answer: Answer) -> bool
        ensures { IsTrue result ↔ IsAnswer (default_world input.now) self.now Event.Input answer }
    {
        match (answer, input.get(self.input_taken as usize)) {
            (Answer::Number(number), Some(byte)) => number == u64::from(*byte),
            (Answer::End, None) => true,
            _ => false,
        }
    }

    /// Whether the answer is the id of a free slot, or none.
    fn is_spawn_answer(&self, answer: Answer) -> bool
        ensures { (world : World) (f a : ℕ) (h : Half)
            → (IsTrue result ↔ IsAnswer world self.now (Event.Spawn f a h) answer) }
    {
        match answer {
            Answer::Number(id) => self.is_free_id(id),
            Answer::Absent => true,
            _ => false,
        }
    }

    /// Whether the answer is the result of this thread, or none where no slot is for it.
    fn is_join_answer(&self, id: u64, answer: Answer) -> bool
        ensures { (world : World)
            → (IsTrue result ↔ IsAnswer world self.now (Event.Join id) answer) }
    {
        match answer {
            Answer::Number(result) => self.has_result(id, result),
            Answer::Absent => !self.has_thread(id),
            _ => false,
        }
    }

    /// Whether the cycle is one more than the number of cycles collected.
    fn is_next_cycle(&self, cycle: u64) -> bool
        ensures { IsTrue result ↔ (cycle ≡ self.now.cycles + 1) }
    {
        cycle != 0 && cycle - 1 == self.cycles
    }

    /// Whether the actor may make the event and get this answer.
    pub fn allows(&self, input: &[u8], actor: u32, event: &Event, answer: &Answer) -> bool
        ensures { IsTrue result
            ↔ IsAllowed (default_world input.now) self.now actor event.now answer.now }
    {
        self.may_make(actor, event)
            & self.names_objects(event)
            & self.is_answer(input, event, answer)
    }
}
