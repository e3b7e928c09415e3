//! How a world begins, how entries are taken, and what a Turn does.
ghost use Rattle.std.specs.Prelude.{◌≡◌, ◌<◌, ◌≤◌, ◌+◌, ◌^◌, length, replicate};
ghost use Rattle.std.specs.Prelude.{IfOk, IfSome};
ghost use Rattle.delay_agenda.specs.Order.{first_due};
ghost use Rattle.world_rules.specs.Turns.{begin, idle, turn, turn_done, user_number};
ghost use Rattle.world_parts.specs.Begun.{IsBegunAs};

use crate::parts::Parts;
use crate::things::set_busy;
use action_queue::{Item, Queue};
use delay_agenda::{Entry, Kind};
use nwq_value::NoMemory;
use std::alloc::Global;
use world_rules::{Standing, Things, Told};

/// So many objects that have nothing to do, and on which no effect stands.
#[tactic(auto, using(crate::proofs::BeginLemmas::one_more))]
pub(crate) fn idle_objects<X: Drop>(alloc: Global, n: u32) -> Result<Vec<Things<X>>, NoMemory>
    ensures ok { IfOk result (λ objects. objects.items ≡ replicate n idle) }
{
    let mut objects = Vec::new(alloc);
    for done in 0..n {
        objects.push(Things {
            queue: Queue::new(alloc),
            effects: Standing::new(alloc),
        })?;
    }
    Ok(objects)
}

/// The user number of an entry: an event's own, and 0 of every other.
fn user_number<X>(kind: &Kind<X>) -> i32
    ensures user { result ≡ user_number kind.now }
{
    match kind {
        Kind::Event { user, .. } => *user,
        Kind::Stored { .. } | Kind::Turn { .. } | Kind::Unapply { .. } => 0,
    }
}

impl<X: Drop> Parts<X> {
    /// Takes the first entry that waits, and sets the clock to when it is due.
    #[inline(always)]
    #[tactic(auto, using(crate::proofs::BeginLemmas::first_entry))]
    fn begin_first(&mut self, until: u64) -> Option<Entry<X>>
        requires due { IfSome (first_due self.old.world.agenda.entries) (λ due. due ≤ until) }
        ensures begun { IsBegunAs until self.old.world result self.new.world }
        ensures posts { self.old.posts ≤ self.new.posts }
    {
        let entry = self.take_entry();
        if let Some(begun) = &entry {
            self.clock = begun.due;
            self.user = user_number(&begun.kind);
        }
        entry
    }

    /// Takes the next entry that is due by a time, and sets the clock to when it is due.
    #[inline(always)]
    #[tactic(auto, using(crate::proofs::BeginLemmas::no_entry))]
    pub fn begin(&mut self, until: u64) -> Option<Entry<X>>
        ensures begun { IsBegunAs until self.old.world result self.new.world }
        ensures posts { self.old.posts ≤ self.new.posts }
    {
        match self.next_due() {
            None => None,
            Some(due) => {
                if due > until {
                    None
                } else {
                    self.begin_first(until)
                }
            }
        }
    }

    /// The object turns to its next action at once, or rests where it has none.
    #[tactic(auto, using(crate::proofs::TurnLemmas::turned_on))]
    pub fn turn_done(&mut self, o: u32)
        requires first { 1 ≤ o }
        requires within { o ≤ length self.old.world.things }
        requires room { 1 ≤ self.old.posts }
        requires few { self.old.world.agenda.next < 2 ^ 63 }
        ensures done { self.new.world ≡ turn_done o self.old.world }
        ensures posts { self.old.posts ≤ self.new.posts + 1 }
    {
        match self.queue(o).at(0) {
            None => set_busy(&mut self.things, o, false),
            Some(_) => {
                let now = self.clock();
                self.post(now, Kind::Turn { object: o });
            }
        }
    }

    /// The object turns to the first action of its queue. A stored one is the answer.
    #[tactic(auto, using(crate::proofs::TurnLemmas::turn_cases, crate::proofs::ThingsLemmas::long_changed))]
    pub fn turn(&mut self, o: u32) -> Option<X>
        requires first { 1 ≤ o }
        requires within { o ≤ length self.old.world.things }
        requires room { 1 ≤ self.old.posts }
        requires line { 1 ≤ self.old.lines }
        requires few { self.old.world.agenda.next < 2 ^ 63 }
        requires early { self.old.world.clock < 2 ^ 62 }
        ensures turned { record { action = result; world = self.new.world }
            ≡ turn o self.old.world }
        ensures posts { self.old.posts ≤ self.new.posts + 1 }
    {
        match self.take_head(o) {
            None => {
                set_busy(&mut self.things, o, false);
                None
            }
            Some(Item::Do(action)) => Some(action),
            Some(Item::Wait(ms)) => {
                let due = self.later(ms);
                self.post(due, Kind::Turn { object: o });
                None
            }
            Some(Item::Speak(text)) => {
                self.tell(o, Told::Speak(text));
                self.turn_done(o);
                None
            }
        }
    }
}
