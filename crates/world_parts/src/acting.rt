//! Stored actions and queues.
ghost use Rattle.std.specs.Prelude.{◌≡◌, ◌<◌, ◌≤◌, ◌+◌, ◌^◌, length, OnOk, OnErr};
ghost use Rattle.delay_agenda.specs.Waiting.{turn_count};
ghost use Rattle.world_rules.specs.Changes.{later};
ghost use Rattle.world_rules.specs.Kept.{turns_allowed, IsWorld};
ghost use Rattle.world_rules.specs.Rows.{appended, appended_do, assigned, at_rest, awake, cleared};
ghost use Rattle.world_rules.specs.Rows.{delayed};
ghost use Rattle.world_rules.specs.World.{count, queue_of};

use crate::parts::Parts;
use crate::things::{append, set_busy};
use action_queue::Item;
use delay_agenda::Kind;
use nwq_value::NoMemory;
use world_rules::at_least_zero;

impl<X: Drop> Parts<X> {
    /// The time so many milliseconds from now; a negative number is no delay.
    #[tactic(auto, using(crate::proofs::DelayLemmas::later_is))]
    pub(crate) fn later(&self, ms: i32) -> u64
        requires early { self.now.world.clock < 2 ^ 62 }
        ensures later { result ≡ later ms self.now.world }
    {
        self.clock() + at_least_zero(ms)
    }

    /// The action is to run as the target, where there is such an object.
    #[inline(never)]
    pub(crate) fn assign(&mut self, target: u32, action: Option<X>)
        requires room { 1 ≤ self.old.posts }
        requires few { self.old.world.agenda.next < 2 ^ 63 }
        ensures assigned { self.new.world ≡ assigned target action self.old.world }
        ensures posts { self.old.posts ≤ self.new.posts + 1 }
    {
        match action {
            None => {}
            Some(action) => {
                if self.is_valid(target) {
                    let now = self.clock();
                    let object = target;
                    self.post(now, Kind::Stored { object, action });
                } else {
                    drop(action);
                }
            }
        }
    }

    /// The action is to run as the caller, after a delay.
    #[inline(never)]
    pub(crate) fn delay(&mut self, caller: u32, ms: i32, action: Option<X>)
        requires room { 1 ≤ self.old.posts }
        requires few { self.old.world.agenda.next < 2 ^ 63 }
        requires early { self.old.world.clock < 2 ^ 62 }
        ensures delayed { self.new.world ≡ delayed caller ms action self.old.world }
        ensures posts { self.old.posts ≤ self.new.posts + 1 }
    {
        match action {
            None => {}
            Some(action) => {
                let due = self.later(ms);
                let object = caller;
                self.post(due, Kind::Stored { object, action });
            }
        }
    }

    /// An object that wasn't busy becomes so, and turns to its actions at once.
    fn wake(&mut self, o: u32)
        requires first { 1 ≤ o }
        requires within { o ≤ length self.old.world.things }
        requires room { 1 ≤ self.old.posts }
        requires few { self.old.world.agenda.next < 2 ^ 63 }
        ensures awake { self.new.world ≡ awake o self.old.world }
        ensures posts { self.old.posts ≤ self.new.posts + 1 }
    {
        if !self.queue(o).is_busy() {
            let now = self.clock();
            set_busy(&mut self.things, o, true);
            self.post(now, Kind::Turn { object: o });
        }
    }

    /// One action more for an object to do, where there is such an object.
    #[inline(never)]
    #[tactic(auto, using(crate::proofs::ThingsLemmas::long_changed))]
    pub(crate) fn add_action(&mut self, o: u32, item: Item<X>) -> Result<(), NoMemory>
        requires world { IsWorld self.old.world }
        requires room { 1 ≤ self.old.posts }
        requires few { self.old.world.agenda.next < 2 ^ 63 }
        ensures ok { OnOk result (self.new.world ≡ appended o item self.old.world) }
        ensures err { OnErr result (self.new.world ≡ self.old.world) }
        ensures posts { self.old.posts ≤ self.new.posts + 1 }
    {
        if !self.is_valid(o) {
            drop(item);
            return Ok(());
        }
        append(&mut self.things, o, item)?;
        self.wake(o);
        Ok(())
    }

    /// One stored action more for an object to do, where there is such an object.
    #[inline(never)]
    pub(crate) fn add_do(&mut self, o: u32, action: Option<X>) -> Result<(), NoMemory>
        requires world { IsWorld self.old.world }
        requires room { 1 ≤ self.old.posts }
        requires few { self.old.world.agenda.next < 2 ^ 63 }
        ensures ok { OnOk result (self.new.world ≡ appended_do o action self.old.world) }
        ensures err { OnErr result (self.new.world ≡ self.old.world) }
        ensures posts { self.old.posts ≤ self.new.posts + 1 }
    {
        match action {
            None => Ok(()),
            Some(action) => self.add_action(o, Item::Do(action)),
        }
    }

    /// The Turn of an object that is on the agenda goes, and its mark with it.
    #[tactic(auto, using(crate::proofs::TurnLemmas::none_left))]
    fn rest(&mut self, o: u32)
        requires first { 1 ≤ o }
        requires within { o ≤ length self.old.world.things }
        requires turns { turn_count o self.old.world.agenda.entries
            ≤ turns_allowed (queue_of o self.old.world).busy }
        ensures rests { self.new.world ≡ at_rest o self.old.world }
        ensures posts { self.old.posts ≤ self.new.posts }
    {
        if self.queue(o).is_busy() && self.cancel_turn(o) {
            set_busy(&mut self.things, o, false);
        }
    }

    #[tactic(auto, using(crate::proofs::ThingsLemmas::cleared))]
    /// The queue of an object is emptied. In version 1 a Turn that is on the agenda stays there, in
    /// version 2 it goes.
    pub(crate) fn clear_all(&mut self, o: u32)
        requires world { IsWorld self.old.world }
        requires within { o ≤ count self.old.world }
        ensures cleared { self.new.world ≡ cleared o self.old.world }
        ensures posts { self.old.posts ≤ self.new.posts }
    {
        if o == 0 {
            return;
        }
        self.clear(o);
        if self.version == 2 {
            self.rest(o);
        }
    }
}
