//! Effects that stand on objects.
ghost use Rattle.std.specs.Prelude.{◌≡◌, ◌<◌, ◌≤◌, ◌+◌, ◌^◌, length, OnOk, OnErr, pos};
ghost use Rattle.world_rules.specs.Changes.{with_effect};
ghost use Rattle.world_rules.specs.Kept.{IsWorld};
ghost use Rattle.world_rules.specs.Rows.{applied, applied_to, removed};
ghost use Rattle.world_rules.specs.Turns.{unapply};

use crate::parts::Parts;
use crate::things::add_effect;
use delay_agenda::Kind;
use nwq_value::{Effect, NoMemory};
use world_rules::{Stood, Told};

impl<X: Drop> Parts<X> {
    /// One effect more on an object, a copy of this one.
    fn put_effect(&mut self, o: u32, number: Option<u64>, effect: &Effect) -> Result<(), NoMemory>
        requires first { 1 ≤ o }
        requires within { o ≤ length self.old.world.things }
        ensures ok { OnOk result (self.new
            ≡ record self.old { world = with_effect o number effect.now self.old.world }) }
        ensures err { OnErr result (self.new ≡ self.old) }
    {
        let effect = effect.copy(self.alloc())?;
        add_effect(&mut self.things, o, Stood { number, effect })
    }

    /// The effect stands on the object until the agenda ends it.
    fn apply_for_a_time(&mut self, o: u32, effect: Effect, ms: i32) -> Result<(), NoMemory>
        requires first { 1 ≤ o }
        requires within { o ≤ length self.old.world.things }
        requires room { 1 ≤ self.old.posts }
        requires line { 1 ≤ self.old.lines }
        requires few { self.old.world.agenda.next < 2 ^ 63 }
        requires early { self.old.world.clock < 2 ^ 62 }
        ensures ok { OnOk result (self.new.world ≡ applied (pos 1) o effect ms self.old.world) }
        ensures err { OnErr result (self.new.world ≡ self.old.world) }
        ensures posts { self.old.posts ≤ self.new.posts + 1 }
    {
        let number = Some(self.next_number());
        let due = self.later(ms);
        match self.put_effect(o, number, &effect) {
            Err(NoMemory) => {
                drop(effect);
                Err(NoMemory)
            }
            Ok(()) => {
                self.tell(o, Told::Apply(1, effect));
                self.post(due, Kind::Unapply { object: o });
                Ok(())
            }
        }
    }

    /// The effect stands on the object without end.
    fn apply_for_good(&mut self, o: u32, effect: Effect) -> Result<(), NoMemory>
        requires first { 1 ≤ o }
        requires within { o ≤ length self.old.world.things }
        requires line { 1 ≤ self.old.lines }
        ensures ok { OnOk result (self.new.world
            ≡ applied (pos 2) o effect (pos 0) self.old.world) }
        ensures err { OnErr result (self.new.world ≡ self.old.world) }
        ensures posts { self.old.posts ≤ self.new.posts }
    {
        match self.put_effect(o, None, &effect) {
            Err(NoMemory) => {
                drop(effect);
                Err(NoMemory)
            }
            Ok(()) => {
                self.tell(o, Told::Apply(2, effect));
                Ok(())
            }
        }
    }

    /// The effect is applied to the target, where there is such an object, with this duration.
    #[tactic(auto, using(crate::proofs::EffectLemmas::other_duration))]
    pub(crate) fn apply_to(
        &mut self,
        duration: i32,
        o: u32,
        effect: Effect,
        ms: i32,
    ) -> Result<(), NoMemory>
        requires world { IsWorld self.old.world }
        requires room { 1 ≤ self.old.posts }
        requires line { 1 ≤ self.old.lines }
        requires few { self.old.world.agenda.next < 2 ^ 63 }
        requires early { self.old.world.clock < 2 ^ 62 }
        ensures ok { OnOk result (self.new.world ≡ applied_to duration o effect ms self.old.world) }
        ensures err { OnErr result (self.new.world ≡ self.old.world) }
        ensures posts { self.old.posts ≤ self.new.posts + 1 }
    {
        if !self.is_valid(o) {
            drop(effect);
            return Ok(());
        }
        match duration {
            0 => {
                self.tell(o, Told::Apply(0, effect));
                Ok(())
            }
            1 => self.apply_for_a_time(o, effect, ms),
            2 => self.apply_for_good(o, effect),
            _ => {
                drop(effect);
                Ok(())
            }
        }
    }

    /// The first effect of an object that is equal to this one goes, where there is one. A number
    /// without an object has none.
    #[tactic(auto, using(crate::proofs::EffectLemmas::removals))]
    pub(crate) fn remove_effect(&mut self, o: u32, effect: Effect)
        requires world { IsWorld self.old.world }
        requires line { 1 ≤ self.old.lines }
        ensures removed { self.new.world ≡ removed o effect self.old.world }
        ensures posts { self.new.posts ≡ self.old.posts }
    {
        if !self.is_valid(o) {
            drop(effect);
            return;
        }
        match self.take_equal(o, &effect) {
            None => drop(effect),
            Some(stood) => {
                drop(stood);
                self.tell(o, Told::Remove(effect));
            }
        }
    }

    /// The first effect of this number that stands on an object ends, where there is one.
    #[tactic(auto, using(crate::proofs::EffectLemmas::expirations))]
    pub fn unapply(&mut self, o: u32, number: u64)
        requires first { 1 ≤ o }
        requires within { o ≤ length self.old.world.things }
        requires line { 1 ≤ self.old.lines }
        ensures ended { self.new.world ≡ unapply o number self.old.world }
        ensures posts { self.new.posts ≡ self.old.posts }
    {
        match self.take_numbered(o, number) {
            None => {}
            Some(stood) => self.tell(o, Told::Expire(stood.effect)),
        }
    }
}
