//! Events that scripts signal.
ghost use Rattle.std.specs.Prelude.{◌≡◌, ◌<◌, ◌≤◌, ◌+◌, ◌^◌, IfOk, OnOk, OnErr};
ghost use Rattle.area_rules.specs.Area.{object};
ghost use Rattle.world_rules.specs.Rows.{event_script, name_or, signalled};
ghost use Rattle.world_rules.specs.World.{count};

use crate::parts::Parts;
use delay_agenda::Kind;
use nwq_value::{NoMemory, Text};

/// A name, or the second one where the first is empty.
fn name_or<'a>(first: &'a [u8], second: &'a [u8]) -> &'a [u8]
    ensures name { result.now ≡ name_or first.now second.now }
{
    match first {
        [] => second,
        [..] => first,
    }
}

impl<X: Drop> Parts<X> {
    /// The script of an object's own events.
    fn event_script(&self, o: u32) -> &[u8]
        requires first { 1 ≤ o }
        requires within { o ≤ count self.now.world }
        ensures name { result.now ≡ event_script (object self.now.world.area o).scripts }
    {
        let first = self.area.script_of(o, b"ScriptUserDefine".as_slice());
        let second = self.area.script_of(o, b"OnUserDefined".as_slice());
        name_or(first, second)
    }

    /// The same as a text, which keeps the whole name.
    #[tactic(auto, using(crate::proofs::NameLemmas::name_kept))]
    fn event_text(&self, o: u32) -> Result<Text, NoMemory>
        requires first { 1 ≤ o }
        requires within { o ≤ count self.now.world }
        ensures name { IfOk result
            (λ text. text ≡ event_script (object self.now.world.area o).scripts) }
    {
        self.area.keeps();
        Text::of(self.alloc(), self.event_script(o))
    }

    /// The event of this user number comes to an object at once, where there is one.
    #[inline(never)]
    pub(crate) fn signal(&mut self, o: u32, user: i32) -> Result<(), NoMemory>
        requires room { 1 ≤ self.old.posts }
        requires few { self.old.world.agenda.next < 2 ^ 63 }
        ensures ok { OnOk result (self.new.world ≡ signalled o user self.old.world) }
        ensures err { OnErr result (self.new.world ≡ self.old.world) }
        ensures posts { self.old.posts ≤ self.new.posts + 1 }
    {
        if !self.is_valid(o) {
            return Ok(());
        }
        let script = self.event_text(o)?;
        let now = self.clock();
        let object = o;
        self.post(
            now,
            Kind::Event {
                object,
                script,
                user,
            },
        );
        Ok(())
    }
}
