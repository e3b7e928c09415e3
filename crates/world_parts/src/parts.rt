//! The parts of a world, and the small changes that everything else is made of.
ghost use Rattle.std.specs.Prelude.{◌≡◌, ◌<◌, ◌≤◌, ◌+◌, ◌-◌, ◌^◌, ◌↔◌, [], drop, length, pos};
ghost use Rattle.std.specs.Prelude.{slice_get, Some, IfOk, OnOk, IsTrue};
ghost use Rattle.std.specs.List.{find};
ghost use Rattle.delay_agenda.specs.Order.{first_due};
ghost use Rattle.delay_agenda.specs.Waiting.{turn_count};
ghost use Rattle.world_rules.specs.Changes.{told, post, with_actions, with_effects, without_turn};
ghost use Rattle.world_rules.specs.Changes.{is_effect, is_numbered, without_first};
ghost use Rattle.world_rules.specs.Turns.{drained, still, with_entries};
ghost use Rattle.world_rules.specs.World.{count, effects_of, is_valid, queue_of};
ghost use Rattle.world_parts.specs.Saved.{put_together};

use crate::saved::WorldParts;
use crate::things::{clear, of_object, take_equal, take_head, take_numbered};
use crate::turns::idle_objects;
use action_queue::{Item, Queue};
use area_tree::Area;
use delay_agenda::{Agenda, Entry, Kind};
use nwq_value::{Effect, Items, NoMemory, Randoms};
use std::alloc::Global;
use std::collections::VecDeque;
use std::marker::Model;
use world_rules::{Line, Standing, Stood, Things, Told};

/// The parts of a world.
///
/// Lines and entries are told and posted without memory where there is room for them, so a routine
/// takes all of its room before it changes anything.
pub struct Parts<X> {
    alloc: Global,
    pub(crate) clock: u64,
    pub(crate) area: Area,
    pub(crate) things: Vec<Things<X>>,
    agenda: Agenda<X>,
    trace: Vec<Line>,
    pub(crate) random: VecDeque<u32>,
    pub(crate) user: i32,
    pub(crate) version: u8,
}

impl<X> Model for Parts<X> {
    ghost use Rattle.std.specs.Prelude.{◌-◌, length};
    ghost use Rattle.std.specs.Vec.{vec_capacity};
    ghost use Rattle.std.specs.Coded.{codes};
    ghost use Rattle.gff_tree.specs.Code.{node_code};
    ghost use Rattle.world_parts.specs.Parts.{PartsView};

    ghost Value = { PartsView X };

    ghost coded = { Prim.hlevel (codes, node_code) };

    ghost view = { λ p. record {
      world = record {
        clock = p.clock;
        area = p.area;
        things = p.things.items;
        agenda = p.agenda.waiting;
        trace = p.trace.items;
        random = p.random.items;
        user = p.user;
        version = p.version;
      };
      posts = p.agenda.room;
      lines = vec_capacity p.trace - length p.trace.items;
    } };
}

impl<X: Drop> Drop for Parts<X> {
    fn drop(self) {
        let Parts {
            alloc: _,
            clock: _,
            area,
            things,
            agenda,
            trace,
            random,
            user: _,
            version: _,
        } = self;
        drop(area);
        drop(things);
        drop(agenda);
        drop(trace);
        drop(random);
    }
}

impl<X: Drop> Parts<X> {
    /// The world of an area before anything is planned.
    pub fn new(
        alloc: Global,
        area: Area,
        random: Randoms,
        version: u8,
    ) -> Result<Parts<X>, NoMemory>
        ensures world { IfOk result (λ parts. parts.world ≡ still area random version) }
    {
        match idle_objects(alloc, area.count()) {
            Err(NoMemory) => {
                drop(area);
                drop(random);
                Err(NoMemory)
            }
            Ok(things) => Ok(Parts {
                alloc,
                clock: 0,
                area,
                things,
                agenda: Agenda::new(alloc),
                trace: Vec::new(alloc),
                random: VecDeque::from_vec(random.into_vec()),
                user: 0,
                version,
            }),
        }
    }

    /// The world of an area and of what was saved beside it; takes no memory.
    pub fn from_parts(alloc: Global, area: Area, saved: WorldParts<X>) -> Parts<X>
        ensures world { result.world ≡ put_together area saved }
    {
        let WorldParts {
            clock,
            objects,
            agenda,
            random,
            version,
        } = saved;
        Parts {
            alloc,
            clock,
            area,
            things: objects.into_vec(),
            agenda,
            trace: Vec::new(alloc),
            random: VecDeque::from_vec(random.into_vec()),
            user: 0,
            version,
        }
    }

    /// The area, and what is saved beside it, with these random numbers; takes no memory.
    fn apart(self, random: Randoms) -> (Area, WorldParts<X>)
        ensures parts { put_together result.0 result.1
            ≡ record self.world { trace = []; random = random; user = pos 0 } }
    {
        let Parts {
            alloc: _,
            clock,
            area,
            things,
            agenda,
            trace,
            random: old,
            user: _,
            version,
        } = self;
        drop(trace);
        drop(old);
        let objects = Items::of_vec(things);
        (
            area,
            WorldParts {
                clock,
                objects,
                agenda,
                random,
                version,
            },
        )
    }

    /// The area, and what is saved beside it. After `NoMemory` all is dropped.
    pub fn into_parts(self) -> Result<(Area, WorldParts<X>), NoMemory>
        ensures parts { IfOk result (λ both. put_together both.0 both.1
            ≡ record self.world { trace = []; user = pos 0 }) }
    {
        let mut parts = self;
        match Randoms::of_slice(parts.alloc, parts.random.make_contiguous()) {
            Err(NoMemory) => {
                drop(parts);
                Err(NoMemory)
            }
            Ok(left) => Ok(parts.apart(left)),
        }
    }

    /// Makes room for so many posts. After `NoMemory` there is at least the room that there was.
    pub fn room_for_posts(&mut self, n: u32) -> Result<(), NoMemory>
        ensures ok { OnOk result (n ≤ self.new.posts) }
        ensures posts { self.old.posts ≤ self.new.posts }
        ensures lines { self.new.lines ≡ self.old.lines }
        ensures same { self.new.world ≡ self.old.world }
    {
        self.agenda.reserve(n)
    }

    /// Makes room for a line.
    pub fn room_for_line(&mut self) -> Result<(), NoMemory>
        ensures ok { OnOk result (1 ≤ self.new.lines) }
        ensures posts { self.new.posts ≡ self.old.posts }
        ensures lines { self.old.lines ≤ self.new.lines }
        ensures same { self.new.world ≡ self.old.world }
    {
        self.trace.reserve(1)?;
        Ok(())
    }

    /// Tells a line, at the clock's time.
    pub fn tell(&mut self, object: u32, what: Told)
        requires room { 1 ≤ self.old.lines }
        ensures told { self.new ≡ record self.old {
          world = told object what self.old.world;
          lines = self.old.lines - 1;
        } }
    {
        let clock = self.clock;
        self.trace.push_reserved(Line {
            clock,
            object,
            told: what,
        });
    }

    /// Posts work under the next number.
    pub fn post(&mut self, due: u64, kind: Kind<X>)
        requires room { 1 ≤ self.old.posts }
        requires few { self.old.world.agenda.next < 2 ^ 63 }
        ensures posted { self.new.world ≡ post due kind self.old.world }
        ensures posts { self.old.posts ≤ self.new.posts + 1 }
        ensures lines { self.new.lines ≡ self.old.lines }
    {
        self.agenda.post(due, kind);
    }

    /// Drops an object's actions; its mark stays.
    pub(crate) fn clear(&mut self, o: u32)
        requires first { 1 ≤ o }
        requires within { o ≤ length self.old.world.things }
        ensures empty { self.new ≡ record self.old { world = with_actions o [] self.old.world } }
    {
        clear(&mut self.things, o);
    }

    /// Takes the first action off an object's queue.
    pub(crate) fn take_head(&mut self, o: u32) -> Option<Item<X>>
        requires first { 1 ≤ o }
        requires within { o ≤ length self.old.world.things }
        ensures taken { result ≡ slice_get (queue_of o self.old.world).actions 0 }
        ensures left { self.new ≡ record self.old {
          world = with_actions o (drop 1 (queue_of o self.old.world).actions) self.old.world;
        } }
    {
        take_head(&mut self.things, o)
    }

    /// Takes the first effect of this number off an object, where there is one.
    pub(crate) fn take_numbered(&mut self, o: u32, number: u64) -> Option<Stood>
        requires first { 1 ≤ o }
        requires within { o ≤ length self.old.world.things }
        ensures taken { result ≡ find (is_numbered number) (effects_of o self.old.world) }
        ensures left { self.new ≡ record self.old {
          world = with_effects o
              (without_first (is_numbered number) (effects_of o self.old.world)) self.old.world;
        } }
    {
        take_numbered(&mut self.things, o, number)
    }

    /// Takes the first effect that is equal to this one off an object, where there is one.
    pub(crate) fn take_equal(&mut self, o: u32, effect: &Effect) -> Option<Stood>
        requires first { 1 ≤ o }
        requires within { o ≤ length self.old.world.things }
        ensures taken { result ≡ find (is_effect effect.now) (effects_of o self.old.world) }
        ensures left { self.new ≡ record self.old {
          world = with_effects o
              (without_first (is_effect effect.now) (effects_of o self.old.world)) self.old.world;
        } }
    {
        take_equal(&mut self.things, o, effect)
    }

    /// The effects that stand on an object.
    pub fn effects(&self, o: u32) -> &Standing
        requires first { 1 ≤ o }
        requires within { o ≤ length self.now.world.things }
        ensures effects { result.now ≡ effects_of o self.now.world }
    {
        &of_object(self.things.as_slice(), o).effects
    }

    /// What an object is to do, and its mark.
    pub fn queue(&self, o: u32) -> &Queue<X>
        requires first { 1 ≤ o }
        requires within { o ≤ length self.now.world.things }
        ensures queue { result.now ≡ queue_of o self.now.world }
    {
        &of_object(self.things.as_slice(), o).queue
    }

    /// Takes the Turn of an object off the agenda; whether there was one.
    pub(crate) fn cancel_turn(&mut self, o: u32) -> bool
        requires one { turn_count o self.old.world.agenda.entries ≤ 1 }
        ensures found { IsTrue result ↔ (0 < turn_count o self.old.world.agenda.entries) }
        ensures left { self.new.world ≡ without_turn o self.old.world }
        ensures posts { self.old.posts ≤ self.new.posts }
        ensures lines { self.new.lines ≡ self.old.lines }
    {
        self.agenda.cancel_turn(o)
    }

    /// The number of the next post.
    pub fn next_number(&self) -> u64
        ensures next { result ≡ self.now.world.agenda.next }
    {
        self.agenda.next_number()
    }

    /// When the next entry is due; `None` exactly where the agenda is empty.
    pub fn next_due(&self) -> Option<u64>
        ensures due { result ≡ first_due self.now.world.agenda.entries }
    {
        self.agenda.next_due()
    }

    /// How many objects there are.
    pub fn count(&self) -> u32
        ensures count { result ≡ count self.now.world }
    {
        self.area.count()
    }

    /// Whether there is an object of this number.
    pub fn is_valid(&self, o: u32) -> bool
        ensures test { result ≡ is_valid o self.now.world }
    {
        0 < o && o <= self.count()
    }

    pub fn clock(&self) -> u64
        ensures clock { result ≡ self.now.world.clock }
    {
        self.clock
    }

    pub fn alloc(&self) -> Global {
        self.alloc
    }

    /// Takes the first entry that waits off the agenda; all else stays.
    #[inline(always)]
    pub fn take_entry(&mut self) -> Option<Entry<X>>
        ensures taken { result ≡ slice_get self.old.world.agenda.entries 0 }
        ensures left { self.new.world
            ≡ with_entries (drop 1 self.old.world.agenda.entries) self.old.world }
        ensures posts { self.old.posts ≤ self.new.posts }
    {
        self.agenda.take()
    }

    /// The lines that are kept.
    pub fn trace(&self) -> &[Line]
        ensures trace { result.now ≡ self.now.world.trace }
    {
        self.trace.as_slice()
    }

    /// Keeps no line any more.
    pub fn clear_trace(&mut self)
        ensures drained { self.new.world ≡ drained self.old.world }
        ensures posts { self.new.posts ≡ self.old.posts }
    {
        self.trace.clear();
    }

    /// The area; takes no memory.
    pub fn into_area(self) -> Area
        ensures area { result ≡ self.world.area }
    {
        let Parts {
            alloc: _,
            clock: _,
            area,
            things,
            agenda,
            trace,
            random,
            user: _,
            version: _,
        } = self;
        drop(things);
        drop(agenda);
        drop(trace);
        drop(random);
        area
    }
}
