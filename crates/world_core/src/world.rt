//! The calls on a world.
ghost use Rattle.std.specs.Prelude.{◌≡◌, ◌<◌, ◌≤◌, ◌+◌, ◌^◌, ◌++◌, [], drop, length, map};
ghost use Rattle.std.specs.Prelude.{slice_get, ℕ, Option};
ghost use Rattle.nwq_value.specs.Engine.{IsRoutine};
ghost use Rattle.nwq_value.specs.declared.engine.Role.TheVariants.{Pure};
ghost use Rattle.std.specs.Prelude.{IfOk, IfSome, OnOk, OnErr, IsTrue, Some, pos};
ghost use Rattle.std.specs.List.{AllByRecursion};
ghost use Rattle.std.specs.Option.{option_copied};
ghost use Rattle.delay_agenda.specs.Order.{first_due};
ghost use Rattle.world_rules.specs.AlikeLaws.{call};
ghost use Rattle.world_rules.specs.Engine.{engine, may_run, no_script, too_deep};
ghost use Rattle.world_rules.specs.Kept.{IsActing, IsBegun, IsWorld};
ghost use Rattle.world_rules.specs.Trace.{trace_text};
ghost use Rattle.world_rules.specs.Turns.{new_world, turn, turn_done, unapply, fault, drained};
ghost use Rattle.world_rules.specs.Turns.{with_entries};
ghost use Rattle.world_rules.specs.World.{count, effects_of, queue_of};
ghost use Rattle.hook_table.specs.InHooks.{known_by};
ghost use Rattle.world_core.specs.Calls.{planned, cells_of, AreServing, FitArguments, IsEarly};
ghost use Rattle.world_core.specs.Calls.{ServeRoutine};
ghost use Rattle.world_parts.specs.Begun.{IsBegunAs};
ghost use Rattle.world_parts.specs.Saved.{put_together};

use crate::engine::{by_role, pure_call, take_room};
use crate::start::{Events, post_all};
use crate::trace::put_trace;
use action_queue::Item;
use area_tree::Area;
use delay_agenda::{Entry, calls_keep_order};
use hook_table::Hooks;
use nwq_value::{Args, NoMemory, Randoms, Routine, Table, Text, Value};
use play_remarks::{Remark, RemarkList};
use std::alloc::Global;
use std::marker::Model;
use std::mem;
use world_parts::{Parts, WorldParts};
use world_rules::{StandingWalk, Told, calls_keep_worlds, entries_keep_worlds};

/// The world in which scripts run.
///
/// `room` counts the posts that a Turn's end may make without memory. The agenda has at least so
/// much room. Nothing that a world does depends on what is remarked of the play.
pub struct World<X> {
    parts: Parts<X>,
    room: u32,
    remarks: RemarkList,
}

impl<X> Model for World<X> {
    ghost use Rattle.std.specs.Prelude.{◌≤◌};
    ghost use Rattle.std.specs.Coded.{codes};
    ghost use Rattle.gff_tree.specs.Code.{node_code};
    ghost use Rattle.world_rules.specs.Kept.{IsWorld};
    ghost use Rattle.world_core.specs.Held.{Held};

    ghost Value = { Held X };

    ghost coded = { Prim.hlevel (codes, node_code) };

    ghost view = { λ w. record { world = w.parts.world; room = w.room } };

    ghost invariant = { λ w. IsWorld w.parts.world × (w.room ≤ w.parts.posts) × (w.room ≤ 1) };
}

impl<X: Drop> Drop for World<X> {
    fn drop(self) {
        let World {
            parts,
            room: _,
            remarks,
        } = self;
        drop(parts);
        drop(remarks);
    }
}

impl<X: Drop> World<X> {
    /// The world of an area and a plan's events, which are posted with numbers from 0.
    pub fn new(
        alloc: Global,
        area: Area,
        random: Randoms,
        events: &Events,
        version: u8,
    ) -> Result<World<X>, NoMemory>
        requires objects { AllByRecursion (λ p. p.object ≤ length area.objects)
            (map planned events.now) }
        ensures world { IfOk result
            (λ w. w.world ≡ new_world area random (map planned events.now) version) }
    {
        calls_keep_worlds::<X>();
        match Parts::new(alloc, area, random, version) {
            Err(NoMemory) => Err(NoMemory),
            Ok(mut parts) => match post_all(&mut parts, events.as_slice()) {
                Err(NoMemory) => {
                    drop(parts);
                    Err(NoMemory)
                }
                Ok(()) => Ok(World {
                    parts,
                    room: 0,
                    remarks: RemarkList::new(alloc),
                }),
            },
        }
    }

    /// The world of an area and of what was saved beside it; takes no memory.
    pub fn from_parts(alloc: Global, area: Area, saved: WorldParts<X>) -> World<X>
        requires kept { IsWorld (put_together area saved) }
        ensures world { result.world ≡ put_together area saved }
    {
        let parts = Parts::from_parts(alloc, area, saved);
        World {
            parts,
            room: 0,
            remarks: RemarkList::new(alloc),
        }
    }

    /// How many random numbers are left.
    pub fn random_left(&self) -> usize
        ensures left { result ≡ length self.now.world.random }
    {
        self.parts.random_left()
    }

    /// The area, and what is saved beside it. After `NoMemory` all is dropped.
    pub fn into_parts(self) -> Result<(Area, WorldParts<X>), NoMemory>
        ensures parts { IfOk result (λ both. put_together both.0 both.1
            ≡ record self.world { trace = []; user = pos 0 }) }
    {
        let World {
            parts,
            room: _,
            remarks,
        } = self;
        drop(remarks);
        parts.into_parts()
    }

    #[tactic(auto, unfolding(world_rules::specs::Engine::engine))]
    /// The call of a routine: what it gives, and how it leaves the world, is the routine's row.
    pub fn engine(
        &mut self,
        hooks: &Hooks,
        table: &Table,
        routine: u16,
        caller: u32,
        args: &Args,
        action: Option<X>,
    ) -> Result<Option<Value>, NoMemory>
        requires early { IsEarly self.old.world }
        requires caller { caller ≤ count self.old.world }
        requires hooks { ServeRoutine table.now routine
            (known_by hooks.now) }
        requires types { FitArguments table.now routine args.now }
        ensures ok { IfOk result (λ value. record { value = value; world = self.new.world }
            ≡ engine table.now (cells_of (known_by hooks.now)) routine
            (call caller args.now action) self.old.world) }
        ensures err { OnErr result (self.new.world ≡ self.old.world) }
        ensures room { self.old.room ≤ self.new.room }
    {
        calls_keep_worlds::<X>();
        match table.routine(routine) {
            None => {
                drop(action);
                Ok(None)
            }
            Some(found) => {
                let room = self.room;
                by_role(
                    &mut self.parts,
                    room,
                    hooks,
                    routine,
                    found,
                    caller,
                    args,
                    action,
                )
            }
        }
    }

    /// The call of a function of strings and numbers, or of a look-up of a cell: the routine of
    /// this number, whose hook has number `k`. It changes nothing, so its arguments are lent.
    #[inline(always)]
    pub fn function(
        &self,
        hooks: &Hooks,
        table: &Table,
        number: u16,
        routine: &Routine,
        k: u8,
        args: &Args,
    ) -> Result<Option<Value>, NoMemory>
        requires listed { slice_get table.now.routines number ≡ Some routine.now }
        requires routine { IsRoutine routine.now }
        requires role { routine.now.role ≡ Pure k }
        requires hooks { AreServing (known_by hooks.now) }
        requires types { FitArguments table.now number args.now }
        ensures ok { (caller : ℕ) (action : Option X) → IfOk result (λ value.
            record { value = value; world = self.now.world }
            ≡ engine table.now (cells_of (known_by hooks.now)) number
            (call caller args.now action) self.now.world) }
    {
        let (_table, _number) = (table, number);
        pure_call(hooks, k, routine, args)
    }

    /// Takes the next entry that is due by a time, sets the clock to when it is due, and makes room
    /// for a post.
    #[inline(always)]
    #[tactic(auto, using(crate::proofs::WorldLemmas::begun_kept))]
    pub fn begin(&mut self, until: u64) -> Result<Option<Entry<X>>, NoMemory>
        ensures ok { IfOk result (λ entry. IsBegunAs until self.old.world entry self.new.world) }
        ensures begun { IfOk result (λ entry. IfSome entry (λ e. IsBegun until self.old.world
            (record { entry = e; world = self.new.world }))) }
        ensures ready { IfOk result (λ entry. IfSome entry (λ _. 1 ≤ self.new.room)) }
        ensures err { OnErr result (self.new.world ≡ self.old.world) }
        ensures room { self.old.room ≤ self.new.room }
    {
        entries_keep_worlds::<X>();
        take_room(&mut self.parts, self.room)?;
        let entry = self.parts.begin(until);
        self.room = 1;
        Ok(entry)
    }

    /// The object turns to its next action: a stored one is the answer, and the Turn is done after
    /// it; of any other kind this call does it.
    pub fn turn(&mut self, object: u32) -> Result<Option<X>, NoMemory>
        requires early { IsEarly self.old.world }
        requires first { 1 ≤ object }
        requires within { object ≤ count self.old.world }
        requires acting { IsActing object self.old.world }
        ensures ok { IfOk result (λ action. record { action = action; world = self.new.world }
            ≡ turn object self.old.world) }
        ensures err { OnErr result (self.new.world ≡ self.old.world) }
        ensures room { self.old.room ≤ self.new.room }
    {
        entries_keep_worlds::<X>();
        take_room(&mut self.parts, self.room)?;
        Ok(self.parts.turn(object))
    }

    /// The Turn is done, after its stored action: the object turns to the next one, or rests. It
    /// posts into the spare room.
    pub fn turn_done(&mut self, object: u32)
        requires early { IsEarly self.old.world }
        requires first { 1 ≤ object }
        requires within { object ≤ count self.old.world }
        requires acting { IsActing object self.old.world }
        requires room { 1 ≤ self.old.room }
        ensures done { self.new.world ≡ turn_done object self.old.world }
    {
        entries_keep_worlds::<X>();
        self.parts.turn_done(object);
        self.room = 0;
    }

    /// The effect of this number ends, where it still stands on the object.
    pub fn unapply(&mut self, object: u32, number: u64) -> Result<(), NoMemory>
        requires first { 1 ≤ object }
        requires within { object ≤ count self.old.world }
        ensures ok { OnOk result (self.new.world ≡ unapply object number self.old.world) }
        ensures err { OnErr result (self.new.world ≡ self.old.world) }
        ensures room { self.old.room ≤ self.new.room }
    {
        entries_keep_worlds::<X>();
        self.parts.room_for_line()?;
        self.parts.unapply(object, number);
        Ok(())
    }

    /// A division by zero ended the entry, in a script of this object.
    pub fn fault(&mut self, object: u32) -> Result<(), NoMemory>
        ensures ok { OnOk result (self.new.world ≡ fault object self.old.world) }
        ensures err { OnErr result (self.new.world ≡ self.old.world) }
        ensures room { self.old.room ≤ self.new.room }
    {
        entries_keep_worlds::<X>();
        self.parts.room_for_line()?;
        self.parts.tell(object, Told::Divide);
        Ok(())
    }

    /// The script of this name, which was to run as this object, isn't listed.
    pub fn no_script(&mut self, object: u32, name: &Text) -> Result<(), NoMemory>
        ensures ok { OnOk result (self.new.world ≡ no_script object name.now self.old.world) }
        ensures err { OnErr result (self.new.world ≡ self.old.world) }
        ensures room { self.old.room ≤ self.new.room }
    {
        calls_keep_worlds::<X>();
        let name = name.copy(self.parts.alloc())?;
        self.parts.room_for_line()?;
        self.parts.tell(object, Told::NoScript(name));
        Ok(())
    }

    /// The script of this name, which was to run as this object, would run too deep.
    pub fn deep(&mut self, object: u32, name: &Text) -> Result<(), NoMemory>
        ensures ok { OnOk result (self.new.world ≡ too_deep object name.now self.old.world) }
        ensures err { OnErr result (self.new.world ≡ self.old.world) }
        ensures room { self.old.room ≤ self.new.room }
    {
        calls_keep_worlds::<X>();
        let name = name.copy(self.parts.alloc())?;
        self.parts.room_for_line()?;
        self.parts.tell(object, Told::Deep(name));
        Ok(())
    }

    /// Whether a script of this caller may run another one on the target, which may be any number.
    pub fn may_run(&self, caller: u32, target: u32) -> bool
        ensures test { result ≡ may_run caller target self.now.world }
    {
        self.parts.is_valid(target) || target == caller
    }

    /// Appends the text of the lines that are kept, and keeps none.
    pub fn drain(&mut self, out: &mut Vec<u8>) -> Result<(), NoMemory>
        ensures ok { OnOk result (out.new.items
            ≡ out.old.items ++ trace_text self.old.world.trace) }
        ensures drained { OnOk result (self.new.world ≡ drained self.old.world) }
        ensures err { OnErr result (out.new.items ≡ out.old.items) }
        ensures kept { OnErr result (self.new.world ≡ self.old.world) }
        ensures room { self.old.room ≤ self.new.room }
    {
        entries_keep_worlds::<X>();
        put_trace(out, self.parts.trace())?;
        self.parts.clear_trace();
        Ok(())
    }

    pub fn clock(&self) -> u64
        ensures clock { result ≡ self.now.world.clock }
    {
        self.parts.clock()
    }

    /// When the next entry is due; `None` exactly where the agenda is empty.
    pub fn next_due(&self) -> Option<u64>
        ensures due { result ≡ first_due self.now.world.agenda.entries }
    {
        self.parts.next_due()
    }

    /// The number of the next post.
    pub fn next_number(&self) -> u64
        ensures next { result ≡ self.now.world.agenda.next }
    {
        self.parts.next_number()
    }

    /// How many objects there are.
    pub fn count(&self) -> u32
        ensures count { result ≡ count self.now.world }
    {
        self.parts.count()
    }

    /// A walk over the effects that stand on an object.
    pub fn effects(&self, o: u32) -> StandingWalk<'_>
        requires first { 1 ≤ o }
        requires within { o ≤ count self.now.world }
        ensures effects { result ≡ effects_of o self.now.world }
    {
        self.parts.effects(o).walk()
    }

    /// The action of an object at place `i` of its queue, counted from 0.
    pub fn item_at(&self, o: u32, i: usize) -> Option<&Item<X>>
        requires first { 1 ≤ o }
        requires within { o ≤ count self.now.world }
        ensures item { option_copied result ≡ slice_get (queue_of o self.now.world).actions i }
    {
        self.parts.queue(o).at(i)
    }

    /// Takes the agenda's first entry off; all else stays, the clock too.
    pub fn take_entry(&mut self) -> Option<Entry<X>>
        ensures taken { result ≡ slice_get self.old.world.agenda.entries 0 }
        ensures left { self.new.world
            ≡ with_entries (drop 1 self.old.world.agenda.entries) self.old.world }
    {
        calls_keep_order::<X>();
        self.parts.take_entry()
    }

    /// The area; takes no memory.
    pub fn into_area(self) -> Area
        ensures area { result ≡ self.world.area }
    {
        let World {
            parts,
            room: _,
            remarks,
        } = self;
        drop(remarks);
        parts.into_area()
    }

    /// Remarks something of the play, which changes nothing in it. Where there is no memory for it,
    /// it is left out.
    pub fn remark(&mut self, remark: Remark)
        ensures same { self.new ≡ self.old }
    {
        let _kept = self.remarks.keep(remark);
    }

    /// Whether one more remark is kept.
    pub fn keeps_remarks(&self) -> bool {
        self.remarks.has_room()
    }

    /// Takes what was remarked of the play.
    pub fn take_remarks(&mut self) -> RemarkList
        ensures same { self.new ≡ self.old }
    {
        let none = RemarkList::new(self.parts.alloc());
        mem::replace(&mut self.remarks, none)
    }

    /// What every world keeps.
    pub fn keeps(&self)
        ensures kept { IsWorld self.now.world }
    {
        let _ = &self.parts;
    }
}
