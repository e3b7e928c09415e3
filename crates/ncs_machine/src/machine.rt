//! The frames of a running entry, and one step.
ghost use Rattle.std.specs.Prelude.{◌≡◌, ◌≢◌, ◌≤◌, ◌<◌, ◌+◌, ◌^◌, [], ◌∷◌, length, map, None};
ghost use Rattle.std.specs.Prelude.{IfOk, OnErr, OnOk, Option, Some, slice_get, ℕ};
ghost use Rattle.std.specs.Option.{option_copied};
ghost use Rattle.nwq_value.specs.Engine.{IsRoutine};
ghost use Rattle.nwq_value.specs.declared.engine.Role.TheVariants.{Pure};
ghost use Rattle.std.specs.List.{position_from};
ghost use Rattle.nwq_value.specs.Limits.{file_limit};
ghost use Rattle.ncs_code.specs.Plain.{Action};
ghost use Rattle.ncs_code.specs.Spelling.{op_size};
ghost use Rattle.machine_rules.specs.Calls.{arguments};
ghost use Rattle.machine_frames.specs.Takes.{IsCall};
ghost use Rattle.std.specs.Char.{to_ascii_lowercase};
ghost use Rattle.std.specs.Str.{bytes_eq};
ghost use Rattle.saved_state.specs.declared.saved.Saved.{Saved as SavedView};
ghost use Rattle.machine_rules.specs.Act.{returned};
ghost use Rattle.machine_rules.specs.Machine.{Host, answered, script_begun, executed, followed};
ghost use Rattle.machine_rules.specs.Machine.{over};
ghost use Rattle.machine_rules.specs.Machine.{script_named};
ghost use Rattle.world_rules.specs.World.{World as WorldView, count as object_count};
ghost use Rattle.hook_table.specs.InHooks.{known_by};
ghost use Rattle.ncs_machine.specs.Host.{EngineView, answer_of, engine_answer, engine_view, host};
ghost use Rattle.ncs_machine.specs.Host.{scripts_of};
ghost use Rattle.ncs_machine.specs.Steps.{FitArguments, IsHalfway, Remains, next_of, state};
ghost use Rattle.ncs_machine.specs.Steps.{Frames, KeepsFrames};
ghost use Rattle.world_core.specs.Calls.{AreServing, IsEarly};

use crate::scripts::{Loaded, Scripts};
use hook_table::Hooks;
use machine_frames::{Arguments, Frame};
use nwq_value::{Args, NoMemory, Role, Routine, Table, Text};
use saved_state::Saved;
use std::alloc::Global;
use std::marker::Model;
use std::mem;
use world_core::World;

/// How many scripts at most wait for one that they execute.
const MOST_WAITING: usize = 8;

/// The script that runs, and those that wait for it, the newest last.
#[derive(Drop)]
pub struct Machine {
    pub(crate) running: Frame,
    waiting: Vec<Frame>,
    /// What a call's arguments are put into, which is kept so that few calls take memory for it.
    list: Args,
}

impl Model for Machine {
    ghost use Rattle.std.specs.Prelude.{reverse};
    ghost use Rattle.ncs_machine.specs.Steps.{Frames};

    ghost Value = { Frames };

    ghost view = { λ m. record { running = m.running; waiting = reverse m.waiting.items } };
}

/// What a step leads to.
#[derive(Clone, Copy)]
pub enum StepOutcome {
    /// The script goes on.
    Goes,
    /// The entry goes on, in another script maybe.
    Enters,
    /// The last script is over.
    Ends,
    /// A divisor is 0, which ends the whole entry.
    Divides,
}

/// Whether the first text is the second one, where letters of the first count without their case.
fn is_named(name: &[u8], own: &[u8]) -> bool
    ensures test { result ≡ bytes_eq (map to_ascii_lowercase name.now) own.now }
{
    match (name, own) {
        ([], []) => true,
        ([], [_, ..]) => false,
        ([_, ..], []) => false,
        ([a, name @ ..], [b, own @ ..]) => {
            if a.to_ascii_lowercase() == *b {
                is_named(name, own)
            } else {
                false
            }
        }
    }
}

/// The number of the first script of this name, where the first of all has number `from`.
fn named_from(scripts: &[Loaded], name: &[u8], from: usize) -> Option<usize>
    requires small { from + length scripts.now < 2 ^ 62 }
    ensures number { result
        ≡ position_from (λ l. bytes_eq (map to_ascii_lowercase name.now) l.name) from scripts.now }
{
    match scripts {
        [] => None,
        [first, rest @ ..] => {
            if is_named(name, first.name.bytes()) {
                Some(from)
            } else {
                named_from(rest, name, from + 1)
            }
        }
    }
}

/// The number of the listed script of a name, where its letters count without their case.
#[tactic(auto, using(crate::proofs::Names::position_is))]
pub(crate) fn script_named(scripts: &Scripts, name: &Text) -> Option<usize>
    requires few { length scripts.now < 2 ^ 32 }
    ensures number { result ≡ script_named (scripts_of scripts.now) name.now }
{
    named_from(scripts.as_slice(), name.bytes(), 0)
}

impl Machine {
    /// One script runs, and none waits.
    pub fn of(alloc: Global, running: Frame) -> Machine
        ensures frames { result ≡ record { running = running; waiting = [] } }
    {
        Machine {
            running,
            waiting: Vec::new(alloc),
            list: Args::new(alloc),
        }
    }

    /// The running script.
    pub(crate) fn script<'a>(&self, scripts: &'a Scripts) -> &'a Loaded
        requires listed { slice_get scripts.now self.now.running.script ≢ None }
        ensures script { slice_get scripts.now self.now.running.script ≡ Some result.now }
    {
        match scripts.get(self.running.script() as usize) {
            None => unreachable!(),
            Some(script) => script,
        }
    }

    /// The running script, in the middle of its run.
    pub(crate) fn frame(&self) -> &Frame
        ensures frame { result.now ≡ self.now.running }
    {
        &self.running
    }

    /// How many scripts wait.
    #[tactic(auto, using(crate::proofs::RemarkLemmas::waiting_lies))]
    pub(crate) fn waiting_count(&self) -> usize
        ensures count { result ≡ length self.now.waiting }
    {
        self.waiting.len()
    }

    /// The script that waits at place `i`, counted from 0, the newest one.
    #[tactic(auto, using(crate::proofs::RemarkLemmas::waiting_lies))]
    pub(crate) fn waiting_at(&self, i: usize) -> Option<&Frame>
        requires inside { i < length self.now.waiting }
        ensures frame { option_copied result ≡ slice_get self.now.waiting i }
    {
        self.waiting.get(self.waiting.len() - 1 - i)
    }

    /// The place of its next instruction.
    pub(crate) fn place(&self) -> u32
        ensures place { result ≡ self.now.running.place }
    {
        self.running.place()
    }

    /// The object on which it runs.
    pub(crate) fn own(&self) -> u32
        ensures own { result ≡ self.now.running.self }
    {
        self.running.own()
    }

    /// The arguments of a call of the routine, which has this number, by an instruction of this
    /// size, where none were taken yet. They stand in the list of the last call whose arguments
    /// were lent.
    pub(crate) fn take(
        &mut self,
        alloc: Global,
        routine: &Routine,
        number: u16,
        count: u8,
        size: u32,
        args: &mut Arguments,
    ) -> Result<(), NoMemory>
        requires none { args.old ≡ record { values = []; action = None } }
        requires case { arguments routine.now count self.old.running.stack.cells
            self.old.running.pending ≢ None }
        requires size { size ≡ op_size (Action number count) }
        requires small { self.old.running.place + size ≤ file_limit }
        ensures call { OnOk result
            (IsCall routine.now number count self.old.running self.new.running args.new) }
        ensures others { self.new ≡ record self.old { running = self.new.running } }
    {
        args.values = mem::replace(&mut self.list, Args::new(alloc));
        args.values.clear();
        self.running
            .take_arguments(alloc, routine, number, count, size, args)
    }

    /// The running script is over: the newest of those that wait goes on. Rare, and so a call of
    /// its own.
    #[inline(never)]
    #[tactic(auto, using(crate::proofs::Frames::pushed_last))]
    fn end_script(&mut self) -> StepOutcome
        ensures next { (w : WorldView SavedView) → over self.old.waiting (state self.old w)
            ≡ next_of result (state self.new w) }
        ensures frames { (before : Frames) → KeepsFrames result before self.new }
        ensures remains { (script : ℕ) → Remains result script self.new.running.script }
        ensures own { (own : ℕ) → Remains result own self.new.running.self }
    {
        match self.waiting.pop() {
            None => StepOutcome::Ends,
            Some(frame) => {
                drop(mem::replace(&mut self.running, frame));
                StepOutcome::Enters
            }
        }
    }

    /// RETN.
    #[inline(always)]
    #[tactic(auto, using(crate::proofs::Frames::return_lemmas))]
    pub(crate) fn give_back(&mut self) -> StepOutcome
        ensures next { (h : Host (WorldView SavedView)) (w : WorldView SavedView) →
            followed h (state self.old w) (returned self.old.running.calls self.old.running)
            ≡ next_of result (state self.new w) }
        ensures frames { KeepsFrames result self.old self.new }
        ensures remains { Remains result self.old.running.script self.new.running.script }
        ensures own { Remains result self.old.running.self self.new.running.self }
    {
        if self.running.give_back() {
            StepOutcome::Goes
        } else {
            self.end_script()
        }
    }

    /// Another script begins to run, and the running one waits for it.
    #[tactic(auto, using(crate::proofs::Frames::pushed_last))]
    fn wait_for(&mut self, frame: Frame) -> Result<(), NoMemory>
        ensures frames { OnOk result (self.new
            ≡ record { running = frame; waiting = self.old.running ∷ self.old.waiting }) }
    {
        let old = mem::replace(&mut self.running, frame);
        self.waiting.push(old)?;
        Ok(())
    }

    /// ExecuteScript where the caller may run a script on the target, behind the call.
    #[tactic(auto, using(crate::proofs::Frames::begin_lemmas))]
    fn begin_script(
        &mut self,
        alloc: Global,
        scripts: &Scripts,
        world: &mut World<Saved>,
        name: &Text,
        target: u32,
    ) -> Result<(), NoMemory>
        requires few { length scripts.now < 2 ^ 32 }
        ensures room { world.old.room ≤ world.new.room }
        ensures kept { OnErr result (world.new.world ≡ world.old.world) }
        ensures begun { (e : EngineView) → OnOk result
            (script_begun (host (scripts_of scripts.now) e)
            (script_named (scripts_of scripts.now) name.now) name.now target
            self.old.running (state self.old world.old.world)
            ≡ state self.new world.new.world) }
    {
        match script_named(scripts, name) {
            None => world.no_script(target, name),
            Some(number) => {
                if self.waiting.len() < MOST_WAITING {
                    self.wait_for(Frame::started(alloc, number as u32, target))
                } else {
                    world.deep(target, name)
                }
            }
        }
    }

    /// ExecuteScript, behind the call.
    #[tactic(auto, using(crate::proofs::Frames::execute_lemmas))]
    pub(crate) fn execute(
        &mut self,
        alloc: Global,
        scripts: &Scripts,
        world: &mut World<Saved>,
        name: &Text,
        target: u32,
    ) -> Result<(), NoMemory>
        requires few { length scripts.now < 2 ^ 32 }
        ensures room { world.old.room ≤ world.new.room }
        ensures kept { OnErr result (world.new.world ≡ world.old.world) }
        ensures executed { (e : EngineView) → OnOk result
            (executed (host (scripts_of scripts.now) e) name.now target self.old.running
            (state self.old world.old.world) ≡ state self.new world.new.world) }
    {
        if name.bytes().is_empty() || !world.may_run(self.running.own(), target) {
            return Ok(());
        }
        self.begin_script(alloc, scripts, world, name, target)
    }

    /// A call of the engine, behind it: of the routine of this number. Its arguments are lent, and
    /// the list is kept for the next call.
    #[tactic(auto, using(crate::proofs::Calls::lent_lemmas))]
    pub(crate) fn ask(
        &mut self,
        world: &mut World<Saved>,
        hooks: &Hooks,
        table: &Table,
        n: u16,
        routine: &Routine,
        args: &mut Arguments,
    ) -> Result<(), NoMemory>
        requires early { IsEarly world.old.world }
        requires caller { self.old.running.self ≤ object_count world.old.world }
        requires hooks { AreServing (known_by hooks.now) }
        requires listed { slice_get table.now.routines n ≡ Some routine.now }
        requires routine { IsRoutine routine.now }
        requires types { FitArguments
            (engine_view table.now (known_by hooks.now)) n args.old.values }
        ensures room { world.old.room ≤ world.new.room }
        ensures answered { OnOk result (answered (answer_of (engine_answer
            (engine_view table.now (known_by hooks.now)) n
            self.old.running.self args.old.values args.old.action world.old.world)) self.old.running
            (state self.old world.old.world) ≡ state self.new world.new.world) }
        ensures cut { OnErr result (IsHalfway world.old.world (engine_answer
            (engine_view table.now (known_by hooks.now)) n
            self.old.running.self args.old.values args.old.action world.old.world).world
            world.new.world) }
    {
        match routine.role {
            Role::Pure(k) => {
                self.ask_function(world, hooks, table, n, routine, k, &args.values)?;
            }
            Role::Built(_) | Role::World | Role::Uncallable => {
                let action = args.action.take();
                self.ask_engine(world, hooks, table, n, &args.values, action)?;
            }
        }
        mem::swap(&mut self.list, &mut args.values);
        Ok(())
    }

    /// The same of a function of strings and numbers, which changes nothing.
    fn ask_function(
        &mut self,
        world: &World<Saved>,
        hooks: &Hooks,
        table: &Table,
        n: u16,
        routine: &Routine,
        k: u8,
        values: &Args,
    ) -> Result<(), NoMemory>
        requires hooks { AreServing (known_by hooks.now) }
        requires listed { slice_get table.now.routines n ≡ Some routine.now }
        requires routine { IsRoutine routine.now }
        requires role { routine.now.role ≡ Pure k }
        requires types { FitArguments
            (engine_view table.now (known_by hooks.now)) n values.now }
        ensures answered { (action : Option SavedView) → OnOk result
            (answered (answer_of (engine_answer
            (engine_view table.now (known_by hooks.now)) n
            self.old.running.self values.now action world.now.world)) self.old.running
            (state self.old world.now.world) ≡ state self.new world.now.world) }
    {
        match world.function(hooks, table, n, routine, k, values)? {
            None => Ok(()),
            Some(value) => self.running.give(value),
        }
    }

    /// The same of any routine.
    #[inline(never)]
    #[tactic(auto, using(crate::proofs::Calls::ask_lemmas))]
    fn ask_engine(
        &mut self,
        world: &mut World<Saved>,
        hooks: &Hooks,
        table: &Table,
        n: u16,
        values: &Args,
        action: Option<Saved>,
    ) -> Result<(), NoMemory>
        requires early { IsEarly world.old.world }
        requires caller { self.old.running.self ≤ object_count world.old.world }
        requires hooks { AreServing (known_by hooks.now) }
        requires types { FitArguments
            (engine_view table.now (known_by hooks.now)) n values.now }
        ensures room { world.old.room ≤ world.new.room }
        ensures answered { OnOk result (answered (answer_of (engine_answer
            (engine_view table.now (known_by hooks.now)) n
            self.old.running.self values.now action world.old.world)) self.old.running
            (state self.old world.old.world) ≡ state self.new world.new.world) }
        ensures cut { OnErr result (IsHalfway world.old.world (engine_answer
            (engine_view table.now (known_by hooks.now)) n
            self.old.running.self values.now action world.old.world).world world.new.world) }
    {
        let own = self.running.own();
        match world.engine(hooks, table, n, own, values, action)? {
            None => Ok(()),
            Some(value) => self.running.give(value),
        }
    }
}
