//! One instruction of a running entry.
ghost use Rattle.std.specs.Prelude.{◌≡◌, ◌≢◌, ◌≤◌, ◌<◌, ◌+◌, ◌^◌, None, Some, IfOk, IfSome};
ghost use Rattle.std.specs.Prelude.{OnErr, length, slice_get};
ghost use Rattle.std.specs.Option.{option_map};
ghost use Rattle.nwq_value.specs.Limits.{file_limit};
ghost use Rattle.ncs_code.specs.Spelling.{op_size};
ghost use Rattle.machine_rules.specs.Act.{Moves, act};
ghost use Rattle.machine_rules.specs.Frames.{Frame as FrameView};
ghost use Rattle.machine_rules.specs.Machine.{followed, step};
ghost use Rattle.world_rules.specs.World.{count};
ghost use Rattle.hook_table.specs.InHooks.{known_by};
ghost use Rattle.decoded_code.specs.Steps.{op_of};
ghost use Rattle.ncs_machine.specs.Host.{engine_view, host, scripts_of};
ghost use Rattle.ncs_machine.specs.Steps.{GoesWell, IsHalfway, Remains, Stays, next_of, state};
ghost use Rattle.ncs_machine.specs.Steps.{KeepsFrames, world_behind};
ghost use Rattle.world_core.specs.Calls.{AreServing, IsEarly};

use crate::machine::{Machine, StepOutcome};
use crate::scripts::{Loaded, Scripts};
use decoded_code::Step;
use hook_table::Hooks;
use ncs_code::place_laws;
use nwq_value::{NoMemory, Table};
use saved_state::Saved;
use std::alloc::Global;
use world_core::World;

impl Machine {
    /// An instruction, in the running script.
    #[inline(always)]
    #[tactic(auto, using(crate::proofs::Stepping::act_lemmas), unfolding(machine_rules::specs::Act::act))]
    fn act(
        &mut self,
        alloc: Global,
        scripts: &Scripts,
        world: &mut World<Saved>,
        hooks: &Hooks,
        table: &Table,
        decoded: &Step,
    ) -> Result<StepOutcome, NoMemory>
        requires few { length scripts.now < 2 ^ 32 }
        requires early { IsEarly world.old.world }
        requires caller { self.old.running.self ≤ count world.old.world }
        requires hooks { AreServing (known_by hooks.now) }
        requires case { act table.now (op_of decoded.now) self.old.running ≢ None }
        requires deep { (f : FrameView)
            → act table.now (op_of decoded.now) self.old.running ≡ Some (Moves f)
            → f.stack.bp ≤ length f.stack.cells }
        requires small { self.old.running.place + op_size (op_of decoded.now) ≤ file_limit }
        ensures room { world.old.room ≤ world.new.room }
        ensures stays { IfOk result (λ next. Stays next world.old.world world.new.world) }
        ensures frames { IfOk result (λ next. KeepsFrames next self.old self.new) }
        ensures next { IfOk result (λ next. IfSome (act table.now (op_of decoded.now)
            self.old.running) (λ a. followed (host (scripts_of scripts.now)
            (engine_view table.now (known_by hooks.now)))
            (state self.old world.old.world) a
            ≡ next_of next (state self.new world.new.world))) }
        ensures remains { IfOk result (λ next. Remains next self.old.running.script
            self.new.running.script) }
        ensures own { IfOk result (λ next. Remains next self.old.running.self
            self.new.running.self) }
        ensures cut { OnErr result (IsHalfway world.old.world (world_behind (option_map (followed
            (host (scripts_of scripts.now)
            (engine_view table.now (known_by hooks.now)))
            (state self.old world.old.world)) (act table.now (op_of decoded.now)
            self.old.running)) world.old.world) world.new.world) }
    {
        match decoded {
            Step::Action { routine, count } => {
                self.call_engine(alloc, scripts, world, hooks, table, *routine, *count)?;
                Ok(StepOutcome::Enters)
            }
            Step::Jsr { offset } => {
                self.running.call(*offset, decoded.size())?;
                Ok(StepOutcome::Goes)
            }
            Step::Retn => Ok(self.give_back()),
            Step::SaveBp => {
                self.running.save_bp(decoded.size())?;
                Ok(StepOutcome::Goes)
            }
            Step::RestoreBp => {
                self.running.restore_bp(decoded.size());
                Ok(StepOutcome::Goes)
            }
            Step::StoreState { globals, locals } => {
                self.running.store(*globals, *locals, decoded.size())?;
                Ok(StepOutcome::Goes)
            }
            Step::Div { kind } => {
                if self.running.divides(*kind)? {
                    Ok(StepOutcome::Goes)
                } else {
                    Ok(StepOutcome::Divides)
                }
            }
            Step::Mod => {
                if self.running.leaves_remainder()? {
                    Ok(StepOutcome::Goes)
                } else {
                    Ok(StepOutcome::Divides)
                }
            }
            _ => {
                self.running.moves(alloc, decoded)?;
                Ok(StepOutcome::Goes)
            }
        }
    }

    /// The next instruction, of the running script.
    #[inline(always)]
    pub(crate) fn step(
        &mut self,
        alloc: Global,
        scripts: &Scripts,
        script: &Loaded,
        world: &mut World<Saved>,
        hooks: &Hooks,
        table: &Table,
    ) -> Result<StepOutcome, NoMemory>
        requires few { length scripts.now < 2 ^ 32 }
        requires script { slice_get scripts.now self.old.running.script ≡ Some script.now }
        requires early { IsEarly world.old.world }
        requires caller { self.old.running.self ≤ count world.old.world }
        requires hooks { AreServing (known_by hooks.now) }
        requires well { GoesWell (step (host (scripts_of scripts.now)
            (engine_view table.now (known_by hooks.now)))
            (state self.old world.old.world)) }
        ensures room { world.old.room ≤ world.new.room }
        ensures stays { IfOk result (λ next. Stays next world.old.world world.new.world) }
        ensures frames { IfOk result (λ next. KeepsFrames next self.old self.new) }
        ensures next { IfOk result (λ next.
            step (host (scripts_of scripts.now)
            (engine_view table.now (known_by hooks.now)))
            (state self.old world.old.world)
            ≡ Some (next_of next (state self.new world.new.world))) }
        ensures remains { IfOk result (λ next. Remains next self.old.running.script
            self.new.running.script) }
        ensures own { IfOk result (λ next. Remains next self.old.running.self
            self.new.running.self) }
        ensures cut { OnErr result (IsHalfway world.old.world (world_behind (step
            (host (scripts_of scripts.now)
            (engine_view table.now (known_by hooks.now)))
            (state self.old world.old.world)) world.old.world) world.new.world) }
    {
        place_laws();
        script.code.sound();
        let decoded = script.code.step_at(self.place());
        let next = self.act(alloc, scripts, world, hooks, table, decoded)?;
        Ok(next)
    }
}
