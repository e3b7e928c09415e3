//! Engine calls of the running script.
ghost use Rattle.std.specs.Prelude.{◌≡◌, ◌≢◌, ◌≤◌, ◌<◌, ◌+◌, ◌^◌, None, Some, OnErr, OnOk, IfSome};
ghost use Rattle.std.specs.Prelude.{length, slice_get};
ghost use Rattle.std.specs.Option.{option_map};
ghost use Rattle.nwq_value.specs.Limits.{file_limit};
ghost use Rattle.nwq_value.specs.declared.value.Value.TheVariants.{Text as TextValue};
ghost use Rattle.nwq_value.specs.declared.value.Value.TheVariants.{Object as ObjectValue};
ghost use Rattle.ncs_code.specs.Plain.{Action};
ghost use Rattle.ncs_code.specs.Spelling.{op_size};
ghost use Rattle.machine_rules.specs.Act.{engine_called};
ghost use Rattle.machine_rules.specs.Calls.{is_execute_script};
ghost use Rattle.machine_rules.specs.Machine.{Goes, executed, followed};
ghost use Rattle.std.specs.Prelude.{◌∷◌, [], ℕ, List};
ghost use Rattle.world_rules.specs.World.{count as object_count};
ghost use Rattle.hook_table.specs.InHooks.{known_by};
ghost use Rattle.ncs_machine.specs.Host.{EngineView, engine_view, host, scripts_of};
ghost use Rattle.ncs_machine.specs.Names.{AreNameAndTarget};
ghost use Rattle.ncs_machine.specs.Steps.{IsHalfway, state, world_behind};
ghost use Rattle.world_core.specs.Calls.{AreServing, IsEarly};

use crate::machine::Machine;
use crate::scripts::Scripts;
use hook_table::Hooks;
use machine_frames::Arguments;
use nwq_value::{Args, NoMemory, Role, Table, Text, Value};
use saved_state::Saved;
use std::alloc::Global;
use world_core::World;

/// How many bytes ACTION takes.
const ACTION_BYTES: u32 = 5;

/// The name of the script that is to run.
#[tactic(auto, using(crate::proofs::Calls::name_lemmas))]
fn name_in(values: &Args) -> &Text
    requires both { AreNameAndTarget values.now }
    ensures name { slice_get values.now 0 ≡ Some (TextValue result.now) }
{
    match values.get(0) {
        Some(Value::Text(name)) => name,
        Some(Value::Int(_)) => unreachable!(),
        Some(Value::Object(_)) => unreachable!(),
        Some(Value::Effect(_)) => unreachable!(),
        Some(Value::Event(_)) => unreachable!(),
        None => unreachable!(),
    }
}

/// The object on which it is to run.
#[tactic(auto, using(crate::proofs::Calls::target_lemmas))]
fn target_in(values: &Args) -> u32
    requires both { AreNameAndTarget values.now }
    ensures target { slice_get values.now 1 ≡ Some (ObjectValue result) }
{
    match values.get(1) {
        Some(Value::Object(target)) => *target,
        Some(Value::Int(_)) => unreachable!(),
        Some(Value::Text(_)) => unreachable!(),
        Some(Value::Effect(_)) => unreachable!(),
        Some(Value::Event(_)) => unreachable!(),
        None => unreachable!(),
    }
}

/// Whether a call of the routine runs another script.
fn executes(role: Role) -> bool
    ensures test { result ≡ is_execute_script role }
{
    match role {
        Role::Built(n) => n == 8,
        Role::Pure(_) | Role::World | Role::Uncallable => false,
    }
}

impl Machine {
    /// ExecuteScript with these arguments, behind the call.
    #[tactic(auto, using(crate::proofs::Calls::execute_lemmas))]
    fn execute_named(
        &mut self,
        alloc: Global,
        scripts: &Scripts,
        world: &mut World<Saved>,
        values: &Args,
    ) -> Result<(), NoMemory>
        requires few { length scripts.now < 2 ^ 32 }
        requires both { AreNameAndTarget values.now }
        ensures room { world.old.room ≤ world.new.room }
        ensures kept { OnErr result (world.new.world ≡ world.old.world) }
        ensures executed { (e : EngineView) (name : List ℕ) (target : ℕ)
            → values.now ≡ TextValue name ∷ ObjectValue target ∷ []
            → OnOk result (executed (host (scripts_of scripts.now) e) name target self.old.running
            (state self.old world.old.world) ≡ state self.new world.new.world) }
    {
        let target = target_in(values);
        self.execute(alloc, scripts, world, name_in(values), target)
    }

    /// ACTION: a call of its own, so that the loop over steps stays short.
    #[inline(never)]
    #[tactic(auto, using(crate::proofs::Calls::cut_lemmas))]
    pub(crate) fn call_engine(
        &mut self,
        alloc: Global,
        scripts: &Scripts,
        world: &mut World<Saved>,
        hooks: &Hooks,
        table: &Table,
        number: u16,
        count: u8,
    ) -> Result<(), NoMemory>
        requires few { length scripts.now < 2 ^ 32 }
        requires early { IsEarly world.old.world }
        requires caller { self.old.running.self ≤ object_count world.old.world }
        requires hooks { AreServing (known_by hooks.now) }
        requires case { engine_called table.now number count self.old.running
            ≢ None }
        requires small { self.old.running.place + op_size (Action number count) ≤ file_limit }
        ensures room { world.old.room ≤ world.new.room }
        ensures called { OnOk result (IfSome (engine_called table.now number count
            self.old.running) (λ a. followed (host (scripts_of scripts.now)
            (engine_view table.now (known_by hooks.now)))
            (state self.old world.old.world) a
            ≡ Goes (state self.new world.new.world))) }
        ensures cut { OnErr result (IsHalfway world.old.world (world_behind (option_map (followed
            (host (scripts_of scripts.now)
            (engine_view table.now (known_by hooks.now)))
            (state self.old world.old.world)) (engine_called table.now number count
            self.old.running)) world.old.world) world.new.world) }
    {
        match table.routine(number) {
            None => unreachable!(),
            Some(routine) => {
                let mut args = Arguments::new(alloc);
                self.take(alloc, routine, number, count, ACTION_BYTES, &mut args)?;
                if executes(routine.role) {
                    self.execute_named(alloc, scripts, world, &args.values)?;
                    Ok(())
                } else {
                    // The arguments stay in their place, since moves of them are dear.
                    self.ask(world, hooks, table, number, routine, &mut args)?;
                    Ok(())
                }
            }
        }
    }
}
