//! Plays that go on from a state.

ghost use Rattle.std.specs.Prelude.{◌≡◌, ◌≤◌, []};
ghost use Rattle.hook_table.specs.InHooks.{known_by};
ghost use Rattle.world_core.specs.Calls.{AreServing};
ghost use Rattle.ncs_machine.specs.InSetting.{seen};
ghost use Rattle.ncs_machine.specs.Settings.{FitIn};

use hook_table::Hooks;
use module_player::{PlayLimits, Played, play_on};
use ncs_machine::PlaySetting;
use nwq_outside::MemSink;
use nwq_value::NoMemory;
use play_save::{Opened, State, put_state};
use saved_state::Saved;
use std::alloc::Global;
use world_core::World;

/// How many instructions an entry may take here.
fn at_most(limit: u64) -> u64
    requires some { 1 ≤ limit }
    ensures some { 1 ≤ result }
    ensures few { result ≤ 3000 }
{
    if limit < 3_000 { limit } else { 3_000 }
}

/// Goes on for 20 entries, of at most 3,000 instructions each, or to the play's end, by the limits,
/// the entries taken and the instructions done; `None` where one of these numbers is too large.
fn go_on_by(
    alloc: Global,
    setting: &PlaySetting<'_, '_>,
    world: &mut World<Saved>,
    limits: PlayLimits,
    taken: u64,
    done: u64,
    out: &mut MemSink,
) -> Option<Played>
    requires fit { FitIn (seen setting.now) world.old.world }
    requires quiet { world.old.world.trace ≡ [] }
{
    let PlayLimits {
        instructions,
        entries,
        until,
    } = limits;
    if taken > entries || done >= 1 << 61 || world.next_number() >= 1 << 61 {
        return None;
    }
    let limits = PlayLimits {
        instructions: at_most(instructions),
        entries,
        until,
    };
    let stop = taken + 20;
    Some(play_on(alloc, setting, world, limits, stop, taken, done, out))
}

/// The same from a state.
pub fn go_on_from(alloc: Global, state: State, hooks: &Hooks, out: &mut MemSink) -> Option<Played>
    requires hooks { AreServing (known_by hooks.now) }
{
    match state.restore(alloc) {
        Err(NoMemory) => None,
        Ok(opened) => {
            let Opened {
                table,
                scripts,
                mut world,
                limits,
                taken,
                done,
            } = opened;
            let setting = PlaySetting::of(&scripts, &table, hooks);
            let played = go_on_by(alloc, &setting, &mut world, limits, taken, done, out);
            drop(world);
            drop(scripts);
            drop(table);
            played
        }
    }
}

/// Whether a state is written as these bytes.
pub fn is_written(alloc: Global, state: &State, bytes: &[u8]) -> bool {
    match put_state(alloc, state) {
        Ok(written) => written.as_slice() == bytes,
        Err(_) => false,
    }
}
