//! The world of an area and a plan.
ghost use Rattle.std.specs.Prelude.{◌≡◌, ◌≤◌, length, map, IfOk};
ghost use Rattle.std.specs.List.{AllByRecursion};
ghost use Rattle.plan_text.specs.Plans.{IsPlan};
ghost use Rattle.world_rules.specs.Turns.{new_world};
ghost use Rattle.world_core.specs.Calls.{planned};
ghost use Rattle.play_worlds.specs.Worlds.{plan_world};

use crate::begin::begun_by_all;
use area_tree::Area;
use nwq_value::{NoMemory, Randoms};
use plan_text::Plan;
use saved_state::Saved;
use std::alloc::Global;
use world_core::{Events, World};

/// The world of an area with these events, and a plan's random numbers and version.
fn world_with(
    alloc: Global,
    area: Area,
    plan: &Plan,
    events: &Events,
) -> Result<World<Saved>, NoMemory>
    requires objects { AllByRecursion (λ p. p.object ≤ length area.objects)
        (map planned events.now) }
    ensures world { IfOk result (λ w. w.world
        ≡ new_world area plan.now.random (map planned events.now) plan.now.version) }
{
    match Randoms::of_slice(alloc, plan.random.as_slice()) {
        Err(NoMemory) => {
            drop(area);
            Err(NoMemory)
        }
        Ok(random) => World::new(alloc, area, random, events, plan.version),
    }
}

/// The world of an area and a plan.
#[tactic(auto, using(crate::proofs::WorldLemmas::world_is))]
pub fn world_of(alloc: Global, area: Area, plan: &Plan) -> Result<World<Saved>, NoMemory>
    requires plan { IsPlan plan.now }
    ensures world { IfOk result (λ w. w.world ≡ plan_world area plan.now) }
{
    match begun_by_all(alloc, &area, plan.events.as_slice()) {
        Err(NoMemory) => {
            drop(area);
            Err(NoMemory)
        }
        Ok(events) => world_with(alloc, area, plan, &events),
    }
}
