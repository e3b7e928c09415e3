//! The area and the plan of a made play, as plays take them.
ghost use Rattle.std.specs.Prelude.{◌≡◌, ◌≤◌, IfOk};
ghost use Rattle.area_rules.specs.Area.{area_of};
ghost use Rattle.play_generator.specs.Made.{area_tree, number_limit, play_of};
ghost use Rattle.plan_text.specs.Plans.{IsPlan};
ghost use Rattle.command_generate.specs.Generated.{plan_of};

use area_rules::AreaFault;
use area_tree::Area;
use nwq_value::NoMemory;
use plan_text::laws::{one_plan, plans_keep};
use plan_text::{Plan, PlanFault, read_plan};
use play_generator::area;
use play_generator::laws::plan_is_read;
use std::alloc::Global;

/// The area of so many creatures.
#[tactic(auto, using(crate::proofs::AreaLemmas::areas))]
pub(crate) fn made_area(alloc: Global, creatures: u32) -> Result<Area, NoMemory>
    requires few { creatures ≤ 1000 }
    ensures area { IfOk result (λ area. area ≡ area_of (area_tree creatures)) }
{
    match area(alloc, creatures) {
        Err(NoMemory) => Err(NoMemory),
        Ok(tree) => match Area::of(alloc, tree) {
            Ok(area) => Ok(area),
            Err(AreaFault::NoMemory) => Err(NoMemory),
            Err(AreaFault::Shape { .. }) => unreachable!(),
        },
    }
}

/// The plan of a number, by its text.
#[tactic(auto, using(crate::proofs::PlanLemmas::plans))]
pub(crate) fn made_plan(alloc: Global, number: u32, text: &[u8]) -> Result<Plan, NoMemory>
    requires number { number ≤ number_limit }
    requires text { text.now ≡ (play_of number).plan }
    ensures plan { IfOk result (λ plan. plan ≡ plan_of number) }
    ensures keeps { IfOk result IsPlan }
{
    plan_is_read();
    one_plan();
    plans_keep();
    match read_plan(alloc, text) {
        Ok(plan) => Ok(plan),
        Err(PlanFault::NoMemory) => Err(NoMemory),
        Err(PlanFault::Line(_)) => unreachable!(),
    }
}
