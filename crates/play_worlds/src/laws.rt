//! What holds of the worlds of all plans.
ghost use Rattle.play_worlds.specs.Fresh.{PlanWorldsAreFresh};

use saved_state::Saved;
use world_rules::plays_settle;

/// The world of an area and a plan is between entries, and inside the limits of plans.
pub fn plan_worlds_are_fresh()
    ensures fresh { PlanWorldsAreFresh }
{
    plays_settle::<Saved>();
}
