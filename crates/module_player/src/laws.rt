//! What holds of every play of files.
ghost use Rattle.module_player.specs.Resting.{PlaysCanRest};

use ncs_machine::runs_lead;
use saved_state::Saved;
use world_rules::plays_settle;

/// A play of files that goes on from a world between entries, inside a plan's limits, ends in such
/// a world too, unless it is stopped inside an entry: so it can be saved.
pub fn plays_can_rest()
    ensures rest { PlaysCanRest }
{
    plays_settle::<Saved>();
    runs_lead();
}
