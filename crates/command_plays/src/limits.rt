ghost use Rattle.std.specs.Prelude.{◌≡◌};
ghost use Rattle.plan_text.specs.Plans.{IsPlan, limits_of};
ghost use Rattle.module_player.specs.Limits.{limits_in};

use module_player::PlayLimits;
use plan_text::Plan;

/// How far the play of a plan may go.
pub fn limits_of(plan: &Plan) -> PlayLimits
    requires plan { IsPlan plan.now }
    ensures limits { limits_in result ≡ limits_of plan.now }
{
    PlayLimits {
        instructions: plan.limit,
        entries: plan.entries,
        until: plan.until,
    }
}
