ghost use Rattle.world_rules.specs.GoingOn.{PlaysGoOn};
ghost use Rattle.world_rules.specs.Settled.{NewIsBetween, NewIsPlanned, EntriesSettle, PlaysSettle};

use delay_agenda::{calls_keep_order, turns_are_counted};

/// A play that is broken off after some entries and then goes on is the unbroken play.
pub fn plays_go_on<X>()
    ensures goes_on { PlaysGoOn X }
{}

/// Between the entries of a play an object is busy exactly where it has a Turn on the agenda, which
/// is then its only one, and an object that isn't busy has nothing to do, however scripts run that
/// keep to the engine. So it is at the beginning, and after each entry that isn't stopped. A play
/// stays in its plan: the area's file and the version stay, no random number comes back, the clock
/// doesn't pass the play's time, and nothing is due later than the longest delay behind it.
pub fn plays_settle<X>()
    ensures new_world { NewIsBetween X }
    ensures planned { NewIsPlanned X }
    ensures entries { EntriesSettle X }
    ensures plays { PlaysSettle X }
{
    calls_keep_order::<X>();
    turns_are_counted::<X>();
}
