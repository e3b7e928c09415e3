ghost use Rattle.world_rules.specs.Kept.{NewIsWorld, EngineKeeps, NoScriptKeeps, TooDeepKeeps};
ghost use Rattle.world_rules.specs.Kept.{BeginKeeps, TurnKeeps, TurnDoneKeeps, UnapplyKeeps};
ghost use Rattle.world_rules.specs.Kept.{FaultKeeps, DrainedKeeps};

use delay_agenda::{calls_keep_order, turns_are_counted};

/// A plan's events of the area's objects make a world that keeps what every world keeps, and each
/// call leaves one. A call leaves the clock and the number of objects, posts at most one entry, an
/// object that acts acts on, and one that is settled stays so.
pub fn calls_keep_worlds<X>()
    ensures new_world { NewIsWorld X }
    ensures engine { EngineKeeps X }
    ensures no_script { NoScriptKeeps X }
    ensures too_deep { TooDeepKeeps X }
{
    calls_keep_order::<X>();
    turns_are_counted::<X>();
}

/// An entry that is begun is due, of an object that is there, and a Turn's object acts. The halves
/// of a Turn, the end of an effect and the end of an entry leave what every world keeps.
pub fn entries_keep_worlds<X>()
    ensures begin { BeginKeeps X }
    ensures turn { TurnKeeps X }
    ensures turn_done { TurnDoneKeeps X }
    ensures unapply { UnapplyKeeps X }
    ensures fault { FaultKeeps X }
    ensures drained { DrainedKeeps X }
{
    calls_keep_order::<X>();
    turns_are_counted::<X>();
}
