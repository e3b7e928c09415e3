//! Laws of the values of plays, each the contract of a function that does nothing.

ghost use Rattle.play_room.specs.Laws.{KeptHasRoom, PlanWorldsAreKept, PlaysKeepValues};

use gff_read::trees_are_sound;

/// A kept world in which fewer than 2^64 entries were posted has room in a state.
pub fn kept_worlds_have_room()
    ensures room { KeptHasRoom }
{}

/// Whatever scripts do, a play keeps the values of its world.
pub fn plays_keep_values()
    ensures kept { PlaysKeepValues }
{}

/// The values of a plan's world are kept, over the tree that a file stands for.
pub fn plan_worlds_are_kept()
    ensures kept { PlanWorldsAreKept }
{
    trees_are_sound();
}
