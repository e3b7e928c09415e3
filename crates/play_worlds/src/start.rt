//! The world in which one script starts.
ghost use Rattle.std.specs.Prelude.{◌≡◌, [], ◌∷◌, map, IfOk};
ghost use Rattle.world_core.specs.Calls.{planned};
ghost use Rattle.play_worlds.specs.Worlds.{start_of, first_world};

use area_tree::Area;
use nwq_value::{Items, NoMemory, Randoms, Text};
use saved_state::Saved;
use std::alloc::Global;
use world_core::{Events, Start, World};

/// The version of plans by which actions are cleared.
const VERSION: u8 = 2;

/// The start of a script, at time 0 and with no object as self.
fn one_start(alloc: Global, name: &[u8]) -> Result<Events, NoMemory>
    ensures start { IfOk result (λ events. map planned events ≡ start_of name.now ∷ []) }
{
    let script = Text::of(alloc, name)?;
    let mut events = Items::new(alloc);
    events.push(Start {
        due: 0,
        object: 0,
        script,
    })?;
    Ok(events)
}

/// The world that has nothing but a start of the script of this name.
#[tactic(auto, using(crate::proofs::WorldLemmas::first_is))]
pub fn first_world(alloc: Global, name: &[u8]) -> Result<World<Saved>, NoMemory>
    ensures world { IfOk result (λ w. w.world ≡ first_world name.now) }
{
    let events = one_start(alloc, name)?;
    World::new(
        alloc,
        Area::empty(alloc),
        Randoms::new(alloc),
        &events,
        VERSION,
    )
}
